//! Why an application waits, as a list and in words.

use crate::clusters::{BOOT_2, TWO_NODES, cluster_of, sim_behind};
use rh_cluster::{App, Cluster, Node};
use rh_marks::{Answer, begin, end};
use rh_state::State;
use rh_step::Event;
use rh_why::{Reason, reason_text, why_app_waits};
use std::alloc::Global;

// The node that starts an application has booted. The application waits there for another.
static BOOTED: [Event; 1] = [BOOT_2];

/// What comes of the call of this name, if it is here.
pub fn answer(alloc: Global, name: &str) -> Option<Answer> {
    if name == "why_app_waits" {
        let sim = sim_behind(alloc, TWO_NODES, BOOTED.as_slice())?;
        call_why_app_waits(alloc, sim.state(), App(0), Node(1))
    } else if name == "reason_text" {
        Some(call_reason_text(alloc, &cluster_of(alloc, TWO_NODES)?))
    } else {
        None
    }
}

// The application waits at the node for another.
fn call_why_app_waits(alloc: Global, state: &State, app: App, node: Node) -> Option<Answer> {
    let cluster = state.cluster();
    if (node.0 as usize) < cluster.node_count() && (app.0 as usize) < cluster.app_count() {
        begin(alloc);
        let found = why_app_waits(alloc, state, app, node);
        end(alloc);
        return Some(match found {
            Ok(reasons) => Answer::of_call(matches!(reasons.as_slice(), [Reason::Needs { .. }])),
            Err(_) => Answer::Refused,
        });
    }
    None
}

fn call_reason_text(alloc: Global, cluster: &Cluster) -> Answer {
    begin(alloc);
    let words = reason_text(alloc, cluster, &Reason::RunsAt { node: Node(1) });
    end(alloc);
    match words {
        Ok(words) => Answer::of_call(words.as_str() == "runs at w@lab"),
        Err(_) => Answer::Refused,
    }
}
