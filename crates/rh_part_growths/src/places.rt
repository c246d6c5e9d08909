//! Where an application can run, and why an event is refused.

use crate::made::{HERE, SERVICE};
use rh_cluster::Node;
use rh_place::{NodeSet, Pick, best, candidates, choose, operational};
use rh_state::{Kind, State};
use rh_step::{Event, Refusal, refusal_of};
use rh_trace::start_kind;

/// Whether a call of this name answers as it has to, if it is here. No node is up.
pub fn is_told(state: &State, name: &str) -> Option<bool> {
    if let Some(is_right) = is_placed(state, name) {
        Some(is_right)
    } else {
        is_reasoned(state, name)
    }
}

// The same of one that places an application.
fn is_placed(state: &State, name: &str) -> Option<bool> {
    if state.cluster().node_count() != 3 || state.cluster().app_count() != 2 {
        return None;
    }
    if name == "operational" {
        Some(!operational(state, SERVICE, HERE))
    } else if name == "candidates" {
        Some(candidates(state, SERVICE).is_empty())
    } else if name == "choose" {
        Some(choose(state, SERVICE, Pick::First).is_none())
    } else if name == "best" {
        let set = NodeSet::empty().with(Node(1));
        Some(best(state, SERVICE, set, Pick::Last) == Some(Node(1)))
    } else {
        None
    }
}

// The same of how an application starts, and of why an event is refused.
fn is_reasoned(state: &State, name: &str) -> Option<bool> {
    if state.cluster().app_count() != 2 {
        return None;
    }
    if name == "start_kind" {
        let from = Some(HERE);
        Some(start_kind(state, SERVICE, from, Node(1)) == Kind::Failover(HERE))
    } else if name == "refusal_of" {
        Some(refusal_of(state, &Event::Crash { node: HERE }) == Some(Refusal::NotAlive))
    } else {
        None
    }
}
