//! Sessions that start and stop an application at all its nodes.

use crate::told::{Open, open_for, tell_calls, tell_how_it_closes};
use rh_calls::Call;
use rh_cluster::{App, Node, Restart};
use rh_samples::THREE_NODES;
use rh_step::{Event, Pick};
use std::alloc::Global;
use std::process::Abort;

static BOOT: Event = Event::Boot { node: Node(0) };

static START_ALL: Event = Event::StartAll {
    app: App(0),
    restart: Restart::Transient,
};

static STOP_ALL: Event = Event::StopAll { app: App(0) };

static TOLD: &str = "\
0 1 done 1
1 2 done 1
2 1 done 1
3 2 refused S12 never_started
4 1 undone
";

static LOG: &str = "\
1 done 1
2 done 1
1 done 1
2 refused S12 never_started
1 undone
";

fn called_in_turn(rt: &impl Abort, alloc: Global, open: &mut Open) {
    let mut text = String::new(alloc);
    let calls = [
        (1, Call::Step(BOOT)),
        (2, Call::Step(START_ALL)),
        (1, Call::Step(STOP_ALL)),
        (2, Call::Step(STOP_ALL)),
        (1, Call::Undo),
    ];
    tell_calls(rt, &mut text, alloc, open, calls.as_slice());
    assert_eq!(rt; text.as_str(), TOLD);
}

#[test]
fn sessions_start_and_stop_at_all_nodes(rt: HostRuntime) {
    let mut open = open_for(&rt, rt.alloc(), THREE_NODES, 2);
    called_in_turn(&rt, rt.alloc(), &mut open);
    let text = tell_how_it_closes(&rt, rt.alloc(), open, THREE_NODES, Pick::First);
    assert_eq!(rt; text.as_str(), LOG);
}
