//! Steps by themselves: a state that nobody keeps a trail of, what each event tells, and what the state says then.

ghost use Rattle.rh_trace.specs.Validity.{IsValid};
ghost use Rattle.rh_state.specs.Stored.{read};

use crate::support::cluster_of;
use rh_cluster::{App, Cluster, Node};
use rh_samples::ONE_NODE;
use rh_state::{Kind, Mode, State, first_state};
use rh_step::{Event, Notice, Pick, Refusal, first_is_valid, perform, refusal_of};
use std::alloc::Global;
use std::process::Abort;

static ONE: Node = Node(0);

// The first state of a cluster.
fn first_state_of(rt: &impl Abort, alloc: Global, cluster: &Cluster) -> State
    ensures { IsValid (read result) }
{
    cluster.is_within();
    first_is_valid();
    match first_state(alloc, cluster) {
        Ok(state) => state,
        Err(_) => panic!(rt; "memory"),
    }
}

// That of a node that boots three applications.
fn first_state_of_one_node(rt: &impl Abort, alloc: Global) -> State
    ensures { IsValid (read result) }
{
    let cluster = cluster_of(rt, alloc, ONE_NODE);
    first_state_of(rt, alloc, &cluster)
}

// Makes an event that isn't refused.
fn make(rt: &impl Abort, alloc: Global, state: &mut State, event: &Event, told: &mut Vec<Notice>)
    requires { IsValid (read state.old) }
    ensures { IsValid (read state.new) }
{
    assert!(rt; refusal_of(state, event).is_none());
    let mut edits = Vec::new(alloc);
    let done = perform(alloc, state, event, Pick::First, &mut edits, told);
    assert!(rt; done.is_ok() && !edits.is_empty());
}

// An application starts at the node.
fn notice_of_start(app: u8) -> Notice {
    Notice::Started {
        app: App(app),
        node: ONE,
        kind: Kind::Normal,
        lost: None,
    }
}

fn are_told(rt: &impl Abort, told: &[Notice]) {
    let stopped = Notice::Stopped {
        app: App(1),
        node: ONE,
    };
    let up = Notice::Up { node: ONE };
    let wanted = [
        up,
        notice_of_start(0),
        notice_of_start(1),
        notice_of_start(2),
        stopped,
    ];
    assert!(rt; told == wanted.as_slice());
}

// The node is up, for the first time.
fn is_up(rt: &impl Abort, state: &State) {
    assert!(rt; state.cluster().node_count() == 1 && state.cluster().app_count() == 3);
    assert!(rt; state.mode(ONE) == Mode::Up && state.incarnation(ONE) == 1);
}

// Two of its applications run, and none waits.
fn runs_two(rt: &impl Abort, state: &State) {
    assert!(rt; state.cluster().node_count() == 1);
    assert!(rt; state.first_running(ONE) == Some(App(0)) && state.running_count(ONE) == 2);
    assert!(rt; state.first_waiting(ONE).is_none());
}

// The last one stands behind the first.
fn runs_in_order(rt: &impl Abort, state: &State) {
    assert!(rt; state.cluster().node_count() == 1 && state.cluster().app_count() == 3);
    assert!(rt; state.next_in_list(ONE, App(0)) == Some(App(2)));
    assert!(rt; state.next_in_list(ONE, App(2)).is_none());
}

// The node is up, and the first and the last of its applications run, in this order.
fn runs_the_others(rt: &impl Abort, state: &State) {
    is_up(rt, state);
    runs_two(rt, state);
    runs_in_order(rt, state);
}

fn is_refused(rt: &impl Abort, state: &State, event: &Event, wanted: Refusal) {
    assert!(rt; refusal_of(state, event) == Some(wanted));
}

// The node boots, and an application stops there.
fn boots_and_stops(rt: &impl Abort, alloc: Global, state: &mut State, told: &mut Vec<Notice>)
    requires { IsValid (read state.old) }
{
    is_refused(rt, state, &Event::Tick { ms: 0 }, Refusal::ZeroTick);
    make(rt, alloc, state, &Event::Boot { node: ONE }, told);
    is_refused(rt, state, &Event::Boot { node: ONE }, Refusal::AlreadyAlive);
    let stop = Event::Stop {
        node: ONE,
        app: App(1),
    };
    make(rt, alloc, state, &stop, told);
}

#[test]
fn a_state_steps_by_itself(rt: HostRuntime) {
    let mut state = first_state_of_one_node(&rt, rt.alloc());
    let mut told = Vec::new(rt.alloc());
    boots_and_stops(&rt, rt.alloc(), &mut state, &mut told);
    are_told(&rt, told.as_slice());
    runs_the_others(&rt, &state);
}
