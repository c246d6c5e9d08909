//! The calls of a state that take memory, with ample memory.

use crate::support::{cluster_of, copy_of};
use rh_calls::report;
use rh_cluster::{App, Cluster, Node};
use rh_samples::ONE_NODE;
use rh_state::{Mode, Place, State, Timer, first_state};
use std::alloc::Global;
use std::process::Abort;

static TWO_NODES: &str = "\
{node, n1@cave, []}.
{node, n2@cave, [{kernel, [{permissions, [{app, false}]}]}]}.
{application, app, []}.
";

fn has_permissions(rt: &impl Abort, state: &State) {
    assert!(rt; state.cluster().node_count() == 2);
    assert!(rt; state.cluster().app_count() == 1);
    assert!(rt; state.allowed(Node(0), App(0)));
    assert!(rt; !state.allowed(Node(1), App(0)));
}

fn arm(rt: &impl Abort, state: &mut State) {
    assert!(rt; state.cluster().app_count() == 1);
    let timer = Timer::Failover(App(0));
    assert!(rt; state.due_of(timer).is_none());
    state.arm_timer(timer, 36);
}

fn has_timer(rt: &impl Abort, alloc: Global, state: &State) {
    let timers = state.timers(alloc).ok().expect(rt, "memory");
    assert!(rt; timers.as_slice() == [(36, Timer::Failover(App(0)))].as_slice());
}

// The first state of a cluster, which drops the cluster that was read.
fn first_state_of(rt: &impl Abort, alloc: Global, text: &str) -> State {
    let cluster = cluster_of(rt, alloc, text);
    first_state_in(rt, alloc, &cluster)
}

fn first_state_in(rt: &impl Abort, alloc: Global, cluster: &Cluster) -> State {
    first_state(alloc, cluster).ok().expect(rt, "memory")
}

// Has a copy the timer too?
fn is_copied(rt: &impl Abort, alloc: Global, state: &State) {
    let copy = copy_of(rt, alloc, state);
    has_timer(rt, alloc, &copy);
}

#[test]
fn a_state_its_copy_and_its_timers(rt: HostRuntime) {
    let mut state = first_state_of(&rt, rt.alloc(), TWO_NODES);
    has_permissions(&rt, &state);
    arm(&rt, &mut state);
    is_copied(&rt, rt.alloc(), &state);
}

fn is_reported(rt: &impl Abort, alloc: Global, state: &State) {
    let bytes = report(alloc, state).ok().expect(rt, "memory");
    assert!(rt; bytes.as_slice() == b"now 0\nnode one@lab down 0\n".as_slice());
}

fn reports_in_copy(rt: &impl Abort, alloc: Global, state: &State) {
    let copy = copy_of(rt, alloc, state);
    is_reported(rt, alloc, &copy);
}

fn has_no_timer(rt: &impl Abort, alloc: Global, state: &State) {
    assert!(rt; state.earliest().is_none());
    let timers = state.timers(alloc).ok().expect(rt, "memory");
    assert!(rt; timers.is_empty());
}

#[test]
fn the_first_state_and_its_copy_report_the_same(rt: HostRuntime) {
    let state = first_state_of(&rt, rt.alloc(), ONE_NODE);
    is_reported(&rt, rt.alloc(), &state);
    reports_in_copy(&rt, rt.alloc(), &state);
    has_no_timer(&rt, rt.alloc(), &state);
}

// A part that was set has its old value again.
fn a_mode_is_taken_back(rt: &impl Abort, state: &mut State) {
    assert!(rt; state.cluster().node_count() == 2);
    state.formed();
    let mut edit = state.set_mode(Node(1), Mode::Up);
    assert!(rt; state.mode(Node(1)) == Mode::Up);
    state.back(&mut edit);
}

// An application that was started waits no longer, and its links are as they were.
fn a_start_is_taken_back(rt: &impl Abort, state: &mut State) {
    assert!(rt; state.cluster().node_count() == 2 && state.cluster().app_count() == 1);
    assert!(rt; state.place_of(Node(0), App(0)) == Place::Off);
    state.formed();
    let mut edit = state.push_waiting(Node(0), App(0));
    assert!(rt; state.first_waiting(Node(0)) == Some(App(0)));
    state.back(&mut edit);
}

// A timer that was set isn't any more.
fn a_timer_is_taken_back(rt: &impl Abort, state: &mut State) {
    assert!(rt; state.cluster().node_count() == 2);
    let timer = Timer::Sync(Node(1));
    assert!(rt; state.due_of(timer).is_none());
    state.formed();
    let mut edit = state.arm_timer(timer, 36);
    assert!(rt; state.earliest() == Some((36, timer)));
    state.back(&mut edit);
}

fn all_are_taken_back(rt: &impl Abort, state: &mut State) {
    a_mode_is_taken_back(rt, state);
    a_start_is_taken_back(rt, state);
    a_timer_is_taken_back(rt, state);
}

// Has the state its words again behind all of that?
fn has_its_words_again(rt: &impl Abort, alloc: Global, state: &mut State) {
    let before = copy_of(rt, alloc, state);
    all_are_taken_back(rt, state);
    assert!(rt; state.same_words(&before));
}

#[test]
fn what_setters_changed_is_taken_back(rt: HostRuntime) {
    let mut state = first_state_of(&rt, rt.alloc(), TWO_NODES);
    has_its_words_again(&rt, rt.alloc(), &mut state);
}
