//! Where applications can run, asked of states that rehearsals reach.

use crate::support::{make_all, sim_on, state_of};
use rh_cluster::{App, Node};
use rh_place::{NodeSet, best, candidates, choose, deps_run, missing_dep, operational};
use rh_samples::CAVE;
use rh_state::{Kind, State};
use rh_step::{Event, Pick};
use rh_trace::start_kind;
use std::process::Abort;

// Two nodes, and start phases.
static TWO_NODES: &str = "\
{node, n1@lab, [{kernel, [{distributed, [{svc, 1000, [n1@lab, n2@lab]}]}]}]}.
{node, n2@lab, [{kernel, [{distributed, [{svc, 1000, [n1@lab, n2@lab]}]}]}]}.
{application, svc, [{start_phases, [{go, []}]}, {applications, [kernel]}]}.
";

static ALL_BOOT: [Event; 3] = [
    Event::Boot { node: Node(0) },
    Event::Boot { node: Node(1) },
    Event::Boot { node: Node(2) },
];

static FIRST_ENDS: [Event; 1] = [Event::Crash { node: Node(0) }];

// The nodes of a set, of three, each as one digit.
fn digits(set: NodeSet) -> u32 {
    let first = if set.has(Node(0)) { 100 } else { 0 };
    let second = if set.has(Node(1)) { 10 } else { 0 };
    let third = if set.has(Node(2)) { 1 } else { 0 };
    first + second + third
}

// All three are up: the first group has the candidates.
fn first_group_has_them(rt: &impl Abort, state: &State) {
    assert!(rt; state.cluster().node_count() == 3 && state.cluster().app_count() == 1);
    assert!(rt; operational(state, App(0), Node(1)));
    assert!(rt; digits(candidates(state, App(0))) == 100);
    assert!(rt; choose(state, App(0), Pick::Last) == Some(Node(0)));
}

// Of a set, the node of the first group that meets it is best.
fn best_of_a_set(rt: &impl Abort, state: &State) {
    assert!(rt; state.cluster().node_count() == 3 && state.cluster().app_count() == 1);
    let set = NodeSet::empty().with(Node(0)).with(Node(2));
    assert!(rt; best(state, App(0), set, Pick::First) == Some(Node(0)));
    assert!(rt; best(state, App(0), NodeSet::empty(), Pick::First).is_none());
}

fn would_start_normally(rt: &impl Abort, state: &State) {
    assert!(rt; state.cluster().app_count() == 1);
    assert!(rt; start_kind(state, App(0), Some(Node(0)), Node(1)) == Kind::Normal);
}

// The first node has ended: the two of the tuple are candidates.
fn tuple_has_them(rt: &impl Abort, state: &State) {
    assert!(rt; state.cluster().node_count() == 3 && state.cluster().app_count() == 1);
    assert!(rt; !operational(state, App(0), Node(0)));
    assert!(rt; digits(candidates(state, App(0))) == 11);
}

// The pick says which of the two.
fn tuple_has_both_choices(rt: &impl Abort, state: &State) {
    assert!(rt; state.cluster().app_count() == 1);
    assert!(rt; choose(state, App(0), Pick::First) == Some(Node(1)));
    assert!(rt; choose(state, App(0), Pick::Last) == Some(Node(2)));
}

fn first_group_is_best(rt: &impl Abort, state: &State) {
    first_group_has_them(rt, state);
    best_of_a_set(rt, state);
    would_start_normally(rt, state);
}

fn tuple_is_next(rt: &impl Abort, state: &State) {
    tuple_has_them(rt, state);
    tuple_has_both_choices(rt, state);
}

#[test]
fn candidates_of_three_nodes(rt: HostRuntime) {
    let mut sim = sim_on(&rt, rt.alloc(), CAVE);
    make_all(&rt, rt.alloc(), &mut sim, ALL_BOOT.as_slice());
    first_group_is_best(&rt, state_of(&sim));
    make_all(&rt, rt.alloc(), &mut sim, FIRST_ENDS.as_slice());
    tuple_is_next(&rt, state_of(&sim));
}

fn kinds(rt: &impl Abort, state: &State) {
    assert!(rt; state.cluster().app_count() == 1);
    assert!(rt; start_kind(state, App(0), Some(Node(0)), Node(1)) == Kind::Failover(Node(0)));
    assert!(rt; start_kind(state, App(0), Some(Node(0)), Node(0)) == Kind::Normal);
    assert!(rt; start_kind(state, App(0), None, Node(0)) == Kind::Normal);
}

fn needs_nothing_more(rt: &impl Abort, state: &State) {
    assert!(rt; state.cluster().node_count() == 2 && state.cluster().app_count() == 1);
    assert!(rt; deps_run(state, Node(0), App(0)) && missing_dep(state, Node(0), App(0)).is_none());
}

#[test]
fn start_phases_make_a_failover(rt: HostRuntime) {
    let sim = sim_on(&rt, rt.alloc(), TWO_NODES);
    kinds(&rt, state_of(&sim));
    needs_nothing_more(&rt, state_of(&sim));
}

#[test]
fn sets_of_nodes(rt: HostRuntime) {
    let none = NodeSet::empty();
    assert!(rt; none.is_empty() && !none.has(Node(0)));
    let ends = none.with(Node(63)).with(Node(0)).with(Node(63));
    assert!(rt; !ends.is_empty());
    for (node, is_there) in [
        (0, true),
        (1, false),
        (62, false),
        (63, true),
        (64, false),
        (255, false),
    ] {
        assert!(rt; ends.has(Node(node)) == is_there, "node {node}");
    }
}
