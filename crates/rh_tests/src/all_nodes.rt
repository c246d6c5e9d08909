//! Steps that start and stop an application at all its nodes: what they tell, what the state says then, why they are refused, undo.

use crate::support::{copy_of_state, has_words, make_all, sim_on, state_of, step, undo};
use rh_cluster::{App, Dep, Node, Restart};
use rh_samples::THREE_NODES;
use rh_state::{Kind, Place, Standing, State, Timer};
use rh_step::{Event, Notice, Refusal};
use rh_trail::Sim;
use std::alloc::Global;
use std::process::Abort;

static BOOTS: [Event; 3] = [
    Event::Boot { node: Node(0) },
    Event::Boot { node: Node(1) },
    Event::Boot { node: Node(2) },
];

static FIRST_ENDS: [Event; 1] = [Event::Crash { node: Node(0) }];

// An application is started at all its nodes.
fn start_all(app: u8) -> Event {
    Event::StartAll {
        app: App(app),
        restart: Restart::Transient,
    }
}

// It is stopped at all of them.
fn stop_all(app: u8) -> Event {
    Event::StopAll { app: App(app) }
}

// The service starts at a node, in this way.
fn notice_of_start(node: u8, kind: Kind, lost: Option<Node>) -> Notice {
    Notice::Started {
        app: App(0),
        node: Node(node),
        kind,
        lost,
    }
}

fn notice_of_wait(node: u8) -> Notice {
    Notice::Waits {
        app: App(0),
        node: Node(node),
    }
}

fn notice_of_stop(node: u8) -> Notice {
    Notice::Stopped {
        app: App(0),
        node: Node(node),
    }
}

// Is an event accepted with these notices?
fn tells(rt: &impl Abort, alloc: Global, sim: &mut Sim, event: Event, wanted: &[Notice]) -> bool {
    let told = step(alloc, sim, event).ok().expect(rt, "a step");
    told.as_slice() == wanted
}

// It is refused for this reason.
fn is_refused(rt: &impl Abort, alloc: Global, sim: &mut Sim, event: Event, wanted: Refusal) {
    let refusal = step(alloc, sim, event).err().expect(rt, "a refusal");
    assert!(rt; refusal == wanted);
}

// Where the service stands at each of the nodes.
fn places(rt: &impl Abort, state: &State) -> [Place; 3] {
    assert!(rt; state.cluster().node_count() == 3 && state.cluster().app_count() == 3);
    [
        state.place_of(Node(0), App(0)),
        state.place_of(Node(1), App(0)),
        state.place_of(Node(2), App(0)),
    ]
}

// Where it stands as a whole.
fn standing(rt: &impl Abort, state: &State) -> Standing {
    assert!(rt; state.cluster().node_count() == 3 && state.cluster().app_count() == 3);
    state.standing(App(0))
}

fn restart_at_the_last(rt: &impl Abort, state: &State) -> Restart {
    assert!(rt; state.cluster().node_count() == 3 && state.cluster().app_count() == 3);
    state.restart_of(Node(2), App(0))
}

fn due_of_failover(rt: &impl Abort, state: &State) -> Option<u64> {
    assert!(rt; state.cluster().node_count() == 3 && state.cluster().app_count() == 3);
    state.due_of(Timer::Failover(App(0)))
}

fn runs_at_the_first(rt: &impl Abort, state: &State) {
    assert!(rt; places(rt, state) == [Place::InRunning, Place::InWaiting, Place::InWaiting]);
    assert!(rt; standing(rt, state) == Standing::Running(Node(0)));
    assert!(rt; restart_at_the_last(rt, state) == Restart::Transient);
}

fn is_lost(rt: &impl Abort, state: &State) {
    assert!(rt; places(rt, state) == [Place::Off, Place::InWaiting, Place::InWaiting]);
    assert!(rt; standing(rt, state) == Standing::Lost(Node(0)));
    assert!(rt; due_of_failover(rt, state) == Some(1_000));
}

fn is_quiet(rt: &impl Abort, state: &State) {
    assert!(rt; places(rt, state) == [Place::Off, Place::Off, Place::Off]);
    assert!(rt; standing(rt, state) == Standing::Quiet && state.earliest().is_none());
}

// A simulation in which the three nodes are up.
fn sim_of_three(rt: &impl Abort, alloc: Global) -> Sim {
    let mut sim = sim_on(rt, alloc, THREE_NODES);
    make_all(rt, alloc, &mut sim, BOOTS.as_slice());
    sim
}

// The service starts at all its nodes, and runs at the first.
fn starts(rt: &impl Abort, alloc: Global, sim: &mut Sim) {
    let told = [
        notice_of_start(0, Kind::Normal, None),
        notice_of_wait(1),
        notice_of_wait(2),
    ];
    assert!(rt; tells(rt, alloc, sim, start_all(0), told.as_slice()));
    runs_at_the_first(rt, state_of(sim));
}

// That node ends, and the service is lost there.
fn ends(rt: &impl Abort, alloc: Global, sim: &mut Sim) {
    make_all(rt, alloc, sim, FIRST_ENDS.as_slice());
    is_lost(rt, state_of(sim));
}

// It stops at all its nodes, where it runs at none.
fn stops(rt: &impl Abort, alloc: Global, sim: &mut Sim) {
    assert!(rt; tells(rt, alloc, sim, stop_all(0), &[]));
    is_quiet(rt, state_of(sim));
}

#[test]
fn an_application_starts_and_stops_at_all_its_nodes(rt: HostRuntime) {
    let mut sim = sim_of_three(&rt, rt.alloc());
    starts(&rt, rt.alloc(), &mut sim);
    ends(&rt, rt.alloc(), &mut sim);
    stops(&rt, rt.alloc(), &mut sim);
}

// How many edits the seventh step made, which is the last.
fn edits_of_seventh(rt: &impl Abort, sim: &Sim) -> usize {
    assert!(rt; sim.trail().len() == 7);
    sim.record(6).len()
}

// The node where the service was lost is up again: it is started there too, and there it runs. That is taken back.
fn comes_back(rt: &impl Abort, alloc: Global, sim: &mut Sim) {
    let told = [notice_of_start(0, Kind::Normal, None)];
    assert!(rt; tells(rt, alloc, sim, start_all(0), told.as_slice()));
    let count = edits_of_seventh(rt, sim);
    assert!(rt; count > 0 && undo(sim) == Some(count));
}

// The service starts, and is lost with the first node, which boots again.
fn ends_and_boots(rt: &impl Abort, alloc: Global, sim: &mut Sim) {
    let events = [
        start_all(0),
        Event::Crash { node: Node(0) },
        Event::Boot { node: Node(0) },
    ];
    make_all(rt, alloc, sim, events.as_slice());
}

// Is the service lost again, and has the state its words, where its coming back is taken back?
fn is_lost_again(rt: &impl Abort, alloc: Global, sim: &mut Sim) {
    let before = copy_of_state(rt, alloc, sim);
    comes_back(rt, alloc, sim);
    is_lost(rt, state_of(sim));
    assert!(rt; has_words(sim, &before));
}

#[test]
fn a_lost_application_comes_back_and_undo_takes_that_back(rt: HostRuntime) {
    let mut sim = sim_of_three(&rt, rt.alloc());
    ends_and_boots(&rt, rt.alloc(), &mut sim);
    is_lost_again(&rt, rt.alloc(), &mut sim);
    stops(&rt, rt.alloc(), &mut sim);
}

// Reasons to refuse where no node is up: there is no such application, or no node to start it.
fn refused_without_nodes(rt: &impl Abort, alloc: Global, sim: &mut Sim) {
    is_refused(rt, alloc, sim, start_all(3), Refusal::UnknownApp);
    is_refused(rt, alloc, sim, stop_all(255), Refusal::UnknownApp);
    is_refused(rt, alloc, sim, start_all(0), Refusal::NodeNotUp);
}

// It isn't distributed, or wasn't started.
fn refused_before_a_start(rt: &impl Abort, alloc: Global, sim: &mut Sim) {
    is_refused(rt, alloc, sim, start_all(2), Refusal::NotDistributed);
    is_refused(rt, alloc, sim, stop_all(2), Refusal::NotDistributed);
    is_refused(rt, alloc, sim, stop_all(0), Refusal::NeverStarted);
}

// Where all nodes are up, what the application needs wasn't started.
fn refused_for_want(rt: &impl Abort, alloc: Global, sim: &mut Sim) {
    let dep = Dep::Listed(App(2));
    let wanted = Refusal::DependencyNotStarted { dep };
    is_refused(rt, alloc, sim, start_all(1), wanted);
}

// It is started already, or was stopped.
fn refused_a_second_time(rt: &impl Abort, alloc: Global, sim: &mut Sim) {
    make_all(rt, alloc, sim, [start_all(0)].as_slice());
    is_refused(rt, alloc, sim, start_all(0), Refusal::AlreadyStarted);
    assert!(rt; tells(rt, alloc, sim, stop_all(0), [notice_of_stop(0)].as_slice()));
    is_refused(rt, alloc, sim, stop_all(0), Refusal::NeverStarted);
}

fn refused_at_the_start(rt: &impl Abort, alloc: Global, sim: &mut Sim) {
    refused_without_nodes(rt, alloc, sim);
    refused_before_a_start(rt, alloc, sim);
}

fn refused_where_nodes_are_up(rt: &impl Abort, alloc: Global, sim: &mut Sim) {
    make_all(rt, alloc, sim, BOOTS.as_slice());
    refused_for_want(rt, alloc, sim);
    refused_a_second_time(rt, alloc, sim);
}

#[test]
fn reasons_to_refuse_them(rt: HostRuntime) {
    let mut sim = sim_on(&rt, rt.alloc(), THREE_NODES);
    refused_at_the_start(&rt, rt.alloc(), &mut sim);
    refused_where_nodes_are_up(&rt, rt.alloc(), &mut sim);
    assert!(rt; sim.cursor() == 5);
}
