//! What is kept of each step: how many edits undo and redo answer, none where a step sets what is so already, and the words of
//! the first state.

use crate::support::{
    copy_of_state, edits_of_third, has_words, make_all, redo, sim_on, undo, undo_all,
};
use rh_cluster::{App, Node, Restart};
use rh_samples::ONE_NODE;
use rh_state::State;
use rh_step::Event;
use rh_trail::Sim;
use std::alloc::Global;
use std::process::Abort;

// The node boots, and an application stops and starts again.
static STEPS: [Event; 3] = [
    Event::Boot { node: Node(0) },
    Event::Stop {
        node: Node(0),
        app: App(1),
    },
    Event::Start {
        node: Node(0),
        app: App(1),
        restart: Restart::Temporary,
    },
];

// The node boots, and an application may run there as it might before.
static PERMITTED: [Event; 2] = [
    Event::Boot { node: Node(0) },
    Event::Permit {
        node: Node(0),
        app: App(1),
        allow: true,
    },
];

// Undo and redo answer the number of edits of the last step.
fn goes_back_and_forth(rt: &impl Abort, sim: &mut Sim) {
    let count = edits_of_third(rt, sim);
    assert!(rt; count > 0);
    assert!(rt; undo(sim) == Some(count));
    assert!(rt; redo(sim) == Some(count));
}

fn has_second_record_without_edits(rt: &impl Abort, sim: &Sim) {
    assert!(rt; sim.trail().len() == 2);
    assert!(rt; sim.record(1).is_empty());
}

// The last step has a record without edits, which is taken back and made again as any other.
fn keeps_no_edit(rt: &impl Abort, sim: &mut Sim) {
    has_second_record_without_edits(rt, sim);
    assert!(rt; undo(sim) == Some(0));
    assert!(rt; redo(sim) == Some(0));
}

fn goes_to_the_start(rt: &impl Abort, sim: &mut Sim, first: &State) {
    assert!(rt; !has_words(sim, first));
    assert!(rt; undo_all(sim) == 3);
    assert!(rt; has_words(sim, first));
}

// The three steps, some of the ways back and forth, and then all of them back to the first state.
fn steps_and_goes_back(rt: &impl Abort, alloc: Global, sim: &mut Sim) {
    let first = copy_of_state(rt, alloc, sim);
    make_all(rt, alloc, sim, STEPS.as_slice());
    goes_back_and_forth(rt, sim);
    goes_to_the_start(rt, sim, &first);
}

#[test]
fn undo_and_redo_answer_the_number_of_edits(rt: HostRuntime) {
    let mut sim = sim_on(&rt, rt.alloc(), ONE_NODE);
    steps_and_goes_back(&rt, rt.alloc(), &mut sim);
}

#[test]
fn what_is_so_already_keeps_no_edit(rt: HostRuntime) {
    let mut sim = sim_on(&rt, rt.alloc(), ONE_NODE);
    make_all(&rt, rt.alloc(), &mut sim, PERMITTED.as_slice());
    keeps_no_edit(&rt, &mut sim);
}
