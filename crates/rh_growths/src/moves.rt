//! Undo, redo and the readers of a simulation, which take no memory. The former lead to the words that other simulations have,
//! behind fewer or more events.

use crate::clusters::{BOOT_1, BOOT_2, BOOT_3, RANKS, sim_before_last, sim_behind};
use rh_marks::{Answer, begin, end};
use rh_step::{Event, Pick};
use rh_trail::Sim;
use std::alloc::Global;

// The last of them is undone before the call.
static EVENTS: [Event; 3] = [BOOT_3, BOOT_1, BOOT_2];

#[derive(Clone, Copy)]
enum Way {
    Undo,
    Redo,
    UndoAll,
    RedoAll,
    CutRedo,
}

// The call of this name, and how many events stand then.
fn way_of(name: &str) -> Option<(Way, usize)> {
    if name == "Sim::undo" {
        Some((Way::Undo, 1))
    } else if name == "Sim::redo" {
        Some((Way::Redo, 3))
    } else if name == "Sim::undo_all" {
        Some((Way::UndoAll, 0))
    } else if name == "Sim::redo_all" {
        Some((Way::RedoAll, 3))
    } else if name == "Sim::cut_redo" {
        Some((Way::CutRedo, 2))
    } else {
        None
    }
}

/// What comes of the call of this name, if it is here.
pub fn answer(alloc: Global, name: &str) -> Option<Answer> {
    let mut sim = sim_before_last(alloc, RANKS, EVENTS.as_slice())?;
    match way_of(name) {
        Some((way, standing)) => call_move(alloc, &mut sim, way, standing),
        None => call_reader_of(alloc, &sim, name),
    }
}

// A call that has to lead to the words behind so many events.
fn call_move(alloc: Global, sim: &mut Sim, way: Way, standing: usize) -> Option<Answer> {
    let wanted = sim_behind(alloc, RANKS, EVENTS.as_slice().get(..standing)?)?;
    Some(call_move_beside(alloc, sim, way, &wanted))
}

fn call_move_beside(alloc: Global, sim: &mut Sim, way: Way, wanted: &Sim) -> Answer {
    begin(alloc);
    let is_made = go(sim, way);
    end(alloc);
    if !is_made {
        Answer::Changed("answer")
    } else if !sim.state().same_words(wanted.state()) {
        Answer::Changed("words")
    } else if sim.cursor() != wanted.cursor() {
        Answer::Changed("cursor")
    } else if sim.trail().len() != trail_behind(way) {
        Answer::Changed("trail")
    } else {
        Answer::Done
    }
}

// Makes a call, and says whether its answer is right.
fn go(sim: &mut Sim, way: Way) -> bool {
    match way {
        Way::Undo => sim.undo().is_ok(),
        Way::Redo => sim.redo().is_ok(),
        Way::UndoAll => sim.undo_all() == 2,
        Way::RedoAll => sim.redo_all() == 1,
        Way::CutRedo => {
            sim.cut_redo();
            true
        }
    }
}

// How long the trail is then.
fn trail_behind(way: Way) -> usize {
    match way {
        Way::CutRedo => 2,
        _ => 3,
    }
}

#[derive(Clone, Copy)]
enum Reader {
    Cluster,
    Cursor,
    Trail,
    Record,
    State,
    Pick,
}

// The reader of this name.
fn reader_of(name: &str) -> Option<Reader> {
    if name == "Sim::cluster" {
        Some(Reader::Cluster)
    } else if name == "Sim::cursor" {
        Some(Reader::Cursor)
    } else if name == "Sim::trail" {
        Some(Reader::Trail)
    } else if name == "Sim::record" {
        Some(Reader::Record)
    } else if name == "Sim::state" {
        Some(Reader::State)
    } else if name == "Sim::pick" {
        Some(Reader::Pick)
    } else {
        None
    }
}

fn call_reader_of(alloc: Global, sim: &Sim, name: &str) -> Option<Answer> {
    Some(call_reader(alloc, sim, reader_of(name)?))
}

fn call_reader(alloc: Global, sim: &Sim, reader: Reader) -> Answer {
    begin(alloc);
    let is_right = is_read(sim, reader);
    end(alloc);
    Answer::of_call(is_right)
}

// Does it answer as it has to?
fn is_read(sim: &Sim, reader: Reader) -> bool {
    match reader {
        Reader::Cluster => sim.cluster().node_count() == 3,
        Reader::Cursor => sim.cursor() == 2,
        Reader::Trail => sim.trail().len() == 3,
        Reader::Record => sim.trail().len() == 3 && !sim.record(0).is_empty(),
        Reader::State => sim.state().now() == 0,
        Reader::Pick => sim.pick() == Pick::First,
    }
}
