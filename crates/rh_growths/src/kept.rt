//! What has to stay of a simulation.

use rh_calls::report;
use rh_trail::Sim;
use std::alloc::Global;

/// A simulation as it was: its copy, and its report.
#[derive(Drop)]
pub struct Kept {
    here: Sim,
    text: Vec<u8>,
}

impl Kept {
    /// This simulation as it is.
    pub fn of(alloc: Global, sim: &Sim) -> Option<Kept> {
        let text = report(alloc, sim.state()).ok()?;
        let here = sim.copy(alloc).ok()?;
        Some(Kept { here, text })
    }

    /// What of the simulation isn't as it was. Its steps are taken back and made again for that.
    pub fn changed(&self, alloc: Global, sim: &mut Sim) -> Option<&'static str> {
        let changed = self.seen_changed(alloc, sim);
        if changed.is_some() || self.leads(alloc, sim) {
            changed
        } else {
            Some("words")
        }
    }

    /// The same, without these.
    pub fn seen_changed(&self, alloc: Global, sim: &Sim) -> Option<&'static str> {
        if !self.is_reported(alloc, sim) {
            Some("report")
        } else if !sim.state().same_words(self.here.state()) {
            Some("words")
        } else {
            trail_changed(sim, &self.here)
        }
    }

    // Has the simulation the same report?
    fn is_reported(&self, alloc: Global, sim: &Sim) -> bool {
        match report(alloc, sim.state()) {
            Ok(text) => text.as_slice() == self.text.as_slice(),
            Err(_) => false,
        }
    }

    // Do undo and redo lead to the words to which they lead from the copy?
    fn leads(&self, alloc: Global, sim: &mut Sim) -> bool {
        match self.here.copy(alloc) {
            Ok(mut copy) => lead_alike(sim, &mut copy),
            Err(_) => false,
        }
    }
}

// Do undo and redo of the two lead to the same words?
fn lead_alike(one: &mut Sim, other: &mut Sim) -> bool {
    let begins = begin_alike(one, other);
    let ends = end_alike(one, other);
    begins && ends
}

// Have they the same words where all steps are taken back?
fn begin_alike(one: &mut Sim, other: &mut Sim) -> bool {
    let _ = one.undo_all();
    let _ = other.undo_all();
    one.state().same_words(other.state())
}

// Have they the same words where all steps are made again?
fn end_alike(one: &mut Sim, other: &mut Sim) -> bool {
    let _ = one.redo_all();
    let _ = other.redo_all();
    one.state().same_words(other.state())
}

// What of the trail and the records of one isn't as the other has it.
fn trail_changed(one: &Sim, other: &Sim) -> Option<&'static str> {
    if one.trail() != other.trail() {
        Some("trail")
    } else if one.cursor() != other.cursor() {
        Some("cursor")
    } else if !same_records(one, other) {
        Some("records")
    } else {
        None
    }
}

// Are the records of the two as long?
fn same_records(one: &Sim, other: &Sim) -> bool {
    let count = one.trail().len();
    if other.trail().len() != count {
        return false;
    }
    for index in 0..count {
        if one.record(index).len() != other.record(index).len() {
            return false;
        }
    }
    true
}
