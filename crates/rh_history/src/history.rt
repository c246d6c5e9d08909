//! A list of cells, the steps that have changed it, and a cursor in them.

ghost use Rattle.std.specs.Prelude.{◌≡◌, ◌<◌, ◌-◌, ◌∷◌, [], length, slice_get, slice_set, Some, OnOk, OnErr};
ghost use Rattle.rh_history.specs.HistoryView.{IsHistory, IsClosed, at_step, committed};

mod drafts;
mod moves;

use crate::change::{Change, exchange, go_back};
use crate::records::Records;
use rh_base::OutOfMemory;
use std::alloc::Global;
use std::marker::Model;

/// A list of cells with undo and redo.
#[derive(Drop)]
pub struct History<T> {
    cells: Vec<T>,
    // What each step changed.
    records: Records<T>,
    // What the open step has changed.
    pending: Vec<Change<T>>,
    // How many steps are done.
    cursor: usize,
}

impl<T> Model for History<T> {
    ghost use Rattle.rh_history.specs.HistoryView.{HistoryView};

    ghost Value = { HistoryView T };

    ghost use Rattle.rh_history.specs.States.{seen, IsKept};

    ghost view = { λ h. seen h.cells.items h.records h.pending.items h.cursor };

    ghost invariant = { λ h. IsKept h.cells.items h.records h.pending.items h.cursor };
}

impl<T> History<T> {
    /// A history of these cells, with no step.
    pub fn new(alloc: Global, cells: Vec<T>) -> History<T>
        ensures { result ≡ record { now = cells.items; states = cells.items ∷ []; cursor = 0 } }
    {
        History {
            cells,
            records: Records::new(alloc),
            pending: Vec::new(alloc),
            cursor: 0,
        }
    }

    /// A law: the cursor stands behind one of the steps, and behind each step there are as many cells as there are now.
    pub fn is_history(&self)
        ensures { IsHistory self.now }
    {
        let _ = &self.cells;
    }

    /// How many cells there are.
    pub fn len(&self) -> usize
        ensures { result ≡ length self.now.now }
    {
        self.cells.len()
    }

    /// What a cell holds now.
    pub fn at(&self, at: usize) -> &T
        requires { at < length self.now.now }
        ensures { slice_get self.now.now at ≡ Some result.now }
    {
        &self.cells[at]
    }

    /// How many steps are done.
    pub fn cursor(&self) -> usize
        ensures { result ≡ self.now.cursor }
    {
        self.cursor
    }

    /// How many steps there are, with those that can be made again.
    pub fn steps(&self) -> usize
        ensures { result ≡ length self.now.states - 1 }
    {
        self.records.len()
    }

    /// How many changes the open step has made.
    pub fn changes(&self) -> usize
        ensures { result ≡ 0 → IsClosed self.now }
    {
        self.pending.len()
    }
}

impl<T: Drop> History<T> {
    /// Writes a cell, as a part of the open step. What was taken back can still be made again.
    pub fn put(&mut self, at: usize, value: T) -> Result<(), OutOfMemory>
        requires { at < length self.old.now }
        ensures ok { OnOk result
            (self.new ≡ record self.old { now = slice_set self.old.now at value }) }
        ensures err { OnErr result (self.new ≡ self.old) }
    {
        self.pending.reserve(1)?;
        let mut change = Change { at, value };
        exchange(&mut change, &mut self.cells);
        self.pending.push(change).unwrap();
        Ok(())
    }

    /// Takes back what the open step has changed.
    pub fn roll_back(&mut self)
        ensures state { self.new ≡ at_step self.old self.old.cursor }
        ensures closed { IsClosed self.new }
    {
        go_back(&mut self.pending, &mut self.cells);
        self.pending.clear();
    }

    /// Closes the open step, in place of the steps that could be made again.
    pub fn commit(&mut self) -> Result<(), OutOfMemory>
        ensures ok { OnOk result (self.new ≡ committed self.old) }
        ensures closed { OnOk result (IsClosed self.new) }
        ensures err { OnErr result (self.new ≡ self.old) }
    {
        self.records.replace_from(self.cursor, &mut self.pending)?;
        self.cursor = self.records.len();
        Ok(())
    }
}
