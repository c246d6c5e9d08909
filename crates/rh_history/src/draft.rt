//! Cells as a step makes them, before they are put into a history.

ghost use Rattle.std.specs.Prelude.{◌≡◌, ◌<◌, length, slice_get, All, IfNone, IfOk, OnOk, OnErr};
ghost use Rattle.std.specs.Option.{option_map};
ghost use Rattle.rh_history.specs.Draft.{draft_of, with_cell, written};

use rh_base::{Duplicate, OutOfMemory};
use std::alloc::Global;
use std::marker::Model;

/// The cells of a history as a step makes them. Cells that it hasn't touched are borrowed.
#[derive(Drop)]
pub struct Draft<'a, T> {
    base: &'a [T],
    // Of each cell what stands in its place, if the step has touched it.
    own: Vec<Option<T>>,
}

/// Contracts see the cells of the history, and those of the draft.
impl<'a, T> Model for Draft<'a, T> {
    ghost use Rattle.std.specs.Prelude.{◌≡◌, length};
    ghost use Rattle.rh_history.specs.Draft.{DraftView, overlaid};

    ghost Value = { DraftView T };

    ghost view = { λ d. record { base = d.base.now; cells = overlaid d.base.now d.own.items } };

    ghost invariant = { λ d. length d.own.items ≡ length d.base.now };
}

impl<'a, T: Drop> Draft<'a, T> {
    /// A draft that has changed none of these cells.
    pub fn of(alloc: Global, cells: &'a [T]) -> Result<Draft<'a, T>, OutOfMemory>
        ensures { IfOk result (λ draft. draft ≡ draft_of cells.now) }
    {
        let own = cells.iter().map(|_| None).collect(alloc)?;
        Ok(Draft { base: cells, own })
    }

    /// How many cells there are.
    pub fn len(&self) -> usize
        ensures { result ≡ length self.now.cells }
    {
        self.own.len()
    }

    /// What a cell holds.
    pub fn at(&self, at: usize) -> Option<&T>
        ensures { option_map (λ cell. cell.now) result ≡ slice_get self.now.cells at }
    {
        match self.own.get(at)? {
            Some(value) => Some(value),
            None => self.base.get(at),
        }
    }

    /// Sets a cell, if there is one at this place.
    pub fn set(&mut self, at: usize, value: T)
        ensures { self.new ≡ with_cell self.old at value }
    {
        if at < self.own.len() {
            let _held = self.own[at].replace(value);
        }
    }

    /// The cells that the step has touched, each with its place, from the first to the last.
    pub fn into_writes(self, alloc: Global) -> Result<Vec<(usize, T)>, OutOfMemory>
        ensures cells { IfOk result
            (λ writes. written self.entry.base writes.items ≡ self.entry.cells) }
        ensures places { IfOk result
            (λ writes. All (λ write. write.0 < length self.entry.base) writes.items) }
    {
        let Draft { base: _, own } = self;
        let writes = own.into_iter().enumerate().filter_map(write_at);
        Ok(writes.collect(alloc)?)
    }
}

impl<'a, T: Duplicate + Drop> Draft<'a, T> {
    /// Takes what a cell holds, to be changed and set again; until then the cell isn't to be read. A cell that the step hasn't
    /// touched is copied.
    pub fn take(&mut self, alloc: Global, at: usize) -> Result<Option<T>, OutOfMemory>
        ensures found { IfOk result (λ found. found ≡ slice_get self.old.cells at) }
        ensures none { IfOk result (λ found. IfNone found (self.new ≡ self.old)) }
        ensures set { OnOk result
            ((value : _) → with_cell self.new at value ≡ with_cell self.old at value) }
        ensures err { OnErr result (self.new ≡ self.old) }
    {
        if at >= self.own.len() {
            return Ok(None);
        }
        match self.own[at].take() {
            Some(value) => Ok(Some(value)),
            None => Ok(Some(self.base[at].copy(alloc)?)),
        }
    }
}

// The write of a cell that the step has touched.
fn write_at<T>(place: (usize, Option<T>)) -> Option<(usize, T)>
    ensures { result ≡ option_map (λ value. (place.0, value)) place.1 }
{
    let (at, value) = place;
    Some((at, value?))
}
