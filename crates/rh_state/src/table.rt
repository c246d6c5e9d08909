//! Tables over pairs: a row for each node, and in it a cell for each application.

ghost use Rattle.std.specs.Prelude.{◌≡◌, ◌<◌, ◌*◌, unwrap_or, ◌↔◌, length, slice_get, Some, IfOk, IsTrue, replicate};
ghost use Rattle.rh_state.specs.Cut.{cut};
ghost use Rattle.rh_state.specs.Tables.{row, with_cell};

use rh_base::{OutOfMemory, Same, are_same};
use std::alloc::Global;
use std::marker::Model;
use std::mem;

/// A table.
#[derive(Drop)]
pub struct Table<T> {
    // Row behind row, so that a table is one block of memory, however many rows it has.
    cells: Vec<T>,
    rows: usize,
    width: usize,
}

impl<T> Model for Table<T> {
    ghost use Rattle.std.specs.Prelude.{List, ◌≡◌, ◌*◌, length};
    ghost use Rattle.rh_state.specs.Cut.{cut};

    ghost Value = { List (List T) };

    ghost view = { λ t. cut t.rows t.width t.cells.items };

    ghost invariant = { λ t. length t.cells.items ≡ t.rows * t.width };
}

impl<T> Table<T> {
    /// These cells, in so many rows of this width.
    pub fn of(cells: Vec<T>, rows: usize, width: usize) -> Table<T>
        requires { length cells.items ≡ rows * width }
        ensures { result ≡ cut rows width cells.items }
    {
        Table { cells, rows, width }
    }
}

impl<T: Copy> Table<T> {
    /// So many rows of this width, with this in each cell.
    pub fn filled_with(
        alloc: Global,
        rows: usize,
        width: usize,
        value: T,
    ) -> Result<Table<T>, OutOfMemory>
        requires { rows * width < 65536 }
        ensures { IfOk result (λ table. table ≡ replicate rows (replicate width value)) }
    {
        let mut cells = Vec::with_capacity(alloc, rows * width)?;
        for _ in 0..rows * width {
            cells.push(value)?;
        }
        Ok(Table { cells, rows, width })
    }

    /// An equal table.
    pub fn copy(&self, alloc: Global) -> Result<Table<T>, OutOfMemory>
        ensures { IfOk result (λ copy. copy ≡ self.now) }
    {
        Ok(Table {
            cells: Vec::from_slice(alloc, self.cells.as_slice())?,
            rows: self.rows,
            width: self.width,
        })
    }

    /// What stands in a cell.
    pub fn at(&self, node: u8, app: u8) -> T
        requires node { node < length self.now }
        requires app { app < length (row self.now node) }
        ensures { slice_get (row self.now node) app ≡ Some result }
    {
        self.cells[node as usize * self.width + app as usize]
    }

    /// The cells of a row.
    pub fn row(&self, node: u8) -> &[T]
        requires { node < length self.now }
        ensures { result.now ≡ row self.now node }
    {
        let start = node as usize * self.width;
        &self.cells[start..start + self.width]
    }

    /// Exchanges a value for what stands in a cell; where there is no such cell, nothing changes.
    pub fn exchange(&mut self, node: u8, app: u8, value: &mut T)
        ensures cells { self.new ≡ with_cell self.old node app value.old }
        ensures value { value.new ≡ unwrap_or (slice_get (row self.old node) app) value.old }
    {
        let (node, app) = (node as usize, app as usize);
        // A cell past the end of its row would be one of the next row.
        if node >= self.rows || app >= self.width {
            return;
        }
        let place = node * self.width + app;
        mem::swap(&mut self.cells[place], value);
    }
}

impl<T: Same> Table<T> {
    /// Are the tables equal?
    pub fn same(&self, other: &Table<T>) -> bool
        ensures { IsTrue result ↔ (self.now ≡ other.now) }
    {
        // As many cells in as many rows: so each row has the same width, where there are any.
        self.rows == other.rows && are_same(self.cells.as_slice(), other.cells.as_slice())
    }
}
