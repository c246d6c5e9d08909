//! The records of steps: what each changed, in one list.

ghost use Rattle.std.specs.Prelude.{◌≡◌, ◌≤◌, ◌<◌, ◌++◌, ◌∷◌, [], length, take, slice_set, slice_index_or, All, OnOk, OnErr};
ghost use Rattle.rh_base.specs.Exchanges.{back, backed, forth, forthed};
ghost use Rattle.rh_history.specs.Change.{put, had, IsAmong};
ghost use Rattle.rh_history.specs.Records.{begin_at};

use crate::change::{Change, go_back, go_forth};
use rh_base::OutOfMemory;
use std::alloc::Global;
use std::marker::Model;

/// The changes of each step, one step behind the other.
#[derive(Drop)]
pub struct Records<T> {
    changes: Vec<Change<T>>,
    // Where the changes of each step end.
    ends: Vec<usize>,
}

impl<T> Model for Records<T> {
    ghost use Rattle.std.specs.Prelude.{List};
    ghost use Rattle.rh_history.specs.declared.change.Change.{Change};
    ghost use Rattle.rh_history.specs.Records.{cut_at, AreEnds};

    ghost Value = { List (List (Change T)) };

    ghost view = { λ r. cut_at 0 r.ends.items r.changes.items };

    ghost invariant = { λ r. AreEnds 0 r.ends.items r.changes.items };
}

impl<T> Records<T> {
    // No record.
    pub fn new(alloc: Global) -> Records<T>
        ensures { result ≡ [] }
    {
        Records {
            changes: Vec::new(alloc),
            ends: Vec::new(alloc),
        }
    }

    // How many records there are.
    pub fn len(&self) -> usize
        ensures { result ≡ length self.now }
    {
        self.ends.len()
    }

    // Takes a record back, from its last change to its first.
    pub fn go_back(&mut self, index: usize, cells: &mut [T])
        requires index { index < length self.old }
        requires among { All (IsAmong (length cells.old)) (slice_index_or self.old index []) }
        ensures cells { cells.new ≡ back put cells.old (slice_index_or self.old index []) }
        ensures records { self.new ≡ slice_set self.old index
            (backed put had cells.old (slice_index_or self.old index [])) }
    {
        let start = start_of(self.ends.as_slice(), index);
        let end = self.ends[index];
        go_back(&mut self.changes[start..end], cells);
    }

    // Makes a record again, from its first change to its last.
    pub fn go_forth(&mut self, index: usize, cells: &mut [T])
        requires index { index < length self.old }
        requires among { All (IsAmong (length cells.old)) (slice_index_or self.old index []) }
        ensures cells { cells.new ≡ forth put cells.old (slice_index_or self.old index []) }
        ensures records { self.new ≡ slice_set self.old index
            (forthed put had cells.old (slice_index_or self.old index [])) }
    {
        let start = start_of(self.ends.as_slice(), index);
        let end = self.ends[index];
        go_forth(&mut self.changes[start..end], cells);
    }
}

impl<T: Drop> Records<T> {
    // Keeps so many records, and adds one of these changes, which are taken. Where memory is refused, all stays.
    pub fn replace_from(
        &mut self,
        count: usize,
        added: &mut Vec<Change<T>>,
    ) -> Result<(), OutOfMemory>
        requires { count ≤ length self.old }
        ensures records { OnOk result (self.new ≡ take count self.old ++ added.old.items ∷ []) }
        ensures taken { OnOk result (added.new.items ≡ []) }
        ensures err { OnErr result (self.new ≡ self.old) }
        ensures left { OnErr result (added.new.items ≡ added.old.items) }
    {
        self.ends.reserve(1)?;
        self.changes.reserve(added.len())?;
        let end = start_of(self.ends.as_slice(), count);
        self.changes.truncate(end);
        self.ends.truncate(count);
        self.changes.append(added).unwrap();
        self.ends.push(self.changes.len()).unwrap();
        Ok(())
    }
}

// Where a record begins.
fn start_of(ends: &[usize], index: usize) -> usize
    requires { index ≤ length ends.now }
    ensures { result ≡ begin_at 0 ends.now index }
{
    if index == 0 { 0 } else { ends[index - 1] }
}
