//! What the events of a trail changed: the edits of each, in one list.

ghost use Rattle.std.specs.Prelude.{◌≡◌, ◌≤◌, ◌<◌, ◌++◌, ◌∷◌, [], length, take, slice_get, slice_set, slice_index_or, Some, IfOk, OnOk, OnErr};
ghost use Rattle.rh_base.specs.Exchanges.{back, backed, forth, forthed, AllBack, AllForth};
ghost use Rattle.rh_state.specs.Edits.{exchange, turned};
ghost use Rattle.rh_state.specs.Records.{CanGoBack, CanGoForth};
ghost use Rattle.rh_trail.specs.Records.{begin_at};

use rh_base::{OutOfMemory, copies_of};
use rh_state::{Edit, State, go_back, go_forth};
use std::alloc::Global;
use std::marker::Model;

/// The edits of each event, one event behind the other.
#[derive(Drop)]
pub struct Records {
    edits: Vec<Edit>,
    // Where the edits of each event end.
    ends: Vec<usize>,
}

impl Model for Records {
    ghost use Rattle.std.specs.Prelude.{List};
    ghost use Rattle.rh_state.specs.declared.edit.Edit.{Edit};
    ghost use Rattle.rh_trail.specs.Records.{cut_at, AreEnds};

    ghost Value = { List (List Edit) };

    ghost view = { λ r. cut_at 0 r.ends.items r.edits.items };

    ghost invariant = { λ r. AreEnds 0 r.ends.items r.edits.items };
}

impl Records {
    /// No record.
    pub fn new(alloc: Global) -> Records
        ensures { result ≡ [] }
    {
        Records {
            edits: Vec::new(alloc),
            ends: Vec::new(alloc),
        }
    }

    /// Equal records.
    pub fn copy(&self, alloc: Global) -> Result<Records, OutOfMemory>
        ensures { IfOk result (λ copy. copy ≡ self.now) }
    {
        let edits = copies_of(alloc, self.edits.as_slice())?;
        let ends = Vec::from_slice(alloc, self.ends.as_slice())?;
        Ok(Records { edits, ends })
    }

    /// The edits of a record.
    pub fn at(&self, index: usize) -> &[Edit]
        requires { index < length self.now }
        ensures { slice_get self.now index ≡ Some result.now }
    {
        let start = start_of(self.ends.as_slice(), index);
        &self.edits[start..self.ends[index]]
    }

    /// Takes a record back, from its last edit to its first, and says how many edits it has.
    pub fn go_back(&mut self, index: usize, state: &mut State) -> usize
        requires index { index < length self.old }
        requires all { AllBack exchange CanGoBack state.old (slice_index_or self.old index []) }
        ensures words { state.new ≡ back exchange state.old (slice_index_or self.old index []) }
        ensures records { self.new ≡ slice_set self.old index
            (backed exchange turned state.old (slice_index_or self.old index [])) }
        ensures count { result ≡ length (slice_index_or self.old index []) }
    {
        let start = start_of(self.ends.as_slice(), index);
        let end = self.ends[index];
        go_back(&mut self.edits[start..end], state);
        end - start
    }

    /// Makes a record again, from its first edit to its last, and says how many edits it has.
    pub fn go_forth(&mut self, index: usize, state: &mut State) -> usize
        requires index { index < length self.old }
        requires all { AllForth exchange CanGoForth state.old (slice_index_or self.old index []) }
        ensures words { state.new ≡ forth exchange state.old (slice_index_or self.old index []) }
        ensures records { self.new ≡ slice_set self.old index
            (forthed exchange turned state.old (slice_index_or self.old index [])) }
        ensures count { result ≡ length (slice_index_or self.old index []) }
    {
        let start = start_of(self.ends.as_slice(), index);
        let end = self.ends[index];
        go_forth(&mut self.edits[start..end], state);
        end - start
    }

    /// Keeps so many records and drops the others.
    pub fn truncate(&mut self, count: usize)
        requires { count ≤ length self.old }
        ensures { self.new ≡ take count self.old }
    {
        let end = start_of(self.ends.as_slice(), count);
        self.edits.truncate(end);
        self.ends.truncate(count);
    }

    /// Keeps so many records, and adds one of these edits, which are taken. Where memory is refused, all stays.
    pub fn replace_from(&mut self, count: usize, added: &mut Vec<Edit>) -> Result<(), OutOfMemory>
        requires { count ≤ length self.old }
        ensures records { OnOk result (self.new ≡ take count self.old ++ added.old.items ∷ []) }
        ensures taken { OnOk result (added.new.items ≡ []) }
        ensures err { OnErr result (self.new ≡ self.old) }
        ensures left { OnErr result (added.new.items ≡ added.old.items) }
    {
        self.ends.reserve(1)?;
        self.edits.reserve(added.len())?;
        let end = start_of(self.ends.as_slice(), count);
        self.edits.truncate(end);
        self.ends.truncate(count);
        self.edits.append(added).unwrap();
        self.ends.push(self.edits.len()).unwrap();
        Ok(())
    }
}

// Where a record begins.
fn start_of(ends: &[usize], index: usize) -> usize
    requires { index ≤ length ends.now }
    ensures { result ≡ begin_at 0 ends.now index }
{
    if index == 0 { 0 } else { ends[index - 1] }
}
