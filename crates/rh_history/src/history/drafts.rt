//! Steps that are drafted, and made as a whole.

ghost use Rattle.std.specs.Prelude.{◌≡◌, ◌<◌, length, All, IfOk, OnOk, OnErr};
ghost use Rattle.rh_history.specs.Draft.{draft_of, written};
ghost use Rattle.rh_history.specs.HistoryView.{IsClosed, committed};

use crate::draft::Draft;
use crate::history::History;
use rh_base::OutOfMemory;
use std::alloc::Global;

impl<T: Drop> History<T> {
    /// What the cells hold now.
    pub fn cells(&self) -> &[T]
        ensures { result.now ≡ self.now.now }
    {
        self.cells.as_slice()
    }

    /// A draft of a step.
    pub fn draft(&self, alloc: Global) -> Result<Draft<'_, T>, OutOfMemory>
        ensures { IfOk result (λ draft. draft ≡ draft_of self.now.now) }
    {
        Draft::of(alloc, self.cells())
    }

    /// Makes a step of these writes, or changes nothing.
    pub fn make(&mut self, writes: Vec<(usize, T)>) -> Result<(), OutOfMemory>
        requires closed { IsClosed self.old }
        requires places { All (λ write. write.0 < length self.old.now) writes.items }
        ensures ok { OnOk result
            (self.new ≡ committed (record self.old { now = written self.old.now writes.items })) }
        ensures closed { OnOk result (IsClosed self.new) }
        ensures err { OnErr result (self.new ≡ self.old) }
    {
        if let Err(error) = self.put_and_commit(writes) {
            self.roll_back();
            return Err(error);
        }
        Ok(())
    }

    // Puts these writes and closes the step. Where memory is refused, some may be left in the open step.
    fn put_and_commit(&mut self, writes: Vec<(usize, T)>) -> Result<(), OutOfMemory>
        requires { All (λ write. write.0 < length self.old.now) writes.items }
        ensures ok { OnOk result
            (self.new ≡ committed (record self.old { now = written self.old.now writes.items })) }
        ensures closed { OnOk result (IsClosed self.new) }
        ensures err { OnErr result (self.new ≡ record self.old { now = self.new.now }) }
    {
        'writes: for (at, value) in writes {
            self.put(at, value)?;
        }
        self.commit()
    }
}
