//! Steps that are taken back and made again.

ghost use Rattle.std.specs.Prelude.{◌≡◌, ◌<◌, ◌+◌, ◌-◌, length};
ghost use Rattle.rh_history.specs.HistoryView.{IsClosed, at_step};

use crate::history::History;

impl<T: Drop> History<T> {
    /// Takes the last step back.
    pub fn undo(&mut self)
        requires closed { IsClosed self.old }
        requires some { 0 < self.old.cursor }
        ensures state { self.new ≡ at_step self.old (self.old.cursor - 1) }
        ensures closed { IsClosed self.new }
    {
        // What is pending has changed nothing.
        self.pending.clear();
        self.records.go_back(self.cursor - 1, &mut self.cells);
        self.cursor -= 1;
    }

    /// Makes the next step again.
    pub fn redo(&mut self)
        requires closed { IsClosed self.old }
        requires some { self.old.cursor + 1 < length self.old.states }
        ensures state { self.new ≡ at_step self.old (self.old.cursor + 1) }
        ensures closed { IsClosed self.new }
    {
        self.pending.clear();
        // So the next cursor fits in its type.
        prove!(self.cursor < self.records.len());
        self.records.go_forth(self.cursor, &mut self.cells);
        self.cursor += 1;
    }

    /// Takes all steps back, and says how many.
    pub fn undo_all(&mut self) -> usize
        requires { IsClosed self.old }
        ensures state { self.new ≡ at_step self.old 0 }
        ensures closed { IsClosed self.new }
        ensures count { result ≡ self.old.cursor }
    {
        let count = self.cursor();
        'steps: while self.cursor() > 0 {
            self.undo();
        }
        count
    }

    /// Makes all steps again, and says how many.
    pub fn redo_all(&mut self) -> usize
        requires { IsClosed self.old }
        ensures state { self.new ≡ at_step self.old (length self.old.states - 1) }
        ensures closed { IsClosed self.new }
        ensures count { result ≡ length self.old.states - 1 - self.old.cursor }
    {
        self.is_history();
        let end = self.steps();
        let count = end - self.cursor();
        'steps: while self.cursor() < end {
            self.redo();
        }
        count
    }
}
