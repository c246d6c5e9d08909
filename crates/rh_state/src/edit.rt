//! What a setter changed.

ghost use Rattle.std.specs.Prelude.{◌≡◌, ◌≤◌, IfOk};
ghost use Rattle.rh_state.specs.Edits.{words_of};

use crate::status::{Kind, Mode, Standing};
use rh_arena::LinkEdit;
use rh_base::{Duplicate, OutOfMemory};
use rh_model::{App, Node, Restart};
use rh_wheel::TimerEdit;
use std::alloc::Global;
use std::mem::size_of;

/// A single part of a state, with a value that it had or will have.
#[derive(Clone, Copy, Debug, PartialEq, Eq)]
pub enum Change {
    /// The time in milliseconds.
    Now(u64),
    /// What a node does.
    Mode(Node, Mode),
    /// How often a node was started.
    Incarnation(Node, u16),
    /// Whether an application may run at a node.
    Allowed(Node, App, bool),
    /// The restart type of an application at a node.
    Restart(Node, App, Restart),
    /// How an application was started at a node.
    Kind(Node, App, Kind),
    /// Where an application stands.
    Standing(App, Standing),
}

/// What a setter changed, with the values from before it (a done edit) or from behind it (an undone one).
#[derive(Drop)]
pub enum Edit {
    /// Words of the lists of what runs and what waits.
    Links(LinkEdit),
    /// A timer.
    Timer(TimerEdit),
    /// A single part, and whether its change is done.
    Part(bool, Change),
}

// A trail keeps an edit for each change of its way, so millions of them.
const _: () = prove!(size_of::<Edit>() == 32);

impl Edit {
    /// How many words it changes: seven at most, however large the cluster is.
    pub fn word_count(&self) -> usize
        ensures words { result ≡ words_of self.now }
        ensures few { words_of self.now ≤ 7 }
    {
        match self {
            Edit::Links(links) => links.word_count(),
            Edit::Timer(timer) => timer.word_count(),
            Edit::Part(_, _) => 1,
        }
    }

    /// An equal edit.
    pub fn copy(&self) -> Edit
        ensures { result ≡ self.now }
    {
        match self {
            Edit::Links(links) => Edit::Links(links.copy()),
            Edit::Timer(timer) => Edit::Timer(timer.copy()),
            Edit::Part(side, change) => Edit::Part(*side, *change),
        }
    }
}

impl Duplicate for Edit {
    fn copy(&self, _alloc: Global) -> Result<Edit, OutOfMemory>
        ensures { IfOk result (λ copy. copy ≡ self.now) }
    {
        Ok(Edit::copy(self))
    }
}
