//! A caller's calls, and the replies to them.

ghost use Rattle.std.specs.Prelude.{◌≡◌, ◌↔◌, IsTrue, IfOk, OnErr};
ghost use Rattle.rh_calls.specs.Sharing.{IsShared};

use crate::notices::Notices;
use rh_base::OutOfMemory;
use rh_rules::{Event, Refusal};
use std::alloc::Global;
use std::marker::Model;
use std::sync::Arc;

/// Some bytes, which copies share.
#[derive(Drop)]
pub struct Bytes {
    items: Arc<Vec<u8>>,
}

impl Model for Bytes {
    ghost use Rattle.std.specs.Prelude.{List, ℕ};

    ghost Value = { List ℕ };

    ghost view = { λ b. b.items.value.items };
}

impl Bytes {
    /// These bytes.
    pub fn of(alloc: Global, items: Vec<u8>) -> Result<Bytes, OutOfMemory>
        ensures { IfOk result (λ bytes. bytes ≡ items.items) }
    {
        let mut items = items;
        items.shrink_to_fit();
        let items = Arc::new(alloc, items)?;
        Ok(Bytes { items })
    }

    /// The bytes.
    pub fn as_slice(&self) -> &[u8]
        ensures { result.now ≡ self.now }
    {
        self.items.as_slice()
    }

    /// The same bytes, which lie in memory once. The error says that there are too many who share them.
    pub fn share(&self) -> Result<Bytes, OutOfMemory>
        ensures { IfOk result (λ copy. copy ≡ self.now) }
    {
        let items = Arc::try_clone(&self.items)?;
        Ok(Bytes { items })
    }

    /// Whether the two are equal.
    pub fn same(&self, other: &Bytes) -> bool
        ensures { IsTrue result ↔ (self.now ≡ other.now) }
    {
        self.as_slice() == other.as_slice()
    }
}

/// The last of the sessions that may share a simulation, which are numbered from 1 (ours).
pub const LAST_SESSION: u8 = 8;

/// What a caller asks of a simulation.
#[derive(Clone, Copy, Debug, PartialEq, Eq)]
pub enum Call {
    /// An event.
    Step(Event),
    /// Takes the last step back.
    Undo,
    /// Makes the next step again.
    Redo,
    /// Takes all steps back.
    UndoAll,
    /// Makes all steps again.
    RedoAll,
    /// Asks for the report.
    Look,
}

/// The answer to a call.
#[derive(Drop)]
pub enum Reply {
    /// The step was accepted, and this followed.
    Done(Notices),
    /// The step was refused.
    Refused(Refusal),
    /// A step was taken back.
    Undone,
    /// A step was made again.
    Redone,
    /// There is no step to take back.
    AtStart,
    /// There is no step to make again.
    AtEnd,
    /// So many steps were taken back or made again.
    Moved(u32),
    /// How many steps stand, of how many, and the report.
    Seen {
        cursor: usize,
        trail: usize,
        text: Bytes,
    },
}

impl Reply {
    /// The same reply, whose notices or report lie in memory once. The error says that there are too many who share them.
    pub fn share(&self) -> Result<Reply, OutOfMemory>
        ensures same { IfOk result (λ copy. copy ≡ self.now) }
        ensures last { OnErr result (IsShared self.now) }
    {
        Ok(match self {
            Reply::Done(notices) => Reply::Done(notices.share()?),
            Reply::Refused(refusal) => Reply::Refused(*refusal),
            Reply::Undone => Reply::Undone,
            Reply::Redone => Reply::Redone,
            Reply::AtStart => Reply::AtStart,
            Reply::AtEnd => Reply::AtEnd,
            Reply::Moved(count) => Reply::Moved(*count),
            Reply::Seen {
                cursor,
                trail,
                text,
            } => Reply::Seen {
                cursor: *cursor,
                trail: *trail,
                text: text.share()?,
            },
        })
    }

    /// Whether the two are equal.
    pub fn same(&self, other: &Reply) -> bool
        ensures { IsTrue result ↔ (self.now ≡ other.now) }
    {
        match (self, other) {
            (Reply::Done(one), Reply::Done(two)) => one.same(two),
            (Reply::Refused(one), Reply::Refused(two)) => *one == *two,
            (Reply::Undone, Reply::Undone)
            | (Reply::Redone, Reply::Redone)
            | (Reply::AtStart, Reply::AtStart)
            | (Reply::AtEnd, Reply::AtEnd) => true,
            (Reply::Moved(one), Reply::Moved(two)) => *one == *two,
            (
                Reply::Seen {
                    cursor: cursor_1,
                    trail: trail_1,
                    text: text_1,
                },
                Reply::Seen {
                    cursor: cursor_2,
                    trail: trail_2,
                    text: text_2,
                },
            ) => *cursor_1 == *cursor_2 && *trail_1 == *trail_2 && text_1.same(text_2),
            _ => false,
        }
    }
}
