//! Edits.

ghost use Rattle.std.specs.Prelude.{◌≡◌, ◌+◌, ◌↔◌, length, IsSome, unwrap_or, slice_index_or};
ghost use Rattle.std.specs.Int.{w64, from_le_bytes};
ghost use Rattle.rh_arena.specs.Exchange.{turned};
ghost use Rattle.rh_arena.specs.Spots.{entry_in, list_in};
ghost use Rattle.rh_arena.specs.Words.{Words};
ghost use Rattle.rh_wheel.specs.Edits.{links_of};

use rh_arena::LinkEdit;
use std::marker::Model;
use std::mem::size_of;

/// What arming or cancelling a timer changed, with the values from before it (a done edit), or from behind it (an undone
/// one).
#[derive(Drop)]
pub struct TimerEdit {
    // The timer is their entry, and is armed where they give it a slot.
    pub(crate) links: LinkEdit,
    // The due time of a timer that is armed, in bytes, before which there is no gap.
    pub(crate) due: [u8; 8],
}

// Edits are kept by the million.
const _: () = prove!(size_of::<TimerEdit>() == 30);

impl Model for TimerEdit {
    ghost use Rattle.std.specs.Int.{w64, from_le_bytes};
    ghost use Rattle.std.specs.Option.{option_map};
    ghost use Rattle.rh_arena.specs.Spots.{entry_in, list_in};
    ghost use Rattle.rh_wheel.specs.Edits.{EditView};

    ghost Value = { EditView };

    ghost view = { λ e. record {
      is_done = e.links.is_done;
      changes = e.links.changes;
      timer = entry_in e.links.changes;
      due = option_map (λ slot. from_le_bytes w64 e.due) (list_in e.links.changes);
    } };
}

impl TimerEdit {
    // An edit of links, with the due time of the timer if they give it a slot.
    pub(crate) fn new(links: LinkEdit, due: Option<u64>) -> TimerEdit
        requires { IsSome due ↔ IsSome (list_in links.changes) }
        ensures { result ≡ record {
          is_done = links.is_done;
          changes = links.changes;
          timer = entry_in links.changes;
          due = due;
        } }
    {
        TimerEdit {
            links,
            due: bytes_of(due),
        }
    }

    // The timer's number, which the edit has on its other side too.
    pub(crate) fn timer(&self) -> u16
        ensures timer { result ≡ self.now.timer }
        ensures turned { (words : Words)
            → entry_in (turned words (links_of self.now)).changes ≡ result }
    {
        self.links.entry()
    }

    // When the timer is due, if it is armed. On its other side the edit gives it the slot that it had.
    pub(crate) fn due(&self) -> Option<u64>
        ensures due { result ≡ self.now.due }
        ensures turned { (words : Words) → list_in (turned words (links_of self.now)).changes
            ≡ slice_index_or words.owner self.now.timer (list_in self.now.changes) }
    {
        match self.links.list() {
            None => None,
            Some(_) => Some(u64::from_le_bytes(self.due)),
        }
    }

    /// How many words it changes: six of a slot's links, and a due.
    pub fn word_count(&self) -> usize
        ensures words { result ≡ length self.now.changes + 1 }
        ensures seven { result ≡ 7 }
    {
        self.links.word_count() + 1
    }

    /// Is the change made? Then the edit has the values from before it, else those from behind it.
    pub fn is_done(&self) -> bool
        ensures { result ≡ self.now.is_done }
    {
        self.links.is_done()
    }

    /// An equal edit.
    pub fn copy(&self) -> TimerEdit
        ensures { result ≡ self.now }
    {
        TimerEdit {
            links: self.links.copy(),
            due: self.due,
        }
    }
}

// A due time in bytes.
pub(crate) fn bytes_of(due: Option<u64>) -> [u8; 8]
    ensures { from_le_bytes w64 result ≡ unwrap_or due 0 }
{
    due.unwrap_or(0).to_le_bytes()
}
