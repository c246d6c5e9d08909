//! Edits.

ghost use Rattle.std.specs.Prelude.{◌≡◌, false, length, slice_index_or};
ghost use Rattle.rh_arena.specs.Exchange.{exchange, turned};
ghost use Rattle.rh_arena.specs.Spots.{changes_at, entry_in, list_in, IsBetween};
ghost use Rattle.rh_arena.specs.Words.{Words};

use crate::links::Links;
use crate::spot::{Spot, Values};
use std::marker::Model;
use std::mem::size_of;

/// What a call changed: six different words, each with the value that it had (a done edit), or will have once the change
/// is made again (an undone one).
#[derive(Drop)]
pub struct LinkEdit {
    spot: Spot,
    values: Values,
    is_done: bool,
}

// Edits are kept by the million.
const _: () = prove!(size_of::<LinkEdit>() == 22);

impl Model for LinkEdit {
    ghost use Rattle.rh_arena.specs.Exchange.{EditView};
    ghost use Rattle.rh_arena.specs.Spots.{changes_at, IsBetween};

    ghost Value = { EditView };

    ghost view = { λ e. record { is_done = e.is_done; changes = changes_at e.spot e.values } };

    ghost invariant = { λ e. IsBetween e.spot };
}

impl LinkEdit {
    // An undone edit, which gives the words there these values.
    pub(crate) fn new(spot: Spot, values: Values) -> LinkEdit
        requires { IsBetween spot }
        ensures { result ≡ record { is_done = false; changes = changes_at spot values } }
    {
        LinkEdit {
            spot,
            values,
            is_done: false,
        }
    }

    /// Is the change made? Then the edit has the values from before it, else those from behind it.
    pub fn is_done(&self) -> bool
        ensures { result ≡ self.now.is_done }
    {
        self.is_done
    }

    /// How many words it changes: six, on either side.
    pub fn word_count(&self) -> usize
        ensures words { result ≡ length self.now.changes }
        ensures six { result ≡ 6 }
    {
        let _ = &self.values;
        6
    }

    /// Which entry it puts into a list, or takes out of one. On its other side it is of the same entry.
    #[tactic(auto, unfolding(crate::specs::Exchange::turned))]
    pub fn entry(&self) -> u16
        ensures entry { result ≡ entry_in self.now.changes }
        ensures turned { (words : Words) → entry_in (turned words self.now).changes ≡ result }
    {
        self.spot.entry
    }

    /// The list that an exchange gives the entry, if it gives it one. On its other side the edit has the one that there was.
    #[tactic(auto, unfolding(crate::specs::Exchange::turned))]
    pub fn list(&self) -> Option<u32>
        ensures list { result ≡ list_in self.now.changes }
        ensures turned { (words : Words) → list_in (turned words self.now).changes
            ≡ slice_index_or words.owner (entry_in self.now.changes) result }
    {
        self.values.owner.wide()
    }

    /// An equal edit.
    pub fn copy(&self) -> LinkEdit
        ensures { result ≡ self.now }
    {
        LinkEdit {
            spot: self.spot,
            values: self.values,
            is_done: self.is_done,
        }
    }

    // Exchanges the words, and changes sides. A second exchange gives all back.
    #[tactic(auto, unfolding(crate::specs::Exchange::exchange, crate::specs::Exchange::turned))]
    pub(crate) fn exchange(&mut self, links: &mut Links)
        ensures words { links.new ≡ exchange links.old self.old }
        ensures edit { self.new ≡ turned links.old self.old }
        ensures exact { exchange links.new self.new ≡ links.old }
        ensures again { turned links.new self.new ≡ self.old }
    {
        self.is_done = !self.is_done;
        links.exchange(&self.spot, &mut self.values);
    }
}
