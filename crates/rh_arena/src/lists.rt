//! Lists of entries.

ghost use Rattle.std.specs.Prelude.{◌≡◌, ◌≢◌, ◌<◌, ◌≤◌, ◌+◌, ◌++◌, ◌↔◌, ◌∷◌, [], ℕ, length, Some, None, true, false, slice_get, Contains, IfSome, IfOk, IsSome};
ghost use Rattle.rh_arena.specs.Words.{unlinked, entry_count, list_count, prev_of, next_of, owner_of, head_of, count_of};
ghost use Rattle.rh_arena.specs.Lists.{listed, without, after, before};
ghost use Rattle.rh_arena.specs.Linking.{pushed, removed};
ghost use Rattle.rh_arena.specs.WellFormed.{IsWellFormed};
ghost use Rattle.rh_arena.specs.Exchange.{exchange, turned};
ghost use Rattle.rh_arena.specs.Spots.{entry_in, list_in};

use crate::edit::LinkEdit;
use crate::link::Link;
use crate::links::Links;
use crate::spot::{Spot, Values};
use std::alloc::{AllocError, Global};
use std::marker::Model;

/// Lists of entries, each of which is in one list at most.
///
/// `new` and `copy` take the memory for all words at once; no other call takes any, and each of the others but
/// [`Lists::same_words`] takes the same time however many entries there are.
#[derive(Drop)]
pub struct Lists {
    links: Links,
}

impl Model for Lists {
    ghost use Rattle.std.specs.Prelude.{◌≤◌};
    ghost use Rattle.rh_arena.specs.Words.{Words, entry_count, list_count};
    ghost use Rattle.rh_arena.specs.WellFormed.{IsWellFormed};

    ghost Value = { Words };

    ghost view = { λ s. s.links };

    ghost invariant = { λ s. record {
      formed : IsWellFormed s.links;
      entries : entry_count s.links ≤ 65535;
      lists : list_count s.links ≤ 65535;
    } };
}

impl Lists {
    /// So many entries, each in no list, and so many lists, each empty. The error says that memory was refused.
    #[tactic(auto, using(crate::proofs::Unlinked::unlinked_listed, crate::proofs::Unlinked::unlinked_formed))]
    pub fn new(alloc: Global, entries: u16, lists: u16) -> Result<Lists, AllocError>
        ensures words { IfOk result (λ arena. arena ≡ unlinked entries lists) }
        ensures empty { IfOk result (λ arena. (list : ℕ) → listed arena list ≡ []) }
    {
        Ok(Lists {
            links: Links::new(alloc, entries as usize, lists as usize)?,
        })
    }

    /// An arena with equal words. The error says that memory was refused.
    pub fn copy(&self, alloc: Global) -> Result<Lists, AllocError>
        ensures { IfOk result (λ copy. copy ≡ self.now) }
    {
        Ok(Lists {
            links: self.links.copy(alloc)?,
        })
    }

    /// Are all words of the two equal, also the links that entries in no list have kept?
    pub fn same_words(&self, other: &Lists) -> bool
        ensures { (result ≡ true) ↔ (self.now ≡ other.now) }
    {
        self.links.same(&other.links)
    }

    /// What holds of the words at all times.
    pub fn formed(&self)
        ensures { IsWellFormed self.now }
    {
        let _ = &self.links;
    }

    /// How many entries there are, in lists or not.
    pub fn entry_count(&self) -> u32
        ensures { result ≡ entry_count self.now }
    {
        self.links.entry_count() as u32
    }

    /// How many lists there are, empty or not.
    pub fn list_count(&self) -> u32
        ensures { result ≡ list_count self.now }
    {
        self.links.list_count() as u32
    }

    /// The first entry of a list; `None` exactly if it is empty.
    #[tactic(auto, using(crate::proofs::Reading::first_listed))]
    pub fn first(&self, list: u32) -> Option<u32>
        requires { list < list_count self.now }
        ensures word { result ≡ head_of self.now list }
        ensures first { result ≡ slice_get (listed self.now list) 0 }
    {
        self.links.list(list as usize).head.wide()
    }

    /// The entry behind an entry in its list. Of an entry in no list it is what was behind it when it was taken out, or
    /// `None` if it was in no list yet.
    #[tactic(auto, using(crate::proofs::Reading::next_listed))]
    pub fn next(&self, entry: u32) -> Option<u32>
        requires { entry < entry_count self.now }
        ensures word { result ≡ next_of self.now entry }
        ensures behind { (list : ℕ) → owner_of self.now entry ≡ Some list
            → result ≡ after entry (listed self.now list) }
    {
        self.links.entry(entry as usize).next.wide()
    }

    /// The entry before an entry in its list. Of an entry in no list it is what was before it when it was taken out, or
    /// `None` if it was in no list yet.
    #[tactic(auto, using(crate::proofs::Reading::prev_listed))]
    pub fn prev(&self, entry: u32) -> Option<u32>
        requires { entry < entry_count self.now }
        ensures word { result ≡ prev_of self.now entry }
        ensures ahead { (list : ℕ) → owner_of self.now entry ≡ Some list
            → result ≡ before entry (listed self.now list) }
    {
        self.links.entry(entry as usize).prev.wide()
    }

    /// The list that an entry is in, if it is in one.
    #[tactic(auto, using(crate::proofs::Reading::owner_inside))]
    pub fn list_of(&self, entry: u32) -> Option<u32>
        requires { entry < entry_count self.now }
        ensures word { result ≡ owner_of self.now entry }
        ensures member { (list : ℕ)
            → (owner_of self.now entry ≡ Some list) ↔ Contains (listed self.now list) entry }
        ensures list { IfSome result (λ list. list < list_count self.now) }
    {
        self.links.entry(entry as usize).owner.wide()
    }

    /// How many entries a list has.
    #[tactic(auto, using(crate::proofs::Reading::count_small, crate::proofs::Reading::count_listed))]
    pub fn count(&self, list: u32) -> u32
        requires { list < list_count self.now }
        ensures word { result ≡ count_of self.now list }
        ensures count { result ≡ length (listed self.now list) }
        ensures at_most { result ≤ entry_count self.now }
    {
        u32::from(self.links.list(list as usize).count)
    }

    /// Puts an entry that is in no list at the end of a list. Its own links are overwritten.
    #[tactic(auto, using(crate::proofs::Reading::free_is_not_last))]
    pub fn push_back(&mut self, list: u32, entry: u32) -> LinkEdit
        requires list { list < list_count self.old }
        requires entry { entry < entry_count self.old }
        requires free { owner_of self.old entry ≡ None }
        ensures words { self.new ≡ pushed self.old list entry }
        ensures list { listed self.new list ≡ listed self.old list ++ entry ∷ [] }
        ensures others { (other : ℕ) → other ≢ list
            → listed self.new other ≡ listed self.old other }
        ensures entry_count { entry_count self.new ≡ entry_count self.old }
        ensures list_count { list_count self.new ≡ list_count self.old }
        ensures done { result.is_done ≡ true }
        ensures exact { exchange self.new result ≡ self.old }
        ensures entry { entry_in result.changes ≡ entry }
        ensures taken_from { list_in result.changes ≡ None }
    {
        let there = self.links.list(list as usize);
        let last = there.tail;
        let count = there.count;
        let spot = Spot {
            entry: entry as u16,
            list: list as u16,
            before: last,
            after: Link::none(),
        };
        let values = Values {
            prev: last,
            next: Link::none(),
            owner: Link::to(list as u16),
            count: count + 1,
            from_before: Link::to(entry as u16),
            from_behind: Link::to(entry as u16),
        };
        let mut edit = LinkEdit::new(spot, values);
        edit.exchange(&mut self.links);
        edit
    }

    /// Takes an entry that is in a list out of it. Its own links stay as they are.
    pub fn remove(&mut self, entry: u32) -> LinkEdit
        requires { IsSome (owner_of self.old entry) }
        ensures words { (list : ℕ) → owner_of self.old entry ≡ Some list
            → self.new ≡ removed self.old list entry }
        ensures list { (list : ℕ) → owner_of self.old entry ≡ Some list
            → listed self.new list ≡ without entry (listed self.old list) }
        ensures others { (other : ℕ) → owner_of self.old entry ≢ Some other
            → listed self.new other ≡ listed self.old other }
        ensures entry_count { entry_count self.new ≡ entry_count self.old }
        ensures list_count { list_count self.new ≡ list_count self.old }
        ensures done { result.is_done ≡ true }
        ensures exact { exchange self.new result ≡ self.old }
        ensures entry { entry_in result.changes ≡ entry }
        ensures taken_from { list_in result.changes ≡ owner_of self.old entry }
    {
        let there = self.links.entry(entry as usize);
        let Some(list) = there.owner.get() else {
            unreachable!()
        };
        let before = there.prev;
        let after = there.next;
        let count = self.links.list(list as usize).count;
        let spot = Spot {
            entry: entry as u16,
            list,
            before,
            after,
        };
        let values = Values {
            prev: before,
            next: after,
            owner: Link::none(),
            count: count - 1,
            from_before: after,
            from_behind: before,
        };
        let mut edit = LinkEdit::new(spot, values);
        edit.exchange(&mut self.links);
        edit
    }

    /// Takes the change of a done edit back, or whatever exchange of it leaves words of lists; the edit is undone then.
    #[tactic(auto, using(crate::proofs::Exchanges::entries_exchange, crate::proofs::Exchanges::lists_exchange))]
    pub fn revert(&mut self, edit: &mut LinkEdit)
        requires done { edit.old.is_done ≡ true }
        requires formed { IsWellFormed (exchange self.old edit.old) }
        ensures words { self.new ≡ exchange self.old edit.old }
        ensures edit { edit.new ≡ turned self.old edit.old }
        ensures exact { exchange self.new edit.new ≡ self.old }
        ensures again { turned self.new edit.new ≡ edit.old }
    {
        prove!(edit.is_done());
        edit.exchange(&mut self.links);
    }

    /// Makes the change of an undone edit again, or whatever exchange of it leaves words of lists; the edit is done then.
    #[tactic(auto, using(crate::proofs::Exchanges::entries_exchange, crate::proofs::Exchanges::lists_exchange))]
    pub fn reapply(&mut self, edit: &mut LinkEdit)
        requires undone { edit.old.is_done ≡ false }
        requires formed { IsWellFormed (exchange self.old edit.old) }
        ensures words { self.new ≡ exchange self.old edit.old }
        ensures edit { edit.new ≡ turned self.old edit.old }
        ensures exact { exchange self.new edit.new ≡ self.old }
        ensures again { turned self.new edit.new ≡ edit.old }
    {
        prove!(!edit.is_done());
        edit.exchange(&mut self.links);
    }
}
