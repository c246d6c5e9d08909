//! The words of an arena.

ghost use Rattle.std.specs.Prelude.{◌≡◌, ◌<◌, ◌↔◌, ℕ, map, slice_index_or, slice_set, IfOk, None, Some, true};
ghost use Rattle.rh_arena.specs.Exchange.{had, puts};
ghost use Rattle.rh_arena.specs.Linking.{set_at, set_unless};
ghost use Rattle.rh_arena.specs.Spots.{changes_at, IsBetween};
ghost use Rattle.rh_arena.specs.Words.{unlinked, entry_count, list_count, prev_of, next_of, owner_of, head_of, tail_of, count_of};

use crate::link::Link;
use crate::spot::{Spot, Values};
use crate::words::{EntryWords, ListWords, are_entries_same, are_lists_same};
use std::alloc::{AllocError, Global};
use std::marker::Model;
use std::mem;

/// The words.
#[derive(Drop)]
pub struct Links {
    // The three words of an entry stand side by side, and those of a list too, so that an exchange finds them together in the
    // cache. It tests the number of its entry once for all three, and that of its list once for each word that it gives there.
    entries: Vec<EntryWords>,
    lists: Vec<ListWords>,
}

impl Model for Links {
    ghost use Rattle.rh_arena.specs.Words.{Words};

    ghost Value = { Words };

    ghost use Rattle.rh_arena.specs.SideBySide.{words_of};

    ghost view = { λ w. words_of w.entries.items w.lists.items };
}

impl Links {
    // The words of so many entries and so many lists, nothing linked.
    pub fn new(alloc: Global, entries: usize, lists: usize) -> Result<Links, AllocError>
        ensures { IfOk result (λ links. links ≡ unlinked entries lists) }
    {
        Ok(Links {
            entries: vec![in alloc; EntryWords::of_unlinked_entry(); entries]?,
            lists: vec![in alloc; ListWords::of_empty_list(); lists]?,
        })
    }

    // Equal words.
    pub fn copy(&self, alloc: Global) -> Result<Links, AllocError>
        ensures { IfOk result (λ copy. copy ≡ self.now) }
    {
        Ok(Links {
            entries: Vec::from_slice(alloc, self.entries.as_slice())?,
            lists: Vec::from_slice(alloc, self.lists.as_slice())?,
        })
    }

    // Are all words equal?
    pub fn same(&self, other: &Links) -> bool
        ensures { (result ≡ true) ↔ (self.now ≡ other.now) }
    {
        are_entries_same(&self.entries, &other.entries) && are_lists_same(&self.lists, &other.lists)
    }

    // How many entries there are.
    pub fn entry_count(&self) -> usize
        ensures { result ≡ entry_count self.now }
    {
        self.entries.len()
    }

    // How many lists there are.
    pub fn list_count(&self) -> usize
        ensures { result ≡ list_count self.now }
    {
        self.lists.len()
    }

    // The words of an entry.
    #[inline]
    pub fn entry(&self, entry: usize) -> EntryWords
        requires { entry < entry_count self.now }
        ensures prev { result.prev ≡ prev_of self.now entry }
        ensures next { result.next ≡ next_of self.now entry }
        ensures owner { result.owner ≡ owner_of self.now entry }
    {
        self.entries[entry]
    }

    // The words of a list.
    #[inline]
    pub fn list(&self, list: usize) -> ListWords
        requires { list < list_count self.now }
        ensures head { result.head ≡ head_of self.now list }
        ensures tail { result.tail ≡ tail_of self.now list }
        ensures count { result.count ≡ count_of self.now list }
    {
        self.lists[list]
    }

    // Gives the words at a place of a list these values, and the values those that the words had.
    //
    // A value and its word change places one after another, so that few of them are in hand at a time, and the rest of the
    // place is read early, so that it is known which words the links to the entry are.
    pub fn exchange(&mut self, spot: &Spot, values: &mut Values)
        requires { IsBetween spot.now }
        ensures words { self.new ≡ puts self.old (changes_at spot.now values.old) }
        ensures values { changes_at spot.now values.new
            ≡ map (had self.old) (changes_at spot.now values.old) }
    {
        self.exchange_entry(spot.entry, values);
        let list = spot.list;
        let before = spot.before;
        let after = spot.after;
        self.exchange_count(list, &mut values.count);
        self.exchange_from_before(list, before, &mut values.from_before);
        self.exchange_from_behind(list, after, &mut values.from_behind);
    }

    // Exchanges the words of an entry for values. All three are read before one is written: swapped one after the other, they take
    // four instructions more.
    #[inline]
    fn exchange_entry(&mut self, entry: u16, values: &mut Values)
        ensures words { self.new ≡ record self.old {
          prev = slice_set self.old.prev entry values.old.prev;
          next = slice_set self.old.next
              entry values.old.next;
          owner = slice_set self.old.owner entry values.old.owner;
        } }
        ensures values { values.new ≡ record values.old {
          prev = slice_index_or self.old.prev entry
              values.old.prev;
          next = slice_index_or self.old.next entry values.old.next;
          owner = slice_index_or self.old.owner entry values.old.owner;
        } }
    {
        if let Some(there) = self.entries.get_mut(usize::from(entry)) {
            let had = *there;
            *there = EntryWords {
                prev: values.prev,
                next: values.next,
                owner: values.owner,
            };
            values.prev = had.prev;
            values.next = had.next;
            values.owner = had.owner;
        }
    }

    // Exchanges how many entries a list has for a value.
    #[inline]
    fn exchange_count(&mut self, list: u16, value: &mut u16)
        ensures words { self.new
            ≡ record self.old { count = slice_set self.old.count list value.old } }
        ensures value { value.new ≡ slice_index_or self.old.count list value.old }
    {
        if let Some(there) = self.lists.get_mut(usize::from(list)) {
            mem::swap(&mut there.count, value);
        }
    }

    // Exchanges the link from before a place for a value: the word for what is behind the entry there or, where there is none,
    // the list's word for its first entry.
    #[inline]
    fn exchange_from_before(&mut self, list: u16, before: Link, value: &mut Link)
        ensures words { self.new ≡ record self.old {
          next = set_at self.old.next before value.old;
          head = set_unless self.old.head before list value.old;
        } }
        ensures none { before ≡ None → value.new ≡ slice_index_or self.old.head list value.old }
        ensures value { (i : ℕ) → before ≡ Some i
            → value.new ≡ slice_index_or self.old.next i value.old }
    {
        match before.get() {
            Some(before) => self.exchange_next(before, value),
            None => self.exchange_head(list, value),
        }
    }

    // Exchanges the link from behind a place for a value: the word for what is before the entry there or, where there is none,
    // the list's word for its last entry.
    #[inline]
    fn exchange_from_behind(&mut self, list: u16, after: Link, value: &mut Link)
        ensures words { self.new ≡ record self.old {
          prev = set_at self.old.prev after value.old;
          tail = set_unless self.old.tail after list value.old;
        } }
        ensures none { after ≡ None → value.new ≡ slice_index_or self.old.tail list value.old }
        ensures value { (i : ℕ) → after ≡ Some i
            → value.new ≡ slice_index_or self.old.prev i value.old }
    {
        match after.get() {
            Some(after) => self.exchange_prev(after, value),
            None => self.exchange_tail(list, value),
        }
    }

    // Exchanges what is behind an entry for a value.
    #[inline]
    fn exchange_next(&mut self, entry: u16, value: &mut Link)
        ensures words { self.new
            ≡ record self.old { next = slice_set self.old.next entry value.old } }
        ensures value { value.new ≡ slice_index_or self.old.next entry value.old }
    {
        if let Some(there) = self.entries.get_mut(usize::from(entry)) {
            mem::swap(&mut there.next, value);
        }
    }

    // Exchanges what is before an entry for a value.
    #[inline]
    fn exchange_prev(&mut self, entry: u16, value: &mut Link)
        ensures words { self.new
            ≡ record self.old { prev = slice_set self.old.prev entry value.old } }
        ensures value { value.new ≡ slice_index_or self.old.prev entry value.old }
    {
        if let Some(there) = self.entries.get_mut(usize::from(entry)) {
            mem::swap(&mut there.prev, value);
        }
    }

    // Exchanges the first entry of a list for a value.
    #[inline]
    fn exchange_head(&mut self, list: u16, value: &mut Link)
        ensures words { self.new
            ≡ record self.old { head = slice_set self.old.head list value.old } }
        ensures value { value.new ≡ slice_index_or self.old.head list value.old }
    {
        if let Some(there) = self.lists.get_mut(usize::from(list)) {
            mem::swap(&mut there.head, value);
        }
    }

    // Exchanges the last entry of a list for a value.
    #[inline]
    fn exchange_tail(&mut self, list: u16, value: &mut Link)
        ensures words { self.new
            ≡ record self.old { tail = slice_set self.old.tail list value.old } }
        ensures value { value.new ≡ slice_index_or self.old.tail list value.old }
    {
        if let Some(there) = self.lists.get_mut(usize::from(list)) {
            mem::swap(&mut there.tail, value);
        }
    }
}
