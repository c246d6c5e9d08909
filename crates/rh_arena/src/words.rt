//! The words of an entry and those of a list, side by side.

ghost use Rattle.std.specs.Prelude.{◌≡◌, ◌↔◌, None, true};

use crate::link::Link;

/// The words of an entry. A change of lists is mostly one of all three, so they stand side by side.
#[derive(Clone, Copy)]
pub struct EntryWords {
    /// The entry before it, the one behind it, and its list.
    pub prev: Link,
    pub next: Link,
    pub owner: Link,
}

/// The words of a list.
#[derive(Clone, Copy)]
pub struct ListWords {
    /// Its first entry, its last one, and how many it has.
    pub head: Link,
    pub tail: Link,
    pub count: u16,
}

impl EntryWords {
    // Those of an entry that is in no list.
    pub fn of_unlinked_entry() -> EntryWords
        ensures { result ≡ record { prev = None; next = None; owner = None } }
    {
        EntryWords {
            prev: Link::none(),
            next: Link::none(),
            owner: Link::none(),
        }
    }

    // Are the words equal?
    pub fn is_same(self, other: EntryWords) -> bool
        ensures { (result ≡ true) ↔ (self ≡ other) }
    {
        self.prev.is_same(other.prev)
            && self.next.is_same(other.next)
            && self.owner.is_same(other.owner)
    }
}

impl ListWords {
    // Those of an empty list.
    pub fn of_empty_list() -> ListWords
        ensures { result ≡ record { head = None; tail = None; count = 0 } }
    {
        ListWords {
            head: Link::none(),
            tail: Link::none(),
            count: 0,
        }
    }

    // Are the words equal?
    pub fn is_same(self, other: ListWords) -> bool
        ensures { (result ≡ true) ↔ (self ≡ other) }
    {
        self.head.is_same(other.head) && self.tail.is_same(other.tail) && self.count == other.count
    }
}

// Do the same entries have the same words?
pub fn are_entries_same(some: &[EntryWords], others: &[EntryWords]) -> bool
    ensures { (result ≡ true) ↔ (some.now ≡ others.now) }
{
    if some.len() != others.len() {
        return false;
    }
    'entries: for place in 0..some.len() {
        if !some[place].is_same(others[place]) {
            return false;
        }
    }
    true
}

// Do the same lists have the same words?
pub fn are_lists_same(some: &[ListWords], others: &[ListWords]) -> bool
    ensures { (result ≡ true) ↔ (some.now ≡ others.now) }
{
    if some.len() != others.len() {
        return false;
    }
    'lists: for place in 0..some.len() {
        if !some[place].is_same(others[place]) {
            return false;
        }
    }
    true
}
