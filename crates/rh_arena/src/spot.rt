//! Where a list changes, and the values there.
//!
//! All numbers are of 16 bits, since edits are kept by the million: those of entries and lists are 65,534 at most, and a
//! list has 65,535 entries at most.

use crate::link::Link;

/// Where an entry is put into a list, or taken out of it. Six words are concerned: three of the entry, how many entries
/// the list has, and the link to the entry from each side.
#[derive(Clone, Copy)]
pub struct Spot {
    pub entry: u16,
    pub list: u16,
    /// The entry before it, if there is one: then that one's word for what is behind it is the link from before, else the
    /// list's word for its first entry is.
    pub before: Link,
    /// The entry behind it, if there is one: then that one's word for what is before it is the link from behind, else the
    /// list's word for its last entry is.
    pub after: Link,
}

/// A value for each of the six words.
#[derive(Clone, Copy)]
pub struct Values {
    /// What is before the entry, what is behind it, and its list.
    pub prev: Link,
    pub next: Link,
    pub owner: Link,
    /// How many entries the list has.
    pub count: u16,
    /// The link from before, and the link from behind.
    pub from_before: Link,
    pub from_behind: Link,
}
