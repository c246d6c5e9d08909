//! Linked lists of numbered entries, whose changes can be taken back word by word.
//!
//! An **arena**, [`Lists`], has a fixed number of entries and a fixed number of lists, both numbered from 0. Each entry
//! is in one list at most. All that it keeps are **words**: for each entry the entry before it, the one behind it and
//! its list, for each list its first entry, its last one and how many it has. All are made with the arena, so no later
//! call takes memory. A word is of 16 bits: an arena has 65,535 entries and 65,535 lists at most.
//!
//! A call that changes lists answers an **edit**, [`LinkEdit`]: six different words, each with the value that it had
//! (the own links of an entry that is taken out are two of them, and keep their values). To **exchange** an edit is to
//! give each of its words its value, and the edit the values that these words had: the edit changes sides, from done to
//! undone or back, and exchanging it again gives everything back, every word of it. So [`Lists::revert`] takes a change
//! back and [`Lists::reapply`] makes it again, also where an entry stood in the middle of its list, and also the links
//! that entries in no list have kept.
#![tactic(auto)]

mod change;
mod edit;
mod link;
mod links;
mod lists;
mod spot;
mod words;

pub use change::Change;
pub use edit::LinkEdit;
pub use lists::Lists;
