//! A word with a value.

/// A word of the lists, with a value that it had or will have. It is the word in which contracts speak of an edit, which
/// keeps less: where a list changes, and the six values.
#[derive(Clone, Copy, Debug, PartialEq, Eq)]
pub enum Change {
    /// The entry before an entry.
    Prev(u32, Option<u32>),
    /// The entry behind an entry.
    Next(u32, Option<u32>),
    /// The list of an entry.
    Owner(u32, Option<u32>),
    /// The first entry of a list.
    Head(u32, Option<u32>),
    /// The last entry of a list.
    Tail(u32, Option<u32>),
    /// How many entries a list has.
    Count(u32, u32),
}
