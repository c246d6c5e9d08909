//! Which of several equally good nodes is taken.

/// Which of several equally good nodes is taken (ours: the manual leaves it open).
#[derive(Clone, Copy, Debug, PartialEq, Eq)]
pub enum Pick {
    /// The one that is written first in its group.
    First,
    /// The one that is written last.
    Last,
}
