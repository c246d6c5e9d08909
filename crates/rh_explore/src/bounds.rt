//! How far a search goes, and how far it came.

ghost use Rattle.std.specs.Prelude.{◌≡◌, ◌<◌, ◌^◌};
ghost use Rattle.rh_explore.specs.Exploring.{most_bytes};

/// How far a search goes.
#[derive(Clone, Copy, Debug, PartialEq, Eq)]
pub struct Bounds {
    /// At most so many nodes are waiting or down behind each event. The base may have more.
    pub down: usize,
    /// At most so many events follow one another.
    pub steps: u32,
    /// At most so many states are kept, and at least the base.
    pub states: usize,
    /// No more states are kept once the keys of those that are take so many mebibytes (1,048,576 bytes). A search takes more than its
    /// keys, up to six times as much where these are short.
    pub mebibytes: u32,
}

impl Bounds {
    // How many bytes the keys may have.
    pub(crate) fn most_bytes(&self) -> usize
        ensures bytes { result ≡ most_bytes self.now }
        ensures few { result < 2 ^ 52 }
    {
        self.mebibytes as usize * 1_048_576
    }
}

/// The lists of events of which all were looked at.
#[derive(Clone, Copy, Debug, PartialEq, Eq)]
pub enum Covered {
    /// Those of any length: no state was left from which an event could lead to one that is alike to none.
    All,
    /// Those of at most so many events.
    UpTo(u32),
}
