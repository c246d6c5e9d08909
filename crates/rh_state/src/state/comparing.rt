//! Whether two states are kept alike.

ghost use Rattle.std.specs.Prelude.{◌≡◌, ◌↔◌, true, IsTrue};

use crate::state::State;
use crate::status::{Kind, Mode, Standing};
use rh_base::{Same, are_same};

impl State {
    /// Is all that is kept of the two equal, also the links that pairs in no list have kept, and timers that aren't set?
    pub fn same_words(&self, other: &State) -> bool
        ensures { (result ≡ true) ↔ (self.now ≡ other.now) }
    {
        self.cluster.same(&other.cluster)
            && self.same_marks(other)
            && self.same_tables(other)
            && self.links.same_words(&other.links)
            && self.wheel.same_words(&other.wheel)
    }

    // The time, what is said of each node, and where each application stands.
    fn same_marks(&self, other: &State) -> bool
        ensures { IsTrue result ↔ ((self.now.time ≡ other.now.time)
            × (self.now.modes ≡ other.now.modes) × (self.now.incarnations ≡ other.now.incarnations)
            × (self.now.standings ≡ other.now.standings)) }
    {
        self.time == other.time
            && are_same(self.modes.as_slice(), other.modes.as_slice())
            && self.incarnations.as_slice() == other.incarnations.as_slice()
            && are_same(self.standings.as_slice(), other.standings.as_slice())
    }

    // The tables over pairs.
    fn same_tables(&self, other: &State) -> bool
        ensures { IsTrue result ↔ ((self.now.restarts ≡ other.now.restarts)
            × (self.now.kinds ≡ other.now.kinds) × (self.now.allowed ≡ other.now.allowed)) }
    {
        self.restarts.same(&other.restarts)
            && self.kinds.same(&other.kinds)
            && self.allowed.same(&other.allowed)
    }
}

impl Same for Mode {
    fn same(&self, other: &Mode) -> bool
        ensures { IsTrue result ↔ (self.now ≡ other.now) }
    {
        *self == *other
    }
}

impl Same for Kind {
    fn same(&self, other: &Kind) -> bool
        ensures { IsTrue result ↔ (self.now ≡ other.now) }
    {
        *self == *other
    }
}

impl Same for Standing {
    fn same(&self, other: &Standing) -> bool
        ensures { IsTrue result ↔ (self.now ≡ other.now) }
    {
        *self == *other
    }
}
