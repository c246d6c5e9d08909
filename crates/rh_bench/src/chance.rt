//! Numbers that look random, and are the same for the same seed.

ghost use Rattle.std.specs.Prelude.{◌<◌};

/// A row of numbers: SplitMix64 (Steele, Lea and Flood, "Fast Splittable Pseudorandom Number Generators", 2014).
#[derive(Drop)]
pub struct Chance {
    state: u64,
}

impl Chance {
    /// The row of a seed.
    pub fn of(seed: u64) -> Chance {
        Chance { state: seed }
    }

    // The next number.
    fn next(&mut self) -> u64 {
        self.state = self.state.wrapping_add(0x9e37_79b9_7f4a_7c15);
        let first = (self.state ^ self.state >> 30).wrapping_mul(0xbf58_476d_1ce4_e5b9);
        let second = (first ^ first >> 27).wrapping_mul(0x94d0_49bb_1331_11eb);
        second ^ second >> 31
    }

    /// A number below this one.
    pub fn below(&mut self, count: usize) -> usize
        requires { 0 < count }
        ensures { result < count }
    {
        (self.next() % count as u64) as usize
    }

    /// Whether it comes so many times in a hundred.
    pub fn comes(&mut self, percent: usize) -> bool {
        self.below(100) < percent
    }
}
