//! Links.

ghost use Rattle.std.specs.Prelude.{◌≡◌, ◌<◌, ◌↔◌, Some, None, true};

use std::marker::Model;

/// An entry or a list, or none, in two bytes.
///
/// The number 65,535 stands for none. An arena has 65,535 entries and 65,535 lists at most, numbered from 0, so no entry
/// and no list has that number.
#[derive(Clone, Copy)]
pub struct Link {
    raw: u16,
}

impl Model for Link {
    ghost use Rattle.std.specs.Prelude.{ℕ, Option};
    ghost use Rattle.rh_arena.specs.Link.{link, raw_of, raw_of-link};
    ghost use Rattle.std.proofs.Math.Path.{ap};

    ghost Value = { Option ℕ };

    ghost view = { λ l. link l.raw };

    ghost inverse = { λ o. record { raw = raw_of o } };

    ghost inverse_ok = { λ l h. ap (λ n. record { raw = n }) (raw_of-link l.raw) };
}

impl Link {
    // The number that stands for none.
    const NONE: u16 = 65_535;

    // No entry, and no list.
    pub fn none() -> Link
        ensures { result ≡ None }
    {
        Link { raw: Link::NONE }
    }

    // The entry or the list of this number.
    pub fn to(number: u16) -> Link
        requires { number < 65535 }
        ensures { result ≡ Some number }
    {
        Link { raw: number }
    }

    // Its number.
    pub fn get(self) -> Option<u16>
        ensures { result ≡ self }
    {
        if self.raw == Link::NONE {
            None
        } else {
            Some(self.raw)
        }
    }

    // The same, as a number of 32 bits.
    pub fn wide(self) -> Option<u32>
        ensures { result ≡ self }
    {
        match self.get() {
            None => None,
            Some(number) => Some(u32::from(number)),
        }
    }

    // Are both to the same one, or to none?
    pub fn is_same(self, other: Link) -> bool
        ensures { (result ≡ true) ↔ (self ≡ other) }
    {
        self.raw == other.raw
    }
}
