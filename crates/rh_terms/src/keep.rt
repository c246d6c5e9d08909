//! What of a text's terms is kept.

ghost use Rattle.std.specs.Prelude.{◌≡◌, ℕ, List, Option, Some, IsTrue};
ghost use Rattle.rh_base.specs.Tree.{tree_of};
ghost use Rattle.rh_terms.specs.Kept.{next_behind};

use rh_base::Term;

/// Tells what of a term is kept, by where it stands. A term that isn't kept is checked as all others are; of it is kept
/// whether it is a list.
pub trait Keep: Copy {
    // What is kept behind this key, if anything is.
    ghost behind_key: { Self → List ℕ → Option Self };

    /// What is kept of the parts of a tuple behind its first part, where that is this atom. They are skipped where it is `None`.
    fn behind(self, key: &str) -> Option<Self>
        ensures { result ≡ behind_key self key.now };

    /// Is all of a term kept, whatever keys stand in it? Then a list that is written again, as deep, may be shared in place of being read
    /// again. `false`, which is answered where this isn't given, is always right, and only slower.
    fn is_whole(self) -> bool
        ensures { IsTrue result → (key : List ℕ) → behind_key self key ≡ Some self }
    {
        false
    }
}

/// All is kept.
#[derive(Clone, Copy)]
pub struct KeepAll;

impl Keep for KeepAll {
    ghost behind_key = { λ whole _. Some whole };

    fn behind(self, _key: &str) -> Option<KeepAll> {
        Some(self)
    }

    fn is_whole(self) -> bool {
        true
    }
}

/// What is kept of the terms that come next in a list or a tuple.
#[derive(Clone, Copy)]
pub enum Next<K> {
    /// Each of them is kept so.
    Each(K),
    /// The first part of a tuple is kept so. Where it is an atom, it is the key of the parts behind it.
    First(K),
    /// They are skipped.
    Skipped,
}

/// What is kept of the terms behind this one.
pub fn next_behind<K: Keep>(next: Next<K>, term: &Term) -> Next<K>
    ensures { result ≡ next_behind K.behind_key next (tree_of term.now) }
{
    match next {
        Next::First(keep) => match term {
            Term::Atom(key) => match keep.behind(key.as_str()) {
                Some(keep) => Next::Each(keep),
                None => Next::Skipped,
            },
            _ => Next::Each(keep),
        },
        _ => next,
    }
}
