//! Terms of a certain shape.

ghost use Rattle.std.specs.Prelude.{◌≡◌, map};
ghost use Rattle.std.specs.Option.{option_map};
ghost use Rattle.rh_base.specs.Tree.{tree_of};
ghost use Rattle.rh_cluster.specs.Shapes.{as_atom, as_tuple};
ghost use Rattle.rh_cluster.specs.Sections.{as_share};

use rh_base::{Str, Term};

/// The name that an atom is.
#[tactic(auto, unfolding(rh_cluster::specs::Shapes::as_atom))]
pub fn atom(term: &Term) -> Option<&Str>
    ensures { option_map (λ name. name.now) result ≡ as_atom (tree_of term.now) }
{
    match term {
        Term::Atom(name) => Some(name),
        _ => None,
    }
}

/// The parts of a tuple.
#[tactic(auto, unfolding(rh_cluster::specs::Shapes::as_tuple))]
pub fn tuple(term: &Term) -> Option<&[Term]>
    ensures { option_map (λ terms. map tree_of terms.now) result ≡ as_tuple (tree_of term.now) }
{
    match term {
        Term::Tuple(terms) => Some(terms.as_slice()),
        _ => None,
    }
}

/// The parts of an entry of `distributed`: its application, its timeout if it has one, and its list.
#[tactic(auto, unfolding(rh_cluster::specs::Sections::as_share))]
pub fn share(term: &Term) -> Option<(&Term, Option<&Term>, &Term)>
    ensures { option_map (λ s. (
      tree_of s.0.now,
      option_map (λ t. tree_of t.now) s.1,
      tree_of s.2.now,
    )) result ≡ as_share (tree_of term.now) }
{
    match tuple(term)? {
        [app, places] => Some((app, None, places)),
        [app, timeout, places] => Some((app, Some(timeout), places)),
        _ => None,
    }
}
