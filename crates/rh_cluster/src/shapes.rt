//! Terms of a certain shape.

ghost use Rattle.std.specs.Prelude.{◌≡◌, ◌≤◌, true, map, IfSome};
ghost use Rattle.std.specs.Option.{option_map};
ghost use Rattle.rh_base.specs.Tree.{tree_of};
ghost use Rattle.rh_model.specs.Limits.{is_profile, timeout_limit};
ghost use Rattle.rh_cluster.specs.Shapes.{as_atom, as_list, as_tuple, as_int, as_pair, as_triple, as_entry, as_headed, as_node, as_app, if_profile, as_profile, as_time};

use rh_base::Term;
use rh_model::{TIMEOUT_LIMIT, is_profile};

/// The name that an atom is.
#[tactic(auto, unfolding(crate::specs::Shapes::as_atom))]
pub fn atom(term: &Term) -> Option<&str>
    ensures { option_map (λ name. name.now) result ≡ as_atom (tree_of term.now) }
{
    match term {
        Term::Atom(name) => Some(name.as_str()),
        _ => None,
    }
}

/// The elements of a list.
#[tactic(auto, unfolding(crate::specs::Shapes::as_list))]
pub fn list(term: &Term) -> Option<&[Term]>
    ensures { option_map (λ terms. map tree_of terms.now) result ≡ as_list (tree_of term.now) }
{
    match term {
        Term::List(terms) => Some(terms.as_slice()),
        _ => None,
    }
}

/// The parts of a tuple.
#[tactic(auto, unfolding(crate::specs::Shapes::as_tuple))]
pub fn tuple(term: &Term) -> Option<&[Term]>
    ensures { option_map (λ terms. map tree_of terms.now) result ≡ as_tuple (tree_of term.now) }
{
    match term {
        Term::Tuple(terms) => Some(terms.as_slice()),
        _ => None,
    }
}

/// An integer's number.
#[tactic(auto, unfolding(crate::specs::Shapes::as_int))]
pub fn int(term: &Term) -> Option<i64>
    ensures { result ≡ as_int (tree_of term.now) }
{
    match term {
        Term::Int(number) => Some(*number),
        _ => None,
    }
}

/// The parts of a tuple of two.
#[tactic(auto, unfolding(crate::specs::Shapes::as_pair))]
pub fn pair(term: &Term) -> Option<(&Term, &Term)>
    ensures { option_map (λ parts. (tree_of parts.0.now, tree_of parts.1.now)) result
        ≡ as_pair (tree_of term.now) }
{
    match tuple(term)? {
        [first, second] => Some((first, second)),
        _ => None,
    }
}

/// The parts of a tuple of three.
#[tactic(auto, unfolding(crate::specs::Shapes::as_triple))]
pub fn triple(term: &Term) -> Option<(&Term, &Term, &Term)>
    ensures { option_map (λ parts. (tree_of parts.0.now, tree_of parts.1.now, tree_of parts.2.now))
        result ≡ as_triple (tree_of term.now) }
{
    match tuple(term)? {
        [first, second, third] => Some((first, second, third)),
        _ => None,
    }
}

/// The parts of `{Atom, Value}`.
#[tactic(auto, unfolding(crate::specs::Shapes::as_entry))]
pub fn entry(term: &Term) -> Option<(&str, &Term)>
    ensures { option_map (λ parts. (parts.0.now, tree_of parts.1.now)) result
        ≡ as_entry (tree_of term.now) }
{
    let (key, value) = pair(term)?;
    let key = atom(key)?;
    Some((key, value))
}

// The name and the last part of `{Word, Name, Part}`.
#[tactic(auto, unfolding(crate::specs::Shapes::as_headed))]
fn headed_by<'a>(word: &str, term: &'a Term) -> Option<(&'a str, &'a Term)>
    ensures { option_map (λ parts. (parts.0.now, tree_of parts.1.now)) result
        ≡ as_headed word.now (tree_of term.now) }
{
    let (first, name, part) = triple(term)?;
    let first = atom(first)?;
    if first != word {
        return None;
    }
    let name = atom(name)?;
    Some((name, part))
}

/// The name and the configuration of a node term.
pub fn node(term: &Term) -> Option<(&str, &Term)>
    ensures { option_map (λ parts. (parts.0.now, tree_of parts.1.now)) result
        ≡ as_node (tree_of term.now) }
{
    headed_by("node", term)
}

/// The name and the keys of an application term.
pub fn app(term: &Term) -> Option<(&str, &Term)>
    ensures { option_map (λ parts. (parts.0.now, tree_of parts.1.now)) result
        ≡ as_app (tree_of term.now) }
{
    headed_by("application", term)
}

// The number of a profile, if there is one of this number.
fn profile_of(number: i64) -> Option<u8>
    ensures profile { result ≡ if_profile number }
    ensures known { IfSome result (λ profile. is_profile profile ≡ true) }
{
    if 0 <= number && is_profile(number as u64) {
        Some(number as u8)
    } else {
        None
    }
}

/// The number of `{profile, Number}`, if there is such a profile.
#[tactic(auto, unfolding(crate::specs::Shapes::as_profile))]
pub fn profile(term: &Term) -> Option<u8>
    ensures profile { result ≡ as_profile (tree_of term.now) }
    ensures known { IfSome result (λ profile. is_profile profile ≡ true) }
{
    let (key, value) = entry(term)?;
    if key != "profile" {
        return None;
    }
    profile_of(int(value)?)
}

/// A time in milliseconds, up to the longest.
#[tactic(auto, unfolding(crate::specs::Shapes::as_time))]
pub fn time(term: &Term) -> Option<u64>
    ensures time { result ≡ as_time (tree_of term.now) }
    ensures limit { IfSome result (λ time. time ≤ timeout_limit) }
{
    let number = int(term)?;
    if 0 <= number && number as u64 <= TIMEOUT_LIMIT {
        Some(number as u64)
    } else {
        None
    }
}
