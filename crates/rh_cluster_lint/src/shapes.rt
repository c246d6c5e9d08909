//! Which terms describe nodes, and which applications.

ghost use Rattle.std.specs.Prelude.{◌≡◌, ◌++◌, is_some, map, IfOk, OnOk};
ghost use Rattle.std.specs.Option.{option_map};
ghost use Rattle.rh_base.specs.Tree.{tree_of};
ghost use Rattle.rh_cluster.specs.Shapes.{as_atom, as_tuple, as_triple, as_headed};
ghost use Rattle.rh_cluster_lint.specs.Lines.{place_here, places_of};

use rh_base::{OutOfMemory, Str, Term};
use std::alloc::Global;

/// The name that an atom is.
#[tactic(auto, unfolding(rh_cluster::specs::Shapes::as_atom))]
pub fn atom(term: &Term) -> Option<&Str>
    ensures { option_map (λ name. name.now) result ≡ as_atom (tree_of term.now) }
{
    match term {
        Term::Atom(name) => Some(name),
        _ => None,
    }
}

/// The parts of a tuple.
#[tactic(auto, unfolding(rh_cluster::specs::Shapes::as_tuple))]
pub fn tuple(term: &Term) -> Option<&[Term]>
    ensures { option_map (λ terms. map tree_of terms.now) result ≡ as_tuple (tree_of term.now) }
{
    match term {
        Term::Tuple(terms) => Some(terms.as_slice()),
        _ => None,
    }
}

// The parts of a tuple of three.
#[tactic(auto, unfolding(rh_cluster::specs::Shapes::as_triple))]
fn triple(term: &Term) -> Option<(&Term, &Term, &Term)>
    ensures { option_map (λ parts. (tree_of parts.0.now, tree_of parts.1.now, tree_of parts.2.now))
        result ≡ as_triple (tree_of term.now) }
{
    match tuple(term)? {
        [first, second, third] => Some((first, second, third)),
        _ => None,
    }
}

// The name and the last part of `{Word, Name, Part}`.
#[tactic(auto, unfolding(rh_cluster::specs::Shapes::as_headed))]
fn headed_by<'a>(word: &str, term: &'a Term) -> Option<(&'a Str, &'a Term)>
    ensures { option_map (λ parts. (parts.0.now, tree_of parts.1.now)) result
        ≡ as_headed word.now (tree_of term.now) }
{
    let (first, name, part) = triple(term)?;
    let first = atom(first)?;
    if first.as_str() != word {
        return None;
    }
    let name = atom(name)?;
    Some((name, part))
}

// Is it `{Word, Name, Part}`?
fn is_headed(word: &str, term: &Term) -> bool
    ensures { result ≡ is_some (as_headed word.now (tree_of term.now)) }
{
    headed_by(word, term).is_some()
}

// Adds the place of a term, if it is `{Word, Name, Part}`.
fn push_place(
    places: &mut Vec<usize>,
    word: &str,
    place: usize,
    term: &Term,
) -> Result<(), OutOfMemory>
    ensures { OnOk result
        (places.new.items ≡ places.old.items ++ place_here word.now place (tree_of term.now)) }
{
    if is_headed(word, term) {
        places.push(place)?;
    }
    Ok(())
}

/// The places of the terms `{Word, Name, Part}` among these.
pub fn places_of(alloc: Global, word: &str, terms: &[Term]) -> Result<Vec<usize>, OutOfMemory>
    ensures { IfOk result (λ places. places.items ≡ places_of word.now 0 (map tree_of terms.now)) }
{
    let mut places = Vec::new(alloc);
    for place in 0..terms.len() {
        push_place(&mut places, word, place, &terms[place])?;
    }
    Ok(places)
}
