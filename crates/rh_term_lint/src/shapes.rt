//! Terms of a certain shape.

ghost use Rattle.std.specs.Prelude.{◌≡◌, map, codes};
ghost use Rattle.std.specs.Option.{option_map};
ghost use Rattle.rh_base.specs.Tree.{tree_of};
ghost use Rattle.rh_cluster.specs.Shapes.{as_atom, as_list, as_tuple, as_pair, as_triple, as_entry, as_headed, as_node, as_app};
ghost use Rattle.rh_cluster.specs.Values.{elements};
ghost use Rattle.rh_term_lint.specs.Findings.{term_name, is_undefined};

use rh_base::{Str, Term};

// The name that an atom is.
#[tactic(auto, unfolding(rh_cluster::specs::Shapes::as_atom))]
fn atom(term: &Term) -> Option<&Str>
    ensures { option_map (λ name. name.now) result ≡ as_atom (tree_of term.now) }
{
    match term {
        Term::Atom(name) => Some(name),
        _ => None,
    }
}

// The elements of a list.
#[tactic(auto, unfolding(rh_cluster::specs::Shapes::as_list))]
fn list(term: &Term) -> Option<&[Term]>
    ensures { option_map (λ terms. map tree_of terms.now) result ≡ as_list (tree_of term.now) }
{
    match term {
        Term::List(terms) => Some(terms.as_slice()),
        _ => None,
    }
}

/// The elements of a list; another term has none.
#[tactic(auto, unfolding(rh_cluster::specs::Values::elements))]
pub fn elements(term: &Term) -> &[Term]
    ensures { map tree_of result.now ≡ elements (tree_of term.now) }
{
    match list(term) {
        Some(terms) => terms,
        None => &[],
    }
}

// The parts of a tuple.
#[tactic(auto, unfolding(rh_cluster::specs::Shapes::as_tuple))]
fn tuple(term: &Term) -> Option<&[Term]>
    ensures { option_map (λ terms. map tree_of terms.now) result ≡ as_tuple (tree_of term.now) }
{
    match term {
        Term::Tuple(terms) => Some(terms.as_slice()),
        _ => None,
    }
}

// The parts of a tuple of two.
#[tactic(auto, unfolding(rh_cluster::specs::Shapes::as_pair))]
fn pair(term: &Term) -> Option<(&Term, &Term)>
    ensures { option_map (λ parts. (tree_of parts.0.now, tree_of parts.1.now)) result
        ≡ as_pair (tree_of term.now) }
{
    match tuple(term)? {
        [first, second] => Some((first, second)),
        _ => None,
    }
}

// The parts of a tuple of three.
#[tactic(auto, unfolding(rh_cluster::specs::Shapes::as_triple))]
fn triple(term: &Term) -> Option<(&Term, &Term, &Term)>
    ensures { option_map (λ parts. (tree_of parts.0.now, tree_of parts.1.now, tree_of parts.2.now))
        result ≡ as_triple (tree_of term.now) }
{
    match tuple(term)? {
        [first, second, third] => Some((first, second, third)),
        _ => None,
    }
}

/// The parts of `{Atom, Value}`.
#[tactic(auto, unfolding(rh_cluster::specs::Shapes::as_entry))]
pub fn entry(term: &Term) -> Option<(&Str, &Term)>
    ensures { option_map (λ parts. (parts.0.now, tree_of parts.1.now)) result
        ≡ as_entry (tree_of term.now) }
{
    let (key, value) = pair(term)?;
    let key = atom(key)?;
    Some((key, value))
}

// The name and the last part of `{Word, Name, Part}`.
#[tactic(auto, unfolding(rh_cluster::specs::Shapes::as_headed))]
fn headed_by<'a>(word: &str, term: &'a Term) -> Option<(&'a Str, &'a Term)>
    ensures { option_map (λ parts. (parts.0.now, tree_of parts.1.now)) result
        ≡ as_headed word.now (tree_of term.now) }
{
    let (first, name, part) = triple(term)?;
    let first = atom(first)?;
    if first.as_str() != word {
        return None;
    }
    let name = atom(name)?;
    Some((name, part))
}

/// The name and the configuration of a node term.
pub fn node(term: &Term) -> Option<(&Str, &Term)>
    ensures { option_map (λ parts. (parts.0.now, tree_of parts.1.now)) result
        ≡ as_node (tree_of term.now) }
{
    headed_by("node", term)
}

/// The name and the keys of an application term.
pub fn app(term: &Term) -> Option<(&Str, &Term)>
    ensures { option_map (λ parts. (parts.0.now, tree_of parts.1.now)) result
        ≡ as_app (tree_of term.now) }
{
    headed_by("application", term)
}

/// Is it the atom `undefined`?
#[tactic(auto, unfolding(crate::specs::Findings::is_undefined))]
pub fn is_undefined(term: &Term) -> bool
    ensures { result ≡ is_undefined (tree_of term.now) }
{
    match atom(term) {
        Some(name) => name.as_str() == "undefined",
        None => false,
    }
}

/// The name of the node or of the application that a term describes: of `{node, Name, _}` and `{application, Name, _}`. `None` for
/// a term of another shape.
#[tactic(auto, unfolding(crate::specs::Findings::term_name))]
pub fn term_name(term: &Term) -> Option<&str>
    ensures { option_map (λ name. name.now) result ≡ term_name (tree_of term.now) }
{
    if let Some((name, _)) = node(term) {
        return Some(name.as_str());
    }
    let (name, _) = app(term)?;
    Some(name.as_str())
}
