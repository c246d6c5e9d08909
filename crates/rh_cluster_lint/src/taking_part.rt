//! Which nodes take part in distribution.

ghost use Rattle.std.specs.Prelude.{◌≡◌, map, IfOk};
ghost use Rattle.std.specs.List.{list_any};
ghost use Rattle.std.specs.Option.{option_map};
ghost use Rattle.rh_base.specs.Tree.{tree_of, items_of};
ghost use Rattle.rh_cluster.specs.Shapes.{as_tuple};
ghost use Rattle.rh_cluster_lint.specs.Differing.{is_name, group_has, listed_by, entry_lists, term_lists, takes_part, part_config, node_config, first_config, sides_of, sides_in};

use crate::shapes::{atom, tuple};
use crate::waits::{Differing, differing_in, distributed_entries};
use rh_base::{OutOfMemory, Term, Terms};
use rh_term_lint::{elements, node};
use rh_terms::{TermFault, read_terms};
use std::alloc::Global;

// Is a term this name?
fn is_name(name: &str, term: &Term) -> bool
    ensures { result ≡ is_name name.now (tree_of term.now) }
{
    match atom(term) {
        Some(other) => name == other.as_str(),
        None => false,
    }
}

// Is one of these terms this name?
fn any_is_name(name: &str, terms: &[Term]) -> bool
    ensures { result ≡ list_any (is_name name.now) (map tree_of terms.now) }
{
    for term in terms {
        if is_name(name, term) {
            return true;
        }
    }
    false
}

// Has a group the node?
#[tactic(auto, unfolding(crate::specs::Differing::group_has))]
fn group_has(name: &str, group: &Term) -> bool
    ensures { result ≡ group_has name.now (tree_of group.now) }
{
    is_name(name, group)
        || match tuple(group) {
            Some(names) => any_is_name(name, names),
            None => false,
        }
}

// Has one of these groups the node?
fn any_group_has(name: &str, groups: &[Term]) -> bool
    ensures { result ≡ list_any (group_has name.now) (map tree_of groups.now) }
{
    for group in groups {
        if group_has(name, group) {
            return true;
        }
    }
    false
}

// The groups that an entry of `distributed` lists.
fn listed_by(entry: &Term) -> &[Term]
    ensures { map tree_of result.now ≡ listed_by (as_tuple (tree_of entry.now)) }
{
    match tuple(entry) {
        Some([_, nodes]) => elements(nodes),
        Some([_, _, nodes]) => elements(nodes),
        _ => &[],
    }
}

// Does an entry of `distributed` list the node?
#[tactic(auto, unfolding(crate::specs::Differing::entry_lists))]
fn entry_lists(name: &str, entry: &Term) -> bool
    ensures { result ≡ entry_lists name.now (tree_of entry.now) }
{
    any_group_has(name, listed_by(entry))
}

// Does one of these entries list it?
fn any_entry_lists(name: &str, entries: &[Term]) -> bool
    ensures { result ≡ list_any (entry_lists name.now) (map tree_of entries.now) }
{
    for entry in entries {
        if entry_lists(name, entry) {
            return true;
        }
    }
    false
}

// Does the `distributed` of a node term list it?
#[tactic(auto, unfolding(crate::specs::Differing::term_lists))]
fn term_lists(name: &str, term: &Term) -> bool
    ensures { result ≡ term_lists name.now (tree_of term.now) }
{
    match node(term) {
        Some((_, config)) => any_entry_lists(name, distributed_entries(config)),
        None => false,
    }
}

// Does that of one of these terms list it?
fn any_term_lists(name: &str, terms: &[Term]) -> bool
    ensures { result ≡ list_any (term_lists name.now) (map tree_of terms.now) }
{
    for term in terms {
        if term_lists(name, term) {
            return true;
        }
    }
    false
}

// Does a node take part in distribution?
#[tactic(auto, unfolding(crate::specs::Differing::takes_part))]
fn takes_part(terms: &[Term], name: &str, config: &Term) -> bool
    ensures { result ≡ takes_part (map tree_of terms.now) (name.now, tree_of config.now) }
{
    !distributed_entries(config).is_empty() || any_term_lists(name, terms)
}

// The configuration that a term has, where it is that of a node that takes part.
#[tactic(auto, unfolding(crate::specs::Differing::part_config))]
fn part_config<'a>(terms: &[Term], term: &'a Term) -> Option<&'a Term>
    ensures { option_map (λ config. tree_of config.now) result
        ≡ part_config (map tree_of terms.now) (tree_of term.now) }
{
    let (name, config) = node(term)?;
    if takes_part(terms, name.as_str(), config) {
        Some(config)
    } else {
        None
    }
}

// The same, where it is that of the node of this name.
#[tactic(auto, unfolding(crate::specs::Differing::node_config))]
fn node_config<'a>(name: &str, term: &'a Term) -> Option<&'a Term>
    ensures { option_map (λ config. tree_of config.now) result
        ≡ node_config name.now (tree_of term.now) }
{
    let (other, config) = node(term)?;
    if other.as_str() == name {
        Some(config)
    } else {
        None
    }
}

// The place of the first term of a node that takes part, and its configuration.
fn first_part(terms: &[Term]) -> Option<(usize, &Term)>
    ensures { option_map (λ found. (found.0, tree_of found.1.now)) result
        ≡ first_config (part_config (map tree_of terms.now)) 0 (map tree_of terms.now) }
{
    for place in 0..terms.len() {
        if let Some(config) = part_config(terms, &terms[place]) {
            return Some((place, config));
        }
    }
    None
}

// The same of the node of this name.
fn node_named<'a>(name: &str, terms: &'a [Term]) -> Option<(usize, &'a Term)>
    ensures { option_map (λ found. (found.0, tree_of found.1.now)) result
        ≡ first_config (node_config name.now) 0 (map tree_of terms.now) }
{
    for place in 0..terms.len() {
        if let Some(config) = node_config(name, &terms[place]) {
            return Some((place, config));
        }
    }
    None
}

/// Two nodes that have to agree and don't.
#[derive(Clone, Copy, Debug, PartialEq, Eq)]
pub struct Sides {
    /// The place of the node's term.
    pub own: usize,
    /// That of the first node that takes part.
    pub first: usize,
    /// The parameter in which they differ.
    pub parameter: Differing,
}

// The node of this name and the first one that takes part.
#[tactic(auto, unfolding(crate::specs::Differing::sides_of))]
fn sides_of(name: &str, terms: &Terms) -> Option<Sides>
    ensures { result ≡ sides_of name.now (map tree_of (items_of terms.now)) }
{
    let (own, config) = node_named(name, terms.as_slice())?;
    let (first, agreed) = first_part(terms.as_slice())?;
    Some(Sides {
        own,
        first,
        parameter: differing_in(config, agreed),
    })
}

/// The node of this name and the first one that takes part, and where they differ.
#[tactic(auto, unfolding(crate::specs::Differing::sides_in))]
pub fn sides_in(alloc: Global, text: &[u8], name: &str) -> Result<Option<Sides>, OutOfMemory>
    ensures { IfOk result (λ found. found ≡ sides_in text.now name.now) }
{
    match read_terms(alloc, text) {
        Ok(terms) => Ok(sides_of(name, &terms)),
        Err(TermFault::OutOfMemory) => Err(OutOfMemory),
        Err(_) => Ok(None),
    }
}
