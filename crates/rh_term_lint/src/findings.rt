//! What is found in the terms of a cluster file.

ghost use Rattle.std.specs.Prelude.{◌≡◌, ◌++◌, map, codes, OnOk, IfOk};
ghost use Rattle.std.specs.List.{flat_map, enumerate_from};
ghost use Rattle.rh_base.specs.Tree.{tree_of, items_of};
ghost use Rattle.rh_cluster.specs.Sections.{has_key};
ghost use Rattle.rh_term_lint.specs.Findings.{of_term, has_profile, findings};

use crate::finding::TermFinding;
use crate::parts::{push_keys, push_sections};
use crate::shapes;
use rh_base::{OutOfMemory, Term, Terms};
use std::alloc::Global;

/// What is found in the terms of a cluster file: that no term names a profile, and then what is found in each term, in the order of
/// the text. An empty answer says that none of it is there, and not that the file is in order.
#[tactic(auto, unfolding(crate::specs::Findings::findings))]
pub fn term_findings(alloc: Global, terms: &Terms) -> Result<Vec<TermFinding>, OutOfMemory>
    ensures { IfOk result (λ found. found.items ≡ findings (map tree_of (items_of terms.now))) }
{
    let mut found = Vec::new(alloc);
    if !has_profile(terms.as_slice()) {
        found.push(TermFinding::NoProfile)?;
    }
    push_terms(alloc, &mut found, terms.as_slice())?;
    Ok(found)
}

// Is there a term `{profile, _}`?
fn has_profile(terms: &[Term]) -> bool
    ensures { result ≡ has_profile (map tree_of terms.now) }
{
    for term in terms {
        if is_profile(term) {
            return true;
        }
    }
    false
}

// Is it `{profile, _}`?
#[tactic(auto, unfolding(rh_cluster::specs::Sections::has_key))]
fn is_profile(term: &Term) -> bool
    ensures { result ≡ has_key (codes "profile") (tree_of term.now) }
{
    match shapes::entry(term) {
        Some((key, _)) => key.as_str() == "profile",
        None => false,
    }
}

// Adds what is found in each of these terms.
fn push_terms(
    alloc: Global,
    found: &mut Vec<TermFinding>,
    terms: &[Term],
) -> Result<(), OutOfMemory>
    ensures { OnOk result (found.new.items ≡ found.old.items
        ++ flat_map (λ at. of_term at.0 at.1) (enumerate_from 0 (map tree_of terms.now))) }
{
    for (place, term) in terms.iter().enumerate() {
        push_term(alloc, found, place, term)?;
    }
    Ok(())
}

// Adds what is found in the term at a place.
#[tactic(auto, unfolding(crate::specs::Findings::of_term))]
fn push_term(
    alloc: Global,
    found: &mut Vec<TermFinding>,
    place: usize,
    term: &Term,
) -> Result<(), OutOfMemory>
    ensures { OnOk result (found.new.items ≡ found.old.items ++ of_term place (tree_of term.now)) }
{
    if let Some((_, config)) = shapes::node(term) {
        push_sections(alloc, found, place, shapes::elements(config))?;
    }
    if let Some((_, keys)) = shapes::app(term) {
        push_keys(alloc, found, place, shapes::elements(keys))?;
    }
    Ok(())
}
