//! The platform names of a file, gathered before its parts are tested.

ghost use Rattle.std.specs.Prelude.{◌≡◌, ◌≤◌, ◌∷◌, [], map, flat_map, fold, length, is_some, OnOk, IfOk};
ghost use Rattle.std.specs.List.{list_all};
ghost use Rattle.rh_base.specs.Tree.{tree_of};
ghost use Rattle.rh_cluster.specs.Headers.{every_platform};
ghost use Rattle.rh_cluster.specs.Shapes.{as_atom, atoms};
ghost use Rattle.rh_cluster.specs.Values.{with_name, with_first_name, with_platforms, platform_in_entry};
ghost use Rattle.rh_cluster.specs.Values.{platform_in_section, platform_in_term, platforms_in, elements};

use crate::shapes;
use crate::values::{elements, value_if};
use rh_base::{OutOfMemory, Term};
use rh_model::{MAX_PLATFORMS, NameSet, Platforms};
use std::alloc::Global;

// Adds a name, unless it is there.
#[tactic(auto, unfolding(crate::specs::Values::with_name))]
fn add_name(alloc: Global, names: &mut NameSet, name: &str) -> Result<(), OutOfMemory>
    ensures { OnOk result (names.new ≡ with_name names.old name.now) }
{
    if names.contains(name) {
        return Ok(());
    }
    names.add(alloc, name)
}

// The same, as long as there are fewer than `MAX_PLATFORMS`.
#[tactic(auto, unfolding(crate::specs::Values::with_first_name, crate::specs::Values::with_name))]
fn add_first_name(alloc: Global, names: &mut NameSet, name: &str) -> Result<(), OutOfMemory>
    ensures names { OnOk result (names.new ≡ with_first_name names.old name.now) }
    ensures few { OnOk result
        (length names.old ≤ MAX_PLATFORMS → length names.new ≤ MAX_PLATFORMS) }
{
    if MAX_PLATFORMS <= names.len() || names.contains(name) {
        return Ok(());
    }
    names.add(alloc, name)
}

// Adds the name that a term is, if it is an atom.
fn add_known(alloc: Global, names: &mut NameSet, term: &Term) -> Result<(), OutOfMemory>
    ensures { OnOk result (names.new ≡ fold with_name names.old (atoms (tree_of term.now ∷ []))) }
{
    match shapes::atom(term) {
        Some(name) => add_name(alloc, names, name),
        None => Ok(()),
    }
}

// The same, as long as there are fewer than `MAX_PLATFORMS`.
fn add_first(alloc: Global, names: &mut NameSet, term: &Term) -> Result<(), OutOfMemory>
    ensures names { OnOk result
        (names.new ≡ fold with_first_name names.old (atoms (tree_of term.now ∷ []))) }
    ensures few { OnOk result
        (length names.old ≤ MAX_PLATFORMS → length names.new ≤ MAX_PLATFORMS) }
{
    match shapes::atom(term) {
        Some(name) => add_first_name(alloc, names, name),
        None => Ok(()),
    }
}

// Adds the names of a list.
fn add_all_known(alloc: Global, names: &mut NameSet, terms: &[Term]) -> Result<(), OutOfMemory>
    ensures { OnOk result (names.new ≡ fold with_name names.old (atoms (map tree_of terms.now))) }
{
    for term in terms {
        add_known(alloc, names, term)?;
    }
    Ok(())
}

// The same, as long as there are fewer than `MAX_PLATFORMS`.
fn add_all_first(alloc: Global, names: &mut NameSet, terms: &[Term]) -> Result<(), OutOfMemory>
    ensures names { OnOk result
        (names.new ≡ fold with_first_name names.old (atoms (map tree_of terms.now))) }
    ensures few { OnOk result
        (length names.old ≤ MAX_PLATFORMS → length names.new ≤ MAX_PLATFORMS) }
{
    for term in terms {
        add_first(alloc, names, term)?;
    }
    Ok(())
}

// Are these atoms alone?
fn are_atoms(terms: &[Term]) -> bool
    ensures { result ≡ list_all (λ t. is_some (as_atom t)) (map tree_of terms.now) }
{
    for term in terms {
        if shapes::atom(term).is_none() {
            return false;
        }
    }
    true
}

// Adds the names of a platform list.
#[tactic(auto, unfolding(crate::specs::Values::with_platforms))]
fn add_list(alloc: Global, platforms: &mut Platforms, value: &Term) -> Result<(), OutOfMemory>
    ensures names { OnOk result (platforms.new ≡ with_platforms platforms.old (tree_of value.now)) }
    ensures few { OnOk result
        (length platforms.old.first ≤ MAX_PLATFORMS → length platforms.new.first ≤ MAX_PLATFORMS) }
{
    let terms = elements(value);
    add_all_first(alloc, &mut platforms.first, terms)?;
    if are_atoms(terms) {
        add_all_known(alloc, &mut platforms.known, terms)?;
    }
    Ok(())
}

// Adds those of a parameter.
#[tactic(auto, unfolding(crate::specs::Values::platform_in_entry))]
fn add_entry(alloc: Global, platforms: &mut Platforms, entry: &Term) -> Result<(), OutOfMemory>
    ensures names { OnOk result (platforms.new
        ≡ fold with_platforms platforms.old (platform_in_entry (tree_of entry.now))) }
    ensures few { OnOk result
        (length platforms.old.first ≤ MAX_PLATFORMS → length platforms.new.first ≤ MAX_PLATFORMS) }
{
    match value_if("platform", entry) {
        Some(value) => add_list(alloc, platforms, value),
        None => Ok(()),
    }
}

// Adds those of a section's list.
fn add_entries(
    alloc: Global,
    platforms: &mut Platforms,
    entries: &[Term],
) -> Result<(), OutOfMemory>
    ensures names { OnOk result (platforms.new ≡ fold with_platforms platforms.old
        (flat_map platform_in_entry (map tree_of entries.now))) }
    ensures few { OnOk result
        (length platforms.old.first ≤ MAX_PLATFORMS → length platforms.new.first ≤ MAX_PLATFORMS) }
{
    for entry in entries {
        add_entry(alloc, platforms, entry)?;
    }
    Ok(())
}

// Adds those of a section.
#[tactic(auto, unfolding(crate::specs::Values::platform_in_section))]
fn add_section(alloc: Global, platforms: &mut Platforms, section: &Term) -> Result<(), OutOfMemory>
    ensures names { OnOk result (platforms.new
        ≡ fold with_platforms platforms.old (platform_in_section (tree_of section.now))) }
    ensures few { OnOk result
        (length platforms.old.first ≤ MAX_PLATFORMS → length platforms.new.first ≤ MAX_PLATFORMS) }
{
    match value_if("rehearse", section) {
        Some(value) => add_entries(alloc, platforms, elements(value)),
        None => Ok(()),
    }
}

// Adds those of a configuration.
fn add_sections(
    alloc: Global,
    platforms: &mut Platforms,
    sections: &[Term],
) -> Result<(), OutOfMemory>
    ensures names { OnOk result (platforms.new ≡ fold with_platforms platforms.old
        (flat_map platform_in_section (map tree_of sections.now))) }
    ensures few { OnOk result
        (length platforms.old.first ≤ MAX_PLATFORMS → length platforms.new.first ≤ MAX_PLATFORMS) }
{
    for section in sections {
        add_section(alloc, platforms, section)?;
    }
    Ok(())
}

// Adds those of a term.
#[tactic(auto, unfolding(crate::specs::Values::platform_in_term))]
fn add_term(alloc: Global, platforms: &mut Platforms, term: &Term) -> Result<(), OutOfMemory>
    ensures names { OnOk result
        (platforms.new ≡ fold with_platforms platforms.old (platform_in_term (tree_of term.now))) }
    ensures few { OnOk result
        (length platforms.old.first ≤ MAX_PLATFORMS → length platforms.new.first ≤ MAX_PLATFORMS) }
{
    match shapes::node(term) {
        Some((_, config)) => add_sections(alloc, platforms, elements(config)),
        None => Ok(()),
    }
}

// The platform names of every node.
fn every_platform(alloc: Global) -> Result<NameSet, OutOfMemory>
    ensures { IfOk result (λ names. names ≡ every_platform) }
{
    let mut names = NameSet::new(alloc);
    names.add(alloc, "kernel")?;
    names.add(alloc, "stdlib")?;
    Ok(names)
}

/// The platform names of a file.
#[tactic(auto, unfolding(crate::specs::Values::platforms_in))]
pub fn platforms_in(alloc: Global, terms: &[Term]) -> Result<Platforms, OutOfMemory>
    ensures names { IfOk result (λ platforms. platforms ≡ platforms_in (map tree_of terms.now)) }
    ensures few { IfOk result (λ platforms. length platforms.first ≤ MAX_PLATFORMS) }
{
    let first = every_platform(alloc)?;
    let known = every_platform(alloc)?;
    let mut platforms = Platforms { first, known };
    for term in terms {
        add_term(alloc, &mut platforms, term)?;
    }
    Ok(platforms)
}
