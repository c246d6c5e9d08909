//! What is found in the parts of a term: the sections of a node with the parameters of `kernel`, and the keys of an application.

ghost use Rattle.std.specs.Prelude.{◌≡◌, ◌++◌, map, OnOk};
ghost use Rattle.std.specs.List.{flat_map, filter_map};
ghost use Rattle.std.specs.Option.{option_to_list};
ghost use Rattle.rh_base.specs.Tree.{tree_of};
ghost use Rattle.rh_cluster.specs.Shapes.{as_entry};
ghost use Rattle.rh_term_lint.specs.Findings.{of_parameter, of_section, of_key};

use crate::finding::TermFinding;
use crate::meant::mistaken_name;
use crate::names::{KEYS, PARAMETERS, SECTIONS};
use crate::shapes;
use rh_base::{OutOfMemory, Term};
use std::alloc::Global;

/// Adds what is found in each of these sections of a node.
pub fn push_sections(
    alloc: Global,
    found: &mut Vec<TermFinding>,
    place: usize,
    sections: &[Term],
) -> Result<(), OutOfMemory>
    ensures { OnOk result (found.new.items ≡ found.old.items
        ++ flat_map (of_section place) (filter_map as_entry (map tree_of sections.now))) }
{
    for section in sections {
        push_section(alloc, found, place, section)?;
    }
    Ok(())
}

// Adds what is found in a section.
#[tactic(auto, unfolding(crate::specs::Findings::of_section))]
fn push_section(
    alloc: Global,
    found: &mut Vec<TermFinding>,
    place: usize,
    section: &Term,
) -> Result<(), OutOfMemory>
    ensures { OnOk result (found.new.items ≡ found.old.items
        ++ flat_map (of_section place) (option_to_list (as_entry (tree_of section.now)))) }
{
    let Some((name, value)) = shapes::entry(section) else {
        return Ok(());
    };
    if let Some((written, meant)) = mistaken_name(alloc, &SECTIONS, name)? {
        found.push(TermFinding::NearSection {
            term: place,
            written,
            meant,
        })?;
    }
    if name.as_str() == "kernel" {
        push_parameters(alloc, found, place, shapes::elements(value))?;
    }
    Ok(())
}

// Adds what is found in each of these parameters of `kernel`.
fn push_parameters(
    alloc: Global,
    found: &mut Vec<TermFinding>,
    place: usize,
    parameters: &[Term],
) -> Result<(), OutOfMemory>
    ensures { OnOk result (found.new.items ≡ found.old.items
        ++ flat_map (of_parameter place) (filter_map as_entry (map tree_of parameters.now))) }
{
    for parameter in parameters {
        push_parameter(alloc, found, place, parameter)?;
    }
    Ok(())
}

// Adds what is found in a parameter.
#[tactic(auto, unfolding(crate::specs::Findings::of_parameter))]
fn push_parameter(
    alloc: Global,
    found: &mut Vec<TermFinding>,
    place: usize,
    parameter: &Term,
) -> Result<(), OutOfMemory>
    ensures { OnOk result (found.new.items ≡ found.old.items
        ++ flat_map (of_parameter place) (option_to_list (as_entry (tree_of parameter.now)))) }
{
    let Some((name, value)) = shapes::entry(parameter) else {
        return Ok(());
    };
    if let Some((written, meant)) = mistaken_name(alloc, &PARAMETERS, name)? {
        found.push(TermFinding::NearParameter {
            term: place,
            written,
            meant,
        })?;
    }
    if name.as_str() == "sync_nodes_timeout" && shapes::is_undefined(value) {
        found.push(TermFinding::UndefinedWritten { term: place })?;
    }
    Ok(())
}

/// Adds what is found in each of these keys of an application.
pub fn push_keys(
    alloc: Global,
    found: &mut Vec<TermFinding>,
    place: usize,
    keys: &[Term],
) -> Result<(), OutOfMemory>
    ensures { OnOk result (found.new.items
        ≡ found.old.items ++ flat_map (of_key place) (filter_map as_entry (map tree_of keys.now))) }
{
    for key in keys {
        push_key(alloc, found, place, key)?;
    }
    Ok(())
}

// Adds what is found in a key.
#[tactic(auto, unfolding(crate::specs::Findings::of_key))]
fn push_key(
    alloc: Global,
    found: &mut Vec<TermFinding>,
    place: usize,
    key: &Term,
) -> Result<(), OutOfMemory>
    ensures { OnOk result (found.new.items ≡ found.old.items
        ++ flat_map (of_key place) (option_to_list (as_entry (tree_of key.now)))) }
{
    let Some((name, _)) = shapes::entry(key) else {
        return Ok(());
    };
    if let Some((written, meant)) = mistaken_name(alloc, &KEYS, name)? {
        found.push(TermFinding::NearKey {
            term: place,
            written,
            meant,
        })?;
    }
    Ok(())
}
