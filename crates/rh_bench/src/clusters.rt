//! Cluster files.

use crate::chance::Chance;
use crate::names::{Names, any_of, name_at, names_of};
use rh_base::OutOfMemory;
use std::alloc::Global;

/// So many local applications, the first ones, are the hubs of stars: many others need one of them.
const HUBS: usize = 4;

/// What a cluster is like.
#[derive(Clone, Copy)]
pub struct Shape {
    /// How many nodes it has.
    pub nodes: usize,
    /// How many distributed applications.
    pub apps: usize,
    /// How many local ones, which each node boots. Where they are more than five, most need others.
    pub locals: usize,
    /// How many nodes stand in each group of an application's list.
    pub groups: &'static [usize],
    /// Whether it is one of the second profile.
    pub second: bool,
    /// Whether each node waits for the next one as it starts.
    pub waits: bool,
    /// Whether time passes before any application fails over.
    pub delays: bool,
}

/// A cluster.
#[derive(Drop)]
pub struct Made {
    pub names: Names,
    /// The nodes of each application's list, in their order.
    pub lists: Vec<Vec<usize>>,
    /// The cluster file, and the line behind it.
    pub text: String,
}

/// A cluster like this.
pub fn cluster_of(alloc: Global, chance: &mut Chance, shape: &Shape) -> Result<Made, OutOfMemory> {
    let names = names_of(alloc, shape.nodes, shape.apps, shape.locals)?;
    let lists = lists_of(alloc, chance, shape)?;
    let mut entries = String::new(alloc);
    push_entries(&mut entries, chance, shape, &names, lists.as_slice())?;
    let mut text = String::new(alloc);
    if shape.second {
        text.push_str("{profile, 2}.\n")?;
    }
    push_nodes(&mut text, shape, &names, lists.as_slice(), entries.as_str())?;
    push_locals(&mut text, chance, &names)?;
    push_apps(&mut text, chance, &names)?;
    text.push_str("===\n")?;
    Ok(Made { names, lists, text })
}

// For each application a row of nodes, from any one on.
fn lists_of(
    alloc: Global,
    chance: &mut Chance,
    shape: &Shape,
) -> Result<Vec<Vec<usize>>, OutOfMemory> {
    let mut lists = Vec::new(alloc);
    for _ in 0..shape.apps {
        lists.push(list_of(alloc, chance, shape)?)?;
    }
    Ok(lists)
}

fn list_of(alloc: Global, chance: &mut Chance, shape: &Shape) -> Result<Vec<usize>, OutOfMemory> {
    let mut list = Vec::new(alloc);
    let mut node = if shape.nodes == 0 {
        0
    } else {
        chance.below(shape.nodes)
    };
    for count in shape.groups {
        for _ in 0..*count {
            list.push(node)?;
            node = if node >= shape.nodes.saturating_sub(1) {
                0
            } else {
                node + 1
            };
        }
    }
    Ok(list)
}

// The value of `distributed`.
fn push_entries(
    text: &mut String,
    chance: &mut Chance,
    shape: &Shape,
    names: &Names,
    lists: &[Vec<usize>],
) -> Result<(), OutOfMemory> {
    text.push_str("[")?;
    for (number, list) in lists.iter().enumerate() {
        if number > 0 {
            text.push_str(", ")?;
        }
        text.push_str("{")?;
        text.push_str(name_at(names.apps.as_slice(), number))?;
        text.push_str(if shape.delays {
            timeout_of(1 + chance.below(3))
        } else {
            timeout_of(chance.below(4))
        })?;
        push_groups(text, shape.groups, names, list.as_slice())?;
        text.push_str("}")?;
    }
    text.push_str("]")?;
    Ok(())
}

// One of four failover timeouts.
fn timeout_of(number: usize) -> &'static str {
    match number {
        0 => ", 0, ",
        1 => ", 500, ",
        2 => ", 1000, ",
        _ => ", 3000, ",
    }
}

// The nodes of a list, group by group.
fn push_groups(
    text: &mut String,
    groups: &[usize],
    names: &Names,
    list: &[usize],
) -> Result<(), OutOfMemory> {
    let mut rest = list;
    text.push_str("[")?;
    for count in groups {
        if rest.len() < list.len() {
            text.push_str(", ")?;
        }
        let (group, behind) = rest.split_at((*count).min(rest.len()));
        push_group(text, names, group)?;
        rest = behind;
    }
    text.push_str("]")?;
    Ok(())
}

fn push_group(text: &mut String, names: &Names, group: &[usize]) -> Result<(), OutOfMemory> {
    let is_tuple = group.len() > 1;
    text.push_str(if is_tuple { "{" } else { "" })?;
    for (place, node) in group.iter().enumerate() {
        if place > 0 {
            text.push_str(", ")?;
        }
        text.push_str(name_at(names.nodes.as_slice(), *node))?;
    }
    text.push_str(if is_tuple { "}" } else { "" })?;
    Ok(())
}

// All nodes.
fn push_nodes(
    text: &mut String,
    shape: &Shape,
    names: &Names,
    lists: &[Vec<usize>],
    entries: &str,
) -> Result<(), OutOfMemory> {
    for (number, name) in names.nodes.iter().enumerate() {
        text.push_str("{node, ")?;
        text.push_str(name.as_str())?;
        text.push_str(", [{kernel, [{distributed, ")?;
        text.push_str(entries)?;
        text.push_str("}")?;
        if shape.waits {
            push_wait(text, names, number)?;
        }
        text.push_str("]}, {rehearse, [{boot, [")?;
        push_boot_list(text, names, lists, number)?;
        text.push_str("]}]}]}.\n")?;
    }
    Ok(())
}

// That a node waits for the next one.
fn push_wait(text: &mut String, names: &Names, number: usize) -> Result<(), OutOfMemory> {
    let last = names.nodes.len().saturating_sub(1);
    let next = if number >= last { 0 } else { number + 1 };
    text.push_str(", {sync_nodes_mandatory, [")?;
    text.push_str(name_at(names.nodes.as_slice(), next))?;
    text.push_str("]}, {sync_nodes_timeout, 3000}")?;
    Ok(())
}

// What a node boots: the local applications, and then those in whose lists it stands.
fn push_boot_list(
    text: &mut String,
    names: &Names,
    lists: &[Vec<usize>],
    node: usize,
) -> Result<(), OutOfMemory> {
    let mut is_first = true;
    for name in names.locals.iter() {
        push_boot(text, &mut is_first, name.as_str())?;
    }
    for (number, list) in lists.iter().enumerate() {
        if list.contains(&node) {
            push_boot(text, &mut is_first, name_at(names.apps.as_slice(), number))?;
        }
    }
    Ok(())
}

fn push_boot(text: &mut String, is_first: &mut bool, name: &str) -> Result<(), OutOfMemory> {
    text.push_str(if *is_first { "{" } else { ", {" })?;
    text.push_str(name)?;
    text.push_str(", temporary}")?;
    *is_first = false;
    Ok(())
}

// The local applications.
fn push_locals(text: &mut String, chance: &mut Chance, names: &Names) -> Result<(), OutOfMemory> {
    for (number, name) in names.locals.iter().enumerate() {
        text.push_str("{application, ")?;
        text.push_str(name.as_str())?;
        text.push_str(", [{applications, [kernel, stdlib")?;
        push_needs(text, chance, names, number)?;
        text.push_str("]}]}.\n")?;
    }
    Ok(())
}

// What a local application needs of the others. The hubs and the one behind them need nothing, nor does each eighth of the rest.
fn push_needs(
    text: &mut String,
    chance: &mut Chance,
    names: &Names,
    number: usize,
) -> Result<(), OutOfMemory> {
    if number <= HUBS {
        return Ok(());
    }
    let before = name_at(names.locals.as_slice(), number - 1);
    match chance.below(8) {
        0 => Ok(()),
        1 | 2 | 3 => push_need(text, before),
        4 => push_need(text, any_of(names.apps.as_slice(), chance)),
        5 => {
            push_need(text, name_at(names.locals.as_slice(), chance.below(HUBS)))?;
            push_need(text, before)
        }
        _ => push_need(text, name_at(names.locals.as_slice(), chance.below(HUBS))),
    }
}

fn push_need(text: &mut String, name: &str) -> Result<(), OutOfMemory> {
    text.push_str(", ")?;
    text.push_str(name)?;
    Ok(())
}

// The distributed ones. Where there are local ones, each third needs a hub.
fn push_apps(text: &mut String, chance: &mut Chance, names: &Names) -> Result<(), OutOfMemory> {
    let hubs = names.locals.len().min(HUBS);
    for name in names.apps.iter() {
        text.push_str("{application, ")?;
        text.push_str(name.as_str())?;
        text.push_str(", [{applications, [kernel, stdlib")?;
        if hubs > 0 && chance.comes(33) {
            push_need(text, name_at(names.locals.as_slice(), chance.below(hubs)))?;
        }
        text.push_str("]}]}.\n")?;
    }
    Ok(())
}
