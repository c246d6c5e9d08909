//! What a configuration says of its node, as a cluster keeps it.

ghost use Rattle.std.specs.Prelude.{◌≡◌, ◌||◌, not, map, filter_map, IfOk};
ghost use Rattle.std.specs.List.{list_any};
ghost use Rattle.std.specs.Option.{option_map};
ghost use Rattle.rh_base.specs.Tree.{tree_of};
ghost use Rattle.std.specs.Str.{bytes_eq};
ghost use Rattle.rh_model.specs.Limits.{IsWithinLimit};
ghost use Rattle.rh_model.specs.Names.{is_among};
ghost use Rattle.rh_cluster.specs.Headers.{every_platform};
ghost use Rattle.rh_cluster.specs.Shapes.{as_atom, atoms};
ghost use Rattle.rh_cluster.specs.Sections.{as_truth, atom_is};
ghost use Rattle.rh_cluster.specs.Values.{node_named, boot_entry, is_false, forbids, permissions_in, platforms_of, wait_in, node_view};

use crate::headers::is_platform_everywhere;
use crate::kernel::{sync_wait, truth};
use crate::names::repeats_atom;
use crate::rehearse::restart;
use crate::shapes;
use crate::values::{app_named, elements, elements_under, node_named, value_under};
use rh_base::{OutOfMemory, Term};
use rh_model::{App, Names, Node, NodeSettings, Restart, SyncWait};
use std::alloc::Global;

/// The nodes of these names.
pub fn nodes_named(alloc: Global, names: &Names, terms: &[Term]) -> Result<Vec<Node>, OutOfMemory>
    ensures { IfOk result
        (λ nodes. nodes.items ≡ filter_map (node_named names.now) (map tree_of terms.now)) }
{
    let mut nodes = Vec::new(alloc);
    for term in terms {
        if let Some(node) = node_named(names, term) {
            nodes.push(node)?;
        }
    }
    Ok(nodes)
}

// How long the value of `sync_nodes_timeout` lets the node wait.
fn wait_in(value: Option<&Term>) -> SyncWait
    ensures wait { result ≡ wait_in (option_map (λ t. tree_of t.now) value.entry) }
    ensures limit { IsWithinLimit result }
{
    match value {
        Some(term) => sync_wait(term).unwrap_or(SyncWait::Unset),
        None => SyncWait::Unset,
    }
}

// The application of an entry of `boot`, with its restart type.
#[tactic(auto, unfolding(crate::specs::Values::boot_entry))]
fn boot_entry(names: &Names, term: &Term) -> Option<(App, Restart)>
    ensures { result ≡ boot_entry names.now (tree_of term.now) }
{
    let (app, kind) = shapes::pair(term)?;
    let app = app_named(names, app)?;
    let kind = restart(kind)?;
    Some((app, kind))
}

// What these entries of `boot` say, in order.
fn boot_entries(
    alloc: Global,
    names: &Names,
    terms: &[Term],
) -> Result<Vec<(App, Restart)>, OutOfMemory>
    ensures { IfOk result
        (λ boot. boot.items ≡ filter_map (boot_entry names.now) (map tree_of terms.now)) }
{
    let mut boot = Vec::new(alloc);
    for term in terms {
        if let Some(entry) = boot_entry(names, term) {
            boot.push(entry)?;
        }
    }
    Ok(boot)
}

// Is this the entry that forbids the application?
#[tactic(auto, unfolding(crate::specs::Values::forbids))]
fn forbids(name: &str, term: &Term) -> bool
    ensures { result ≡ forbids name.now (tree_of term.now) }
{
    match shapes::pair(term) {
        Some((app, value)) => is_atom(name, app) && is_false(value),
        None => false,
    }
}

// Is it `false`?
fn is_false(term: &Term) -> bool
    ensures { result ≡ is_false (as_truth (tree_of term.now)) }
{
    matches!(truth(term), Some(false))
}

// Is it the atom of this name?
fn is_atom(name: &str, term: &Term) -> bool
    ensures { result ≡ atom_is (bytes_eq name.now) (as_atom (tree_of term.now)) }
{
    match shapes::atom(term) {
        Some(other) => name == other,
        None => false,
    }
}

// Does an entry forbid the application?
fn is_forbidden(name: &str, entries: &[Term]) -> bool
    ensures { result ≡ list_any (forbids name.now) (map tree_of entries.now) }
{
    for term in entries {
        if forbids(name, term) {
            return true;
        }
    }
    false
}

// Is the application permitted: does no entry forbid it?
fn is_permitted(name: &str, entries: &[Term]) -> bool
    ensures { result ≡ not (list_any (forbids name.now) (map tree_of entries.now)) }
{
    !is_forbidden(name, entries)
}

// For each application, whether it is permitted.
#[tactic(auto, unfolding(crate::specs::Values::permissions_in))]
fn permissions_in(alloc: Global, names: &Names, entries: &[Term]) -> Result<Vec<bool>, OutOfMemory>
    ensures { IfOk result
        (λ permissions. permissions.items ≡ permissions_in names.now (map tree_of entries.now)) }
{
    let mut permissions = Vec::new(alloc);
    let apps = names.apps();
    for index in 0..apps.len() {
        permissions.push(is_permitted(apps.get(index), entries))?;
    }
    Ok(permissions)
}

// Does the node have the platform name, as every node does or by its own list?
fn has_platform(name: &str, terms: &[Term]) -> bool
    ensures { result
        ≡ (is_among every_platform name.now || is_among (atoms (map tree_of terms.now)) name.now) }
{
    is_platform_everywhere(name) || repeats_atom(name, terms)
}

// For each platform name, whether the node has it.
#[tactic(auto, unfolding(crate::specs::Values::platforms_of))]
fn platforms_of(alloc: Global, names: &Names, terms: &[Term]) -> Result<Vec<bool>, OutOfMemory>
    ensures { IfOk result
        (λ platforms. platforms.items ≡ platforms_of names.now (map tree_of terms.now)) }
{
    let mut platforms = Vec::new(alloc);
    let all = names.platforms();
    for index in 0..all.len() {
        platforms.push(has_platform(all.get(index), terms))?;
    }
    Ok(platforms)
}

/// The settings of the node of this configuration.
#[tactic(auto, unfolding(crate::specs::Values::node_view))]
pub fn node_settings(
    alloc: Global,
    names: &Names,
    config: &Term,
) -> Result<NodeSettings, OutOfMemory>
    ensures { IfOk result (λ settings. settings ≡ node_view names.now (tree_of config.now)) }
{
    let sections = elements(config);
    let kernel = elements_under("kernel", sections);
    let rehearse = elements_under("rehearse", sections);
    let mandatory = nodes_named(alloc, names, elements_under("sync_nodes_mandatory", kernel))?;
    let optional = nodes_named(alloc, names, elements_under("sync_nodes_optional", kernel))?;
    let sync_wait = wait_in(value_under("sync_nodes_timeout", kernel));
    let boot = boot_entries(alloc, names, elements_under("boot", rehearse))?;
    let permissions = permissions_in(alloc, names, elements_under("permissions", kernel))?;
    let platforms = platforms_of(alloc, names, elements_under("platform", rehearse))?;
    Ok(NodeSettings::of(mandatory, optional, sync_wait, boot, permissions, platforms))
}
