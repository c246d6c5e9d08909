//! What an application needs, sorted by kind, so that it is looked for in one step.

ghost use Rattle.std.specs.Prelude.{◌≡◌, ◌++◌, map, filter_map, slice_get, unwrap_or, false, IfOk, OnOk};
ghost use Rattle.std.specs.List.{list_all};
ghost use Rattle.std.specs.Option.{option_to_list};
ghost use Rattle.rh_model.specs.Needs.{is_at_hand, has_platforms, listed, needs_of, needs_in};

use crate::app_settings::AppSettings;
use crate::node::{App, Node};
use crate::node_settings::NodeSettings;
use crate::settings::Dep;
use rh_base::{Duplicate, OutOfMemory};
use std::alloc::Global;
use std::marker::Model;

/// What an application needs.
#[derive(Drop)]
pub(crate) struct Needs {
    // For each node, whether it has all platform names that are needed.
    homes: Vec<bool>,
    // The applications that are needed, in written order.
    apps: Vec<App>,
}

impl Model for Needs {
    ghost use Rattle.rh_model.specs.Needs.{NeedsView};

    ghost Value = { NeedsView };

    ghost view = { λ n. record { homes = n.homes.items; apps = n.apps.items } };
}

impl Needs {
    /// Has a node all platform names that are needed?
    pub fn is_home(&self, node: Node) -> bool
        ensures { result ≡ unwrap_or (slice_get self.now.homes node.0) false }
    {
        self.homes.get(node.0 as usize).copied().unwrap_or(false)
    }

    /// The applications that are needed, in written order.
    pub fn apps(&self) -> &[App]
        ensures { result.now ≡ self.now.apps }
    {
        self.apps.as_slice()
    }
}

impl Duplicate for Needs {
    fn copy(&self, alloc: Global) -> Result<Needs, OutOfMemory>
        ensures { IfOk result (λ copy. copy ≡ self.now) }
    {
        Ok(Needs {
            homes: Vec::from_slice(alloc, self.homes.as_slice())?,
            apps: Vec::from_slice(alloc, self.apps())?,
        })
    }
}

// Is this a platform name that is there, or an application?
fn is_at_hand(platforms: &[bool], dep: Dep) -> bool
    ensures { result ≡ is_at_hand platforms.now dep }
{
    match dep {
        Dep::Listed(_) => true,
        Dep::Platform(name) => platforms.get(name as usize).copied().unwrap_or(false),
    }
}

// Are all platform names among these there?
fn has_platforms(deps: &[Dep], platforms: &[bool]) -> bool
    ensures { result ≡ list_all (is_at_hand platforms.now) deps.now }
{
    deps.iter().all(|dep| is_at_hand(platforms, *dep))
}

// For each node, whether it has all platform names among these.
fn homes_of(alloc: Global, nodes: &[NodeSettings], deps: &[Dep]) -> Result<Vec<bool>, OutOfMemory>
    ensures { IfOk result (λ homes. homes.items ≡ map (has_platforms deps.now) nodes.now) }
{
    let mut homes = Vec::new(alloc);
    'nodes: for node in nodes {
        homes.push(has_platforms(deps, node.platforms()))?;
    }
    Ok(homes)
}

// Puts the application that is needed behind these, if it is one.
fn add_listed(apps: &mut Vec<App>, dep: Dep) -> Result<(), OutOfMemory>
    ensures { OnOk result (apps.new.items ≡ apps.old.items ++ option_to_list (listed dep)) }
{
    if let Dep::Listed(app) = dep {
        apps.push(app)?;
    }
    Ok(())
}

// The applications among these.
fn listed_in(alloc: Global, deps: &[Dep]) -> Result<Vec<App>, OutOfMemory>
    ensures { IfOk result (λ apps. apps.items ≡ filter_map listed deps.now) }
{
    let mut apps = Vec::new(alloc);
    'deps: for dep in deps {
        add_listed(&mut apps, *dep)?;
    }
    Ok(apps)
}

// What an application needs.
fn needs_of(alloc: Global, nodes: &[NodeSettings], app: &AppSettings) -> Result<Needs, OutOfMemory>
    ensures { IfOk result (λ needs. needs ≡ needs_of nodes.now app.now) }
{
    let homes = homes_of(alloc, nodes, app.deps())?;
    let apps = listed_in(alloc, app.deps())?;
    Ok(Needs { homes, apps })
}

/// What each application needs, in order.
pub(crate) fn needs_in(
    alloc: Global,
    nodes: &[NodeSettings],
    apps: &[AppSettings],
) -> Result<Vec<Needs>, OutOfMemory>
    ensures { IfOk result (λ needs. needs.items ≡ needs_in nodes.now apps.now) }
{
    let mut needs = Vec::new(alloc);
    'apps: for app in apps {
        needs.push(needs_of(alloc, nodes, app)?)?;
    }
    Ok(needs)
}
