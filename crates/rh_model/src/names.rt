//! The names of a file.

ghost use Rattle.std.specs.Prelude.{◌≡◌, ◌<◌, ◌≤◌, length, position, IfSome, IfOk, IsTrue, ◌↔◌};
ghost use Rattle.std.specs.Option.{option_map};
ghost use Rattle.std.specs.Str.{bytes_eq};
ghost use Rattle.rh_model.specs.ClusterView.{numbered, app_numbered};
ghost use Rattle.rh_model.specs.Names.{is_among};

use crate::limits::{MAX_APPS, MAX_NODES, MAX_PLATFORMS};
use crate::name_set::NameSet;
use crate::node::{App, Node};
use rh_base::OutOfMemory;
use std::marker::Model;

/// The names of the nodes, of the applications and of the platforms.
#[derive(Drop)]
pub struct Names {
    nodes: NameSet,
    apps: NameSet,
    platforms: NameSet,
}

/// Contracts see `Names` as three lists of names.
impl Model for Names {
    ghost use Rattle.std.specs.Prelude.{length, ◌≤◌};
    ghost use Rattle.rh_model.specs.Names.{NamesView};
    ghost use Rattle.rh_model.specs.declared.limits.TheConstants.{MAX_NODES, MAX_APPS, MAX_PLATFORMS};

    ghost Value = { NamesView };

    ghost view = { λ n. record { nodes = n.nodes; apps = n.apps; platforms = n.platforms } };

    ghost invariant = { λ n. (length n.nodes ≤ MAX_NODES) × (length n.apps ≤ MAX_APPS)
        × (length n.platforms ≤ MAX_PLATFORMS) };
}

impl Names {
    /// The names of a file, of which there are few.
    pub fn of(nodes: NameSet, apps: NameSet, platforms: NameSet) -> Names
        requires few_nodes { length nodes ≤ MAX_NODES }
        requires few_apps { length apps ≤ MAX_APPS }
        requires few_platforms { length platforms ≤ MAX_PLATFORMS }
        ensures { result ≡ record { nodes = nodes; apps = apps; platforms = platforms } }
    {
        Names {
            nodes,
            apps,
            platforms,
        }
    }

    /// The names of the nodes, in the order of their terms.
    pub fn nodes(&self) -> &NameSet
        ensures names { result.now ≡ self.now.nodes }
        ensures few { length result.now ≤ MAX_NODES }
    {
        &self.nodes
    }

    /// The names of the applications, in the order of their terms.
    pub fn apps(&self) -> &NameSet
        ensures names { result.now ≡ self.now.apps }
        ensures few { length result.now ≤ MAX_APPS }
    {
        &self.apps
    }

    /// The names of the platforms, in the order in which they were met.
    pub fn platforms(&self) -> &NameSet
        ensures names { result.now ≡ self.now.platforms }
        ensures few { length result.now ≤ MAX_PLATFORMS }
    {
        &self.platforms
    }

    /// Is it the name of a node?
    pub fn has_node(&self, name: &str) -> bool
        ensures { result ≡ is_among self.now.nodes name.now }
    {
        self.nodes().contains(name)
    }

    /// Is it the name of an application?
    pub fn has_app(&self, name: &str) -> bool
        ensures { result ≡ is_among self.now.apps name.now }
    {
        self.apps().contains(name)
    }

    /// Is it a name of the platforms?
    pub fn has_platform(&self, name: &str) -> bool
        ensures { result ≡ is_among self.now.platforms name.now }
    {
        self.platforms().contains(name)
    }

    /// The node of this name.
    pub fn node_of(&self, name: &str) -> Option<Node>
        ensures { result ≡ option_map numbered (position (bytes_eq name.now) self.now.nodes) }
    {
        let index = self.nodes().index_of(name)?;
        Some(Node(index as u8))
    }

    /// The application of this name.
    pub fn app_of(&self, name: &str) -> Option<App>
        ensures { result ≡ option_map app_numbered (position (bytes_eq name.now) self.now.apps) }
    {
        let index = self.apps().index_of(name)?;
        Some(App(index as u8))
    }

    /// The same names in memory of their own, from the allocators that the sets were made with.
    pub fn copy(&self) -> Result<Names, OutOfMemory>
        ensures { IfOk result (λ copy. copy ≡ self.now) }
    {
        Ok(Names {
            nodes: self.nodes.copy()?,
            apps: self.apps.copy()?,
            platforms: self.platforms.copy()?,
        })
    }

    /// Are these the same names, of each kind in the same order?
    pub fn same(&self, other: &Names) -> bool
        ensures { IsTrue result ↔ (self.now ≡ other.now) }
    {
        self.nodes().same(other.nodes())
            && self.apps().same(other.apps())
            && self.platforms().same(other.platforms())
    }
}
