//! The cluster, with its readers.

use crate::app_marks::AppMarks;
use crate::app_settings::AppSettings;
use crate::groups::{Group, is_in};
use crate::kept_marks::{locals_in, touched_in};
use crate::limits::{MAX_APPS, MAX_NODES};
use crate::mark_rows::MarkRows;
use crate::names::Names;
use crate::needs::{Needs, needs_in};
use crate::node::{App, Node};
use crate::node_settings::NodeSettings;
use crate::settings::{Dep, Restart, Spread, SyncWait};
use rh_base::{OutOfMemory, Term, are_same, copies_of};
use std::alloc::Global;
use std::marker::Model;

/// A cluster of nodes and applications, in the order of the file that it was read from.
#[derive(Drop)]
pub struct Cluster {
    // The profile of the file (ours).
    profile: u8,
    names: Names,
    nodes: Vec<NodeSettings>,
    apps: Vec<AppSettings>,
    // For each application what it needs, which the settings tell.
    needs: Vec<Needs>,
    // The applications that aren't distributed, which the settings tell too.
    locals: AppMarks,
    // For each application, distributed or not, those that a move of it touches. The settings tell them as well.
    touched: MarkRows,
}

impl Model for Cluster {
    ghost use Rattle.std.specs.Prelude.{◌≡◌, length};
    ghost use Rattle.rh_model.specs.ClusterView.{ClusterView, IsWithin};
    ghost use Rattle.rh_model.specs.Needs.{needs_in};
    ghost use Rattle.rh_model.specs.Marks.{MarksLocals, MarksTouched};

    ghost Value = { ClusterView };

    ghost view = { λ c. record {
      profile = c.profile;
      node_names = c.names.nodes;
      app_names = c.names.apps;
      platform_names = c.names.platforms;
      nodes = c.nodes.items;
      apps = c.apps.items;
    } };

    ghost invariant = { λ c. (length c.nodes.items ≡ length c.names.nodes)
        × (length c.apps.items ≡ length c.names.apps)
        × (c.needs.items ≡ needs_in c.nodes.items c.apps.items)
        × MarksLocals c.apps.items c.locals
        × MarksTouched c.apps.items c.touched
        × IsWithin (record {
          profile = c.profile;
          node_names = c.names.nodes;
          app_names = c.names.apps;
          platform_names = c.names.platforms;
          nodes = c.nodes.items;
          apps = c.apps.items;
        }) };
}

impl Cluster {
    ghost use Rattle.std.specs.Prelude.{◌≡◌, ◌↔◌, ◌<◌, ◌≤◌, All, length, IfOk, IsTrue, IsSome, Some, is_none, slice_get, map, false};
    ghost use Rattle.std.specs.List.{range_with_len};
    ghost use Rattle.std.specs.Option.{option_map};
    ghost use Rattle.rh_base.specs.Tree.{tree_of};
    ghost use Rattle.rh_model.specs.TermSymbols.{symbols_of};
    ghost use Rattle.rh_model.specs.ClusterView.{app_numbered, node_count, app_count, node_of, app_of, dep_name, mandatory_of};
    ghost use Rattle.rh_model.specs.ClusterView.{optional_of, sync_wait_of, boot_of, is_permitted, is_platform};
    ghost use Rattle.rh_model.specs.ClusterView.{deps_of, start_arg_of, has_phases, spread_of, group_of, IsWithin};
    ghost use Rattle.rh_model.specs.Limits.{IsWithinLimit};
    ghost use Rattle.rh_model.specs.Needs.{is_home, needed_apps, needs_in};
    ghost use Rattle.rh_model.specs.Marks.{is_marked, touches};
    ghost use Rattle.rh_model.specs.declared.node.App.{App};

    /// The cluster of this profile and these names, with the settings of each node and of each application in the
    /// order of their names.
    pub fn of(
        alloc: Global,
        profile: u8,
        names: Names,
        nodes: Vec<NodeSettings>,
        apps: Vec<AppSettings>,
    ) -> Result<Cluster, OutOfMemory>
        requires nodes { length nodes.items ≡ length names.nodes }
        requires apps { length apps.items ≡ length names.apps }
        requires within { IsWithin (record {
          profile = profile;
          node_names = names.nodes;
          app_names = names.apps;
          platform_names = names.platforms;
          nodes = nodes.items;
          apps = apps.items;
        }) }
        ensures { IfOk result (λ cluster. cluster ≡ record {
          profile = profile;
          node_names = names.nodes;
          app_names = names.apps;
          platform_names = names.platforms;
          nodes = nodes.items;
          apps = apps.items;
        }) }
    {
        let _few_apps = names.apps();
        let locals = locals_in(apps.as_slice());
        let touched = touched_in(apps.as_slice());
        let needs = needs_in(alloc, nodes.as_slice(), apps.as_slice())?;
        Ok(Cluster {
            profile,
            names,
            nodes,
            apps,
            needs,
            locals,
            touched,
        })
    }

    /// The profile of each cluster is 1 or 2. Its lists fit together, and each number in them is one of the
    /// cluster's; names are few, as the profile says, and those of a kind differ; a node boots no application
    /// twice, and none that doesn't list it; waits and timeouts are within their limit. (It does nothing: its
    /// contract is what it is for.)
    pub fn is_within(&self)
        ensures { IsWithin self.now }
    {
        let _names = &self.names;
    }

    // The settings of a node.
    fn parts_of(&self, node: Node) -> &NodeSettings
        requires { node.0 < node_count self.now }
        ensures { slice_get self.now.nodes node.0 ≡ Some result.now }
    {
        &self.nodes[node.0 as usize]
    }

    // The settings of an application.
    fn keys_of(&self, app: App) -> &AppSettings
        requires { app.0 < app_count self.now }
        ensures { slice_get self.now.apps app.0 ≡ Some result.now }
    {
        &self.apps[app.0 as usize]
    }

    // What an application needs.
    fn needs_of(&self, app: App) -> &Needs
        requires { app.0 < app_count self.now }
        ensures { slice_get (needs_in self.now.nodes self.now.apps) app.0 ≡ Some result.now }
    {
        &self.needs[app.0 as usize]
    }

    /// The profile: by which of the two sets of rules the cluster is simulated, and how much it may hold (ours).
    pub fn profile(&self) -> u8
        ensures { result ≡ self.now.profile }
    {
        self.profile
    }

    /// The number of nodes, [`MAX_NODES`] at most.
    pub fn node_count(&self) -> usize
        ensures count { result ≡ node_count self.now }
        ensures limit { result ≤ MAX_NODES }
    {
        self.names.nodes().len()
    }

    /// The number of applications, [`MAX_APPS`] at most.
    pub fn app_count(&self) -> usize
        ensures count { result ≡ app_count self.now }
        ensures limit { result ≤ MAX_APPS }
    {
        self.names.apps().len()
    }

    /// The number of platform names.
    pub fn platform_count(&self) -> usize
        ensures { result ≡ length self.now.platform_names }
    {
        self.names.platforms().len()
    }

    /// The name of a node.
    pub fn node_name(&self, node: Node) -> &str
        requires { node.0 < node_count self.now }
        ensures { slice_get self.now.node_names node.0 ≡ Some result.now }
    {
        self.names.nodes().get(node.0 as usize)
    }

    /// The name of an application.
    pub fn app_name(&self, app: App) -> &str
        requires { app.0 < app_count self.now }
        ensures { slice_get self.now.app_names app.0 ≡ Some result.now }
    {
        self.names.apps().get(app.0 as usize)
    }

    /// The node of this name.
    pub fn node_of(&self, name: &str) -> Option<Node>
        ensures { result ≡ node_of self.now name.now }
    {
        self.names.node_of(name)
    }

    /// The application of this name.
    pub fn app_of(&self, name: &str) -> Option<App>
        ensures { result ≡ app_of self.now name.now }
    {
        self.names.app_of(name)
    }

    /// The nodes without which this one ends when it starts (kernel(6), `sync_nodes_mandatory`).
    pub fn mandatory(&self, node: Node) -> &[Node]
        requires { node.0 < node_count self.now }
        ensures { result.now ≡ mandatory_of self.now node }
    {
        self.parts_of(node).mandatory()
    }

    /// The other nodes that this one waits for when it starts (kernel(6), `sync_nodes_optional`).
    pub fn optional(&self, node: Node) -> &[Node]
        requires { node.0 < node_count self.now }
        ensures { result.now ≡ optional_of self.now node }
    {
        self.parts_of(node).optional()
    }

    /// How long it waits for them (kernel(6), `sync_nodes_timeout`).
    pub fn sync_wait(&self, node: Node) -> SyncWait
        requires { node.0 < node_count self.now }
        ensures wait { result ≡ sync_wait_of self.now node }
        ensures limit { IsWithinLimit result }
    {
        self.parts_of(node).sync_wait()
    }

    /// The applications that the node starts, in order, each with its restart type.
    pub fn boot(&self, node: Node) -> &[(App, Restart)]
        requires { node.0 < node_count self.now }
        ensures { result.now ≡ boot_of self.now node }
    {
        self.parts_of(node).boot()
    }

    /// For each application, whether it may run on the node, as configured (kernel(6), `permissions`).
    pub fn permissions(&self, node: Node) -> &[bool]
        requires { node.0 < node_count self.now }
        ensures { result.now ≡ map (is_permitted self.now node)
            (map app_numbered (range_with_len 0 (app_count self.now))) }
    {
        self.is_within();
        self.parts_of(node).permissions()
    }

    /// May the application run on the node, as configured (kernel(6), `permissions`)?
    pub fn permitted(&self, node: Node, app: App) -> bool
        requires node { node.0 < node_count self.now }
        requires app { app.0 < app_count self.now }
        ensures { result ≡ is_permitted self.now node app }
    {
        let permitted = self.parts_of(node).permissions().get(app.0 as usize);
        permitted.copied().unwrap_or(false)
    }

    /// Has the node the platform name of this number?
    pub fn is_platform(&self, node: Node, platform: u16) -> bool
        requires node { node.0 < node_count self.now }
        requires platform { platform < length self.now.platform_names }
        ensures { result ≡ is_platform self.now node platform }
    {
        let has = self.parts_of(node).platforms().get(platform as usize);
        has.copied().unwrap_or(false)
    }

    /// What the application must find started, in order (app(4), `applications`).
    pub fn deps(&self, app: App) -> &[Dep]
        requires { app.0 < app_count self.now }
        ensures { result.now ≡ deps_of self.now app }
    {
        self.keys_of(app).deps()
    }

    /// Has the node all platform names that the application needs (app(4), `applications`)?
    pub fn is_home(&self, app: App, node: Node) -> bool
        requires app { app.0 < app_count self.now }
        requires node { node.0 < node_count self.now }
        ensures { result ≡ is_home self.now app node }
    {
        self.needs_of(app).is_home(node)
    }

    /// The applications that the application needs, in written order (app(4), `applications`).
    pub fn needs(&self, app: App) -> &[App]
        requires { app.0 < app_count self.now }
        ensures apps { result.now ≡ needed_apps self.now app }
        ensures numbers { All (λ (b : App). b.0 < app_count self.now) result.now }
    {
        self.is_within();
        self.needs_of(app).apps()
    }

    /// The applications that aren't distributed.
    pub fn locals(&self) -> AppMarks
        ensures marks { (a : App) → a.0 < app_count self.now
            → is_marked result a ≡ is_none (spread_of self.now a) }
        ensures others { (a : App) → app_count self.now ≤ a.0 → is_marked result a ≡ false }
    {
        self.locals
    }

    /// The applications that a move of this one touches: itself, and those that need it.
    pub fn touched_by(&self, app: App) -> AppMarks
        requires { app.0 < app_count self.now }
        ensures marks { (a : App) → a.0 < app_count self.now
            → is_marked result a ≡ touches self.now app a }
        ensures others { (a : App) → app_count self.now ≤ a.0 → is_marked result a ≡ false }
    {
        let _few_apps = self.names.apps();
        self.touched.of(app)
    }

    /// The module and the start argument of the application (app(4), `mod`).
    pub fn start_arg(&self, app: App) -> Option<(&str, &Term)>
        requires { app.0 < app_count self.now }
        ensures { option_map (λ s. (s.0.now, symbols_of (tree_of s.1.now))) result
            ≡ start_arg_of self.now app }
    {
        self.keys_of(app).start_arg()
    }

    /// Are the application's start phases defined (app(4), `start_phases`)?
    pub fn phases(&self, app: App) -> bool
        requires { app.0 < app_count self.now }
        ensures { result ≡ has_phases self.now app }
    {
        self.keys_of(app).phases()
    }

    /// Where the application may run, if it is distributed (kernel(6), `distributed`).
    pub fn spread(&self, app: App) -> Option<&Spread>
        requires { app.0 < app_count self.now }
        ensures { option_map (λ s. s.now) result ≡ spread_of self.now app }
    {
        self.keys_of(app).spread()
    }

    /// The place, from 0, of the first group of the application's list that has the node.
    pub fn group_of(&self, app: App, node: Node) -> Option<usize>
        requires { app.0 < app_count self.now }
        ensures { result ≡ group_of self.now app node }
    {
        let spread = self.spread(app)?;
        place_of(node, spread.groups.as_slice())
    }

    /// The name of what an application depends on.
    pub fn dep_name(&self, dep: Dep) -> &str
        requires { IsSome (dep_name self.now dep) }
        ensures { dep_name self.now dep ≡ Some result.now }
    {
        match dep {
            Dep::Listed(app) => self.app_name(app),
            Dep::Platform(number) => self.names.platforms().get(number as usize),
        }
    }

    /// An equal cluster in memory of its own.
    pub fn copy(&self, alloc: Global) -> Result<Cluster, OutOfMemory>
        ensures { IfOk result (λ copy. copy ≡ self.now) }
    {
        let names = self.names.copy()?;
        let nodes = copies_of(alloc, self.nodes.as_slice())?;
        let apps = copies_of(alloc, self.apps.as_slice())?;
        let needs = copies_of(alloc, self.needs.as_slice())?;
        Ok(Cluster {
            profile: self.profile,
            names,
            nodes,
            apps,
            needs,
            locals: self.locals,
            touched: self.touched,
        })
    }

    /// Are the clusters equal, so that all readers answer alike?
    pub fn same(&self, other: &Cluster) -> bool
        ensures { IsTrue result ↔ (self.now ≡ other.now) }
    {
        self.profile == other.profile
            && self.names.same(&other.names)
            && are_same(self.nodes.as_slice(), other.nodes.as_slice())
            && are_same(self.apps.as_slice(), other.apps.as_slice())
    }
}

ghost use Rattle.std.specs.Prelude.{◌≡◌, position};
ghost use Rattle.rh_model.specs.ClusterView.{is_in};

// The place of the first group that has the node.
fn place_of(node: Node, groups: &[Group]) -> Option<usize>
    ensures { result ≡ position (is_in node) groups.now }
{
    groups
        .iter()
        .position(|group| is_in(node, group.as_slice()))
}
