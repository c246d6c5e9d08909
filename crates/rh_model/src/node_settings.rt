//! What a cluster keeps of a node.

use crate::groups::same_nodes;
use crate::node::{App, Node};
use crate::settings::{Restart, SyncWait};
use rh_base::{Duplicate, OutOfMemory, Same, are_same};
use std::alloc::Global;
use std::marker::Model;

/// What a configuration says of its node.
#[derive(Drop)]
pub struct NodeSettings {
    mandatory: Vec<Node>,
    optional: Vec<Node>,
    sync_wait: SyncWait,
    boot: Vec<(App, Restart)>,
    permissions: Vec<bool>,
    platforms: Vec<bool>,
}

/// Contracts see `NodeSettings` as what a file says of the node.
impl Model for NodeSettings {
    ghost use Rattle.rh_model.specs.ClusterView.{NodeView};
    ghost use Rattle.rh_model.specs.Limits.{IsWithinLimit};

    ghost Value = { NodeView };

    ghost view = { λ n. record {
      mandatory = n.mandatory.items;
      optional = n.optional.items;
      sync_wait = n.sync_wait;
      boot = n.boot.items;
      permissions = n.permissions.items;
      platforms = n.platforms.items;
    } };

    ghost invariant = { λ n. IsWithinLimit n.sync_wait };
}

impl NodeSettings {
    ghost use Rattle.std.specs.Prelude.{◌≡◌, ◌↔◌, ◌<◌, IfOk, IsTrue, length, slice_get, Some};
    ghost use Rattle.rh_model.specs.Limits.{IsWithinLimit};

    /// The settings of a node; permissions by application, platforms by platform name.
    pub fn of(
        mandatory: Vec<Node>,
        optional: Vec<Node>,
        sync_wait: SyncWait,
        boot: Vec<(App, Restart)>,
        permissions: Vec<bool>,
        platforms: Vec<bool>,
    ) -> NodeSettings
        requires { IsWithinLimit sync_wait }
        ensures { result ≡ record {
          mandatory = mandatory.items;
          optional = optional.items;
          sync_wait = sync_wait;
          boot = boot.items;
          permissions = permissions.items;
          platforms = platforms.items;
        } }
    {
        NodeSettings {
            mandatory,
            optional,
            sync_wait,
            boot,
            permissions,
            platforms,
        }
    }

    /// The nodes without which the node ends when it starts.
    pub fn mandatory(&self) -> &[Node]
        ensures { result.now ≡ self.now.mandatory }
    {
        self.mandatory.as_slice()
    }

    /// The other nodes that it waits for.
    pub fn optional(&self) -> &[Node]
        ensures { result.now ≡ self.now.optional }
    {
        self.optional.as_slice()
    }

    /// How long it waits for them.
    pub fn sync_wait(&self) -> SyncWait
        ensures wait { result ≡ self.now.sync_wait }
        ensures limit { IsWithinLimit result }
    {
        self.sync_wait
    }

    /// The applications that it starts, in order.
    pub fn boot(&self) -> &[(App, Restart)]
        ensures { result.now ≡ self.now.boot }
    {
        self.boot.as_slice()
    }

    /// For each application, whether it may run on the node.
    pub fn permissions(&self) -> &[bool]
        ensures { result.now ≡ self.now.permissions }
    {
        self.permissions.as_slice()
    }

    /// For each platform name, whether the node has it.
    pub fn platforms(&self) -> &[bool]
        ensures { result.now ≡ self.now.platforms }
    {
        self.platforms.as_slice()
    }
}

impl Duplicate for NodeSettings {
    fn copy(&self, alloc: Global) -> Result<NodeSettings, OutOfMemory>
        ensures { IfOk result (λ copy. copy ≡ self.now) }
    {
        Ok(NodeSettings {
            mandatory: Vec::from_slice(alloc, self.mandatory.as_slice())?,
            optional: Vec::from_slice(alloc, self.optional.as_slice())?,
            sync_wait: self.sync_wait,
            boot: Vec::from_slice(alloc, self.boot.as_slice())?,
            permissions: Vec::from_slice(alloc, self.permissions.as_slice())?,
            platforms: Vec::from_slice(alloc, self.platforms.as_slice())?,
        })
    }
}

impl Same for NodeSettings {
    fn same(&self, other: &NodeSettings) -> bool
        ensures { IsTrue result ↔ (self.now ≡ other.now) }
    {
        same_nodes(self.mandatory(), other.mandatory())
            && same_nodes(self.optional(), other.optional())
            && self.sync_wait() == other.sync_wait()
            && are_same(self.boot(), other.boot())
            && are_same(self.permissions(), other.permissions())
            && are_same(self.platforms(), other.platforms())
    }
}

ghost use Rattle.std.specs.Prelude.{◌≡◌, ◌↔◌, IfOk, IsTrue};

impl Same for App {
    fn same(&self, other: &App) -> bool
        ensures { IsTrue result ↔ (self.now ≡ other.now) }
    {
        *self == *other
    }
}

impl Same for Restart {
    fn same(&self, other: &Restart) -> bool
        ensures { IsTrue result ↔ (self.now ≡ other.now) }
    {
        *self == *other
    }
}
