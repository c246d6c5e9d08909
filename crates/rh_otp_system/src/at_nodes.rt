//! What a system finds at a node. A number that no node has finds one that has never begun.

ghost use Rattle.std.specs.Prelude.{◌≡◌, IfOk, OnOk, OnErr};
ghost use Rattle.std.specs.Option.{option_map};
ghost use Rattle.rh_otp_node.specs.Live.{never_begun};
ghost use Rattle.rh_otp_system.specs.State.{live_at, node_at, with_node, own_at, wait_at, is_alive_at, is_up_at, has_dist_at, process_in, lives};

use crate::cell::{Cell, found_or_new};
use crate::system::System;
use rh_base::OutOfMemory;
use rh_model::Node;
use rh_otp_model::{Own, Process, Role, Wait};
use rh_otp_node::{LiveNode, Phase};

impl<'a> System<'a> {
    // Takes a node out, to be changed and put back; until then one that has never begun stands in its place.
    pub(crate) fn take_node(&mut self, node: Node) -> Result<LiveNode, OutOfMemory>
        ensures found { IfOk result (λ found. found ≡ node_at self.old node) }
        ensures place { OnOk result (self.new ≡ with_node node never_begun self.old) }
        ensures err { OnErr result (self.new ≡ self.old) }
    {
        let found = self.nodes.take(self.alloc, node.0 as usize)?;
        self.put_node(node, LiveNode::new(self.alloc));
        Ok(found_or_new(self.alloc, found))
    }

    // Puts a node back.
    pub(crate) fn put_node(&mut self, node: Node, value: LiveNode)
        ensures { self.new ≡ with_node node value self.old }
    {
        self.nodes.set(node.0 as usize, Cell::Node(value));
    }

    /// A node, if there is one of this number.
    pub fn live(&self, node: Node) -> Option<&LiveNode>
        ensures { option_map (λ v. v.now) result ≡ live_at self.now node }
    {
        self.nodes.at(node.0 as usize)?.live()
    }

    // What the node's own file says.
    pub(crate) fn own(&self, node: Node) -> &Own
        ensures { result.now ≡ own_at self.now node }
    {
        match self.files.get(node.0 as usize) {
            Some(file) => &file.own,
            None => &self.no_file.own,
        }
    }

    // How long the node waits, as it is written.
    pub(crate) fn wait(&self, node: Node) -> Wait
        ensures { result ≡ wait_at self.now node }
    {
        match self.files.get(node.0 as usize) {
            Some(file) => file.wait,
            None => Wait::Unset,
        }
    }

    /// How often the node has begun.
    pub fn life(&self, node: Node) -> u32
        ensures { result ≡ (node_at self.now node).life }
    {
        match self.live(node) {
            Some(found) => found.life(),
            None => 0,
        }
    }

    /// How far the node is.
    pub fn phase(&self, node: Node) -> Phase
        ensures { result ≡ (node_at self.now node).phase }
    {
        match self.live(node) {
            Some(found) => found.phase(),
            None => Phase::Down,
        }
    }

    /// Is the node alive?
    pub fn is_alive(&self, node: Node) -> bool
        ensures { result ≡ is_alive_at self.now node }
    {
        !matches!(self.phase(node), Phase::Down)
    }

    /// Is its wait for others over?
    pub fn is_up(&self, node: Node) -> bool
        ensures { result ≡ is_up_at self.now node }
    {
        matches!(self.phase(node), Phase::Up)
    }

    // Has it a dist_ac?
    pub(crate) fn has_dist(&self, node: Node) -> bool
        ensures { result ≡ has_dist_at self.now node }
    {
        self.own(node).has_dist()
    }

    // Its process of this role, in its life now, or in its last one.
    pub(crate) fn process(&self, node: Node, role: Role) -> Process
        ensures { result ≡ process_in self.now node role }
    {
        Process {
            role,
            node,
            life: self.life(node),
        }
    }

    // Is the process there still?
    pub(crate) fn lives(&self, process: Process) -> bool
        ensures { result ≡ lives self.now process }
    {
        self.is_alive(process.node) && self.life(process.node) == process.life
    }
}
