//! kernel_config: the wait for other nodes.

ghost use Rattle.std.specs.Prelude.{◌≡◌};
ghost use Rattle.rh_otp_node.specs.Kernel.{waits, without_node, seen, joined};

use crate::node::{LiveNode, Phase};
use rh_model::{Node, is_in};

/// Without this node.
pub fn drop_node(nodes: &mut Vec<Node>, node: Node)
    ensures { nodes.new.items ≡ without_node node nodes.old.items }
{
    nodes.retain(|other| other.0 != node.0);
}

impl LiveNode {
    /// The nodes without which it ends, of those that it waits for still.
    pub fn mandatory(&self) -> &[Node]
        ensures { result.now ≡ self.now.mandatory }
    {
        self.mandatory.as_slice()
    }

    /// The other nodes that it waits for still.
    pub fn optional(&self) -> &[Node]
        ensures { result.now ≡ self.now.optional }
    {
        self.optional.as_slice()
    }

    /// Does it wait for any node still?
    pub fn waits(&self) -> bool
        ensures { result ≡ waits self.now }
    {
        !self.mandatory.is_empty() || !self.optional.is_empty()
    }

    /// rec_nodes/2, check_up/3: it has seen a node, which counts once it was seen.
    pub fn see(&mut self, node: Node)
        ensures { self.new ≡ seen node self.old }
    {
        if is_in(node, self.mandatory.as_slice()) {
            drop_node(&mut self.mandatory, node);
        } else {
            drop_node(&mut self.optional, node);
        }
    }

    /// The wait is over.
    pub fn join(&mut self)
        ensures { self.new ≡ joined self.old }
    {
        self.phase = Phase::Up;
    }
}
