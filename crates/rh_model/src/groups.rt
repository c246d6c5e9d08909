//! Groups of nodes, and lists of groups.

ghost use Rattle.std.specs.Prelude.{◌≡◌, IfOk, IsTrue, ◌↔◌};
ghost use Rattle.rh_model.specs.ClusterView.{is_in};

use crate::node::Node;
use rh_base::{Duplicate, OutOfMemory, Same, are_same, copies_of};
use std::alloc::Global;
use std::marker::Model;

/// Nodes of equal rank, in the order in which they are written.
#[derive(Drop)]
pub struct Group {
    nodes: Vec<Node>,
}

/// Contracts see a `Group` as the list of its nodes.
impl Model for Group {
    ghost use Rattle.std.specs.Prelude.{List};
    ghost use Rattle.rh_model.specs.declared.node.Node.{Node};

    ghost Value = { List Node };

    ghost view = { λ g. g.nodes.items };
}

impl Group {
    /// The group of these nodes.
    pub fn of(nodes: Vec<Node>) -> Group
        ensures { result ≡ nodes.items }
    {
        Group { nodes }
    }

    /// The nodes, in order.
    pub fn as_slice(&self) -> &[Node]
        ensures { result.now ≡ self.now }
    {
        self.nodes.as_slice()
    }
}

impl Duplicate for Group {
    fn copy(&self, alloc: Global) -> Result<Group, OutOfMemory>
        ensures { IfOk result (λ copy. copy ≡ self.now) }
    {
        Ok(Group {
            nodes: Vec::from_slice(alloc, self.nodes.as_slice())?,
        })
    }
}

impl Same for Group {
    fn same(&self, other: &Group) -> bool
        ensures { IsTrue result ↔ (self.now ≡ other.now) }
    {
        same_nodes(self.as_slice(), other.as_slice())
    }
}

// Are these the same nodes in the same order?
pub(crate) fn same_nodes(these: &[Node], those: &[Node]) -> bool
    ensures { IsTrue result ↔ (these.now ≡ those.now) }
{
    these == those
}

/// Is the node one of these?
pub fn is_in(node: Node, group: &[Node]) -> bool
    ensures { result ≡ is_in node group.now }
{
    for other in group {
        if node.0 == other.0 {
            return true;
        }
    }
    false
}

/// Groups of nodes, those of the highest rank first.
#[derive(Drop)]
pub struct Groups {
    groups: Vec<Group>,
}

/// Contracts see `Groups` as the list of its groups.
impl Model for Groups {
    ghost use Rattle.std.specs.Prelude.{List};
    ghost use Rattle.rh_model.specs.declared.node.Node.{Node};

    ghost Value = { List (List Node) };

    ghost view = { λ g. g.groups.items };
}

impl Groups {
    /// The list of these groups.
    pub fn of(groups: Vec<Group>) -> Groups
        ensures { result ≡ groups.items }
    {
        Groups { groups }
    }

    /// The groups, in order.
    pub fn as_slice(&self) -> &[Group]
        ensures { result.now ≡ self.now }
    {
        self.groups.as_slice()
    }
}

impl Duplicate for Groups {
    fn copy(&self, alloc: Global) -> Result<Groups, OutOfMemory>
        ensures { IfOk result (λ copy. copy ≡ self.now) }
    {
        Ok(Groups {
            groups: copies_of(alloc, self.groups.as_slice())?,
        })
    }
}

impl Same for Groups {
    fn same(&self, other: &Groups) -> bool
        ensures { IsTrue result ↔ (self.now ≡ other.now) }
    {
        are_same(self.as_slice(), other.as_slice())
    }
}
