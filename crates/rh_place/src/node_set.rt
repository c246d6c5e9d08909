//! Sets of nodes.

ghost use Rattle.std.specs.Prelude.{◌≡◌, ◌<◌, ◌↔◌, ◌||◌, ◌&&◌, true, false, IsTrue, IsNone, IfSome, not, if◌then◌else◌};
ghost use Rattle.rh_model.specs.declared.node.Node.{Node};
ghost use Rattle.rh_state.specs.Numbers.{same_node};
ghost use Rattle.rh_place.specs.Sets.{has};

use rh_model::Node;
use std::marker::Model;

/// A set of nodes, in one machine word.
#[derive(Clone, Copy)]
pub struct NodeSet {
    // Bit n is 1 where node n is in the set.
    bits: u64,
}

/// Contracts see a `NodeSet` by the nodes that it has.
impl Model for NodeSet {
    ghost use Rattle.std.specs.Prelude.{◌<◌, ◌^◌};
    ghost use Rattle.rh_place.specs.Sets.{NodeBits};

    ghost Value = { NodeBits };

    ghost view = { λ s. record { bits = s.bits } };

    ghost inverse = { λ s. record { bits = s.bits } };

    ghost invariant = { λ s. s.bits < 2 ^ 64 };
}

impl NodeSet {
    /// A set has nodes below this number only: its word has so many bits.
    pub const LIMIT: u8 = 64;

    /// The set without a node.
    #[tactic(auto, unfolding(crate::specs::Sets::has))]
    pub fn empty() -> NodeSet
        ensures { (n : Node) → has result n ≡ false }
    {
        NodeSet { bits: 0 }
    }

    /// The set with a further node.
    #[tactic(auto, unfolding(crate::specs::Sets::has))]
    pub fn with(self, node: Node) -> NodeSet
        requires { node.0 < Self.LIMIT }
        ensures { (n : Node) → has result n ≡ (same_node n node || has self n) }
    {
        NodeSet {
            bits: self.bits | 1 << node.0,
        }
    }

    /// The set with all nodes below [`NodeSet::LIMIT`].
    #[tactic(auto, unfolding(crate::specs::Sets::has))]
    pub fn all() -> NodeSet
        ensures { (n : Node) → n.0 < Self.LIMIT → has result n ≡ true }
    {
        NodeSet { bits: u64::MAX }
    }

    // The set without a node.
    #[tactic(auto, unfolding(crate::specs::Sets::has))]
    pub(crate) fn without(self, node: Node) -> NodeSet
        requires { node.0 < Self.LIMIT }
        ensures nodes { (n : Node) → has result n ≡ (not (same_node n node) && has self n) }
        ensures less { has self node ≡ true → result.bits < self.bits }
    {
        NodeSet {
            bits: self.bits & !(1 << node.0),
        }
    }

    /// The set with a node or without it.
    pub fn put(self, node: Node, member: bool) -> NodeSet
        requires { node.0 < Self.LIMIT }
        ensures { (n : Node) → has result n ≡ (if same_node n node then member else has self n) }
    {
        if member {
            self.with(node)
        } else {
            self.without(node)
        }
    }

    /// The nodes that are in both sets.
    #[tactic(auto, unfolding(crate::specs::Sets::has))]
    pub fn and(self, other: NodeSet) -> NodeSet
        ensures { (n : Node) → has result n ≡ (has self n && has other n) }
    {
        NodeSet {
            bits: self.bits & other.bits,
        }
    }

    /// The lowest node of the set, `None` exactly if it has none.
    #[tactic(auto, unfolding(crate::specs::Sets::has))]
    pub fn first(self) -> Option<Node>
        ensures member { IfSome result (λ n. has self n ≡ true) }
        ensures lowest { IfSome result (λ n. (k : Node) → k.0 < n.0 → has self k ≡ false) }
        ensures none { IsNone result ↔ ((n : Node) → has self n ≡ false) }
    {
        if self.bits == 0 {
            return None;
        }
        Some(Node(self.bits.trailing_zeros() as u8))
    }

    /// Is the node in the set?
    #[tactic(auto, unfolding(crate::specs::Sets::has))]
    pub fn has(self, node: Node) -> bool
        ensures { result ≡ has self node }
    {
        node.0 < Self::LIMIT && self.bits & 1 << node.0 != 0
    }

    /// Is there no node in the set?
    #[tactic(auto, unfolding(crate::specs::Sets::has))]
    pub fn is_empty(self) -> bool
        ensures { IsTrue result ↔ ((n : Node) → has self n ≡ false) }
    {
        self.bits == 0
    }
}
