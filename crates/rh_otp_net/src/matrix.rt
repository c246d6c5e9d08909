//! Which of a cluster's nodes aren't connected, as an adjacency matrix whose rows are sets.

ghost use Rattle.std.specs.Prelude.{◌≡◌, ◌<◌, ◌&&◌, true, not, IfOk};
ghost use Rattle.rh_model.specs.declared.node.Node.{Node};
ghost use Rattle.rh_place.specs.Sets.{has};
ghost use Rattle.rh_otp_net.specs.Links.{is_between};
ghost use Rattle.rh_otp_net.specs.Matrix.{is_inside, is_pair, is_apart, IsMatrixOf};

use crate::links::Link;
use rh_base::OutOfMemory;
use rh_model::{MAX_NODES, Node};
use rh_place::NodeSet;
use std::alloc::Global;
use std::marker::Model;

/// Of each node that a cluster can have those with which it isn't connected. A row is a set, so that one look says whether a node
/// sees all of several others: most nodes see all.
#[derive(Drop)]
pub(crate) struct Matrix {
    rows: Vec<NodeSet>,
}

/// Contracts see a `Matrix` as its rows.
impl Model for Matrix {
    ghost use Rattle.std.specs.Prelude.{◌≡◌, length, List};
    ghost use Rattle.rh_model.specs.declared.limits.TheConstants.{MAX_NODES};
    ghost use Rattle.rh_place.specs.Sets.{NodeBits};

    ghost Value = { List NodeBits };

    ghost view = { λ m. m.rows.items };

    ghost invariant = { λ m. length m.rows.items ≡ MAX_NODES };
}

// Can nodes of a cluster have these numbers?
pub(crate) fn is_inside(one: Node, two: Node) -> bool
    ensures { result ≡ is_inside one two }
{
    (one.0 as usize) < MAX_NODES && (two.0 as usize) < MAX_NODES
}

impl Matrix {
    // No nodes are connected.
    fn empty(alloc: Global) -> Result<Matrix, OutOfMemory>
        ensures { IfOk result
            (λ m. (a b : Node) → is_inside a b ≡ true → is_apart m a b ≡ true) }
    {
        Ok(Matrix {
            rows: vec![in alloc; NodeSet::all(); MAX_NODES]?,
        })
    }

    // The first sees the second.
    fn see(&mut self, one: Node, two: Node)
        requires { is_inside one two ≡ true }
        ensures { (a b : Node) → is_inside a b ≡ true
            → is_apart self.new a b ≡ (is_apart self.old a b && not (is_pair one two a b)) }
    {
        let row = one.0 as usize;
        self.rows[row] = self.rows[row].put(two, false);
    }

    // Two nodes are connected. Numbers that no node of a cluster can have it has no rows for.
    fn mark(&mut self, link: Link)
        ensures { (a b : Node) → is_inside a b ≡ true
            → is_apart self.new a b ≡ (is_apart self.old a b && not (is_between a b link)) }
    {
        if is_inside(link.0, link.1) {
            self.see(link.0, link.1);
            self.see(link.1, link.0);
        }
    }

    // The matrix of these connections.
    pub fn of(alloc: Global, links: &[Link]) -> Result<Matrix, OutOfMemory>
        ensures { IfOk result (IsMatrixOf links.now) }
    {
        let mut matrix = Matrix::empty(alloc)?;
        for link in links {
            matrix.mark(*link);
        }
        Ok(matrix)
    }

    // The nodes with which this one isn't connected.
    pub fn apart_from(&self, node: Node) -> NodeSet
        requires { node.0 < MAX_NODES }
        ensures { (b : Node) → has result b ≡ is_apart self.now node b }
    {
        self.rows[node.0 as usize]
    }
}
