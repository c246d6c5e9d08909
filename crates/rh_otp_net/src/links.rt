//! Nodes that are connected.

ghost use Rattle.std.specs.Prelude.{◌≡◌, IfOk, IfSome, OnOk};
ghost use Rattle.rh_model.specs.ClusterView.{is_in};
ghost use Rattle.rh_model.specs.declared.node.Node.{Node};
ghost use Rattle.rh_otp_net.specs.Links.{is_between, is_at, other_end};
ghost use Rattle.rh_otp_net.specs.Matrix.{is_held};

use crate::matrix::{Matrix, is_inside};
use rh_base::{Duplicate, OutOfMemory};
use rh_model::{MAX_NODES, Node};
use rh_place::NodeSet;
use std::alloc::Global;
use std::marker::Model;

/// Two nodes that are connected.
#[derive(Clone, Copy, Debug, PartialEq, Eq)]
pub struct Link(pub Node, pub Node);

/// Nodes that are connected, in the order in which they were.
#[derive(Drop)]
pub struct Links {
    links: Vec<Link>,
}

/// Contracts see `Links` as their list.
impl Model for Links {
    ghost use Rattle.std.specs.Prelude.{List};
    ghost use Rattle.rh_otp_net.specs.declared.links.Link.{Link};

    ghost Value = { List Link };

    ghost view = { λ l. l.links.items };
}

// Does the link join these two, either way round?
fn is_between(one: Node, two: Node, link: Link) -> bool
    ensures { result ≡ is_between one two link }
{
    (link.0.0 == one.0 && link.1.0 == two.0) || (link.0.0 == two.0 && link.1.0 == one.0)
}

// Is the node at an end of the link?
fn is_at(node: Node, link: Link) -> bool
    ensures { result ≡ is_at node link }
{
    link.0.0 == node.0 || link.1.0 == node.0
}

// The node at the other end, where this one is at an end of the link.
fn other_end(node: Node, link: Link) -> Option<Node>
    ensures { result ≡ other_end node link }
{
    if link.0.0 == node.0 {
        Some(link.1)
    } else if link.1.0 == node.0 {
        Some(link.0)
    } else {
        None
    }
}

// The set of these nodes, where each has a number that a node of a cluster can have.
fn set_of(nodes: &[Node]) -> Option<NodeSet>
    ensures { IfSome result (λ set. (n : Node) → is_held set n ≡ is_in n nodes.now) }
{
    let mut set = NodeSet::empty();
    for node in nodes {
        if node.0 as usize >= MAX_NODES {
            return None;
        }
        set = set.with(*node);
    }
    Some(set)
}

impl Links {
    ghost use Rattle.std.specs.Prelude.{◌++◌, ◌∷◌, []};
    ghost use Rattle.rh_otp_net.specs.Links.{link, are_linked, linked_with, without_node};

    /// No nodes are connected.
    pub fn new(alloc: Global) -> Links
        ensures { result ≡ [] }
    {
        Links {
            links: Vec::new(alloc),
        }
    }

    /// As a list.
    pub fn as_slice(&self) -> &[Link]
        ensures { result.now ≡ self.now }
    {
        self.links.as_slice()
    }

    /// Are the two connected, either way round? The last connections are looked at first: of those that a node has just begun with it is
    /// asked most.
    pub fn are_linked(&self, one: Node, two: Node) -> bool
        ensures { result ≡ are_linked one two self.now }
    {
        let links = self.links.as_slice();
        for at in (0..links.len()).rev() {
            if is_between(one, two, links[at]) {
                return true;
            }
        }
        false
    }

    /// nodes(): the others that a node sees, that with which it was connected first in front.
    pub fn linked_with(&self, alloc: Global, node: Node) -> Result<Vec<Node>, OutOfMemory>
        ensures { IfOk result (λ nodes. nodes.items ≡ linked_with node self.now) }
    {
        let links = self.links.iter();
        let others = links.filter_map(|link| other_end(node, *link));
        Ok(others.collect(alloc)?)
    }

    /// The two are connected.
    pub fn add(&mut self, one: Node, two: Node) -> Result<(), OutOfMemory>
        ensures { OnOk result (self.new ≡ self.old ++ link one two ∷ []) }
    {
        self.links.push(Link(one, two))?;
        Ok(())
    }

    /// A node has ended: without its links.
    pub fn forget_node(&mut self, node: Node)
        ensures { self.new ≡ without_node node self.old }
    {
        self.links.retain(|link| !is_at(node, *link));
    }
}

impl Links {
    ghost use Rattle.std.specs.Prelude.{◌++◌, ◌==◌, ◌||◌, true, IfSome, IsTrue};
    ghost use Rattle.rh_model.specs.ClusterView.{is_in};
    ghost use Rattle.rh_model.specs.declared.node.Node.{Node};
    ghost use Rattle.rh_otp_net.specs.Links.{are_linked, around, is_to_connect, joined, to_connect};
    ghost use Rattle.rh_otp_net.specs.Matrix.{is_held, IsMatrixOf};

    // The node itself, and those that it sees.
    fn around(&self, alloc: Global, node: Node) -> Result<Vec<Node>, OutOfMemory>
        ensures { IfOk result (λ nodes. nodes.items ≡ around node self.now) }
    {
        let mut nodes = self.linked_with(alloc, node)?;
        nodes.insert(0, node)?;
        Ok(nodes)
    }

    // Are the two connected? The matrix says so, where it has rows for them.
    fn are_linked_by(&self, matrix: &Matrix, a: Node, b: Node) -> bool
        requires { IsMatrixOf self.now matrix.now }
        ensures { result ≡ are_linked a b self.now }
    {
        if is_inside(a, b) {
            !matrix.apart_from(a).has(b)
        } else {
            self.are_linked(a, b)
        }
    }

    // Does the node see all of a set, itself aside?
    fn sees_all(&self, matrix: &Matrix, node: Node, set: NodeSet) -> bool
        requires { IsMatrixOf self.now matrix.now }
        ensures { IsTrue result → (b : Node) → is_held set b ≡ true
            → (node.0 == b.0 || are_linked node b self.now) ≡ true }
    {
        if node.0 as usize >= MAX_NODES {
            return false;
        }
        set.and(matrix.apart_from(node)).put(node, false).is_empty()
    }

    // Does global connect the last two when this pair is?
    fn is_to_connect(&self, matrix: &Matrix, pair: Link, a: Node, b: Node) -> bool
        requires { IsMatrixOf self.now matrix.now }
        ensures { result ≡ is_to_connect pair.0 pair.1 self.now a b }
    {
        a.0 != b.0 && !self.are_linked_by(matrix, a, b) && !is_between(pair.0, pair.1, Link(a, b))
    }

    // A node with each of these that global connects with it.
    fn join_each(
        &self,
        matrix: &Matrix,
        found: &mut Vec<Link>,
        pair: Link,
        node: Node,
        others: &[Node],
    ) -> Result<(), OutOfMemory>
        requires { IsMatrixOf self.now matrix.now }
        ensures { OnOk result (found.new.items
            ≡ found.old.items ++ joined pair self.now node others.now) }
    {
        for other in others {
            if self.is_to_connect(matrix, pair, node, *other) {
                found.push(Link(node, *other))?;
            }
        }
        Ok(())
    }

    // The same, at one look where it sees all of these, whose set this is.
    fn join(
        &self,
        matrix: &Matrix,
        found: &mut Vec<Link>,
        pair: Link,
        node: Node,
        others: &[Node],
        set: &Option<NodeSet>,
    ) -> Result<(), OutOfMemory>
        requires matrix { IsMatrixOf self.now matrix.now }
        requires set { IfSome set.now (λ set. (n : Node) → is_held set n ≡ is_in n others.now) }
        ensures { OnOk result (found.new.items
            ≡ found.old.items ++ joined pair self.now node others.now) }
    {
        if let Some(set) = set {
            if self.sees_all(matrix, node, *set) {
                return Ok(());
            }
        }
        self.join_each(matrix, found, pair, node, others)
    }

    /// What global connects when these two are: what either of them sees with the other, and with what that sees. All connections are
    /// read once, into a matrix, and not again for each two of these; a node that sees all of those is done at one look.
    #[tactic(auto, unfolding(crate::specs::Links::to_connect))]
    pub fn to_connect(&self, alloc: Global, one: Node, two: Node) -> Result<Vec<Link>, OutOfMemory>
        ensures { IfOk result (λ links. links.items ≡ to_connect one two self.now) }
    {
        let these = self.around(alloc, one)?;
        let those = self.around(alloc, two)?;
        let matrix = Matrix::of(alloc, self.as_slice())?;
        let set = set_of(those.as_slice());
        let mut found = Vec::new(alloc);
        for node in these.as_slice() {
            self.join(
                &matrix,
                &mut found,
                Link(one, two),
                *node,
                those.as_slice(),
                &set,
            )?;
        }
        Ok(found)
    }
}

impl Duplicate for Links {
    fn copy(&self, alloc: Global) -> Result<Links, OutOfMemory>
        ensures { IfOk result (λ copy. copy ≡ self.now) }
    {
        Ok(Links {
            links: Vec::from_slice(alloc, self.links.as_slice())?,
        })
    }
}
