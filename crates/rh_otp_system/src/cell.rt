//! The cells of a system's state: a node each, and what is between them.

ghost use Rattle.std.specs.Prelude.{◌≡◌, IfOk, unwrap_or};
ghost use Rattle.std.specs.Option.{option_map, option_and_then};
ghost use Rattle.rh_otp_node.specs.Live.{never_begun};
ghost use Rattle.rh_otp_system.specs.State.{live_in};

use crate::net::Net;
use rh_base::{Duplicate, OutOfMemory};
use rh_otp_node::LiveNode;
use std::alloc::Global;

/// A part of the state that is kept from one command to the next.
#[derive(Drop)]
pub enum Cell {
    /// A node.
    Node(LiveNode),
    /// What is between the nodes.
    Net(Net),
}

impl Cell {
    /// The node, if it is one.
    pub fn live(&self) -> Option<&LiveNode>
        ensures { option_map (λ v. v.now) result ≡ live_in self.now }
    {
        match self {
            Cell::Node(live) => Some(live),
            Cell::Net(_) => None,
        }
    }
}

// The node that was found, if one was; else one that has never begun.
pub(crate) fn found_or_new(alloc: Global, found: Option<Cell>) -> LiveNode
    ensures { result ≡ unwrap_or (option_and_then live_in found) never_begun }
{
    match found {
        Some(Cell::Node(live)) => live,
        Some(Cell::Net(_net)) => LiveNode::new(alloc),
        None => LiveNode::new(alloc),
    }
}

impl Duplicate for Cell {
    fn copy(&self, alloc: Global) -> Result<Cell, OutOfMemory>
        ensures { IfOk result (λ copy. copy ≡ self.now) }
    {
        Ok(match self {
            Cell::Node(live) => Cell::Node(live.copy(alloc)?),
            Cell::Net(net) => Cell::Net(net.copy(alloc)?),
        })
    }
}
