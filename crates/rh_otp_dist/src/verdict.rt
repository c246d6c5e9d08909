//! What dist_ac decides of an application.

use rh_model::Node;

/// What the controller is told.
#[derive(Clone, Copy, Debug, PartialEq, Eq)]
pub enum Verdict {
    /// Start it.
    StartIt,
    /// No node can run it.
    NotStarted,
    /// It runs at this node.
    Started(Node),
    /// Start it in place of the one at this node.
    Takeover(Node),
    /// Start it in place of the one that was lost with this node.
    Failover(Node),
}
