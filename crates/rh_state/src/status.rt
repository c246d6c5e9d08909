//! How nodes and applications stand.

use rh_model::{App, Node};

/// Whether a node runs (Distributed Applications).
#[derive(Clone, Copy, Debug, PartialEq, Eq)]
pub enum Mode {
    /// It doesn't run.
    Down,
    /// It has started, and waits for other nodes (kernel(6), `sync_nodes_mandatory`).
    Waiting,
    /// It is up.
    Up,
}

/// How a running application was started at its node (application(3), the start type of `start/2`).
#[derive(Clone, Copy, Debug, PartialEq, Eq)]
pub enum Kind {
    /// By itself.
    Normal,
    /// In place of the one that was lost with this node.
    Failover(Node),
    /// In place of the one that ran at this node.
    Takeover(Node),
}

/// Where a distributed application stands (Distributed Applications). A local one is always quiet.
#[derive(Clone, Copy, Debug, PartialEq, Eq)]
pub enum Standing {
    /// It isn't to run.
    Quiet,
    /// It is to run as soon as it can; it was lost with this node, if with one.
    Wanted(Option<Node>),
    /// It runs at this node.
    Running(Node),
    /// It was lost with this node, and waits for the failover timer.
    Lost(Node),
}

/// In which list of its node an application stands.
#[derive(Clone, Copy, Debug, PartialEq, Eq)]
pub enum Place {
    /// In none: it isn't started there.
    Off,
    /// It runs there.
    InRunning,
    /// It waits there.
    InWaiting,
}

/// What a timer is for.
#[derive(Clone, Copy, Debug, PartialEq, Eq)]
pub enum Timer {
    /// The end of a node's wait for others (kernel(6), `sync_nodes_timeout`).
    Sync(Node),
    /// The end of the time within which a lost application may come back to its node (kernel(6), `distributed`).
    Failover(App),
}
