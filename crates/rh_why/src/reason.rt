//! What keeps an application or a node waiting.

use rh_model::{Dep, Node};

/// Why an application that is started at a node waits there.
#[derive(Clone, Copy, Debug, PartialEq, Eq)]
pub enum Reason {
    /// Something that it needs doesn't run at the node (app(4), `applications`).
    Needs { dep: Dep },
    /// It may not run at the node (application(3), `permit/2`).
    Forbidden,
    /// It runs at this other node.
    RunsAt { node: Node },
    /// It was lost with this node, which has until then to come back: a time of the clock, in milliseconds (kernel(6),
    /// `distributed`).
    LostWith { node: Node, due: u64 },
    /// It is to run nowhere: it was stopped, or it ended by itself.
    Quiet,
}

/// All reasons for which an application waits at a node: at most one of each sort, in the order in which they are told.
#[derive(Clone, Copy, Debug, PartialEq, Eq)]
pub struct Reasons {
    /// Something that it needs doesn't run there.
    pub lacking: Option<Reason>,
    /// It may not run there.
    pub forbidding: Option<Reason>,
    /// Where it runs, with which node it was lost, or that it is to run nowhere.
    pub by_standing: Option<Reason>,
}

/// For whom a node that boots waits.
#[derive(Drop)]
pub struct Awaited {
    /// The nodes of its lists that aren't alive, each once, in the order of the file (kernel(6), `sync_nodes_mandatory`,
    /// `sync_nodes_optional`). There are none if it doesn't wait.
    pub nodes: Vec<Node>,
    /// When its wait ends by itself: a time of the clock, in milliseconds. `None` if it has no end (kernel(6),
    /// `sync_nodes_timeout`).
    pub until: Option<u64>,
}
