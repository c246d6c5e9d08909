//! What follows from an event.

use rh_base::Same;
use rh_model::{App, Node};
use rh_state::Kind;

/// What follows from an event.
#[derive(Clone, Copy, Debug, PartialEq, Eq)]
pub enum Notice {
    /// A node is up.
    Up {
        node: Node,
    },
    /// A node has ended.
    Ended {
        node: Node,
    },
    /// An application has started at a node (application(3), `start/2`). It was lost with another node, if with one.
    Started {
        app: App,
        node: Node,
        kind: Kind,
        lost: Option<Node>,
    },
    /// An application has stopped at a node.
    Stopped {
        app: App,
        node: Node,
    },
    /// An application is started at a node, and waits there.
    Waits {
        app: App,
        node: Node,
    },
}

impl Same for Notice {
    ghost use Rattle.std.specs.Prelude.{◌≡◌, ◌↔◌, IsTrue};

    fn same(&self, other: &Notice) -> bool
        ensures { IsTrue result ↔ (self.now ≡ other.now) }
    {
        *self == *other
    }
}

/// A node and an application.
#[derive(Clone, Copy, Debug, PartialEq, Eq)]
pub struct Pair {
    /// The node.
    pub node: Node,
    /// The application.
    pub app: App,
}

/// A move of an application that follows of itself.
#[derive(Clone, Copy, Debug, PartialEq, Eq)]
pub enum Move {
    /// One that isn't distributed starts at a node where it waited.
    Local {
        node: Node,
        app: App,
    },
    /// A distributed one that is to run starts at a node; it was lost with another, if with one (Distributed Applications,
    /// "Failover").
    Placement {
        app: App,
        from: Option<Node>,
        node: Node,
    },
    /// A distributed one moves from the node where it runs to one that it prefers (Distributed Applications, "Takeover").
    Takeover {
        app: App,
        from: Node,
        node: Node,
    },
}
