//! What happens to a cluster.

use rh_model::{App, Node, Restart};

/// What happens to the cluster (Distributed Applications; application(3)).
#[derive(Clone, Copy, Debug, PartialEq, Eq)]
pub enum Event {
    /// A node starts.
    Boot {
        node: Node,
    },
    /// A node ends without a warning.
    Crash {
        node: Node,
    },
    /// So many milliseconds pass.
    Tick {
        ms: u64,
    },
    /// An application is started at a node by hand (`application:start/2`).
    Start {
        node: Node,
        app: App,
        restart: Restart,
    },
    /// It is stopped there by hand (`application:stop/1`).
    Stop {
        node: Node,
        app: App,
    },
    /// It may run there from now on, or may not (`application:permit/2`).
    Permit {
        node: Node,
        app: App,
        allow: bool,
    },
    /// A distributed application moves to a node (`application:takeover/2`).
    Takeover {
        node: Node,
        app: App,
        restart: Restart,
    },
    /// An application that runs at a node ends there, for a normal reason or another one.
    Exit {
        node: Node,
        app: App,
        normal: bool,
    },
    /// A distributed application is started at every node at which it can be (`application:start/2` at all its nodes), in one
    /// step, behind which applications settle once.
    StartAll {
        app: App,
        restart: Restart,
    },
    /// It is stopped at all its nodes (`application:stop/1` at all of them), in one step.
    StopAll {
        app: App,
    },
}
