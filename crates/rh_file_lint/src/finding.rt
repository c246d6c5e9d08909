//! What can be found in a cluster file.

use rh_model::{App, Dep, Node};

/// Something that a cluster file says and that can't be what was meant, or that a live OTP takes otherwise than the rules do.
#[derive(Clone, Copy, Debug, PartialEq, Eq)]
pub enum FileFinding {
    /// No application is distributed, so nothing fails over (kernel(6), `distributed`).
    NoDistributedApplication,
    /// The node names no other node in its lists, though it shares a distributed application with another one: live it connects
    /// to nobody, and each node may run an instance of its own (kernel(6), `sync_nodes_mandatory`, `sync_nodes_optional`).
    NoLists {
        node: Node,
    },
    /// The node names the other one in its lists; the other one has lists, and this node isn't in them, though they share a
    /// distributed application (kernel(6), `sync_nodes_mandatory`, `sync_nodes_optional`).
    OneSidedLists {
        node: Node,
        other: Node,
    },
    /// The node has lists without the other one, which doesn't name it either, though they share a distributed application
    /// (kernel(6), `sync_nodes_mandatory`, `sync_nodes_optional`).
    IncompleteLists {
        node: Node,
        other: Node,
    },
    /// The node has lists and no timeout: then it waits for nobody (kernel(6), `sync_nodes_timeout`).
    ListsWithoutTimeout {
        node: Node,
    },
    /// The timeout of the node's lists is 0, which ends a live node (kernel(6), `sync_nodes_timeout`).
    SyncTimeoutZero {
        node: Node,
    },
    /// The timeout of the node's lists is above 4,294,967,295 ms, and no live timer takes more (kernel(6),
    /// `sync_nodes_timeout`).
    SyncTimeoutTooLarge {
        node: Node,
    },
    /// The timeout of the distributed application is above 4,294,967,295 ms, and no live timer takes more (kernel(6),
    /// `distributed`).
    FailoverTimeoutTooLarge {
        app: App,
    },
    /// A tuple of the application's list isn't in the order of the nodes' names: live nodes go by the names and not by the place
    /// (kernel(6), `distributed`).
    TupleNotInOrder {
        app: App,
    },
    /// The application's list has two tuples of two nodes or more: live nodes can send each other weights for ever (kernel(6),
    /// `distributed`).
    TwoTuples {
        app: App,
    },
    /// The node boots the application, and what it depends on isn't started before it: `dep` is the first such dependency. It
    /// stands behind the application in the boot list, or the node doesn't have it at all (app(4), `applications`).
    BootBeforeDependency {
        node: Node,
        app: App,
        dep: Dep,
    },
    /// `node` boots the distributed application before the other one, and `crossing` the other way round: live both boot scripts
    /// can hang. These are the first such nodes; `app` comes before `other` in the file (kernel(6), `distributed`).
    CrossedBootLists {
        app: App,
        other: App,
        node: Node,
        crossing: Node,
    },
    /// The distributed application lists the node, which doesn't boot it (kernel(6), `distributed`).
    NotBootedAtListedNode {
        node: Node,
        app: App,
    },
    /// A node boots the distributed application as permanent: its end takes the node down, and live it fails over nowhere
    /// (application(3), the restart type of `start/2`).
    PermanentDistributed {
        app: App,
    },
    /// Two nodes or more boot the application, which isn't distributed: each runs an instance of its own (kernel(6),
    /// `distributed`).
    LocalAtSeveralNodes {
        app: App,
    },
    /// The application depends on itself by way of others: it never starts (app(4), `applications`).
    DependencyCircle {
        app: App,
    },
    /// Two distributed applications with one timeout can be lost with one node, and their standbys can wait for one another for
    /// ever: `app` comes before `other` in the file (kernel(6), `distributed`).
    LostTogether {
        app: App,
        other: App,
    },
}
