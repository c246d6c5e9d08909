//! What a cluster file says of a node and of an application.

use crate::groups::Groups;
use crate::node::App;

/// What becomes of a node when an application ends on it (application(3), the restart type of
/// `start/2`).
#[derive(Clone, Copy, Debug, PartialEq, Eq)]
pub enum Restart {
    /// The node ends with the application.
    Permanent,
    /// The node ends with the application, unless it ended normally.
    Transient,
    /// The node goes on.
    Temporary,
}

/// How long a node waits for others when it starts (kernel(6), `sync_nodes_timeout`).
#[derive(Clone, Copy, Debug, PartialEq, Eq)]
pub enum SyncWait {
    /// It doesn't wait.
    Unset,
    /// It waits so many milliseconds at most, which are within [`TIMEOUT_LIMIT`](crate::TIMEOUT_LIMIT).
    After(u64),
    /// It waits until they are there.
    Forever,
}

/// What an application must find started (app(4), `applications`).
#[derive(Clone, Copy, Debug, PartialEq, Eq)]
pub enum Dep {
    /// An application of the cluster.
    Listed(App),
    /// A name of the platform, by its number among the cluster's platform names, from 0.
    Platform(u16),
}

/// Where a distributed application may run (kernel(6), `distributed`).
#[derive(Drop)]
pub struct Spread {
    /// How long the application stays lost before it is started elsewhere, in milliseconds, within
    /// [`TIMEOUT_LIMIT`](crate::TIMEOUT_LIMIT).
    pub timeout: u64,
    /// The nodes that may run it, those that it prefers first.
    pub groups: Groups,
}
