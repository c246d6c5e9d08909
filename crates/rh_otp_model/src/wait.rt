//! What a node's own file says of its wait for others.

use crate::own::Own;

/// `sync_nodes_timeout`, as it is written (kernel(6)).
#[derive(Clone, Copy, Debug, PartialEq, Eq)]
pub enum Wait {
    /// It isn't there: the node waits for nobody.
    Unset,
    /// 0, or a written `undefined`: a live node refuses it, `{badopt, {sync_nodes_timeout, ..}}`, and ends.
    Refused,
    /// So many milliseconds.
    After(u64),
    /// `infinity`
    Forever,
}

/// What a node's own file says that the cluster doesn't keep, or not as it is written.
#[derive(Drop)]
pub struct OwnFile {
    /// Its `distributed`.
    pub own: Own,
    /// Its `sync_nodes_timeout`.
    pub wait: Wait,
}
