//! The timeouts of nodes and of distributed applications.

ghost use Rattle.std.specs.Prelude.{◌≡◌, ◌<◌};
ghost use Rattle.rh_model.specs.ClusterView.{node_count, app_count, sync_wait_of};
ghost use Rattle.rh_file_lint.specs.Timeouts.{lacks_timeout, is_zero, is_too_large, fails_over_too_late};

use crate::sync_lists::has_lists;
use rh_model::{App, Cluster, Node, SyncWait};

// Most milliseconds that a live timer takes.
const TIMER_LIMIT: u64 = 4_294_967_295;

// Has the node lists and no timeout?
#[tactic(auto, unfolding(crate::specs::Timeouts::lacks_timeout))]
pub(crate) fn lacks_timeout(cluster: &Cluster, node: Node) -> bool
    requires { node.0 < node_count cluster.now }
    ensures { result ≡ lacks_timeout cluster.now node }
{
    matches!(cluster.sync_wait(node), SyncWait::Unset) && has_lists(cluster, node)
}

// Is its timeout 0?
pub(crate) fn waits_zero(cluster: &Cluster, node: Node) -> bool
    requires { node.0 < node_count cluster.now }
    ensures { result ≡ is_zero (sync_wait_of cluster.now node) }
{
    match cluster.sync_wait(node) {
        SyncWait::After(ms) => ms == 0,
        SyncWait::Unset | SyncWait::Forever => false,
    }
}

// Is its timeout more than a live timer takes?
pub(crate) fn waits_too_long(cluster: &Cluster, node: Node) -> bool
    requires { node.0 < node_count cluster.now }
    ensures { result ≡ is_too_large (sync_wait_of cluster.now node) }
{
    match cluster.sync_wait(node) {
        SyncWait::After(ms) => ms > TIMER_LIMIT,
        SyncWait::Unset | SyncWait::Forever => false,
    }
}

// Is the timeout of the application more than a live timer takes?
pub(crate) fn fails_over_too_late(cluster: &Cluster, app: App) -> bool
    requires { app.0 < app_count cluster.now }
    ensures { result ≡ fails_over_too_late cluster.now app }
{
    match cluster.spread(app) {
        Some(spread) => spread.timeout > TIMER_LIMIT,
        None => false,
    }
}
