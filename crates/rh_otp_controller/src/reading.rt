//! What a controller reads of its node's files. A number that nothing has is answered, too: it needs nothing, and has nothing.

ghost use Rattle.std.specs.Prelude.{◌≡◌};
ghost use Rattle.rh_model.specs.ClusterView.{deps_of, is_platform, has_phases};

use rh_model::{App, Cluster, Dep, Node};

/// What an application needs, in order.
pub fn needs_of(cluster: &Cluster, app: App) -> &[Dep]
    ensures { result.now ≡ deps_of cluster.now app }
{
    cluster.is_within();
    if (app.0 as usize) < cluster.app_count() {
        cluster.deps(app)
    } else {
        &[]
    }
}

/// Are the application's start phases defined?
pub fn has_phases(cluster: &Cluster, app: App) -> bool
    ensures { result ≡ has_phases cluster.now app }
{
    cluster.is_within();
    (app.0 as usize) < cluster.app_count() && cluster.phases(app)
}

/// Has the node the platform name of this number?
pub fn has_platform(cluster: &Cluster, node: Node, platform: u16) -> bool
    ensures { result ≡ is_platform cluster.now node platform }
{
    cluster.is_within();
    (node.0 as usize) < cluster.node_count()
        && (platform as usize) < cluster.platform_count()
        && cluster.is_platform(node, platform)
}
