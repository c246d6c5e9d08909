//! What a cluster says, in the words of the findings.

ghost use Rattle.std.specs.Prelude.{◌≡◌, ◌<◌};
ghost use Rattle.rh_model.specs.ClusterView.{node_count, app_count, name_of};
ghost use Rattle.rh_file_lint.specs.Cluster.{is_distributed, groups_of, is_in_list, boot_place, boots, comes_before, boots_before};

use rh_model::{App, Cluster, Group, Node};

// Is the application distributed?
pub(crate) fn is_distributed(cluster: &Cluster, app: App) -> bool
    requires { app.0 < app_count cluster.now }
    ensures { result ≡ is_distributed cluster.now app }
{
    cluster.spread(app).is_some()
}

// The groups of its list.
pub(crate) fn groups_of(cluster: &Cluster, app: App) -> &[Group]
    requires { app.0 < app_count cluster.now }
    ensures { result.now ≡ groups_of cluster.now app }
{
    match cluster.spread(app) {
        Some(spread) => spread.groups.as_slice(),
        None => &[],
    }
}

// Is it distributed, and is the node in its list?
pub(crate) fn is_in_list(cluster: &Cluster, app: App, node: Node) -> bool
    requires { app.0 < app_count cluster.now }
    ensures { result ≡ is_in_list cluster.now app node }
{
    cluster.group_of(app, node).is_some()
}

// The name of a node, and none for a number that no node has.
pub(crate) fn name_of(cluster: &Cluster, node: Node) -> &str
    ensures { result.now ≡ name_of cluster.now node }
{
    if (node.0 as usize) < cluster.node_count() {
        cluster.node_name(node)
    } else {
        ""
    }
}

// The place of an application in a node's boot list.
pub(crate) fn boot_place(cluster: &Cluster, node: Node, app: App) -> Option<usize>
    requires { node.0 < node_count cluster.now }
    ensures { result ≡ boot_place cluster.now node app }
{
    cluster
        .boot(node)
        .iter()
        .position(|entry| app.0 == entry.0.0)
}

// Does the node boot it?
pub(crate) fn boots(cluster: &Cluster, node: Node, app: App) -> bool
    requires { node.0 < node_count cluster.now }
    ensures { result ≡ boots cluster.now node app }
{
    boot_place(cluster, node, app).is_some()
}

// Does one place come before the other one?
pub(crate) fn comes_before(place: Option<usize>, other: Option<usize>) -> bool
    ensures { result ≡ comes_before place other }
{
    match (place, other) {
        (Some(place), Some(other)) => place < other,
        _ => false,
    }
}

// Does the node boot both, the first one before the other?
pub(crate) fn boots_before(cluster: &Cluster, node: Node, app: App, other: App) -> bool
    requires { node.0 < node_count cluster.now }
    ensures { result ≡ boots_before cluster.now node app other }
{
    comes_before(
        boot_place(cluster, node, app),
        boot_place(cluster, node, other),
    )
}
