//! The lists of nodes for which nodes wait.

ghost use Rattle.std.specs.Prelude.{◌≡◌, ◌<◌, ◌&&◌};
ghost use Rattle.rh_model.specs.ClusterView.{node_count, app_count};
ghost use Rattle.rh_file_lint.specs.Cluster.{some_node, some_app, is_in_list};
ghost use Rattle.rh_file_lint.specs.SyncLists.{names, has_other, has_lists, share_app, has_no_lists, is_one_sided, is_incomplete};

use crate::cluster::is_in_list;
use rh_model::{App, Cluster, Node, is_in};

// Does a node name the other one in its lists?
#[tactic(auto, unfolding(crate::specs::SyncLists::names))]
fn names(cluster: &Cluster, node: Node, other: Node) -> bool
    requires { node.0 < node_count cluster.now }
    ensures { result ≡ names cluster.now node other }
{
    is_in(other, cluster.mandatory(node)) || is_in(other, cluster.optional(node))
}

// Has a list a node other than this one?
fn has_other(node: Node, nodes: &[Node]) -> bool
    ensures { result ≡ has_other node nodes.now }
{
    nodes.iter().any(|other| node.0 != other.0)
}

// Has a node lists, of others than itself?
#[tactic(auto, unfolding(crate::specs::SyncLists::has_lists))]
pub(crate) fn has_lists(cluster: &Cluster, node: Node) -> bool
    requires { node.0 < node_count cluster.now }
    ensures { result ≡ has_lists cluster.now node }
{
    has_other(node, cluster.mandatory(node)) || has_other(node, cluster.optional(node))
}

// Does the list of the application have both nodes?
fn lists_both(cluster: &Cluster, app: App, node: Node, other: Node) -> bool
    requires { app.0 < app_count cluster.now }
    ensures { result ≡ (is_in_list cluster.now app node && is_in_list cluster.now app other) }
{
    is_in_list(cluster, app, node) && is_in_list(cluster, app, other)
}

// Does one distributed application list both nodes?
#[tactic(auto, unfolding(crate::specs::Cluster::some_app, rh_state::specs::Numbers::apps_of))]
fn share_some_app(cluster: &Cluster, node: Node, other: Node) -> bool
    ensures { result ≡ some_app cluster.now
        (λ a. is_in_list cluster.now a node && is_in_list cluster.now a other) }
{
    for number in 0..cluster.app_count() {
        if lists_both(cluster, App(number as u8), node, other) {
            return true;
        }
    }
    false
}

// The same, of nodes that differ.
#[tactic(auto, unfolding(crate::specs::SyncLists::share_app))]
fn share_app(cluster: &Cluster, node: Node, other: Node) -> bool
    ensures { result ≡ share_app cluster.now node other }
{
    node.0 != other.0 && share_some_app(cluster, node, other)
}

// Does a node share a distributed application with another one?
#[tactic(auto, unfolding(crate::specs::Cluster::some_node, rh_state::specs::Numbers::nodes_of))]
fn has_company(cluster: &Cluster, node: Node) -> bool
    ensures { result ≡ some_node cluster.now (share_app cluster.now node) }
{
    for number in 0..cluster.node_count() {
        if share_app(cluster, node, Node(number as u8)) {
            return true;
        }
    }
    false
}

// Has a node that shares a distributed application with another one no lists?
#[tactic(auto, unfolding(crate::specs::SyncLists::has_no_lists))]
pub(crate) fn has_no_lists(cluster: &Cluster, node: Node) -> bool
    requires { node.0 < node_count cluster.now }
    ensures { result ≡ has_no_lists cluster.now node }
{
    !has_lists(cluster, node) && has_company(cluster, node)
}

// Does a node name the other one, which has lists without it?
#[tactic(auto, unfolding(crate::specs::SyncLists::is_one_sided))]
pub(crate) fn is_one_sided(cluster: &Cluster, node: Node, other: Node) -> bool
    requires node { node.0 < node_count cluster.now }
    requires other { other.0 < node_count cluster.now }
    ensures { result ≡ is_one_sided cluster.now node other }
{
    names(cluster, node, other)
        && has_lists(cluster, other)
        && !names(cluster, other, node)
        && share_app(cluster, node, other)
}

// Has a node lists without the other one, which doesn't name it either?
#[tactic(auto, unfolding(crate::specs::SyncLists::is_incomplete))]
pub(crate) fn is_incomplete(cluster: &Cluster, node: Node, other: Node) -> bool
    requires node { node.0 < node_count cluster.now }
    requires other { other.0 < node_count cluster.now }
    ensures { result ≡ is_incomplete cluster.now node other }
{
    has_lists(cluster, node)
        && !names(cluster, node, other)
        && !names(cluster, other, node)
        && share_app(cluster, node, other)
}
