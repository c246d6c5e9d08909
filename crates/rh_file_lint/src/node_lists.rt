//! The lists of nodes that may run an application.

ghost use Rattle.std.specs.Prelude.{◌≡◌, ◌<◌, ◌≤◌, length, not, filter};
ghost use Rattle.std.specs.List.{list_all};
ghost use Rattle.rh_model.specs.ClusterView.{app_count};
ghost use Rattle.rh_model.specs.declared.node.Node.{Node};
ghost use Rattle.rh_file_lint.specs.NodeLists.{sorts_before, is_sorted, has_unsorted_tuple, is_tuple, has_two_tuples};

use crate::cluster::{groups_of, name_of};
use rh_model::{App, Cluster, Group, Node};

// Does the name of a node come before that of the other one?
fn sorts_before(cluster: &Cluster, node: Node, other: Node) -> bool
    ensures { result ≡ sorts_before cluster.now node other }
{
    name_of(cluster, node).cmp(name_of(cluster, other)).is_lt()
}

// Does the name of none of these come before that of a node?
fn none_before(cluster: &Cluster, node: Node, later: &[Node]) -> bool
    ensures { result ≡ list_all (λ (m : Node). not (sorts_before cluster.now m node)) later.now }
{
    later
        .iter()
        .all(|other| !sorts_before(cluster, *other, node))
}

// Are the nodes written in the order of their names?
fn is_sorted(cluster: &Cluster, nodes: &[Node]) -> bool
    ensures { result ≡ is_sorted cluster.now nodes.now }
{
    for index in 0..nodes.len() {
        if !none_before(cluster, nodes[index], &nodes[index + 1..]) {
            return false;
        }
    }
    true
}

// Isn't a group of the application in that order?
#[tactic(auto, unfolding(crate::specs::NodeLists::has_unsorted_tuple))]
pub(crate) fn has_unsorted_tuple(cluster: &Cluster, app: App) -> bool
    requires { app.0 < app_count cluster.now }
    ensures { result ≡ has_unsorted_tuple cluster.now app }
{
    groups_of(cluster, app)
        .iter()
        .any(|group| !is_sorted(cluster, group.as_slice()))
}

// How many of the groups are tuples?
fn tuple_count(groups: &[Group]) -> usize
    ensures { result ≡ length (filter is_tuple groups.now) }
{
    groups
        .iter()
        .filter(|group| group.as_slice().len() >= 2)
        .count()
}

// Has the application two tuples?
#[tactic(auto, unfolding(crate::specs::NodeLists::has_two_tuples))]
pub(crate) fn has_two_tuples(cluster: &Cluster, app: App) -> bool
    requires { app.0 < app_count cluster.now }
    ensures { result ≡ has_two_tuples cluster.now app }
{
    tuple_count(groups_of(cluster, app)) >= 2
}
