//! What nodes boot.

ghost use Rattle.std.specs.Prelude.{◌≡◌, ◌<◌, ◌≤◌, IsSome, length, filter};
ghost use Rattle.rh_model.specs.ClusterView.{node_count, app_count, dep_name};
ghost use Rattle.rh_model.specs.declared.node.Node.{Node};
ghost use Rattle.rh_state.specs.Numbers.{nodes_of};
ghost use Rattle.rh_file_lint.specs.Cluster.{some_node, boots};
ghost use Rattle.rh_file_lint.specs.BootLists.{is_met, first_unmet, unmet_dep, isnt_booted, boots_permanent, is_permanent_somewhere, runs_several_times, is_distributed_pair};

use crate::cluster::{boots, boots_before, is_distributed, is_in_list};
use rh_model::{App, Cluster, Dep, Node, Restart};

// Is what an application depends on started when the node comes to it?
fn is_met(cluster: &Cluster, node: Node, app: App, dep: Dep) -> bool
    requires node { node.0 < node_count cluster.now }
    requires dep { IsSome (dep_name cluster.now dep) }
    ensures { result ≡ is_met cluster.now node app dep }
{
    match dep {
        Dep::Listed(other) => boots_before(cluster, node, other, app),
        Dep::Platform(name) => cluster.is_platform(node, name),
    }
}

// The first of the dependencies that isn't met.
#[tactic(auto, unfolding(crate::specs::BootLists::first_unmet))]
fn first_unmet(cluster: &Cluster, node: Node, app: App) -> Option<Dep>
    requires node { node.0 < node_count cluster.now }
    requires app { app.0 < app_count cluster.now }
    ensures { result ≡ first_unmet cluster.now node app }
{
    cluster.is_within();
    let deps = cluster.deps(app);
    'deps: for dep in deps {
        if !is_met(cluster, node, app, *dep) {
            return Some(*dep);
        }
    }
    None
}

// Of an application that the node boots.
#[tactic(auto, unfolding(crate::specs::BootLists::unmet_dep))]
pub(crate) fn unmet_dep(cluster: &Cluster, node: Node, app: App) -> Option<Dep>
    requires node { node.0 < node_count cluster.now }
    requires app { app.0 < app_count cluster.now }
    ensures { result ≡ unmet_dep cluster.now node app }
{
    if boots(cluster, node, app) {
        first_unmet(cluster, node, app)
    } else {
        None
    }
}

// Does a distributed application list the node, which doesn't boot it?
#[tactic(auto, unfolding(crate::specs::BootLists::isnt_booted))]
pub(crate) fn isnt_booted(cluster: &Cluster, node: Node, app: App) -> bool
    requires node { node.0 < node_count cluster.now }
    requires app { app.0 < app_count cluster.now }
    ensures { result ≡ isnt_booted cluster.now node app }
{
    is_in_list(cluster, app, node) && !boots(cluster, node, app)
}

// Does the node boot it as permanent?
fn boots_permanent(cluster: &Cluster, node: Node, app: App) -> bool
    requires { node.0 < node_count cluster.now }
    ensures { result ≡ boots_permanent cluster.now node app }
{
    cluster.boot(node).iter().any(|entry| app.0 == entry.0.0
        && matches!(entry.1, Restart::Permanent))
}

// Does some node?
#[tactic(auto, unfolding(crate::specs::Cluster::some_node, rh_state::specs::Numbers::nodes_of))]
fn is_permanent_at_some_node(cluster: &Cluster, app: App) -> bool
    ensures { result ≡ some_node cluster.now (λ n. boots_permanent cluster.now n app) }
{
    for number in 0..cluster.node_count() {
        if boots_permanent(cluster, Node(number as u8), app) {
            return true;
        }
    }
    false
}

// Does a node boot it as permanent, and is it distributed?
#[tactic(auto, unfolding(crate::specs::BootLists::is_permanent_somewhere))]
pub(crate) fn is_permanent_somewhere(cluster: &Cluster, app: App) -> bool
    requires { app.0 < app_count cluster.now }
    ensures { result ≡ is_permanent_somewhere cluster.now app }
{
    is_distributed(cluster, app) && is_permanent_at_some_node(cluster, app)
}

// How many nodes boot the application?
#[tactic(auto, using(crate::proofs::OneMore::count_more), unfolding(rh_state::specs::Numbers::nodes_of))]
fn booting_count(cluster: &Cluster, app: App) -> usize
    ensures { result
        ≡ length (filter (λ (n : Node). boots cluster.now n app) (nodes_of cluster.now)) }
{
    let mut count = 0;
    for number in 0..cluster.node_count() {
        if boots(cluster, Node(number as u8), app) {
            count += 1;
        }
    }
    count
}

// Do several nodes boot it, and isn't it distributed?
#[tactic(auto, unfolding(crate::specs::BootLists::runs_several_times))]
pub(crate) fn runs_several_times(cluster: &Cluster, app: App) -> bool
    requires { app.0 < app_count cluster.now }
    ensures { result ≡ runs_several_times cluster.now app }
{
    !is_distributed(cluster, app) && booting_count(cluster, app) >= 2
}

// Are these two distributed applications, the first one before the other in the file?
pub(crate) fn is_distributed_pair(cluster: &Cluster, app: App, other: App) -> bool
    requires app { app.0 < app_count cluster.now }
    requires other { other.0 < app_count cluster.now }
    ensures { result ≡ is_distributed_pair cluster.now app other }
{
    app.0 < other.0 && is_distributed(cluster, app) && is_distributed(cluster, other)
}
