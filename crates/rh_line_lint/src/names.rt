//! The names of a cluster.

ghost use Rattle.std.specs.Prelude.{◌≡◌, IfOk, map};

use rh_base::OutOfMemory;
use rh_cluster::{App, Cluster, Node};
use std::alloc::Global;

/// The names of its nodes.
pub fn node_names(alloc: Global, cluster: &Cluster) -> Result<Vec<&str>, OutOfMemory>
    ensures { IfOk result (λ names. map (λ name. name.now) names.items ≡ cluster.now.node_names) }
{
    let mut names = Vec::new(alloc);
    for number in 0..cluster.node_count() {
        names.push(cluster.node_name(Node(number as u8)))?;
    }
    Ok(names)
}

/// The names of its applications.
pub fn app_names(alloc: Global, cluster: &Cluster) -> Result<Vec<&str>, OutOfMemory>
    ensures { IfOk result (λ names. map (λ name. name.now) names.items ≡ cluster.now.app_names) }
{
    let mut names = Vec::new(alloc);
    for number in 0..cluster.app_count() {
        names.push(cluster.app_name(App(number as u8)))?;
    }
    Ok(names)
}
