//! Readers of a cluster that no step asks, copies, and which clusters are the same.

use crate::shown::show_term;
use crate::support::{are_clusters_same, cluster_of, copy_of_cluster, is_cluster_of};
use rh_base::Term;
use rh_cluster::{App, Cluster};
use rh_samples::{ONE_NODE, TWO_NODES};
use std::alloc::Global;
use std::process::Abort;

// An application with start phases, a module and a start argument.
static SERVICE: &str = "\
{node, n1@lab, [{rehearse, [{platform, [crypto]}]}]}.
{application, svc, [{start_phases, [{go, []}]}, {mod, {svc_app, [primary]}}]}.
";

fn has_start_and_platform(rt: &impl Abort, cluster: &Cluster) {
    assert!(rt; cluster.app_count() == 1 && cluster.platform_count() == 3);
    let (module, _) = cluster.start_arg(App(0)).expect(rt, "it has a module");
    assert!(rt; module == "svc_app");
}

// Is a copy of the start argument shown so?
fn has_argument(rt: &impl Abort, alloc: Global, cluster: &Cluster, want: &str) {
    assert!(rt; cluster.app_count() == 1 && cluster.phases(App(0)));
    let (_, argument) = cluster.start_arg(App(0)).expect(rt, "it has a module");
    is_shown_in_copy(rt, alloc, argument, want);
}

fn is_shown_in_copy(rt: &impl Abort, alloc: Global, term: &Term, want: &str) {
    let copy = term.copy(alloc).ok().expect(rt, "memory");
    let mut text = String::new(alloc);
    assert!(rt; show_term(&mut text, &copy).is_ok());
    assert_eq!(rt; text.as_str(), want);
}

fn is_copied(rt: &impl Abort, alloc: Global, cluster: &Cluster) {
    let copy = copy_of_cluster(rt, alloc, cluster);
    has_start_and_platform(rt, &copy);
    assert!(rt; copy.same(cluster));
}

#[test]
fn a_copy_answers_the_same(rt: HostRuntime) {
    let cluster = cluster_of(&rt, rt.alloc(), SERVICE);
    has_start_and_platform(&rt, &cluster);
    has_argument(&rt, rt.alloc(), &cluster, "[primary,]");
    is_copied(&rt, rt.alloc(), &cluster);
}

// The same as the cluster of the first text, and not as that of the second.
fn stands_for(rt: &impl Abort, alloc: Global, copy: &Cluster, same: &str, other: &str) {
    assert!(rt; is_cluster_of(rt, alloc, copy, same));
    assert!(rt; !is_cluster_of(rt, alloc, copy, other));
}

fn copy_stands_alone(rt: &impl Abort, alloc: Global, cluster: &Cluster) {
    let copy = copy_of_cluster(rt, alloc, cluster);
    assert!(rt; copy.node_count() == 1 && copy.app_count() == 3);
    stands_for(rt, alloc, &copy, ONE_NODE, TWO_NODES);
}

#[test]
fn a_copy_stands_for_its_cluster_alone(rt: HostRuntime) {
    let cluster = cluster_of(&rt, rt.alloc(), ONE_NODE);
    copy_stands_alone(&rt, rt.alloc(), &cluster);
}

#[test]
fn the_order_of_nodes_counts(rt: HostRuntime) {
    let alloc = rt.alloc();
    let this = "{node, a@x, []}. {node, b@x, []}.";
    let that = "{node, b@x, []}. {node, a@x, []}.";
    assert!(rt; !are_clusters_same(&rt, alloc, this, that));
    assert!(rt;
        are_clusters_same(&rt, alloc, ONE_NODE, ONE_NODE)
            && !are_clusters_same(&rt, alloc, ONE_NODE, TWO_NODES)
    );
}
