//! The clusters and simulations of these tests.

use rh_cluster::{Cluster, read_cluster};
use rh_step::{Event, Pick};
use rh_trail::Sim;
use std::alloc::Global;
use std::process::Abort;

/// The cluster that a text describes.
pub fn cluster_of(rt: &impl Abort, alloc: Global, text: &str) -> Cluster {
    read_cluster(alloc, text.as_bytes())
        .ok()
        .expect(rt, "a cluster")
}

/// A simulation on the cluster that a text describes, in the first state.
pub fn sim_on(rt: &impl Abort, alloc: Global, text: &str) -> Sim {
    sim_of(rt, alloc, cluster_of(rt, alloc, text))
}

// A simulation of a cluster.
fn sim_of(rt: &impl Abort, alloc: Global, cluster: Cluster) -> Sim {
    Sim::open(alloc, cluster, Pick::First)
        .ok()
        .expect(rt, "memory")
}

/// Makes these events, all of which are accepted.
pub fn make_all(rt: &impl Abort, alloc: Global, sim: &mut Sim, events: &[Event]) {
    for event in events {
        make(rt, alloc, sim, *event);
    }
}

// Makes an event, which is accepted.
fn make(rt: &impl Abort, alloc: Global, sim: &mut Sim, event: Event) {
    assert!(rt; sim.step(alloc, event).is_ok());
}
