//! The clusters and simulations of these tests, and calls of theirs. None of these functions says what it does in a contract, so that
//! the proof of a test that calls it has nothing to carry along.

use rh_cluster::{Cluster, read_cluster};
use rh_state::State;
use rh_step::{Event, Notice, Pick, Refusal};
use rh_trail::Sim;
use std::alloc::Global;
use std::process::Abort;

/// The cluster that a text describes.
pub fn cluster_of(rt: &impl Abort, alloc: Global, text: &str) -> Cluster {
    read_cluster(alloc, text.as_bytes())
        .ok()
        .expect(rt, "a cluster")
}

/// A copy of a cluster.
pub fn copy_of_cluster(rt: &impl Abort, alloc: Global, cluster: &Cluster) -> Cluster {
    cluster.copy(alloc).ok().expect(rt, "memory")
}

/// Is the cluster the same as that of a text?
pub fn is_cluster_of(rt: &impl Abort, alloc: Global, cluster: &Cluster, text: &str) -> bool {
    cluster.same(&cluster_of(rt, alloc, text))
}

/// Are the clusters of the two texts the same?
pub fn are_clusters_same(rt: &impl Abort, alloc: Global, one: &str, other: &str) -> bool {
    let one = cluster_of(rt, alloc, one);
    is_cluster_of(rt, alloc, &one, other)
}

/// A simulation on the cluster that a text describes, in the first state.
pub fn sim_on(rt: &impl Abort, alloc: Global, text: &str) -> Sim {
    Sim::open(alloc, cluster_of(rt, alloc, text), Pick::First)
        .ok()
        .expect(rt, "memory")
}

/// Makes an event, or says why it is refused.
pub fn step(alloc: Global, sim: &mut Sim, event: Event) -> Result<Vec<Notice>, Refusal> {
    sim.step(alloc, event)
}

/// Makes these events, all of which are accepted.
pub fn make_all(rt: &impl Abort, alloc: Global, sim: &mut Sim, events: &[Event]) {
    for event in events {
        assert!(rt; step(alloc, sim, *event).is_ok());
    }
}

/// Takes the last step back, and says how many edits it has.
pub fn undo(sim: &mut Sim) -> Option<usize> {
    sim.undo().ok()
}

/// Makes the next step again, and says how many edits it has.
pub fn redo(sim: &mut Sim) -> Option<usize> {
    sim.redo().ok()
}

/// Takes all steps back, and says how many.
pub fn undo_all(sim: &mut Sim) -> u32 {
    sim.undo_all()
}

/// How many edits the last of three steps made.
pub fn edits_of_third(rt: &impl Abort, sim: &Sim) -> usize {
    assert!(rt; sim.trail().len() == 3);
    sim.record(2).len()
}

/// The state that a simulation has.
pub fn state_of(sim: &Sim) -> &State {
    sim.state()
}

/// A copy of a state.
pub fn copy_of(rt: &impl Abort, alloc: Global, state: &State) -> State {
    state.copy(alloc).ok().expect(rt, "memory")
}

/// A copy of the state that a simulation has.
pub fn copy_of_state(rt: &impl Abort, alloc: Global, sim: &Sim) -> State {
    copy_of(rt, alloc, state_of(sim))
}

/// Has the simulation a state of these words?
pub fn has_words(sim: &Sim, words: &State) -> bool {
    state_of(sim).same_words(words)
}
