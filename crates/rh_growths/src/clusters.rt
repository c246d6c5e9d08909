//! The clusters of the calls, and simulations on them.

use rh_cluster::{Cluster, Node, read_cluster};
use rh_step::{Event, Pick};
use rh_trail::Sim;
use std::alloc::Global;

/// Three nodes that wait for one another, and an application of theirs (Distributed Applications).
pub static CAVE: &str = "\
{node, cp1@cave, [{kernel, [
  {distributed, [{myapp, 5000, [cp1@cave, {cp2@cave, cp3@cave}]}]},
  {sync_nodes_mandatory, [cp2@cave, cp3@cave]},
  {sync_nodes_timeout, 5000}]},
  {rehearse, [{boot, [{myapp, permanent}]}]}]}.
{application, myapp, [{applications, [kernel, stdlib]},
  {mod, {myapp_app, []}}]}.
{node, cp2@cave, [{kernel, [
  {distributed, [{myapp, 5000, [cp1@cave, {cp2@cave, cp3@cave}]}]},
  {sync_nodes_mandatory, [cp1@cave, cp3@cave]},
  {sync_nodes_timeout, 5000}]},
  {rehearse, [{boot, [{myapp, permanent}]}]}]}.
{node, cp3@cave, [{kernel, [
  {distributed, [{myapp, 5000, [cp1@cave, {cp2@cave, cp3@cave}]}]},
  {sync_nodes_mandatory, [cp1@cave, cp2@cave]},
  {sync_nodes_timeout, 5000}]},
  {rehearse, [{boot, [{myapp, permanent}]}]}]}.
";

/// Two nodes that wait for one another, a service of theirs, and a third node.
pub static PAIR: &str = "\
{node, n1@lab, [{kernel, [
  {distributed, [{svc, 1000, [n1@lab, n2@lab]}]},
  {sync_nodes_optional, [n2@lab, n3@lab]},
  {sync_nodes_timeout, 1000}]},
  {rehearse, [{boot, [{svc, transient}]}]}]}.
{node, n2@lab, [{kernel, [
  {distributed, [{svc, 1000, [n1@lab, n2@lab]}]},
  {sync_nodes_optional, [n1@lab, n3@lab]},
  {sync_nodes_timeout, 1000}]},
  {rehearse, [{boot, [{svc, transient}]}]}]}.
{node, n3@lab, []}.
{application, svc, [{start_phases, [{go, []}]}, {mod, {svc_app, [primary]}}]}.
";

/// The same in the second profile.
pub static SECOND_PAIR: &str = "\
{profile, 2}.
{node, n1@lab, [{kernel, [
  {distributed, [{svc, 1000, [n1@lab, n2@lab]}]},
  {sync_nodes_optional, [n2@lab, n3@lab]},
  {sync_nodes_timeout, 1000}]},
  {rehearse, [{boot, [{svc, transient}]}]}]}.
{node, n2@lab, [{kernel, [
  {distributed, [{svc, 1000, [n1@lab, n2@lab]}]},
  {sync_nodes_optional, [n1@lab, n3@lab]},
  {sync_nodes_timeout, 1000}]},
  {rehearse, [{boot, [{svc, transient}]}]}]}.
{node, n3@lab, []}.
{application, svc, [{start_phases, [{go, []}]}, {mod, {svc_app, [primary]}}]}.
";

/// One node that boots three applications.
pub static ONE_NODE: &str = "\
{node, one@lab, [{rehearse,
  [{boot, [{a, temporary}, {b, temporary}, {c, temporary}]}]}]}.
{application, a, []}. {application, b, []}. {application, c, []}.
";

/// Two nodes, and an application that needs two others.
pub static TWO_NODES: &str = "\
{node, v@lab, []}.
{node, w@lab, [{rehearse, [{boot, [{x, permanent}, {d1, permanent}]}]}]}.
{application, x, [{applications, [kernel, d1, d2]}]}.
{application, d1, []}. {application, d2, []}.
";

/// Two nodes of one rank and a third behind them, with a local application at the first.
pub static RANKS: &str = "\
{node, m1@lab, [
  {kernel, [{distributed, [{job, [{m1@lab, m2@lab}, m3@lab]}]}]},
  {rehearse, [{boot, [{load, permanent}, {job, permanent}]}]}]}.
{node, m2@lab, [
  {kernel, [{distributed, [{job, [{m1@lab, m2@lab}, m3@lab]}]}]},
  {rehearse, [{boot, [{job, permanent}]}]}]}.
{node, m3@lab, [
  {kernel, [{distributed, [{job, [{m1@lab, m2@lab}, m3@lab]}]}]},
  {rehearse, [{boot, [{job, permanent}]}]}]}.
{application, load, []}. {application, job, []}.
";

/// The first node boots.
pub static BOOT_1: Event = Event::Boot { node: Node(0) };

/// The second node boots.
pub static BOOT_2: Event = Event::Boot { node: Node(1) };

/// The third node boots.
pub static BOOT_3: Event = Event::Boot { node: Node(2) };

/// The cluster that a text describes.
pub fn cluster_of(alloc: Global, text: &str) -> Option<Cluster> {
    read_cluster(alloc, text.as_bytes()).ok()
}

// A simulation on it, in the first state.
fn sim_on(alloc: Global, text: &str) -> Option<Sim> {
    Sim::open(alloc, cluster_of(alloc, text)?, Pick::First).ok()
}

/// A simulation on it, behind these events. Its lists have no room to spare, as those of each copy.
pub fn sim_behind(alloc: Global, text: &str, events: &[Event]) -> Option<Sim> {
    let mut sim = sim_on(alloc, text)?;
    copy_behind(alloc, &mut sim, events)
}

// Its copy behind these events.
fn copy_behind(alloc: Global, sim: &mut Sim, events: &[Event]) -> Option<Sim> {
    make_all(alloc, sim, events)?;
    sim.copy(alloc).ok()
}

// Makes these events, all of which are accepted.
fn make_all(alloc: Global, sim: &mut Sim, events: &[Event]) -> Option<()> {
    for event in events {
        let _ = sim.step(alloc, *event).ok()?;
    }
    Some(())
}

/// That simulation, with the last event taken back.
pub fn sim_before_last(alloc: Global, text: &str, events: &[Event]) -> Option<Sim> {
    let mut sim = sim_behind(alloc, text, events)?;
    let _ = sim.undo().ok()?;
    Some(sim)
}
