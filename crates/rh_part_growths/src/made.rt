//! The cluster and the state of the calls.

use rh_cluster::{App, Cluster, Node, read_cluster};
use rh_state::{Place, State, Timer, first_state};
use std::alloc::Global;

/// Two nodes with a service and what it needs, and a third node.
pub static LAB: &str = "\
{node, n1@lab, [{kernel, [
  {distributed, [{svc, 1000, [n1@lab, n2@lab]}]},
  {sync_nodes_mandatory, [n2@lab]},
  {sync_nodes_optional, [n3@lab]},
  {sync_nodes_timeout, 1000}]},
  {rehearse, [{platform, [crypto]}, {boot, [{side, permanent}, {svc, transient}]}]}]}.
{node, n2@lab, [{kernel, [
  {distributed, [{svc, 1000, [n1@lab, n2@lab]}]},
  {sync_nodes_mandatory, [n1@lab]},
  {sync_nodes_optional, [n3@lab]},
  {sync_nodes_timeout, 1000},
  {permissions, [{svc, false}]}]},
  {rehearse, [{boot, [{side, permanent}, {svc, transient}]}]}]}.
{node, n3@lab, []}.
{application, svc, [{applications, [kernel, side]}, {start_phases, [{go, []}]},
  {mod, {svc_app, [primary]}}]}.
{application, side, []}.
";

/// The first node.
pub static HERE: Node = Node(0);

/// The service.
pub static SERVICE: App = App(0);

/// The application that the service needs.
pub static SIDE: App = App(1);

/// That cluster.
pub fn cluster(alloc: Global) -> Option<Cluster> {
    read_cluster(alloc, LAB.as_bytes()).ok()
}

/// Has a cluster as many nodes and applications as that one?
pub fn is_lab(cluster: &Cluster) -> bool {
    cluster.node_count() == 3 && cluster.app_count() == 2
}

/// A state of it, as no event leaves it: at the first node both applications stand as running, and the service has a timer.
pub fn state(alloc: Global) -> Option<State> {
    let cluster = cluster(alloc)?;
    state_of(alloc, &cluster)
}

// That state of this cluster.
fn state_of(alloc: Global, cluster: &Cluster) -> Option<State> {
    let mut state = first_state(alloc, cluster).ok()?;
    fill(&mut state)?;
    Some(state)
}

// Lets both applications run at the first node, and sets the timer of the service.
fn fill(state: &mut State) -> Option<()> {
    push(state, SIDE)?;
    push(state, SERVICE)?;
    arm(state)
}

// Puts an application that isn't started at the first node into its running list.
fn push(state: &mut State, app: App) -> Option<()> {
    if state.cluster().node_count() != 3 || state.cluster().app_count() != 2 {
        return None;
    }
    if app.0 > 1 || state.place_of(HERE, app) != Place::Off {
        return None;
    }
    let _ = state.push_running(HERE, app);
    Some(())
}

// Sets the timer of the service.
fn arm(state: &mut State) -> Option<()> {
    if state.cluster().app_count() != 2 || state.due_of(Timer::Failover(SERVICE)).is_some() {
        return None;
    }
    let _ = state.arm_timer(Timer::Failover(SERVICE), 36);
    Some(())
}
