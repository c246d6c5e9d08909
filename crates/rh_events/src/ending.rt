//! How a node ends.

ghost use Rattle.std.specs.Prelude.{◌≡◌, ◌≤◌, ◌+◌, ◌*◌, ◌↔◌, [], true, IsTrue, IsNone, IfSome, OnOk};
ghost use Rattle.rh_model.specs.ClusterView.{app_count, is_permitted};
ghost use Rattle.rh_model.specs.declared.node.App.{App};
ghost use Rattle.rh_model.specs.Limits.{timeout_limit};
ghost use Rattle.rh_state.specs.First.{configured};
ghost use Rattle.rh_state.specs.Tables.{row};
ghost use Rattle.rh_state.specs.Shape.{IsNodeOf, IsAppOf};
ghost use Rattle.rh_state.specs.StateView.{running_at, waiting_at, is_started, standing_of, due_of};
ghost use Rattle.rh_state.specs.Setters.{with_allowed};
ghost use Rattle.rh_state.specs.Stored.{read};
ghost use Rattle.rh_state.specs.declared.status.Standing.TheVariants.{Running};
ghost use Rattle.rh_state.specs.declared.status.Timer.TheVariants.{Failover};
ghost use Rattle.rh_trace.specs.Traces.{course};
ghost use Rattle.rh_trace.specs.Counts.{FewEdits, FewWeighed};
ghost use Rattle.rh_trace.specs.Ways.{TellsNothing, Goes};
ghost use Rattle.rh_rules.specs.NodesEnd.{timeout_of, emptied, with_configured, cleared, lost_at, lost_if_ran, all_lost, ended};

use crate::readiness::cancel_if_set;
use rh_base::OutOfMemory;
use rh_model::{App, Cluster, Node};
use rh_rules::Notice;
use rh_state::{Mode, Standing, State, Timer};
use rh_trace::{Trace, recording};

// An application that is started at a node, if there is one.
fn first_started(state: &State, node: Node) -> Option<App>
    requires { IsNodeOf (read state.now).cluster node }
    ensures none { IsNone result
        ↔ ((running_at (read state.now) node ≡ []) × (waiting_at (read state.now) node ≡ [])) }
    ensures started { IfSome result (λ app. is_started (read state.now) node app ≡ true) }
    ensures number { IfSome result (λ app. IsAppOf (read state.now).cluster app) }
{
    match state.first_running(node) {
        Some(app) => Some(app),
        None => state.first_waiting(node),
    }
}

// Each application that is started at a node leaves its list.
#[tactic(auto, using(rh_trace::proofs::Ways::goes_none, rh_trace::proofs::Ways::goes_more))]
fn empty(state: &mut State, node: Node, trace: &mut Trace) -> Result<(), OutOfMemory>
    requires { IsNodeOf (read state.old).cluster node }
    ensures part { OnOk result (read state.new ≡ emptied (read state.old) node) }
    ensures silent { TellsNothing trace.old trace.new }
    ensures way { Goes state.old trace.old state.new trace.new }
    ensures few { OnOk result (FewEdits (app_count (read state.old).cluster) trace.old trace.new) }
{
    state.formed();
    'started: while let Some(app) = first_started(state, node) {
        recording::unlink(state, node, app, trace)?;
    }
    Ok(())
}

// An application may run at a node as configured.
fn configure_app(
    state: &mut State,
    node: Node,
    app: App,
    trace: &mut Trace,
) -> Result<(), OutOfMemory>
    requires node { IsNodeOf (read state.old).cluster node }
    requires app { IsAppOf (read state.old).cluster app }
    ensures part { OnOk result (read state.new
        ≡ with_allowed (read state.old) node app (is_permitted (read state.old).cluster node app)) }
    ensures silent { TellsNothing trace.old trace.new }
    ensures way { Goes state.old trace.old state.new trace.new }
    ensures few { FewEdits 1 trace.old trace.new }
{
    let allow = state.cluster().permitted(node, app);
    recording::set_allowed(state, node, app, allow, trace)
}

// Is what may run at a node as configured?
fn is_configured(state: &State, node: Node) -> bool
    requires { IsNodeOf (read state.now).cluster node }
    ensures { IsTrue result
        ↔ (row (read state.now).allowed node.0 ≡ configured (read state.now).cluster node) }
{
    state.permissions(node) == state.cluster().permissions(node)
}

// What may run at a node is as configured again (kernel(6), `permissions`). Nearly always it is so already, and then no
// application is asked for alone.
#[tactic(auto, using(rh_trace::proofs::Ways::goes_none, rh_trace::proofs::Ways::goes_more))]
fn configure(state: &mut State, node: Node, trace: &mut Trace) -> Result<(), OutOfMemory>
    requires { IsNodeOf (read state.old).cluster node }
    ensures part { OnOk result (read state.new ≡ with_configured (read state.old) node) }
    ensures silent { TellsNothing trace.old trace.new }
    ensures way { Goes state.old trace.old state.new trace.new }
    ensures few { OnOk result (FewEdits (app_count (read state.old).cluster) trace.old trace.new) }
{
    state.formed();
    if is_configured(state, node) {
        return Ok(());
    }
    let count = state.cluster().app_count();
    'apps: for number in 0..count {
        configure_app(state, node, App(number as u8), trace)?;
    }
    Ok(())
}

// A node is down: nothing is started there, it waits no longer, and its permissions are as configured.
#[tactic(auto, unfolding(rh_rules::specs::NodesEnd::cleared), using(rh_trace::proofs::Ways::goes_more))]
fn clear(state: &mut State, node: Node, trace: &mut Trace) -> Result<(), OutOfMemory>
    requires { IsNodeOf (read state.old).cluster node }
    ensures part { OnOk result (read state.new ≡ cleared (read state.old) node) }
    ensures silent { TellsNothing trace.old trace.new }
    ensures way { Goes state.old trace.old state.new trace.new }
    ensures few { OnOk result
        (FewEdits (2 + 2 * app_count (read state.old).cluster) trace.old trace.new) }
{
    cancel_if_set(state, Timer::Sync(node), trace)?;
    empty(state, node, trace)?;
    configure(state, node, trace)?;
    recording::set_mode(state, node, Mode::Down, trace)
}

// How long an application's other nodes wait for one that was lost (kernel(6), `distributed`), in milliseconds.
fn timeout_of(cluster: &Cluster, app: App) -> u64
    requires { IsAppOf cluster.now app }
    ensures timeout { result ≡ timeout_of cluster.now app }
    ensures limit { result ≤ timeout_limit }
{
    cluster.is_within();
    match cluster.spread(app) {
        Some(spread) => spread.timeout,
        None => 0,
    }
}

// An application that ran at a node that ended is lost until its timeout, or wanted at once where that is 0.
#[tactic(auto, using(rh_trace::proofs::Ways::goes_more))]
fn lose_at(state: &mut State, node: Node, app: App, trace: &mut Trace) -> Result<(), OutOfMemory>
    requires node { IsNodeOf (read state.old).cluster node }
    requires app { IsAppOf (read state.old).cluster app }
    requires unset { IsNone (due_of (read state.old) (Failover app)) }
    ensures part { OnOk result (read state.new ≡ lost_at (read state.old) node app) }
    ensures silent { TellsNothing trace.old trace.new }
    ensures way { Goes state.old trace.old state.new trace.new }
    ensures few { FewEdits 2 trace.old trace.new }
{
    let timeout = timeout_of(state.cluster(), app);
    if timeout == 0 {
        return recording::set_standing(state, app, Standing::Wanted(Some(node)), trace);
    }
    let due = state.now() + timeout;
    recording::set_standing(state, app, Standing::Lost(node), trace)?;
    recording::arm_timer(state, Timer::Failover(app), due, trace)
}

// An application is lost so if it stands as running at the node.
#[tactic(auto, unfolding(rh_rules::specs::NodesEnd::lost_if_ran), using(rh_trace::proofs::Ways::goes_none))]
fn lose_if_ran(
    state: &mut State,
    node: Node,
    app: App,
    trace: &mut Trace,
) -> Result<(), OutOfMemory>
    requires node { IsNodeOf (read state.old).cluster node }
    requires app { IsAppOf (read state.old).cluster app }
    requires unset { standing_of (read state.old) app ≡ Running node
        → IsNone (due_of (read state.old) (Failover app)) }
    ensures part { OnOk result (read state.new ≡ lost_if_ran node (read state.old) app) }
    ensures silent { TellsNothing trace.old trace.new }
    ensures way { Goes state.old trace.old state.new trace.new }
    ensures few { FewEdits 2 trace.old trace.new }
{
    match state.standing(app) {
        Standing::Running(other) if other.0 == node.0 => lose_at(state, node, app, trace),
        _ => Ok(()),
    }
}

// Each application that stands as running at the node is lost so, in order.
#[tactic(auto, unfolding(rh_rules::specs::NodesEnd::all_lost, rh_state::specs::Numbers::apps_of), using(rh_trace::proofs::Ways::goes_none, rh_trace::proofs::Ways::goes_more))]
fn lose_all(state: &mut State, node: Node, trace: &mut Trace) -> Result<(), OutOfMemory>
    requires node { IsNodeOf (read state.old).cluster node }
    requires unset { (a : App) → standing_of (read state.old) a ≡ Running node
        → IsNone (due_of (read state.old) (Failover a)) }
    ensures part { OnOk result (read state.new ≡ all_lost (read state.old) node) }
    ensures silent { TellsNothing trace.old trace.new }
    ensures way { Goes state.old trace.old state.new trace.new }
    ensures few { OnOk result
        (FewEdits (2 * app_count (read state.old).cluster) trace.old trace.new) }
{
    let count = state.cluster().app_count();
    'apps: for number in 0..count {
        lose_if_ran(state, node, App(number as u8), trace)?;
    }
    Ok(())
}

/// A node ends (Distributed Applications, "Failover"): nothing is started there any more, and what ran there is lost.
#[tactic(auto, unfolding(rh_rules::specs::NodesEnd::ended), using(rh_trace::proofs::Ways::goes_told, rh_trace::proofs::Ways::goes_more))]
pub fn end(state: &mut State, node: Node, trace: &mut Trace) -> Result<(), OutOfMemory>
    requires node { IsNodeOf (read state.old).cluster node }
    requires unset { (a : App) → standing_of (read state.old) a ≡ Running node
        → IsNone (due_of (read state.old) (Failover a)) }
    ensures course { OnOk result
        (course (read state.new) trace.new ≡ ended (course (read state.old) trace.old) node) }
    ensures way { Goes state.old trace.old state.new trace.new }
    ensures few { OnOk result (FewWeighed (read state.old).cluster 0 trace.old trace.new) }
{
    trace.tell(Notice::Ended { node })?;
    clear(state, node, trace)?;
    lose_all(state, node, trace)
}
