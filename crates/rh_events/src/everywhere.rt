//! What an operator starts or stops at all nodes of a distributed application.

ghost use Rattle.std.specs.Prelude.{◌≡◌, ◌+◌, ◌*◌, OnOk};
ghost use Rattle.rh_model.specs.ClusterView.{node_count};
ghost use Rattle.rh_state.specs.Shape.{IsNodeOf, IsAppOf};
ghost use Rattle.rh_state.specs.Stored.{read};
ghost use Rattle.rh_trace.specs.Traces.{course};
ghost use Rattle.rh_trace.specs.Counts.{FewEdits};
ghost use Rattle.rh_trace.specs.Ways.{Goes};
ghost use Rattle.rh_events.specs.Everywhere.{start_if_target};
ghost use Rattle.rh_rules.specs.Everywhere.{start_all, leave_at, left_everywhere, stop_all};

use crate::marking::mark;
use crate::readiness::cancel_if_set;
use rh_base::OutOfMemory;
use rh_model::{App, Node, Restart};
use rh_refusals::is_target;
use rh_rules::Notice;
use rh_state::{Place, Standing, State, Timer};
use rh_trace::{Trace, recording};

// An application is started at a node, if it is still to be started there.
#[tactic(auto, using(rh_trace::proofs::Ways::goes_none))]
fn start_if_target(
    state: &mut State,
    node: Node,
    app: App,
    restart: Restart,
    trace: &mut Trace,
) -> Result<(), OutOfMemory>
    requires node { IsNodeOf (read state.old).cluster node }
    requires app { IsAppOf (read state.old).cluster app }
    ensures course { OnOk result (course (read state.new) trace.new
        ≡ start_if_target app restart (course (read state.old) trace.old) node) }
    ensures way { Goes state.old trace.old state.new trace.new }
    ensures few { FewEdits 4 trace.old trace.new }
{
    if is_target(state, app, node) {
        mark(state, node, app, restart, trace)?;
    }
    Ok(())
}

/// A distributed application is started at each node at which it is still to be started (application(3), `start/2`), in node
/// order. Where it is started it keeps its place and its restart type.
#[tactic(auto, using(rh_trace::proofs::Ways::goes_none))]
pub fn start_all(
    state: &mut State,
    app: App,
    restart: Restart,
    trace: &mut Trace,
) -> Result<(), OutOfMemory>
    requires app { IsAppOf (read state.old).cluster app }
    ensures course { OnOk result (course (read state.new) trace.new
        ≡ start_all (course (read state.old) trace.old) app restart) }
    ensures way { Goes state.old trace.old state.new trace.new }
    ensures few { OnOk result
        (FewEdits (4 * node_count (read state.old).cluster) trace.old trace.new) }
{
    let count = state.cluster().node_count();
    'nodes: for number in 0..count {
        start_if_target(state, Node(number as u8), app, restart, trace)?;
    }
    Ok(())
}

// An application leaves its list at a node, and stops there if it ran.
#[tactic(auto, using(rh_trace::proofs::Ways::goes_none, rh_trace::proofs::Ways::goes_told, rh_trace::proofs::Ways::goes_more))]
fn leave(state: &mut State, node: Node, app: App, trace: &mut Trace) -> Result<(), OutOfMemory>
    requires node { IsNodeOf (read state.old).cluster node }
    requires app { IsAppOf (read state.old).cluster app }
    ensures course { OnOk result (course (read state.new) trace.new
        ≡ leave_at app (course (read state.old) trace.old) node) }
    ensures way { Goes state.old trace.old state.new trace.new }
    ensures few { FewEdits 1 trace.old trace.new }
{
    match state.place_of(node, app) {
        Place::InRunning => {
            trace.tell(Notice::Stopped { app, node })?;
            recording::unlink(state, node, app, trace)
        }
        Place::InWaiting => recording::unlink(state, node, app, trace),
        Place::Off => Ok(()),
    }
}

// So at each node, in node order.
#[tactic(auto, unfolding(rh_rules::specs::Everywhere::left_everywhere, rh_state::specs::Numbers::nodes_of), using(rh_trace::proofs::Ways::goes_none))]
fn leave_everywhere(state: &mut State, app: App, trace: &mut Trace) -> Result<(), OutOfMemory>
    requires app { IsAppOf (read state.old).cluster app }
    ensures course { OnOk result (course (read state.new) trace.new
        ≡ left_everywhere (course (read state.old) trace.old) app) }
    ensures cluster { OnOk result ((read state.new).cluster ≡ (read state.old).cluster) }
    ensures way { Goes state.old trace.old state.new trace.new }
    ensures few { OnOk result (FewEdits (node_count (read state.old).cluster) trace.old trace.new) }
{
    let count = state.cluster().node_count();
    'nodes: for number in 0..count {
        leave(state, Node(number as u8), app, trace)?;
    }
    Ok(())
}

/// A distributed application is stopped at all its nodes (application(3), `stop/1`), in node order. It is to run nowhere then,
/// and nothing awaits its return.
#[tactic(auto, unfolding(rh_rules::specs::Everywhere::stop_all), using(rh_trace::proofs::Ways::goes_more))]
pub fn stop_all(state: &mut State, app: App, trace: &mut Trace) -> Result<(), OutOfMemory>
    requires app { IsAppOf (read state.old).cluster app }
    ensures course { OnOk result
        (course (read state.new) trace.new ≡ stop_all (course (read state.old) trace.old) app) }
    ensures way { Goes state.old trace.old state.new trace.new }
    ensures few { OnOk result
        (FewEdits (node_count (read state.old).cluster + 2) trace.old trace.new) }
{
    leave_everywhere(state, app, trace)?;
    recording::set_standing(state, app, Standing::Quiet, trace)?;
    cancel_if_set(state, Timer::Failover(app), trace)
}
