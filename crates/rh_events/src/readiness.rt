//! Which nodes are alive, and which are ready.

ghost use Rattle.std.specs.Prelude.{◌≡◌, ◌++◌, OnOk};
ghost use Rattle.rh_model.specs.ClusterView.{mandatory_of, optional_of};
ghost use Rattle.rh_state.specs.StateView.{is_alive, mode_of};
ghost use Rattle.rh_state.specs.Setters.{without_due};
ghost use Rattle.rh_state.specs.Shape.{IsNodeOf, IsTimerOf};
ghost use Rattle.rh_state.specs.Stored.{read};
ghost use Rattle.rh_trace.specs.Counts.{FewEdits};
ghost use Rattle.rh_trace.specs.Ways.{TellsNothing, Goes};
ghost use Rattle.rh_rules.specs.NodesStart.{all_alive, is_ready};

use rh_base::OutOfMemory;
use rh_model::{Node, SyncWait};
use rh_state::{Mode, State, Timer};
use rh_trace::{Trace, recording};

/// Cancels a timer, if it is set.
#[tactic(auto, using(rh_trace::proofs::Ways::goes_none))]
pub fn cancel_if_set(state: &mut State, timer: Timer, trace: &mut Trace) -> Result<(), OutOfMemory>
    requires { IsTimerOf (read state.old).cluster timer }
    ensures part { OnOk result (read state.new ≡ without_due (read state.old) timer) }
    ensures silent { TellsNothing trace.old trace.new }
    ensures way { Goes state.old trace.old state.new trace.new }
    ensures few { FewEdits 1 trace.old trace.new }
{
    if state.due_of(timer).is_some() {
        recording::cancel_timer(state, timer, trace)?;
    }
    Ok(())
}

/// Are these nodes alive?
#[tactic(auto, unfolding(rh_rules::specs::NodesStart::all_alive))]
pub fn all_alive(state: &State, nodes: &[Node]) -> bool
    ensures { result ≡ all_alive (read state.now) nodes.now }
{
    nodes.iter().all(|node| is_alive(state, *node))
}

// Is this node alive?
fn is_alive(state: &State, node: Node) -> bool
    ensures { result ≡ is_alive (mode_of (read state.now) node) }
{
    state.formed();
    if node.0 as usize >= state.cluster().node_count() {
        return false;
    }
    match state.mode(node) {
        Mode::Waiting | Mode::Up => true,
        Mode::Down => false,
    }
}

/// Is a node ready to come up (kernel(6), sync_nodes_mandatory, sync_nodes_optional, sync_nodes_timeout)? It is if it waits, and
/// either none of its mandatory and optional nodes is missing or it awaits none.
#[tactic(auto, unfolding(rh_rules::specs::NodesStart::is_ready))]
pub fn is_ready(state: &State, node: Node) -> bool
    requires { IsNodeOf (read state.now).cluster node }
    ensures { result ≡ is_ready (read state.now) node }
{
    if state.mode(node) != Mode::Waiting {
        return false;
    }
    match state.cluster().sync_wait(node) {
        SyncWait::Unset => true,
        SyncWait::After(_) | SyncWait::Forever => has_others(state, node),
    }
}

// Are the nodes alive for which a node waits?
#[tactic(auto, using(crate::proofs::Alive::all_alive_joined))]
fn has_others(state: &State, node: Node) -> bool
    requires { IsNodeOf (read state.now).cluster node }
    ensures { result ≡ all_alive (read state.now)
        (mandatory_of (read state.now).cluster node ++ optional_of (read state.now).cluster node) }
{
    all_alive(state, state.cluster().mandatory(node))
        && all_alive(state, state.cluster().optional(node))
}
