//! How a node boots.

ghost use Rattle.std.specs.Prelude.{◌≡◌, ◌≢◌, IsNone, OnOk};
ghost use Rattle.rh_state.specs.Limits.{incarnation_limit};
ghost use Rattle.rh_state.specs.Shape.{IsNodeOf};
ghost use Rattle.rh_state.specs.StateView.{due_of, incarnation_of};
ghost use Rattle.rh_state.specs.Stored.{read};
ghost use Rattle.rh_state.specs.declared.status.Timer.TheVariants.{Sync};
ghost use Rattle.rh_trace.specs.Counts.{FewEdits};
ghost use Rattle.rh_trace.specs.Ways.{TellsNothing, Goes};
ghost use Rattle.rh_rules.specs.NodesStart.{booted};

use rh_base::OutOfMemory;
use rh_model::{Node, SyncWait};
use rh_state::{Mode, State, Timer};
use rh_trace::{Trace, recording};

/// A node that isn't alive boots (kernel(6), sync_nodes_timeout): it has one incarnation more, and waits for others, with a
/// timer where that wait ends by itself.
#[tactic(auto, unfolding(rh_rules::specs::NodesStart::booted), using(rh_trace::proofs::Ways::goes_more))]
pub fn boot(state: &mut State, node: Node, trace: &mut Trace) -> Result<(), OutOfMemory>
    requires node { IsNodeOf (read state.old).cluster node }
    requires incarnation { incarnation_of (read state.old) node ≢ incarnation_limit }
    requires unset { IsNone (due_of (read state.old) (Sync node)) }
    ensures part { OnOk result (read state.new ≡ booted (read state.old) node) }
    ensures silent { TellsNothing trace.old trace.new }
    ensures way { Goes state.old trace.old state.new trace.new }
    ensures few { FewEdits 3 trace.old trace.new }
{
    let incarnation = state.incarnation(node) + 1;
    recording::set_incarnation(state, node, incarnation, trace)?;
    recording::set_mode(state, node, Mode::Waiting, trace)?;
    match state.cluster().sync_wait(node) {
        SyncWait::After(ms) => {
            let due = state.now() + ms;
            recording::arm_timer(state, Timer::Sync(node), due, trace)
        }
        SyncWait::Unset | SyncWait::Forever => Ok(()),
    }
}
