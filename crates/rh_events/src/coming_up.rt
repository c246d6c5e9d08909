//! How ready nodes come up.

ghost use Rattle.std.specs.Prelude.{◌≡◌, [], OnOk};
ghost use Rattle.rh_state.specs.Shape.{IsNodeOf};
ghost use Rattle.rh_state.specs.StateView.{running_at, waiting_at};
ghost use Rattle.rh_state.specs.Stored.{read};
ghost use Rattle.rh_trace.specs.Traces.{course};
ghost use Rattle.rh_trace.specs.Counts.{FewWeighed};
ghost use Rattle.rh_trace.specs.Ways.{Goes};
ghost use Rattle.rh_trace.specs.Validity.{IsSound};
ghost use Rattle.rh_rules.specs.NodesStart.{come_up, come_up_if_ready, ready_come_up};

use crate::marking::mark_booted;
use crate::readiness::{cancel_if_set, is_ready};
use rh_base::OutOfMemory;
use rh_model::Node;
use rh_rules::Notice;
use rh_state::{Mode, State, Timer};
use rh_trace::{Trace, recording};

/// A node at which nothing is started comes up, and what it boots is started. Room for all marks, and for a notice of each, is
/// made at once: to let both grow as they come would ask for memory six times or more.
#[tactic(auto, unfolding(rh_rules::specs::NodesStart::come_up), using(rh_trace::proofs::Ways::goes_none, rh_trace::proofs::Ways::goes_told, rh_trace::proofs::Ways::goes_more))]
pub fn come_up(state: &mut State, node: Node, trace: &mut Trace) -> Result<(), OutOfMemory>
    requires node { IsNodeOf (read state.old).cluster node }
    requires running { running_at (read state.old) node ≡ [] }
    requires waiting { waiting_at (read state.old) node ≡ [] }
    ensures course { OnOk result
        (course (read state.new) trace.new ≡ come_up (course (read state.old) trace.old) node) }
    ensures way { Goes state.old trace.old state.new trace.new }
    ensures few { OnOk result (FewWeighed (read state.old).cluster 0 trace.old trace.new) }
{
    trace.expect_boot(state.cluster().boot(node).len())?;
    trace.tell(Notice::Up { node })?;
    cancel_if_set(state, Timer::Sync(node), trace)?;
    recording::set_mode(state, node, Mode::Up, trace)?;
    mark_booted(state, node, trace)
}

// The node comes up if it is ready.
#[tactic(auto, unfolding(rh_rules::specs::NodesStart::come_up_if_ready), using(rh_trace::proofs::Ways::goes_none))]
fn let_come_up_if_ready(state: &mut State, node: Node, trace: &mut Trace) -> Result<(), OutOfMemory>
    requires node { IsNodeOf (read state.old).cluster node }
    requires sound { IsSound (read state.old) }
    ensures course { OnOk result (course (read state.new) trace.new
        ≡ come_up_if_ready (course (read state.old) trace.old) node) }
    ensures way { Goes state.old trace.old state.new trace.new }
    ensures few { OnOk result (FewWeighed (read state.old).cluster 0 trace.old trace.new) }
{
    if is_ready(state, node) {
        come_up(state, node, trace)?;
    }
    Ok(())
}

/// The ready nodes come up, in node order.
#[tactic(auto, unfolding(rh_rules::specs::NodesStart::ready_come_up, rh_state::specs::Numbers::nodes_of), using(rh_trace::proofs::Ways::goes_none))]
pub fn let_ready_come_up(state: &mut State, trace: &mut Trace) -> Result<(), OutOfMemory>
    requires { IsSound (read state.old) }
    ensures course { OnOk result
        (course (read state.new) trace.new ≡ ready_come_up (course (read state.old) trace.old)) }
    ensures way { Goes state.old trace.old state.new trace.new }
    ensures few { OnOk result (FewWeighed (read state.old).cluster 0 trace.old trace.new) }
{
    let count = state.cluster().node_count();
    'nodes: for number in 0..count {
        let_come_up_if_ready(state, Node(number as u8), trace)?;
    }
    Ok(())
}
