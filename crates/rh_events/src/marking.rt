//! How an application is started at a node: it waits there until it may run.

ghost use Rattle.std.specs.Prelude.{◌≡◌, ◌*◌, [], length, OnOk};
ghost use Rattle.rh_model.specs.ClusterView.{boot_of};
ghost use Rattle.rh_state.specs.Shape.{IsNodeOf, IsAppOf, IsStandingOf};
ghost use Rattle.rh_state.specs.StateView.{place_of, running_at, waiting_at, standing_of};
ghost use Rattle.rh_state.specs.Stored.{read};
ghost use Rattle.rh_state.specs.declared.status.Place.TheVariants.{Off};
ghost use Rattle.rh_trace.specs.Traces.{course};
ghost use Rattle.rh_trace.specs.Counts.{FewEdits};
ghost use Rattle.rh_trace.specs.Ways.{TellsNothing, Goes};
ghost use Rattle.rh_rules.specs.Marking.{with_distributed_standing, wanted_by_mark, with_mark, mark, mark_all};

use crate::readiness::cancel_if_set;
use rh_base::OutOfMemory;
use rh_model::{App, Node, Restart};
use rh_rules::Pair;
use rh_state::{Standing, State, Timer};
use rh_trace::{Trace, recording};

/// A distributed application has the given standing from now on; a local one is always quiet.
pub fn set_distributed_standing(
    state: &mut State,
    app: App,
    standing: Standing,
    trace: &mut Trace,
) -> Result<(), OutOfMemory>
    requires app { IsAppOf (read state.old).cluster app }
    requires standing { IsStandingOf (read state.old).cluster standing }
    ensures part { OnOk result
        (read state.new ≡ with_distributed_standing (read state.old) app standing) }
    ensures silent { TellsNothing trace.old trace.new }
    ensures way { Goes state.old trace.old state.new trace.new }
    ensures few { FewEdits 1 trace.old trace.new }
{
    if state.cluster().spread(app).is_some() {
        recording::set_standing(state, app, standing, trace)?;
    }
    Ok(())
}

// An application that is started at a node is wanted, if it was quiet or was lost at this very node.
#[tactic(auto, using(rh_trace::proofs::Ways::goes_none, rh_trace::proofs::Ways::goes_more))]
fn want_by_mark(
    state: &mut State,
    node: Node,
    app: App,
    trace: &mut Trace,
) -> Result<(), OutOfMemory>
    requires node { IsNodeOf (read state.old).cluster node }
    requires app { IsAppOf (read state.old).cluster app }
    ensures part { OnOk result (read state.new
        ≡ wanted_by_mark (read state.old) node app (standing_of (read state.old) app)) }
    ensures silent { TellsNothing trace.old trace.new }
    ensures way { Goes state.old trace.old state.new trace.new }
    ensures few { FewEdits 2 trace.old trace.new }
{
    match state.standing(app) {
        Standing::Quiet => set_distributed_standing(state, app, Standing::Wanted(None), trace),
        Standing::Lost(lost) if lost.0 == node.0 => {
            recording::set_standing(state, app, Standing::Wanted(Some(node)), trace)?;
            cancel_if_set(state, Timer::Failover(app), trace)
        }
        Standing::Lost(_) | Standing::Wanted(_) | Standing::Running(_) => Ok(()),
    }
}

/// An application that isn't started at a node is started there (application(3), `start/2`): it waits behind all others, with
/// its restart type.
#[tactic(auto, unfolding(rh_rules::specs::Marking::with_mark), using(rh_trace::proofs::Ways::goes_none, rh_trace::proofs::Ways::goes_marked, rh_trace::proofs::Ways::goes_more))]
pub fn mark(
    state: &mut State,
    node: Node,
    app: App,
    restart: Restart,
    trace: &mut Trace,
) -> Result<(), OutOfMemory>
    requires node { IsNodeOf (read state.old).cluster node }
    requires app { IsAppOf (read state.old).cluster app }
    requires off { place_of (read state.old) node app ≡ Off }
    ensures course { OnOk result (course (read state.new) trace.new
        ≡ mark (course (read state.old) trace.old) node app restart) }
    ensures way { Goes state.old trace.old state.new trace.new }
    ensures few { FewEdits 4 trace.old trace.new }
{
    trace.mark(Pair { node, app })?;
    recording::push_waiting(state, node, app, trace)?;
    recording::set_restart(state, node, app, restart, trace)?;
    want_by_mark(state, node, app, trace)
}

/// What a node boots is started there, in order.
#[tactic(auto, unfolding(rh_rules::specs::Marking::mark_all), using(rh_trace::proofs::Ways::goes_none))]
pub fn mark_booted(state: &mut State, node: Node, trace: &mut Trace) -> Result<(), OutOfMemory>
    requires node { IsNodeOf (read state.old).cluster node }
    requires running { running_at (read state.old) node ≡ [] }
    requires waiting { waiting_at (read state.old) node ≡ [] }
    ensures course { OnOk result (course (read state.new) trace.new ≡ mark_all
        (course (read state.old) trace.old) node (boot_of (read state.old).cluster node)) }
    ensures way { Goes state.old trace.old state.new trace.new }
    ensures few { OnOk result
        (FewEdits (4 * length (boot_of (read state.old).cluster node)) trace.old trace.new) }
{
    state.cluster().is_within();
    let count = state.cluster().boot(node).len();
    'booted: for place in 0..count {
        let (app, restart) = state.cluster().boot(node)[place];
        mark(state, node, app, restart, trace)?;
    }
    Ok(())
}
