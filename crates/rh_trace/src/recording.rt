//! The setters of a state, each with its edit kept in the trace. Room for the edit is taken before anything is set, so where
//! memory is refused nothing has changed: not a word of the state, and no edit. A time, a permission, a restart type, a start kind
//! or a standing that is there already is left, with no edit and no memory. A mode and an incarnation change whenever they are
//! set, and have no such test.

ghost use Rattle.std.specs.Prelude.{◌≡◌, ◌≢◌, ◌≤◌, IsSome, IsNone, OnOk, OnErr};
ghost use Rattle.std.specs.Fn.{FnOnceTakesAtMut, FnOnceReturnsAtMut};
ghost use Rattle.rh_state.specs.Limits.{time_limit, incarnation_limit};
ghost use Rattle.rh_state.specs.StateView.{place_of, due_of, restart_of, kind_of, is_allowed, standing_of};
ghost use Rattle.rh_state.specs.Setters.{with_time, with_mode, with_incarnation, with_restart, with_kind, with_allowed, with_standing, with_running, with_waiting, unlisted, with_timer, without_due};
ghost use Rattle.rh_state.specs.Shape.{IsNodeOf, IsAppOf, IsKindOf, IsStandingOf, IsTimerOf};
ghost use Rattle.rh_state.specs.Stored.{Stored, read};
ghost use Rattle.rh_state.specs.declared.edit.Edit.{Edit};
ghost use Rattle.rh_state.specs.declared.status.Place.TheVariants.{Off};
ghost use Rattle.rh_trace.specs.Counts.{FewEdits};
ghost use Rattle.rh_trace.specs.Ways.{TellsNothing, LeadsBack, Goes};

use crate::trace::Trace;
use rh_base::OutOfMemory;
use rh_model::{App, Node, Restart};
use rh_state::{Edit, Kind, Mode, Standing, State, Timer};

// Calls a setter of the state, and keeps its edit. All that this module changes is changed by this call.
fn keep_edit_of<F: FnOnce(&mut State) -> Edit>(
    state: &mut State,
    trace: &mut Trace,
    set: F,
) -> Result<(), OutOfMemory>
    requires callable { FnOnceTakesAtMut F.FnOnce set state.old }
    requires exact { (edit : Edit) (after : Stored)
        → FnOnceReturnsAtMut F.FnOnce set state.old edit after → LeadsBack state.old edit after }
    ensures called { OnOk result
        ((edit : Edit) × FnOnceReturnsAtMut F.FnOnce set state.old edit state.new) }
    ensures silent { TellsNothing trace.old trace.new }
    ensures way { Goes state.old trace.old state.new trace.new }
    ensures few { FewEdits 1 trace.old trace.new }
    ensures kept { OnErr result ((state.new ≡ state.old) × (trace.new ≡ trace.old)) }
{
    trace.edits.reserve(1)?;
    state.formed();
    let edit = set(state);
    state.formed();
    trace.edits.push(edit).unwrap();
    Ok(())
}

/// Sets the time.
#[tactic(auto, using(crate::proofs::Ways::goes_none))]
pub fn set_now(state: &mut State, time: u64, trace: &mut Trace) -> Result<(), OutOfMemory>
    requires { time ≤ time_limit }
    ensures part { OnOk result (read state.new ≡ with_time (read state.old) time) }
    ensures silent { TellsNothing trace.old trace.new }
    ensures way { Goes state.old trace.old state.new trace.new }
    ensures few { FewEdits 1 trace.old trace.new }
    ensures same { (read state.old).time ≡ time → trace.new ≡ trace.old }
    ensures kept { OnErr result ((state.new ≡ state.old) × (trace.new ≡ trace.old)) }
{
    if state.now() == time {
        return Ok(());
    }
    keep_edit_of(state, trace, |state| state.set_now(time))
}

/// Says what a node does.
pub fn set_mode(
    state: &mut State,
    node: Node,
    mode: Mode,
    trace: &mut Trace,
) -> Result<(), OutOfMemory>
    requires { IsNodeOf (read state.old).cluster node }
    ensures part { OnOk result (read state.new ≡ with_mode (read state.old) node mode) }
    ensures silent { TellsNothing trace.old trace.new }
    ensures way { Goes state.old trace.old state.new trace.new }
    ensures few { FewEdits 1 trace.old trace.new }
    ensures kept { OnErr result ((state.new ≡ state.old) × (trace.new ≡ trace.old)) }
{
    keep_edit_of(state, trace, |state| state.set_mode(node, mode))
}

/// Says how often a node was started.
pub fn set_incarnation(
    state: &mut State,
    node: Node,
    incarnation: u16,
    trace: &mut Trace,
) -> Result<(), OutOfMemory>
    requires node { IsNodeOf (read state.old).cluster node }
    requires incarnation { incarnation ≤ incarnation_limit }
    ensures part { OnOk result
        (read state.new ≡ with_incarnation (read state.old) node incarnation) }
    ensures silent { TellsNothing trace.old trace.new }
    ensures way { Goes state.old trace.old state.new trace.new }
    ensures few { FewEdits 1 trace.old trace.new }
    ensures kept { OnErr result ((state.new ≡ state.old) × (trace.new ≡ trace.old)) }
{
    keep_edit_of(
        state,
        trace,
        |state| state.set_incarnation(node, incarnation),
    )
}

/// Says whether an application may run at a node.
#[tactic(auto, using(crate::proofs::Ways::goes_none, crate::proofs::Same::cell_same))]
pub fn set_allowed(
    state: &mut State,
    node: Node,
    app: App,
    allow: bool,
    trace: &mut Trace,
) -> Result<(), OutOfMemory>
    requires node { IsNodeOf (read state.old).cluster node }
    requires app { IsAppOf (read state.old).cluster app }
    ensures part { OnOk result (read state.new ≡ with_allowed (read state.old) node app allow) }
    ensures silent { TellsNothing trace.old trace.new }
    ensures way { Goes state.old trace.old state.new trace.new }
    ensures few { FewEdits 1 trace.old trace.new }
    ensures same { is_allowed (read state.old) node app ≡ allow → trace.new ≡ trace.old }
    ensures kept { OnErr result ((state.new ≡ state.old) × (trace.new ≡ trace.old)) }
{
    if state.allowed(node, app) == allow {
        return Ok(());
    }
    keep_edit_of(state, trace, |state| state.set_allowed(node, app, allow))
}

/// Gives an application a restart type at a node.
#[tactic(auto, using(crate::proofs::Ways::goes_none, crate::proofs::Same::cell_same))]
pub fn set_restart(
    state: &mut State,
    node: Node,
    app: App,
    restart: Restart,
    trace: &mut Trace,
) -> Result<(), OutOfMemory>
    requires node { IsNodeOf (read state.old).cluster node }
    requires app { IsAppOf (read state.old).cluster app }
    ensures part { OnOk result (read state.new ≡ with_restart (read state.old) node app restart) }
    ensures silent { TellsNothing trace.old trace.new }
    ensures way { Goes state.old trace.old state.new trace.new }
    ensures few { FewEdits 1 trace.old trace.new }
    ensures same { restart_of (read state.old) node app ≡ restart → trace.new ≡ trace.old }
    ensures kept { OnErr result ((state.new ≡ state.old) × (trace.new ≡ trace.old)) }
{
    if state.restart_of(node, app) == restart {
        return Ok(());
    }
    keep_edit_of(state, trace, |state| state.set_restart(node, app, restart))
}

/// Says how an application was started at a node.
#[tactic(auto, using(crate::proofs::Ways::goes_none, crate::proofs::Same::cell_same))]
pub fn set_kind(
    state: &mut State,
    node: Node,
    app: App,
    kind: Kind,
    trace: &mut Trace,
) -> Result<(), OutOfMemory>
    requires node { IsNodeOf (read state.old).cluster node }
    requires app { IsAppOf (read state.old).cluster app }
    requires kind { IsKindOf (read state.old).cluster kind }
    ensures part { OnOk result (read state.new ≡ with_kind (read state.old) node app kind) }
    ensures silent { TellsNothing trace.old trace.new }
    ensures way { Goes state.old trace.old state.new trace.new }
    ensures few { FewEdits 1 trace.old trace.new }
    ensures same { kind_of (read state.old) node app ≡ kind → trace.new ≡ trace.old }
    ensures kept { OnErr result ((state.new ≡ state.old) × (trace.new ≡ trace.old)) }
{
    if state.kind_of(node, app) == kind {
        return Ok(());
    }
    keep_edit_of(state, trace, |state| state.set_kind(node, app, kind))
}

/// Says where an application stands.
#[tactic(auto, using(crate::proofs::Ways::goes_none, crate::proofs::Same::set_same))]
pub fn set_standing(
    state: &mut State,
    app: App,
    standing: Standing,
    trace: &mut Trace,
) -> Result<(), OutOfMemory>
    requires app { IsAppOf (read state.old).cluster app }
    requires standing { IsStandingOf (read state.old).cluster standing }
    ensures part { OnOk result (read state.new ≡ with_standing (read state.old) app standing) }
    ensures silent { TellsNothing trace.old trace.new }
    ensures way { Goes state.old trace.old state.new trace.new }
    ensures few { FewEdits 1 trace.old trace.new }
    ensures same { standing_of (read state.old) app ≡ standing → trace.new ≡ trace.old }
    ensures kept { OnErr result ((state.new ≡ state.old) × (trace.new ≡ trace.old)) }
{
    if state.standing(app) == standing {
        return Ok(());
    }
    keep_edit_of(state, trace, |state| state.set_standing(app, standing))
}

/// Puts an application that isn't started at a node at the end of those that run there.
pub fn push_running(
    state: &mut State,
    node: Node,
    app: App,
    trace: &mut Trace,
) -> Result<(), OutOfMemory>
    requires node { IsNodeOf (read state.old).cluster node }
    requires app { IsAppOf (read state.old).cluster app }
    requires off { place_of (read state.old) node app ≡ Off }
    ensures part { OnOk result (read state.new ≡ with_running (read state.old) node app) }
    ensures silent { TellsNothing trace.old trace.new }
    ensures way { Goes state.old trace.old state.new trace.new }
    ensures few { FewEdits 1 trace.old trace.new }
    ensures kept { OnErr result ((state.new ≡ state.old) × (trace.new ≡ trace.old)) }
{
    keep_edit_of(state, trace, |state| state.push_running(node, app))
}

/// Puts an application that isn't started at a node at the end of those that wait there.
pub fn push_waiting(
    state: &mut State,
    node: Node,
    app: App,
    trace: &mut Trace,
) -> Result<(), OutOfMemory>
    requires node { IsNodeOf (read state.old).cluster node }
    requires app { IsAppOf (read state.old).cluster app }
    requires off { place_of (read state.old) node app ≡ Off }
    ensures part { OnOk result (read state.new ≡ with_waiting (read state.old) node app) }
    ensures silent { TellsNothing trace.old trace.new }
    ensures way { Goes state.old trace.old state.new trace.new }
    ensures few { FewEdits 1 trace.old trace.new }
    ensures kept { OnErr result ((state.new ≡ state.old) × (trace.new ≡ trace.old)) }
{
    keep_edit_of(state, trace, |state| state.push_waiting(node, app))
}

/// Takes an application that is started at a node out of its list.
pub fn unlink(state: &mut State, node: Node, app: App, trace: &mut Trace) -> Result<(), OutOfMemory>
    requires node { IsNodeOf (read state.old).cluster node }
    requires app { IsAppOf (read state.old).cluster app }
    requires on { place_of (read state.old) node app ≢ Off }
    ensures part { OnOk result (read state.new ≡ unlisted (read state.old) node app) }
    ensures silent { TellsNothing trace.old trace.new }
    ensures way { Goes state.old trace.old state.new trace.new }
    ensures few { FewEdits 1 trace.old trace.new }
    ensures kept { OnErr result ((state.new ≡ state.old) × (trace.new ≡ trace.old)) }
{
    keep_edit_of(state, trace, |state| state.unlink(node, app))
}

/// Sets a timer that isn't set.
pub fn arm_timer(
    state: &mut State,
    timer: Timer,
    due: u64,
    trace: &mut Trace,
) -> Result<(), OutOfMemory>
    requires timer { IsTimerOf (read state.old).cluster timer }
    requires unset { IsNone (due_of (read state.old) timer) }
    ensures part { OnOk result (read state.new ≡ with_timer (read state.old) due timer) }
    ensures silent { TellsNothing trace.old trace.new }
    ensures way { Goes state.old trace.old state.new trace.new }
    ensures few { FewEdits 1 trace.old trace.new }
    ensures kept { OnErr result ((state.new ≡ state.old) × (trace.new ≡ trace.old)) }
{
    keep_edit_of(state, trace, |state| state.arm_timer(timer, due))
}

/// Cancels a timer that is set.
pub fn cancel_timer(state: &mut State, timer: Timer, trace: &mut Trace) -> Result<(), OutOfMemory>
    requires timer { IsTimerOf (read state.old).cluster timer }
    requires set { IsSome (due_of (read state.old) timer) }
    ensures part { OnOk result (read state.new ≡ without_due (read state.old) timer) }
    ensures silent { TellsNothing trace.old trace.new }
    ensures way { Goes state.old trace.old state.new trace.new }
    ensures few { FewEdits 1 trace.old trace.new }
    ensures kept { OnErr result ((state.new ≡ state.old) × (trace.new ≡ trace.old)) }
{
    keep_edit_of(state, trace, |state| state.cancel_timer(timer))
}
