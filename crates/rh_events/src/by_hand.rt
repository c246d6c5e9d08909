//! What an operator changes by hand.

ghost use Rattle.std.specs.Prelude.{◌≡◌, ◌≢◌, ◌++◌, true, OnOk};
ghost use Rattle.rh_model.specs.declared.node.Node.{Node};
ghost use Rattle.rh_state.specs.Shape.{IsNodeOf, IsAppOf};
ghost use Rattle.rh_state.specs.StateView.{place_of, runs_at, is_started, standing_of};
ghost use Rattle.rh_state.specs.Setters.{unlisted};
ghost use Rattle.rh_state.specs.Stored.{read};
ghost use Rattle.rh_state.specs.declared.status.Place.TheVariants.{Off, InRunning, InWaiting};
ghost use Rattle.rh_state.specs.declared.status.Standing.TheVariants.{Running};
ghost use Rattle.rh_rules.specs.declared.notice.Move.TheVariants.{Takeover};
ghost use Rattle.rh_trace.specs.Traces.{course};
ghost use Rattle.rh_trace.specs.Counts.{FewEdits, FewWeighed};
ghost use Rattle.rh_trace.specs.Ways.{TellsNothing, Goes};
ghost use Rattle.rh_rules.specs.Moves.{moved};
ghost use Rattle.rh_trace.specs.Validity.{RunsWhereItStands, IsSound};
ghost use Rattle.rh_rules.specs.ByHand.{stopped, is_started_anywhere, quiet_if_nowhere, left_waiting, forbidden, pulls_back, frees, freed_by, permitted, taken_over, ends_node, exited};
ghost use Rattle.rh_rules.specs.Steps.{change};
ghost use Rattle.rh_rules.specs.declared.event.Event.TheVariants.{Stop};

use crate::ending::end;
use crate::marking::set_distributed_standing;
use crate::readiness::cancel_if_set;
use rh_base::OutOfMemory;
use rh_model::{App, Node, Restart};
use rh_refusals::{is_started_anywhere, is_started_at};
use rh_rules::{Move, Notice, Pair};
use rh_state::{Place, Standing, State, Timer};
use rh_trace::{Trace, make_move, recording};

// An application that runs at a node stops there.
#[tactic(auto, unfolding(rh_rules::specs::ByHand::stopped), using(rh_trace::proofs::Ways::goes_none, rh_trace::proofs::Ways::goes_told, rh_trace::proofs::Ways::goes_more))]
fn stop_running(
    state: &mut State,
    node: Node,
    app: App,
    trace: &mut Trace,
) -> Result<(), OutOfMemory>
    requires node { IsNodeOf (read state.old).cluster node }
    requires app { IsAppOf (read state.old).cluster app }
    requires started { place_of (read state.old) node app ≢ Off }
    ensures course { OnOk result
        (course (read state.new) trace.new ≡ stopped (course (read state.old) trace.old) node app) }
    ensures way { Goes state.old trace.old state.new trace.new }
    ensures few { FewEdits 0 trace.old trace.new }
{
    trace.tell(Notice::Stopped { app, node })?;
    recording::unlink(state, node, app, trace)?;
    set_distributed_standing(state, app, Standing::Quiet, trace)
}

// An application that is to run, but is started nowhere, is quiet.
#[tactic(auto, using(rh_trace::proofs::Ways::goes_none, rh_trace::proofs::Ways::goes_more))]
fn quieten_if_nowhere(state: &mut State, app: App, trace: &mut Trace) -> Result<(), OutOfMemory>
    requires { IsAppOf (read state.old).cluster app }
    ensures part { OnOk result (read state.new
        ≡ quiet_if_nowhere (read state.old) app (standing_of (read state.old) app)) }
    ensures silent { TellsNothing trace.old trace.new }
    ensures way { Goes state.old trace.old state.new trace.new }
    ensures few { FewEdits 2 trace.old trace.new }
{
    match state.standing(app) {
        Standing::Wanted(_) | Standing::Lost(_) => {}
        Standing::Quiet | Standing::Running(_) => return Ok(()),
    }
    if is_started_anywhere(state, app) {
        return Ok(());
    }
    if let Standing::Lost(_) = state.standing(app) {
        recording::set_standing(state, app, Standing::Quiet, trace)?;
        cancel_if_set(state, Timer::Failover(app), trace)
    } else {
        recording::set_standing(state, app, Standing::Quiet, trace)
    }
}

// An application that waits at a node is stopped there.
#[tactic(auto, unfolding(rh_rules::specs::ByHand::left_waiting), using(rh_trace::proofs::Ways::goes_more))]
fn leave_waiting(
    state: &mut State,
    node: Node,
    app: App,
    trace: &mut Trace,
) -> Result<(), OutOfMemory>
    requires node { IsNodeOf (read state.old).cluster node }
    requires app { IsAppOf (read state.old).cluster app }
    requires started { place_of (read state.old) node app ≢ Off }
    ensures part { OnOk result (read state.new ≡ quiet_if_nowhere
        (unlisted (read state.old) node app) app (standing_of (read state.old) app)) }
    ensures silent { TellsNothing trace.old trace.new }
    ensures way { Goes state.old trace.old state.new trace.new }
    ensures few { FewEdits 3 trace.old trace.new }
{
    recording::unlink(state, node, app, trace)?;
    quieten_if_nowhere(state, app, trace)
}

/// An application that is started at a node is stopped there (application(3), `stop/1`).
#[tactic(auto, unfolding(rh_rules::specs::ByHand::left_waiting))]
pub fn stop(state: &mut State, node: Node, app: App, trace: &mut Trace) -> Result<(), OutOfMemory>
    requires node { IsNodeOf (read state.old).cluster node }
    requires app { IsAppOf (read state.old).cluster app }
    requires started { place_of (read state.old) node app ≢ Off }
    ensures course { OnOk result (course (read state.new) trace.new
        ≡ change (course (read state.old) trace.old) (Stop node app)) }
    ensures way { Goes state.old trace.old state.new trace.new }
    ensures few { FewEdits 3 trace.old trace.new }
{
    if state.place_of(node, app) == Place::InRunning {
        return stop_running(state, node, app, trace);
    }
    leave_waiting(state, node, app, trace)
}

// An application that runs at a node may do so no longer: it stops there, waits, and is wanted.
#[tactic(auto, unfolding(rh_rules::specs::ByHand::forbidden), using(rh_trace::proofs::Ways::goes_none, rh_trace::proofs::Ways::goes_told, rh_trace::proofs::Ways::goes_more))]
fn forbid(state: &mut State, node: Node, app: App, trace: &mut Trace) -> Result<(), OutOfMemory>
    requires node { IsNodeOf (read state.old).cluster node }
    requires app { IsAppOf (read state.old).cluster app }
    requires started { place_of (read state.old) node app ≢ Off }
    ensures course { OnOk result (course (read state.new) trace.new
        ≡ forbidden (course (read state.old) trace.old) node app) }
    ensures way { Goes state.old trace.old state.new trace.new }
    ensures few { FewEdits 0 trace.old trace.new }
{
    state.formed();
    trace.tell(Notice::Stopped { app, node })?;
    recording::set_allowed(state, node, app, false, trace)?;
    recording::unlink(state, node, app, trace)?;
    recording::push_waiting(state, node, app, trace)?;
    set_distributed_standing(state, app, Standing::Wanted(None), trace)
}

// Does a permission that is given back call an application back in this profile?
fn pulls_back(profile: u8) -> bool
    ensures { result ≡ pulls_back profile }
{
    profile == 2
}

// Does a permission free a pair?
fn frees(state: &State, node: Node, app: App, allow: bool) -> bool
    requires node { IsNodeOf (read state.now).cluster node }
    requires app { IsAppOf (read state.now).cluster app }
    ensures { result ≡ frees (read state.now) node app allow }
{
    pulls_back(state.cluster().profile())
        && allow
        && !state.allowed(node, app)
        && is_started_at(state, node, app)
}

// A permission frees the pair that it may free.
#[tactic(auto, using(rh_trace::proofs::Ways::goes_none, rh_trace::proofs::Ways::goes_marked))]
fn free(
    state: &State,
    node: Node,
    app: App,
    allow: bool,
    trace: &mut Trace,
) -> Result<(), OutOfMemory>
    requires node { IsNodeOf (read state.now).cluster node }
    requires app { IsAppOf (read state.now).cluster app }
    ensures freed { OnOk result
        (trace.new.freed ≡ trace.old.freed ++ freed_by (read state.now) node app allow) }
    ensures told { trace.new.notices ≡ trace.old.notices }
    ensures marked { trace.new.marked ≡ trace.old.marked }
    ensures way { Goes state.now trace.old state.now trace.new }
    ensures few { FewEdits 0 trace.old trace.new }
{
    if frees(state, node, app, allow) {
        trace.free(Pair { node, app })?;
    }
    Ok(())
}

/// An application may run at a node from now on, or may not (application(3), `permit/2`). In the second profile (ours) one that
/// is started there and may run there again is taken back from a node of a later group.
#[tactic(auto, unfolding(rh_rules::specs::ByHand::permitted), using(rh_trace::proofs::Ways::goes_more))]
pub fn permit(
    state: &mut State,
    node: Node,
    app: App,
    allow: bool,
    trace: &mut Trace,
) -> Result<(), OutOfMemory>
    requires node { IsNodeOf (read state.old).cluster node }
    requires app { IsAppOf (read state.old).cluster app }
    ensures course { OnOk result (course (read state.new) trace.new
        ≡ permitted (course (read state.old) trace.old) node app allow) }
    ensures way { Goes state.old trace.old state.new trace.new }
    ensures few { FewEdits 1 trace.old trace.new }
{
    if !allow && state.allowed(node, app) && state.place_of(node, app) == Place::InRunning {
        return forbid(state, node, app, trace);
    }
    free(state, node, app, allow, trace)?;
    recording::set_allowed(state, node, app, allow, trace)
}

// An application that isn't started at a node is started there, and waits.
#[tactic(auto, using(rh_trace::proofs::Ways::goes_none))]
fn start_if_off(
    state: &mut State,
    node: Node,
    app: App,
    trace: &mut Trace,
) -> Result<(), OutOfMemory>
    requires node { IsNodeOf (read state.old).cluster node }
    requires app { IsAppOf (read state.old).cluster app }
    ensures cluster { OnOk result ((read state.new).cluster ≡ (read state.old).cluster) }
    ensures running { OnOk result ((read state.new).running ≡ (read state.old).running) }
    ensures started { OnOk result (place_of (read state.new) node app ≢ Off) }
    ensures others { OnOk result
        (unlisted (read state.new) node app ≡ unlisted (read state.old) node app) }
    ensures silent { TellsNothing trace.old trace.new }
    ensures way { Goes state.old trace.old state.new trace.new }
    ensures few { FewEdits 1 trace.old trace.new }
{
    state.formed();
    if state.place_of(node, app) == Place::Off {
        recording::push_waiting(state, node, app, trace)?;
    }
    Ok(())
}

// An application that runs at a node moves to another.
#[tactic(auto, using(rh_trace::proofs::Ways::goes_more))]
fn move_by_hand(
    state: &mut State,
    app: App,
    from: Node,
    node: Node,
    trace: &mut Trace,
) -> Result<(), OutOfMemory>
    requires node { IsNodeOf (read state.old).cluster node }
    requires app { IsAppOf (read state.old).cluster app }
    requires from { IsNodeOf (read state.old).cluster from }
    requires other { from.0 ≢ node.0 }
    requires runs { runs_at (read state.old) from app ≡ true }
    ensures course { OnOk result (course (read state.new) trace.new
        ≡ moved (course (read state.old) trace.old) (Takeover app from node)) }
    ensures way { Goes state.old trace.old state.new trace.new }
    ensures few { FewEdits 1 trace.old trace.new }
{
    start_if_off(state, node, app, trace)?;
    make_move(state, Move::Takeover { app, from, node }, trace)
}

/// A distributed application that runs elsewhere moves to a node, and has the given restart type there (application(3),
/// `takeover/2`).
#[tactic(auto, unfolding(rh_rules::specs::ByHand::taken_over), using(rh_trace::proofs::Ways::goes_none, rh_trace::proofs::Ways::goes_more))]
pub fn take_over(
    state: &mut State,
    node: Node,
    app: App,
    restart: Restart,
    trace: &mut Trace,
) -> Result<(), OutOfMemory>
    requires node { IsNodeOf (read state.old).cluster node }
    requires app { IsAppOf (read state.old).cluster app }
    requires elsewhere { (m : Node) → standing_of (read state.old) app ≡ Running m → m.0 ≢ node.0 }
    requires runs { RunsWhereItStands (read state.old) }
    ensures course { OnOk result (course (read state.new) trace.new
        ≡ taken_over (course (read state.old) trace.old) node app restart) }
    ensures way { Goes state.old trace.old state.new trace.new }
    ensures few { FewEdits 2 trace.old trace.new }
{
    match state.standing(app) {
        Standing::Running(from) => {
            recording::set_restart(state, node, app, restart, trace)?;
            move_by_hand(state, app, from, node, trace)
        }
        Standing::Quiet | Standing::Wanted(_) | Standing::Lost(_) => Ok(()),
    }
}

// Does a node end when an application of this restart type ends there, for a normal reason or another one (application(3))?
fn ends_node(restart: Restart, normal: bool) -> bool
    ensures { result ≡ ends_node restart normal }
{
    match restart {
        Restart::Permanent => true,
        Restart::Transient => !normal,
        Restart::Temporary => false,
    }
}

/// An application that runs at a node ends there, for a normal reason or another one (application(3), restart types).
#[tactic(auto, unfolding(rh_rules::specs::ByHand::exited))]
pub fn exit(
    state: &mut State,
    node: Node,
    app: App,
    normal: bool,
    trace: &mut Trace,
) -> Result<(), OutOfMemory>
    requires node { IsNodeOf (read state.old).cluster node }
    requires app { IsAppOf (read state.old).cluster app }
    requires runs { runs_at (read state.old) node app ≡ true }
    requires sound { IsSound (read state.old) }
    ensures course { OnOk result (course (read state.new) trace.new
        ≡ exited (course (read state.old) trace.old) node app normal) }
    ensures way { Goes state.old trace.old state.new trace.new }
    ensures few { OnOk result (FewWeighed (read state.old).cluster 0 trace.old trace.new) }
{
    if ends_node(state.restart_of(node, app), normal) {
        end(state, node, trace)
    } else {
        stop_running(state, node, app, trace)
    }
}
