//! Time that passes.

ghost use Rattle.std.specs.Prelude.{◌≡◌, ◌≤◌, ◌<◌, ◌+◌, ◌-◌, ◌*◌, [], length, Some, IfSome, IsNone, OnOk};
ghost use Rattle.rh_model.specs.ClusterView.{app_count};
ghost use Rattle.rh_model.specs.declared.node.Node.{Node};
ghost use Rattle.rh_model.specs.declared.node.App.{App};
ghost use Rattle.rh_state.specs.Limits.{time_limit};
ghost use Rattle.rh_state.specs.StateView.{earliest, standing_of, running_at, waiting_at, due_of};
ghost use Rattle.rh_state.specs.Shape.{IsNodeOf, IsTimerOf};
ghost use Rattle.rh_state.specs.Stored.{read};
ghost use Rattle.rh_state.specs.declared.status.Standing.TheVariants.{Running};
ghost use Rattle.rh_state.specs.declared.status.Timer.TheVariants.{Sync, Failover};
ghost use Rattle.rh_trace.specs.Traces.{course};
ghost use Rattle.rh_trace.specs.Validity.{IsValid};
ghost use Rattle.rh_trace.specs.Counts.{FewEdits, FewWeighed};
ghost use Rattle.rh_trace.specs.Ways.{TellsNothing, Goes};
ghost use Rattle.rh_rules.specs.Time.{due_by, effect, taken_off, fired, all_fired, ticked};
ghost use Rattle.rh_rules.specs.NodesEnd.{wanted_if_lost};

use crate::step::follow_marked;
use rh_base::OutOfMemory;
use rh_events::{all_alive, cancel_if_set, come_up, end};
use rh_model::{App, Node};
use rh_rules::Pick;
use rh_state::{Standing, State, Timer};
use rh_trace::{Trace, recording};

/// So many milliseconds pass.
#[tactic(auto, unfolding(rh_rules::specs::Time::ticked), using(rh_trace::proofs::Ways::goes_more))]
pub fn pass_time(
    state: &mut State,
    ms: u64,
    pick: Pick,
    trace: &mut Trace,
) -> Result<(), OutOfMemory>
    requires end { (read state.old).time + ms ≤ time_limit }
    requires valid { IsValid (read state.old) }
    ensures course { OnOk result
        (course (read state.new) trace.new ≡ ticked pick (course (read state.old) trace.old) ms) }
    ensures way { Goes state.old trace.old state.new trace.new }
    ensures few { OnOk result (FewWeighed (read state.old).cluster (1 + 3 *
        (length (read state.old).timers - length (read state.new).timers)) trace.old trace.new) }
{
    let end = state.now() + ms;
    fire_due(state, end, pick, trace)?;
    recording::set_now(state, end, trace)
}

// The timers that are due by the limit fire, one after the other.
#[tactic(auto, using(rh_trace::proofs::Ways::goes_none))]
fn fire_due(state: &mut State, limit: u64, pick: Pick, trace: &mut Trace) -> Result<(), OutOfMemory>
    requires limit { limit ≤ time_limit }
    requires valid { IsValid (read state.old) }
    ensures course { OnOk result (course (read state.new) trace.new
        ≡ all_fired pick limit (course (read state.old) trace.old)) }
    ensures way { Goes state.old trace.old state.new trace.new }
    ensures few { OnOk result (FewWeighed (read state.old).cluster (3 *
        (length (read state.old).timers - length (read state.new).timers)) trace.old trace.new) }
{
    'timers: while let Some((due, timer)) = due_by(state, limit) {
        fire(state, due, timer, pick, trace)?;
    }
    Ok(())
}

// The timer that fires next, if it is due by the limit.
pub(crate) fn due_by(state: &State, limit: u64) -> Option<(u64, Timer)>
    ensures next { result ≡ due_by limit (earliest (read state.now)) }
    ensures due { IfSome result (λ entry. entry.0 ≤ limit) }
    ensures timer { IfSome result (λ entry. IsTimerOf (read state.now).cluster entry.1) }
{
    match state.earliest() {
        Some((due, timer)) if due <= limit => Some((due, timer)),
        _ => None,
    }
}

// The timer is taken off, it is as late as it was due, and no pair is fresh any longer.
#[tactic(auto, using(rh_trace::proofs::Ways::goes_marked, rh_trace::proofs::Ways::goes_more))]
fn take_off(state: &mut State, due: u64, timer: Timer, trace: &mut Trace) -> Result<(), OutOfMemory>
    requires due { due ≤ time_limit }
    requires timer { IsTimerOf (read state.old).cluster timer }
    ensures course { OnOk result (course (read state.new) trace.new
        ≡ taken_off (course (read state.old) trace.old) (due, timer)) }
    ensures way { Goes state.old trace.old state.new trace.new }
    ensures few { FewEdits 2 trace.old trace.new }
{
    cancel_if_set(state, timer, trace)?;
    recording::set_now(state, due, trace)?;
    trace.forget_marks();
    Ok(())
}

// The timer that is set first fires, and what follows from it happens.
#[tactic(auto, unfolding(rh_rules::specs::Time::fired), using(rh_trace::proofs::Ways::goes_more))]
pub(crate) fn fire(
    state: &mut State,
    due: u64,
    timer: Timer,
    pick: Pick,
    trace: &mut Trace,
) -> Result<(), OutOfMemory>
    requires due { due ≤ time_limit }
    requires timer { IsTimerOf (read state.old).cluster timer }
    requires first { earliest (read state.old) ≡ Some (due, timer) }
    requires valid { IsValid (read state.old) }
    ensures course { OnOk result (course (read state.new) trace.new
        ≡ fired pick (course (read state.old) trace.old) (due, timer)) }
    ensures way { Goes state.old trace.old state.new trace.new }
    ensures few { OnOk result (FewWeighed (read state.old).cluster 3 trace.old trace.new) }
{
    take_off(state, due, timer, trace)?;
    take_effect(state, timer, trace)?;
    follow_marked(state, pick, trace)
}

// What a timer does.
fn take_effect(state: &mut State, timer: Timer, trace: &mut Trace) -> Result<(), OutOfMemory>
    requires timer { IsTimerOf (read state.old).cluster timer }
    requires running { (n : Node) → timer ≡ Sync n → running_at (read state.old) n ≡ [] }
    requires waiting { (n : Node) → timer ≡ Sync n → waiting_at (read state.old) n ≡ [] }
    requires unset { (n : Node) (a : App) → timer ≡ Sync n → standing_of (read state.old) a
        ≡ Running n → IsNone (due_of (read state.old) (Failover a)) }
    ensures course { OnOk result
        (course (read state.new) trace.new ≡ effect (course (read state.old) trace.old) timer) }
    ensures way { Goes state.old trace.old state.new trace.new }
    ensures few { OnOk result (FewWeighed (read state.old).cluster 1 trace.old trace.new) }
{
    match timer {
        Timer::Sync(node) => end_wait(state, node, trace),
        Timer::Failover(app) => want_if_lost(state, app, trace),
    }
}

// A node's wait for others is over.
fn end_wait(state: &mut State, node: Node, trace: &mut Trace) -> Result<(), OutOfMemory>
    requires node { IsNodeOf (read state.old).cluster node }
    requires running { running_at (read state.old) node ≡ [] }
    requires waiting { waiting_at (read state.old) node ≡ [] }
    requires unset { (a : App) → standing_of (read state.old) a ≡ Running node
        → IsNone (due_of (read state.old) (Failover a)) }
    ensures course { OnOk result (course (read state.new) trace.new
        ≡ effect (course (read state.old) trace.old) (Sync node)) }
    ensures way { Goes state.old trace.old state.new trace.new }
    ensures few { OnOk result (FewWeighed (read state.old).cluster 0 trace.old trace.new) }
{
    if all_alive(state, state.cluster().mandatory(node)) {
        come_up(state, node, trace)
    } else {
        end(state, node, trace)
    }
}

// An application that is lost is wanted.
#[tactic(auto, using(rh_trace::proofs::Ways::goes_none))]
fn want_if_lost(state: &mut State, app: App, trace: &mut Trace) -> Result<(), OutOfMemory>
    requires { app.0 < app_count (read state.old).cluster }
    ensures part { OnOk result
        (read state.new ≡ wanted_if_lost (read state.old) app (standing_of (read state.old) app)) }
    ensures silent { TellsNothing trace.old trace.new }
    ensures way { Goes state.old trace.old state.new trace.new }
    ensures few { FewEdits 1 trace.old trace.new }
{
    match state.standing(app) {
        Standing::Lost(node) => {
            recording::set_standing(state, app, Standing::Wanted(Some(node)), trace)
        }
        Standing::Quiet | Standing::Wanted(_) | Standing::Running(_) => Ok(()),
    }
}
