//! One timer that fires in a state: the parts of a tick of `rh_step`, with the state behind each of them.

ghost use Rattle.std.specs.Prelude.{◌≡◌, ◌≤◌, ◌<◌, [], Some, IfSome, IsNone, OnOk};
ghost use Rattle.rh_model.specs.ClusterView.{app_count};
ghost use Rattle.rh_model.specs.declared.node.Node.{Node};
ghost use Rattle.rh_model.specs.declared.node.App.{App};
ghost use Rattle.rh_state.specs.Limits.{time_limit};
ghost use Rattle.rh_state.specs.Shape.{IsNodeOf, IsTimerOf};
ghost use Rattle.rh_state.specs.StateView.{earliest, standing_of, running_at, waiting_at, due_of};
ghost use Rattle.rh_state.specs.Stored.{read};
ghost use Rattle.rh_state.specs.declared.status.Standing.TheVariants.{Running};
ghost use Rattle.rh_state.specs.declared.status.Timer.TheVariants.{Sync, Failover};
ghost use Rattle.rh_trace.specs.Traces.{course};
ghost use Rattle.rh_trace.specs.Validity.{IsSound};
ghost use Rattle.rh_rules.specs.Time.{due_by, effect, taken_off};
ghost use Rattle.rh_rules.specs.NodesEnd.{wanted_if_lost};
ghost use Rattle.rh_step.specs.Firings.{fired_in};

use rh_base::OutOfMemory;
use rh_events::{all_alive, cancel_if_set, come_up, end, let_ready_come_up};
use rh_model::{App, Node};
use rh_settle::settle;
use rh_state::{Standing, State, Timer};
use rh_step::Pick;
use rh_trace::{Trace, recording};
use std::alloc::Global;

// The timer that fires next, if it is due by the limit.
pub(crate) fn due_by(state: &State, limit: u64) -> Option<(u64, Timer)>
    ensures next { result ≡ due_by limit (earliest (read state.now)) }
    ensures due { IfSome result (λ entry. entry.0 ≤ limit) }
    ensures timer { IfSome result (λ entry. IsTimerOf (read state.now).cluster entry.1) }
{
    match state.earliest() {
        Some((due, timer)) if due <= limit => Some((due, timer)),
        _ => None,
    }
}

// The timer that is set first fires, and what follows from it happens. Where memory is refused, the state is one on the way.
#[tactic(auto, unfolding(rh_rules::specs::Time::fired))]
pub(crate) fn fire(
    alloc: Global,
    state: &mut State,
    due: u64,
    timer: Timer,
    pick: Pick,
) -> Result<(), OutOfMemory>
    requires due { due ≤ time_limit }
    requires timer { IsTimerOf (read state.old).cluster timer }
    requires first { earliest (read state.old) ≡ Some (due, timer) }
    requires sound { IsSound (read state.old) }
    ensures fired { OnOk result
        (read state.new ≡ (fired_in pick (read state.old) (due, timer)).state) }
{
    let mut trace = Trace::of(Vec::new(alloc), Vec::new(alloc), alloc);
    take_off(state, due, timer, &mut trace)?;
    take_effect(state, timer, &mut trace)?;
    let_ready_come_up(state, &mut trace)?;
    settle(state, pick, &mut trace)
}

// The timer is taken off, it is as late as it was due, and no pair is fresh any longer.
fn take_off(state: &mut State, due: u64, timer: Timer, trace: &mut Trace) -> Result<(), OutOfMemory>
    requires due { due ≤ time_limit }
    requires timer { IsTimerOf (read state.old).cluster timer }
    ensures course { OnOk result (course (read state.new) trace.new
        ≡ taken_off (course (read state.old) trace.old) (due, timer)) }
{
    cancel_if_set(state, timer, trace)?;
    recording::set_now(state, due, trace)?;
    trace.forget_marks();
    Ok(())
}

// What a timer does.
fn take_effect(state: &mut State, timer: Timer, trace: &mut Trace) -> Result<(), OutOfMemory>
    requires timer { IsTimerOf (read state.old).cluster timer }
    requires running { (n : Node) → timer ≡ Sync n → running_at (read state.old) n ≡ [] }
    requires waiting { (n : Node) → timer ≡ Sync n → waiting_at (read state.old) n ≡ [] }
    requires unset { (n : Node) (a : App) → timer ≡ Sync n → standing_of (read state.old) a
        ≡ Running n → IsNone (due_of (read state.old) (Failover a)) }
    ensures course { OnOk result
        (course (read state.new) trace.new ≡ effect (course (read state.old) trace.old) timer) }
{
    match timer {
        Timer::Sync(node) => end_wait(state, node, trace),
        Timer::Failover(app) => want_if_lost(state, app, trace),
    }
}

// A node's wait for others is over.
fn end_wait(state: &mut State, node: Node, trace: &mut Trace) -> Result<(), OutOfMemory>
    requires node { IsNodeOf (read state.old).cluster node }
    requires running { running_at (read state.old) node ≡ [] }
    requires waiting { waiting_at (read state.old) node ≡ [] }
    requires unset { (a : App) → standing_of (read state.old) a ≡ Running node
        → IsNone (due_of (read state.old) (Failover a)) }
    ensures course { OnOk result (course (read state.new) trace.new
        ≡ effect (course (read state.old) trace.old) (Sync node)) }
{
    if all_alive(state, state.cluster().mandatory(node)) {
        come_up(state, node, trace)
    } else {
        end(state, node, trace)
    }
}

// An application that is lost is wanted.
fn want_if_lost(state: &mut State, app: App, trace: &mut Trace) -> Result<(), OutOfMemory>
    requires { app.0 < app_count (read state.old).cluster }
    ensures course { OnOk result (course (read state.new) trace.new
        ≡ effect (course (read state.old) trace.old) (Failover app)) }
{
    match state.standing(app) {
        Standing::Lost(node) => {
            recording::set_standing(state, app, Standing::Wanted(Some(node)), trace)
        }
        Standing::Quiet | Standing::Wanted(_) | Standing::Running(_) => Ok(()),
    }
}
