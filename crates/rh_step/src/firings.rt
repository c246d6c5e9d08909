//! The timers that fire in a tick, each with when it was due and what was told then.

ghost use Rattle.std.specs.Prelude.{◌≡◌, ◌≤◌, length, IfOk, OnOk, Some, None};
ghost use Rattle.rh_state.specs.Limits.{time_limit};
ghost use Rattle.rh_state.specs.Records.{Grows};
ghost use Rattle.rh_state.specs.Shape.{IsTimerOf};
ghost use Rattle.rh_state.specs.StateView.{earliest};
ghost use Rattle.rh_state.specs.Stored.{read};
ghost use Rattle.rh_trace.specs.Validity.{IsValid};
ghost use Rattle.rh_rules.specs.declared.event.Event.TheVariants.{Tick};
ghost use Rattle.rh_rules.specs.Refusals.{refused};
ghost use Rattle.rh_step.specs.Firings.{firing, fired_in, firings_by, firings, FiringsTellTheTick, FiringsAreInTime};

use crate::ticks::{due_by, fire};
use rh_base::OutOfMemory;
use rh_rules::{Notice, Pick};
use rh_state::{Edit, State, Timer, go_back};
use rh_trace::Trace;
use std::alloc::Global;
use std::marker::Model;
use std::mem;

/// A timer that fired in a tick.
#[derive(Drop)]
pub struct FiredTimer {
    due: u64,
    told: Vec<Notice>,
}

impl Model for FiredTimer {
    ghost use Rattle.rh_step.specs.Firings.{FiringView};

    ghost Value = { FiringView };

    ghost view = { λ f. record { due = f.due; told = f.told.items } };
}

impl FiredTimer {
    /// When it was due, in milliseconds.
    pub fn due(&self) -> u64
        ensures { result ≡ self.now.due }
    {
        self.due
    }

    /// What was told then, in order.
    pub fn notices(&self) -> &[Notice]
        ensures { result.now ≡ self.now.told }
    {
        self.told.as_slice()
    }
}

/// The timers that fire in a tick that isn't refused, in order. The state is lent: what fires changes it, and all of that is taken
/// back, also where memory is wanting.
pub fn firings_of(
    alloc: Global,
    state: &mut State,
    ms: u64,
    pick: Pick,
) -> Result<Vec<FiredTimer>, OutOfMemory>
    requires accepted { refused (read state.old) (Tick ms) ≡ None }
    requires valid { IsValid (read state.old) }
    ensures firings { IfOk result (λ fired. fired.items ≡ firings (read state.old) ms pick) }
    ensures kept { state.new ≡ state.old }
{
    let limit = state.now() + ms;
    let mut edits = Vec::new(alloc);
    let fired = fire_each(alloc, state, limit, pick, &mut edits);
    go_back(edits.as_mut_slice(), state);
    fired
}

// The timers that are due by the limit fire, one after the other.
fn fire_each(
    alloc: Global,
    state: &mut State,
    limit: u64,
    pick: Pick,
    edits: &mut Vec<Edit>,
) -> Result<Vec<FiredTimer>, OutOfMemory>
    requires limit { limit ≤ time_limit }
    requires valid { IsValid (read state.old) }
    ensures firings { IfOk result (λ fired.
        fired.items ≡ firings_by pick (length (read state.old).timers) limit (read state.old)) }
    ensures edits { Grows state.old edits.old.items state.new edits.new.items }
{
    let mut fired = Vec::new(alloc);
    'timers: while let Some((due, timer)) = due_by(state, limit) {
        let firing = fire_alone(alloc, state, due, timer, pick, edits)?;
        fired.push(firing)?;
    }
    Ok(fired)
}

// The timer that is set first fires, in a state before which nothing was told.
fn fire_alone(
    alloc: Global,
    state: &mut State,
    due: u64,
    timer: Timer,
    pick: Pick,
    edits: &mut Vec<Edit>,
) -> Result<FiredTimer, OutOfMemory>
    requires due { due ≤ time_limit }
    requires timer { IsTimerOf (read state.old).cluster timer }
    requires first { earliest (read state.old) ≡ Some (due, timer) }
    requires valid { IsValid (read state.old) }
    ensures firing { IfOk result
        (λ f. f ≡ firing due (fired_in pick (read state.old) (due, timer)).notices) }
    ensures state { OnOk result
        (read state.new ≡ (fired_in pick (read state.old) (due, timer)).state) }
    ensures edits { Grows state.old edits.old.items state.new edits.new.items }
{
    let before = mem::replace(edits, Vec::new(alloc));
    let mut trace = Trace::of(Vec::new(alloc), before, alloc);
    let made = fire(state, due, timer, pick, &mut trace);
    let (told, after) = trace.into_parts();
    *edits = after;
    made?;
    Ok(FiredTimer { due, told })
}

/// A law: the firings of a tick told what the tick tells, times left out.
pub fn firings_tell_the_tick()
    ensures { FiringsTellTheTick }
{}

/// A law: the firings of a tick are in the order of time, none before the tick begins and none behind its end.
pub fn firings_are_in_time()
    ensures { FiringsAreInTime }
{}
