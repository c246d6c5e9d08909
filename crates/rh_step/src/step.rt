//! One step of a cluster.

ghost use Rattle.std.specs.Prelude.{List, ◌≡◌, ◌≤◌, ◌+◌, ◌++◌, length, All, OnOk, OnErr, None};
ghost use Rattle.rh_state.specs.Records.{Grows};
ghost use Rattle.rh_state.specs.Stored.{read};
ghost use Rattle.rh_rules.specs.declared.notice.Notice.{Notice};
ghost use Rattle.rh_trace.specs.Traces.{IsPairOf, course};
ghost use Rattle.rh_rules.specs.Settling.{settled};
ghost use Rattle.rh_trace.specs.Validity.{IsSound, IsValid};
ghost use Rattle.rh_settle.specs.Starting.{StartsAreMarked};
ghost use Rattle.rh_trace.specs.Counts.{FewWeighed};
ghost use Rattle.rh_trace.specs.Ways.{Goes};
ghost use Rattle.rh_rules.specs.declared.event.Event.TheVariants.{Tick};
ghost use Rattle.rh_rules.specs.NodesStart.{ready_come_up};
ghost use Rattle.rh_events.specs.Counts.{own_edits};
ghost use Rattle.rh_rules.specs.Refusals.{refused};
ghost use Rattle.rh_rules.specs.Steps.{outcome, followed, next_from, next, Allowed};
ghost use Rattle.rh_step.specs.Counts.{step_edits, most_edits};
ghost use Rattle.rh_step.specs.Starting.{may_let_start};

use crate::ticks::pass_time;
use rh_base::OutOfMemory;
use rh_events::{Event, change, let_ready_come_up};
use rh_rules::{Notice, Pick};
use rh_settle::{settle, settle_marked};
use rh_state::{Edit, State, rewind};
use rh_trace::Trace;
use std::alloc::Global;
use std::mem;

/// Makes an event that isn't refused, and adds what follows from it behind the earlier notices, and what it changed in the
/// state behind the earlier edits. Each tie goes to the pick. Where memory is refused, state and both lists are as before.
///
/// A state needs no simulation for that. The first one is valid by [`first_is_valid`](crate::first_is_valid), and so is each
/// that `perform` leads to:
///
/// ```
/// cluster.is_within();
/// first_is_valid();
/// let mut state = first_state(alloc, &cluster)?;
/// let mut edits = Vec::new(alloc);
/// let mut notices = Vec::new(alloc);
/// let boot = Event::Boot { node: Node(0) };
/// if refusal_of(&state, &boot).is_none() {
///     perform(alloc, &mut state, &boot, Pick::First, &mut edits, &mut notices)?;
/// }
/// ```
pub fn perform(
    alloc: Global,
    state: &mut State,
    event: &Event,
    pick: Pick,
    edits: &mut Vec<Edit>,
    notices: &mut Vec<Notice>,
) -> Result<(), OutOfMemory>
    requires accepted { refused (read state.old) event.now ≡ None }
    requires valid { IsValid (read state.old) }
    ensures state { OnOk result (read state.new ≡ (next (read state.old) event.now pick).state) }
    ensures notices { OnOk result
        (notices.new.items ≡ notices.old.items ++ (next (read state.old) event.now pick).notices) }

    // The rules allow this outcome, and it is again a state that a cluster reaches.
    ensures allowed { OnOk result ((told : List Notice) × (notices.new.items ≡ notices.old.items
        ++ told) × Allowed (read state.old) event.now (outcome (read state.new) told)) }
    ensures valid { OnOk result (IsValid (read state.new)) }

    // The edits that were added lead back to the state before, word for word, over states that are well formed.
    ensures edits { OnOk result (Grows state.old edits.old.items state.new edits.new.items) }

    // They are few: what a step keeps is bounded by what it tells.
    ensures few { OnOk result (length edits.new.items ≤ length edits.old.items
        + most_edits (read state.old) event.now (next (read state.old) event.now pick)) }

    // Want of memory changes nothing.
    ensures kept_state { OnErr result (state.new ≡ state.old) }
    ensures kept_edits { OnErr result (edits.new.items ≡ edits.old.items) }
    ensures kept_notices { OnErr result (notices.new.items ≡ notices.old.items) }
{
    let earlier = mem::replace(notices, Vec::new(alloc));
    let before = mem::replace(edits, Vec::new(alloc));
    let told = earlier.len();
    let mark = before.len();
    let mut trace = Trace::of(earlier, before, alloc);
    let made = make(state, event, pick, &mut trace);
    (*notices, *edits) = trace.into_parts();
    if made.is_err() {
        rewind(edits, mark, state);
        notices.truncate(told);
    }
    made
}

// The event, and what follows from it.
fn make(state: &mut State, event: &Event, pick: Pick, trace: &mut Trace) -> Result<(), OutOfMemory>
    requires accepted { refused (read state.old) event.now ≡ None }
    requires valid { IsValid (read state.old) }
    requires marked { All (IsPairOf (read state.old).cluster) trace.old.marked }
    ensures course { OnOk result (course (read state.new) trace.new
        ≡ next_from (course (read state.old) trace.old) event.now pick) }
    ensures way { Goes state.old trace.old state.new trace.new }
    ensures few { OnOk result (FewWeighed (read state.old).cluster
        (step_edits (read state.old) event.now (read state.new)) trace.old trace.new) }
{
    match *event {
        Event::Tick { ms } => pass_time(state, ms, pick, trace),
        _ => happen(state, event, pick, trace),
    }
}

// An event that is no tick, and what follows from it.
#[tactic(auto, unfolding(rh_rules::specs::Steps::followed))]
fn happen(
    state: &mut State,
    event: &Event,
    pick: Pick,
    trace: &mut Trace,
) -> Result<(), OutOfMemory>
    requires accepted { refused (read state.old) event.now ≡ None }
    requires valid { IsValid (read state.old) }
    requires marked { All (IsPairOf (read state.old).cluster) trace.old.marked }
    ensures course { OnOk result (course (read state.new) trace.new
        ≡ followed pick (course (read state.old) trace.old) event.now) }
    ensures way { Goes state.old trace.old state.new trace.new }
    ensures few { OnOk result (FewWeighed (read state.old).cluster
        (own_edits (read state.old).cluster event.now) trace.old trace.new) }
{
    change(state, event, trace)?;
    if may_let_start(event) {
        follow(state, pick, trace)
    } else {
        follow_marked(state, pick, trace)
    }
}

// Whether the event itself, before any application moves, may let a local application start at a pair that it doesn't mark.
fn may_let_start(event: &Event) -> bool
    ensures { result ≡ may_let_start event.now }
{
    match *event {
        Event::Permit { allow, .. } => allow,
        Event::Takeover { .. } => true,
        _ => false,
    }
}

// What follows of itself: the ready nodes come up, and the applications settle.
fn follow(state: &mut State, pick: Pick, trace: &mut Trace) -> Result<(), OutOfMemory>
    requires sound { IsSound (read state.old) }
    requires marked { All (IsPairOf (read state.old).cluster) trace.old.marked }
    ensures course { OnOk result (course (read state.new) trace.new
        ≡ settled pick (ready_come_up (course (read state.old) trace.old))) }
    ensures way { Goes state.old trace.old state.new trace.new }
    ensures few { OnOk result (FewWeighed (read state.old).cluster 0 trace.old trace.new) }
{
    let_ready_come_up(state, trace)?;
    settle(state, pick, trace)
}

/// What follows of itself where local applications can start at marked pairs alone: the ready nodes come up, and the applications settle.
pub fn follow_marked(state: &mut State, pick: Pick, trace: &mut Trace) -> Result<(), OutOfMemory>
    requires sound { IsSound (read state.old) }
    requires marked { All (IsPairOf (read state.old).cluster) trace.old.marked }
    requires starts { StartsAreMarked (course (read state.old) trace.old) }
    ensures course { OnOk result (course (read state.new) trace.new
        ≡ settled pick (ready_come_up (course (read state.old) trace.old))) }
    ensures way { Goes state.old trace.old state.new trace.new }
    ensures few { OnOk result (FewWeighed (read state.old).cluster 0 trace.old trace.new) }
{
    let_ready_come_up(state, trace)?;
    settle_marked(state, pick, trace)
}
