//! The way along the trail, on which each course is noted.

ghost use Rattle.std.specs.Prelude.{◌≡◌, ◌≤◌, ◌<◌, ◌+◌, ◌++◌, ◌∷◌, [], ℕ, length, map, filter, not, slice_get, All, IfOk, OnOk, IfSome, MatchOption, Some, is_some};
ghost use Rattle.rh_model.specs.ClusterView.{ClusterView, app_count};
ghost use Rattle.rh_state.specs.Limits.{time_limit};
ghost use Rattle.rh_state.specs.StateView.{earliest};
ghost use Rattle.rh_state.specs.Stored.{read};
ghost use Rattle.rh_trace.specs.Validity.{IsSound};
ghost use Rattle.rh_rules.specs.Course.{is_local};
ghost use Rattle.rh_rules.specs.declared.event.Event.{Event};
ghost use Rattle.rh_rules.specs.declared.event.Event.TheVariants.{Tick};
ghost use Rattle.rh_rules.specs.declared.pick.Pick.{Pick};
ghost use Rattle.rh_rules.specs.Time.{due_by};
ghost use Rattle.rh_trail.specs.Chain.{chain};
ghost use Rattle.rh_trail.specs.SimView.{state_of};
ghost use Rattle.rh_courses.specs.Moments.{behind_timers, behind_firings, passed_in};
ghost use Rattle.rh_courses.specs.Courses.{distributed, courses_in};
ghost use Rattle.rh_courses.specs.Working.{not_run, all_noted, noted_along, behind_in, AreOf};

use crate::course::Course;
use crate::firing::{due_by, fire};
use rh_base::OutOfMemory;
use rh_model::{App, Cluster};
use rh_state::State;
use rh_step::{Event, Pick};
use rh_trail::Sim;
use std::alloc::Global;

/// The courses of the distributed applications, in their order, along the trail from the first state up to the cursor.
///
/// The simulation is lent: it goes back to its first state and makes the events again, which takes no memory. Then it stands where
/// it stood, with the same words, also where memory is wanting.
pub fn courses_of(alloc: Global, sim: &mut Sim) -> Result<Vec<Course>, OutOfMemory>
    ensures courses { IfOk result (λ courses. courses.items ≡ courses_in sim.old.seen) }
    ensures seen { sim.new.seen ≡ sim.old.seen }
    ensures words { sim.new.words ≡ sim.old.words }
    ensures chain { (k : ℕ) → k ≤ length sim.old.seen.trail → chain sim.new k ≡ chain sim.old k }
{
    // As many records as events.
    sim.is_chained();
    let end = sim.cursor();
    let _ = sim.undo_all();
    let courses = courses_along(alloc, sim, end);
    go_forth(sim, end);
    sim.is_chained();
    courses
}

// The courses from the first state on, up to a place of the trail. Where memory is refused, the simulation stands before it.
fn courses_along(alloc: Global, sim: &mut Sim, end: usize) -> Result<Vec<Course>, OutOfMemory>
    requires start { sim.old.seen.cursor ≡ 0 }
    requires end { end ≤ length sim.old.seen.trail }
    ensures courses { IfOk result
        (λ courses. courses.items ≡ courses_in (record sim.old.seen { cursor = end })) }
    ensures seen { sim.new.seen ≡ record sim.old.seen { cursor = sim.new.seen.cursor } }
    ensures within { sim.new.seen.cursor ≤ end }
    ensures chain { (k : ℕ) → k ≤ length sim.old.seen.trail → chain sim.new k ≡ chain sim.old k }
{
    let mut courses = none_ran(alloc, sim.cluster())?;
    'events: while sim.cursor() < end {
        note_event(alloc, sim, &mut courses)?;
    }
    Ok(courses)
}

// The courses of the distributed applications before any event.
#[tactic(auto, unfolding(rh_state::specs::Numbers::apps_of))]
fn none_ran(alloc: Global, cluster: &Cluster) -> Result<Vec<Course>, OutOfMemory>
    ensures courses { IfOk result
        (λ courses. courses.items ≡ map not_run (distributed cluster.now)) }
    ensures apps { IfOk result (λ courses. AreOf cluster.now courses.items) }
{
    let mut courses = Vec::new(alloc);
    let count = cluster.app_count();
    for number in 0..count {
        push_if_distributed(alloc, &mut courses, cluster, App(number as u8))?;
    }
    Ok(courses)
}

// Adds the course of an application that hasn't run, if it is distributed.
fn push_if_distributed(
    alloc: Global,
    courses: &mut Vec<Course>,
    cluster: &Cluster,
    app: App,
) -> Result<(), OutOfMemory>
    requires app { app.0 < app_count cluster.now }
    requires apps { AreOf cluster.now courses.old.items }
    ensures courses { OnOk result (courses.new.items ≡ courses.old.items
        ++ map not_run (filter (λ a. not (is_local cluster.now a)) (app ∷ []))) }
    ensures apps { OnOk result (AreOf cluster.now courses.new.items) }
{
    if cluster.spread(app).is_some() {
        courses.push(Course::not_run(alloc, app))?;
    }
    Ok(())
}

// Makes the next event again, and notes what it leads through. Where memory is refused, the event is made all the same.
fn note_event(alloc: Global, sim: &mut Sim, courses: &mut Vec<Course>) -> Result<(), OutOfMemory>
    requires next { sim.old.seen.cursor < length sim.old.seen.trail }
    requires apps { AreOf sim.old.seen.cluster courses.old.items }
    ensures noted { OnOk result
        ((e : Event) → slice_get sim.old.seen.trail sim.old.seen.cursor ≡ Some e → courses.new.items
        ≡ noted_along courses.old.items (passed_in sim.old.seen.pick (state_of sim.old.seen) e)) }
    ensures apps { OnOk result (AreOf sim.old.seen.cluster courses.new.items) }
    ensures seen { sim.new.seen ≡ record sim.old.seen { cursor = sim.old.seen.cursor + 1 } }
    ensures chain { (k : ℕ) → k ≤ length sim.old.seen.trail → chain sim.new k ≡ chain sim.old k }
{
    let event = next_event(sim);
    let before = before_firings(alloc, sim.state(), &event);
    let _ = sim.redo();
    let before = before?;
    note_firings(alloc, before, sim.state().now(), sim.pick(), courses)?;
    note(courses, sim.state())
}

// The first event that could be made again.
fn next_event(sim: &Sim) -> Event
    requires { sim.now.seen.cursor < length sim.now.seen.trail }
    ensures { slice_get sim.now.seen.trail sim.now.seen.cursor ≡ Some result }
{
    event_at(sim.trail(), sim.cursor())
}

// The event of this number.
fn event_at(events: &[Event], index: usize) -> Event
    requires { index < length events.now }
    ensures { slice_get events.now index ≡ Some result }
{
    events[index]
}

// A copy of the state, if a timer fires in this event.
fn before_firings(alloc: Global, state: &State, event: &Event) -> Result<Option<State>, OutOfMemory>
    ensures { IfOk result (λ found.
        MatchOption found ((pick : Pick) → behind_firings pick (read state.now) event.now ≡ [])
        (λ copy. (ms : ℕ) × (event.now ≡ Tick ms) × (copy ≡ state.now))) }
{
    match *event {
        Event::Tick { ms } => {
            if fires_within(state, ms) {
                Ok(Some(state.copy(alloc)?))
            } else {
                Ok(None)
            }
        }
        _ => Ok(None),
    }
}

// Does a timer fire within so many milliseconds?
fn fires_within(state: &State, ms: u64) -> bool
    ensures { result ≡ is_some (due_by ((read state.now).time + ms) (earliest (read state.now))) }
{
    match state.earliest() {
        Some((due, _)) => {
            let wait = due.saturating_sub(state.now());
            wait <= ms
        }
        None => false,
    }
}

// The timers that are due by the limit fire in a copy of the state, if there is one, and the state behind each is noted.
fn note_firings(
    alloc: Global,
    before: Option<State>,
    limit: u64,
    pick: Pick,
    courses: &mut Vec<Course>,
) -> Result<(), OutOfMemory>
    requires limit { limit ≤ time_limit }
    requires sound { IfSome before (λ state. IsSound (read state)) }
    requires apps { IfSome before (λ state. AreOf (read state).cluster courses.old.items) }
    ensures noted { OnOk result
        (courses.new.items ≡ noted_along courses.old.items (behind_in pick limit before)) }
    ensures apps { OnOk result
        ((v : ClusterView) → AreOf v courses.old.items → AreOf v courses.new.items) }
{
    match before {
        None => Ok(()),
        Some(state) => note_each(alloc, state, limit, pick, courses),
    }
}

// The timers that are due by the limit fire, and the state behind each is noted.
fn note_each(
    alloc: Global,
    mut state: State,
    limit: u64,
    pick: Pick,
    courses: &mut Vec<Course>,
) -> Result<(), OutOfMemory>
    requires limit { limit ≤ time_limit }
    requires sound { IsSound (read state) }
    requires apps { AreOf (read state).cluster courses.old.items }
    ensures noted { OnOk result (courses.new.items ≡ noted_along courses.old.items
        (behind_timers pick (length (read state).timers) limit (read state))) }
    ensures apps { OnOk result
        ((v : ClusterView) → AreOf v courses.old.items → AreOf v courses.new.items) }
{
    'timers: while let Some((due, timer)) = due_by(&state, limit) {
        fire(alloc, &mut state, due, timer, pick)?;
        note(courses, &state)?;
    }
    Ok(())
}

// Each course notes a state that is passed.
fn note(courses: &mut Vec<Course>, state: &State) -> Result<(), OutOfMemory>
    requires { AreOf (read state.now).cluster courses.old.items }
    ensures noted { OnOk result (courses.new.items ≡ all_noted courses.old.items (read state.now)) }
    ensures apps { OnOk result
        ((v : ClusterView) → AreOf v courses.old.items → AreOf v courses.new.items) }
{
    'courses: for index in 0..courses.len() {
        courses[index].note(state)?;
    }
    Ok(())
}

// Makes steps again up to this place of the trail.
fn go_forth(sim: &mut Sim, end: usize)
    requires before { sim.old.seen.cursor ≤ end }
    requires within { end ≤ length sim.old.seen.trail }
    ensures seen { sim.new.seen ≡ record sim.old.seen { cursor = end } }
    ensures chain { (k : ℕ) → k ≤ length sim.old.seen.trail → chain sim.new k ≡ chain sim.old k }
{
    'forth: while sim.cursor() < end {
        let _ = sim.redo();
    }
}
