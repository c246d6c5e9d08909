//! The timers that fire in a tick, which are told before it is made.

ghost use Rattle.rh_trace.specs.Validity.{IsValid};
ghost use Rattle.rh_state.specs.Stored.{read};

use crate::clusters::{BOOT_1, PAIR, cluster_of, sim_behind};
use crate::first::TWO_TIMERS;
use crate::kept::Kept;
use crate::performing::{first_of, make};
use rh_base::OutOfMemory;
use rh_cluster::Cluster;
use rh_marks::{Answer, begin, end};
use rh_state::State;
use rh_step::{Event, FiredTimer, Pick, firings_of, refusal_of};
use rh_trail::Sim;
use std::alloc::Global;

static TICK: u64 = 1_000;

/// What comes of the call of this name, if it is here.
pub fn answer(alloc: Global, name: &str) -> Option<Answer> {
    if name == "firings_of" {
        return of_a_state(alloc);
    }
    if !is_here(name) {
        return None;
    }
    let mut sim = sim_behind(alloc, PAIR, TWO_TIMERS.as_slice())?;
    if name == "Sim::firings" {
        of_a_sim(alloc, &mut sim)
    } else {
        of_a_timer(alloc, &mut sim, name)
    }
}

fn of_a_timer(alloc: Global, sim: &mut Sim, name: &str) -> Option<Answer> {
    let fired = firings_in_tick(alloc, sim)?.ok()?;
    call_reader(alloc, fired.as_slice().get(1)?, name)
}

// Is the call of this name, made of a simulation, here?
fn is_here(name: &str) -> bool {
    name == "Sim::firings" || name == "FiredTimer::due" || name == "FiredTimer::notices"
}

// The timers of a tick of a simulation, where it isn't refused.
fn firings_in_tick(alloc: Global, sim: &mut Sim) -> Option<Result<Vec<FiredTimer>, OutOfMemory>> {
    if refusal_of(sim.state(), &Event::Tick { ms: TICK }).is_some() {
        return None;
    }
    Some(sim.firings(alloc, TICK))
}

// Both timers fire, at the same time. The application is started at the other node, and is taken over by the one that comes up.
fn of_a_sim(alloc: Global, sim: &mut Sim) -> Option<Answer> {
    let kept = Kept::of(alloc, sim)?;
    of_a_sim_beside(alloc, sim, &kept)
}

fn of_a_sim_beside(alloc: Global, sim: &mut Sim, kept: &Kept) -> Option<Answer> {
    begin(alloc);
    let fired = firings_in_tick(alloc, sim);
    end(alloc);
    let is_told = fired?.map(|fired| is_told(
        fired.as_slice(),
        [(2_000, 1), (2_000, 3)].as_slice(),
    ));
    Some(match (is_told, kept.changed(alloc, sim)) {
        (Err(_), changed) => Answer::of_refusal(changed),
        (Ok(is_told), None) => Answer::of_call(is_told),
        (Ok(_), Some(what)) => Answer::Changed(what),
    })
}

// Are these the dues of the timers, and the numbers of notices that they told?
fn is_told(fired: &[FiredTimer], wanted: &[(u64, usize)]) -> bool {
    if fired.len() != wanted.len() {
        return false;
    }
    for index in 0..fired.len() {
        if (fired[index].due(), fired[index].notices().len()) != wanted[index] {
            return false;
        }
    }
    true
}

// The first node has booted, and waits for the others.
fn of_a_state(alloc: Global) -> Option<Answer> {
    let cluster = cluster_of(alloc, PAIR)?;
    of_a_first_state(alloc, &cluster)
}

fn of_a_first_state(alloc: Global, cluster: &Cluster) -> Option<Answer> {
    let mut state = first_of(alloc, cluster)?;
    of_a_boot(alloc, &mut state)
}

fn of_a_boot(alloc: Global, state: &mut State) -> Option<Answer>
    requires { IsValid (read state.old) }
{
    let mut edits = Vec::new(alloc);
    let mut told = Vec::new(alloc);
    make(alloc, state, &BOOT_1, &mut edits, &mut told)?;
    of_a_wait(alloc, state)
}

// It comes up, and starts the application.
fn of_a_wait(alloc: Global, state: &mut State) -> Option<Answer>
    requires { IsValid (read state.old) }
{
    let kept = state.copy(alloc).ok()?;
    of_a_wait_beside(alloc, state, &kept)
}

fn of_a_wait_beside(alloc: Global, state: &mut State, kept: &State) -> Option<Answer>
    requires { IsValid (read state.old) }
{
    if refusal_of(state, &Event::Tick { ms: TICK }).is_some() {
        return None;
    }
    begin(alloc);
    let fired = firings_of(alloc, state, TICK, Pick::First);
    end(alloc);
    Some(match fired {
        _ if !state.same_words(kept) => Answer::Changed("words"),
        Ok(fired) => Answer::of_call(is_told(fired.as_slice(), [(1_000, 2)].as_slice())),
        Err(_) => Answer::Refused,
    })
}

// The reader of this name, of a timer that told three notices.
fn call_reader(alloc: Global, fired: &FiredTimer, name: &str) -> Option<Answer> {
    begin(alloc);
    let is_read = if name == "FiredTimer::due" {
        Some(fired.due() == 2_000)
    } else if name == "FiredTimer::notices" {
        Some(fired.notices().len() == 3)
    } else {
        None
    };
    end(alloc);
    Some(Answer::of_call(is_read?))
}
