//! Calls behind many others, of a cluster that the test gives as a text: none may want memory, since none is refused.

use crate::clusters::{BOOT_1, cluster_of, sim_behind};
use crate::sweeps::plan_of;
use rh_calls::{Call, report};
use rh_marks::Answer;
use rh_room::{Pass, Room, open_room};
use rh_step::{Event, Pick};
use rh_sweep::{Plan, try_plan};
use rh_trail::Sim;
use std::alloc::Global;

const COUNT: usize = 5_000;

static TICK: Event = Event::Tick { ms: 1 };

/// What comes of many calls of this name, if it is here.
pub fn answer(alloc: Global, name: &str, text: &str) -> Option<Answer> {
    if name == "Sim::step" {
        call_step(alloc, text)
    } else if name == "Room::serve" {
        call_serve(alloc, text)
    } else if name == "try_plan" {
        call_try_plan(alloc, text)
    } else {
        None
    }
}

// A long trail: the first node boots, and time passes.
fn long_sim(alloc: Global, text: &str) -> Option<Sim> {
    let mut sim = sim_behind(alloc, text, [BOOT_1].as_slice())?;
    tick(alloc, &mut sim)?;
    Some(sim)
}

fn tick(alloc: Global, sim: &mut Sim) -> Option<()> {
    for _ in 0..COUNT {
        let _ = sim.step(alloc, TICK).ok()?;
    }
    Some(())
}

fn call_step(alloc: Global, text: &str) -> Option<Answer> {
    let sim = long_sim(alloc, text)?;
    read(alloc, &sim)
}

fn read(alloc: Global, sim: &Sim) -> Option<Answer> {
    let copy = sim.copy(alloc).ok()?;
    let _ = copy.state().timers(alloc).ok()?;
    let text = report(alloc, copy.state()).ok()?;
    Some(Answer::of_call(copy.trail().len() == COUNT + 1 && !text.is_empty()))
}

fn call_serve(alloc: Global, text: &str) -> Option<Answer> {
    let cluster = cluster_of(alloc, text)?;
    let (mut room, mut passes) = open_room(alloc, cluster, Pick::First, 1).ok()?;
    call_all_and_fork(alloc, &mut room, passes.get_mut(0)?)
}

fn call_all_and_fork(alloc: Global, room: &mut Room, pass: &mut Pass) -> Option<Answer> {
    call_all(alloc, room, pass)?;
    let fork = room.fork(alloc).ok()?;
    Some(Answer::of_call(fork.trail().len() == COUNT + 1))
}

fn call_all(alloc: Global, room: &mut Room, pass: &mut Pass) -> Option<()> {
    serve(alloc, room, pass, Call::Step(BOOT_1))?;
    for _ in 0..COUNT {
        serve(alloc, room, pass, Call::Step(TICK))?;
        serve(alloc, room, pass, Call::Look)?;
    }
    Some(())
}

fn serve(alloc: Global, room: &mut Room, pass: &mut Pass, call: Call) -> Option<()> {
    let _ = room.serve(alloc, pass, call).ok()?;
    Some(())
}

fn call_try_plan(alloc: Global, text: &str) -> Option<Answer> {
    let mut sim = long_sim(alloc, text)?;
    call_try_plan_on(alloc, &mut sim)
}

fn call_try_plan_on(alloc: Global, sim: &mut Sim) -> Option<Answer> {
    let plan = plan_of_ticks(alloc)?;
    call_try_plan_of(alloc, sim, &plan)
}

fn plan_of_ticks(alloc: Global) -> Option<Plan> {
    let events = vec![in alloc; TICK; COUNT].ok()?;
    plan_of(alloc, events.as_slice())
}

// A plan of many events is tried behind a long trail.
fn call_try_plan_of(alloc: Global, sim: &mut Sim, plan: &Plan) -> Option<Answer> {
    let standing = sim.trail().len();
    if sim.cursor() != standing || plan.events.len() > Sim::TRAIL_LIMIT - standing {
        return None;
    }
    let outcome = try_plan(alloc, sim, plan).ok()?;
    Some(Answer::of_call(outcome.accepted == 5_000))
}
