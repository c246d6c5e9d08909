//! Simulations: opening and copying one, steps, and a plan that is tried.

use crate::clusters::{
    BOOT_1, BOOT_2, BOOT_3, ONE_NODE, PAIR, RANKS, TWO_NODES, cluster_of, sim_before_last,
    sim_behind,
};
use crate::first::{TWO_TIMERS, is_new};
use crate::kept::Kept;
use crate::performing::call_perform;
use crate::sweeps::call_try_plan;
use rh_cluster::Cluster;
use rh_marks::{Answer, begin, end};
use rh_step::{Event, Pick};
use rh_trail::Sim;
use std::alloc::Global;

/// What comes of the call of this name, if it is here.
pub fn answer(alloc: Global, name: &str) -> Option<Answer> {
    if name == "Sim::open" {
        Some(call_open(alloc, cluster_of(alloc, ONE_NODE)?))
    } else if name == "Sim::copy" {
        call_copy(alloc)
    } else if name == "Sim::step where timers fire" {
        step_of_timers(alloc)
    } else if name == "Sim::step of a boot" {
        step_of_a_boot(alloc)
    } else if name == "Sim::step behind an undone one" {
        step_behind_an_undone(alloc)
    } else if name == "perform" {
        call_perform(alloc)
    } else if name == "try_plan" {
        call_try_plan(alloc)
    } else {
        None
    }
}

fn call_open(alloc: Global, cluster: Cluster) -> Answer {
    begin(alloc);
    let sim = Sim::open(alloc, cluster, Pick::First);
    end(alloc);
    match sim {
        Ok(sim) => {
            Answer::of_call(
                sim.cursor() == 0 && sim.trail().is_empty() && is_new(alloc, sim.state()),
            )
        }
        Err(_) => Answer::Refused,
    }
}

fn call_copy(alloc: Global) -> Option<Answer> {
    let events = [BOOT_3, BOOT_1, BOOT_2];
    let mut sim = sim_before_last(alloc, RANKS, events.as_slice())?;
    call_copy_on(alloc, &mut sim)
}

fn call_copy_on(alloc: Global, sim: &mut Sim) -> Option<Answer> {
    let kept = Kept::of(alloc, sim)?;
    let answer = call_copy_beside(alloc, sim, &kept);
    Some(match kept.changed(alloc, sim) {
        None => answer,
        Some(what) => Answer::Changed(what),
    })
}

fn call_copy_beside(alloc: Global, sim: &Sim, kept: &Kept) -> Answer {
    begin(alloc);
    let copy = sim.copy(alloc);
    end(alloc);
    match copy {
        Ok(mut copy) => {
            Answer::of_call(copy.cursor() == 2 && kept.changed(alloc, &mut copy).is_none())
        }
        Err(_) => Answer::Refused,
    }
}

// Both timers fire.
fn step_of_timers(alloc: Global) -> Option<Answer> {
    let mut sim = sim_behind(alloc, PAIR, TWO_TIMERS.as_slice())?;
    call_step(alloc, &mut sim, Event::Tick { ms: 1_000 }, 4)
}

// A node boots two applications, of which one has to wait.
fn step_of_a_boot(alloc: Global) -> Option<Answer> {
    let mut sim = sim_behind(alloc, TWO_NODES, [BOOT_1].as_slice())?;
    call_step(alloc, &mut sim, BOOT_2, 3)
}

// An application is taken over; what was undone stays where memory is refused.
fn step_behind_an_undone(alloc: Global) -> Option<Answer> {
    let mut sim = sim_before_last(alloc, RANKS, [BOOT_3, BOOT_2].as_slice())?;
    call_step(alloc, &mut sim, BOOT_1, 4)
}

// A step of so many notices.
fn call_step(alloc: Global, sim: &mut Sim, event: Event, count: usize) -> Option<Answer> {
    let kept = Kept::of(alloc, sim)?;
    Some(call_step_beside(alloc, sim, &kept, event, count))
}

fn call_step_beside(
    alloc: Global,
    sim: &mut Sim,
    kept: &Kept,
    event: Event,
    count: usize,
) -> Answer {
    // A trail has a limit, so that the sum fits.
    let _ = sim.trail();
    let next = sim.cursor() + 1;
    begin(alloc);
    let told = sim.step(alloc, event);
    end(alloc);
    match told {
        Ok(told) => {
            Answer::of_call(
                told.len() == count && sim.cursor() == next && sim.trail().len() == next,
            )
        }
        Err(refusal) => {
            if refusal.is_memory() {
                Answer::of_refusal(kept.changed(alloc, sim))
            } else {
                Answer::Changed("refusal")
            }
        }
    }
}
