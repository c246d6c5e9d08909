//! Plans: one that is tried, and a sweep of several by two workers.

use crate::clusters::{BOOT_1, BOOT_2, BOOT_3, CAVE, sim_behind};
use crate::kept::Kept;
use rh_base::Str;
use rh_cluster::{App, Node, Restart};
use rh_marks::{Answer, begin, end};
use rh_state::Standing;
use rh_step::{Event, Refusal};
use rh_sweep::{FreeGate, Gate, Outcome, Plan, SweepFault, sweep, try_plan};
use rh_trail::Sim;
use std::alloc::Global;
use std::sync::Wait;
use std::thread::Threads;

// The three nodes boot, and the application runs at the first.
static BOOTS: [Event; 3] = [BOOT_1, BOOT_2, BOOT_3];

// The first node ends, and stays away.
static DOWN: [Event; 2] = [Event::Crash { node: Node(0) }, Event::Tick { ms: 5_000 }];

// It ends twice.
static TWICE: [Event; 2] = [
    Event::Crash { node: Node(0) },
    Event::Crash { node: Node(0) },
];

// The second node takes the application over.
static HAND: [Event; 1] = [Event::Takeover {
    node: Node(1),
    app: App(0),
    restart: Restart::Permanent,
}];

/// A plan of these events.
pub fn plan_of(alloc: Global, events: &[Event]) -> Option<Plan> {
    let name = Str::of(String::from_str(alloc, "plan").ok()?);
    let events = Vec::from_slice(alloc, events).ok()?;
    Some(Plan { name, events })
}

// Five plans, the third as the first, and the fourth without events.
fn plans(alloc: Global) -> Option<Vec<Plan>> {
    let all = [
        DOWN.as_slice(),
        TWICE.as_slice(),
        DOWN.as_slice(),
        &[],
        HAND.as_slice(),
    ];
    plans_of(alloc, all.as_slice())
}

fn plans_of(alloc: Global, all: &[&[Event]]) -> Option<Vec<Plan>> {
    let mut plans = Vec::new(alloc);
    for events in all {
        plans.push(plan_of(alloc, events)?).ok()?;
    }
    Some(plans)
}

/// A plan is tried in which a node ends.
pub fn call_try_plan(alloc: Global) -> Option<Answer> {
    let mut sim = sim_behind(alloc, CAVE, BOOTS.as_slice())?;
    call_try_plan_on(alloc, &mut sim)
}

fn call_try_plan_on(alloc: Global, sim: &mut Sim) -> Option<Answer> {
    let plan = plan_of(alloc, DOWN.as_slice())?;
    call_try_plan_of(alloc, sim, &plan)
}

fn call_try_plan_of(alloc: Global, sim: &mut Sim, plan: &Plan) -> Option<Answer> {
    let kept = Kept::of(alloc, sim)?;
    call_try_plan_beside(alloc, sim, &kept, plan)
}

fn call_try_plan_beside(alloc: Global, sim: &mut Sim, kept: &Kept, plan: &Plan) -> Option<Answer> {
    let standing = sim.trail().len();
    if sim.cursor() != standing || plan.events.len() > Sim::TRAIL_LIMIT - standing {
        return None;
    }
    begin(alloc);
    let outcome = try_plan(alloc, sim, plan);
    end(alloc);
    let changed = kept.changed(alloc, sim);
    Some(match outcome {
        Ok(outcome) => Answer::of_call(changed.is_none() && is_failover(&outcome)),
        Err(_) => Answer::of_refusal(changed),
    })
}

// Is the application started at the second node that was lost with the first?
fn is_failover(outcome: &Outcome) -> bool {
    outcome.refused.is_none() && has(outcome, (2, 1, 0), Standing::Running(Node(1)))
}

// Had the plan so many accepted events, failovers and takeovers, and stands the application so at its end?
fn has(outcome: &Outcome, counts: (u32, u128, u128), standing: Standing) -> bool {
    let (accepted, failovers, takeovers) = counts;
    outcome.accepted == accepted
        && outcome.failovers == failovers
        && outcome.takeovers == takeovers
        && outcome.standings.as_slice() == [(App(0), standing)].as_slice()
}

// Are these the outcomes of the five plans?
fn are_right(outcomes: &[Outcome]) -> bool {
    match outcomes {
        [down, twice, again, none, hand] => {
            is_failover(down)
                && twice.refused == Some((1, Refusal::NotAlive))
                && has(twice, (1, 0, 0), Standing::Lost(Node(0)))
                && is_failover(again)
                && has(none, (0, 0, 0), Standing::Running(Node(0)))
                && has(hand, (1, 0, 1), Standing::Running(Node(1)))
        }
        _ => false,
    }
}

/// What comes of the call of this name, if it is here.
pub fn answer<R: Threads + Wait + Sync>(rt: &R, alloc: Global, name: &str) -> Option<Answer> {
    if name == "sweep" {
        call_sweep(rt, alloc)
    } else if name == "sweep of 10 plans" {
        call_sweep_of_many(rt, alloc, 10)
    } else if name == "sweep of 110 plans" {
        call_sweep_of_many(rt, alloc, 110)
    } else if name == "FreeGate::enter" {
        begin(alloc);
        FreeGate.enter(rt, 0);
        end(alloc);
        Some(Answer::Done)
    } else if name == "FreeGate::leave" {
        begin(alloc);
        FreeGate.leave(rt, 0);
        end(alloc);
        Some(Answer::Done)
    } else {
        None
    }
}

// So many equal plans are swept by one worker.
fn call_sweep_of_many<R: Threads + Wait + Sync>(
    rt: &R,
    alloc: Global,
    count: usize,
) -> Option<Answer> {
    let base = sim_behind(alloc, CAVE, BOOTS.as_slice())?;
    call_sweep_of_many_on(rt, alloc, &base, count)
}

fn call_sweep_of_many_on<R: Threads + Wait + Sync>(
    rt: &R,
    alloc: Global,
    base: &Sim,
    count: usize,
) -> Option<Answer> {
    let plans = equal_plans(alloc, count)?;
    begin(alloc);
    let outcomes = sweep(rt, alloc, base, plans.as_slice(), 1, &FreeGate);
    end(alloc);
    Some(Answer::of_call(outcomes.ok()?.len() == count))
}

fn equal_plans(alloc: Global, count: usize) -> Option<Vec<Plan>> {
    let mut plans = Vec::new(alloc);
    for _ in 0..count {
        plans.push(plan_of(alloc, DOWN.as_slice())?).ok()?;
    }
    Some(plans)
}

// Five plans are swept by two workers.
fn call_sweep<R: Threads + Wait + Sync>(rt: &R, alloc: Global) -> Option<Answer> {
    let mut base = sim_behind(alloc, CAVE, BOOTS.as_slice())?;
    call_sweep_on(rt, alloc, &mut base)
}

fn call_sweep_on<R: Threads + Wait + Sync>(
    rt: &R,
    alloc: Global,
    base: &mut Sim,
) -> Option<Answer> {
    let kept = Kept::of(alloc, base)?;
    let answer = call_sweep_of_five(rt, alloc, base)?;
    Some(match kept.changed(alloc, base) {
        None => answer,
        Some(what) => Answer::Changed(what),
    })
}

fn call_sweep_of_five<R: Threads + Wait + Sync>(
    rt: &R,
    alloc: Global,
    base: &Sim,
) -> Option<Answer> {
    let plans = plans(alloc)?;
    Some(call_sweep_of_plans(rt, alloc, base, plans.as_slice()))
}

fn call_sweep_of_plans<R: Threads + Wait + Sync>(
    rt: &R,
    alloc: Global,
    base: &Sim,
    plans: &[Plan],
) -> Answer {
    begin(alloc);
    let outcomes = sweep(rt, alloc, base, plans, 2, &FreeGate);
    end(alloc);
    match outcomes {
        Ok(outcomes) => Answer::of_call(are_right(outcomes.as_slice())),
        Err(SweepFault::OutOfMemory) => Answer::Refused,
        Err(_) => Answer::Changed("fault"),
    }
}
