//! Sweeps: two workers that are at work at once, outcomes for any number of workers, faults, and a simulation that a plan
//! leaves as it was.

use crate::support::{copy_of_state, edits_of_third, has_words, make_all, sim_on, undo};
use rh_base::Str;
use rh_calls::Reply;
use rh_cluster::{App, Node, Restart};
use rh_samples::{CAVE, ONE_NODE};
use rh_state::State;
use rh_step::Event;
use rh_sweep::{FreeGate, Gate, Outcome, Plan, SweepFault, sweep, try_plan};
use rh_trail::Sim;
use std::alloc::{AllocError, Global};
use std::process::Abort;
use std::sync::Wait;
use std::sync::atomic::{AtomicBool, AtomicU64, Ordering};
use std::thread;
use std::thread::Threads;

// The three nodes boot, and the application runs at the first.
static BOOTS: [Event; 3] = [
    Event::Boot { node: Node(0) },
    Event::Boot { node: Node(1) },
    Event::Boot { node: Node(2) },
];

// The first node ends, and stays away.
static DOWN: [Event; 2] = [Event::Crash { node: Node(0) }, Event::Tick { ms: 5_000 }];

// It ends twice.
static TWICE: [Event; 2] = [
    Event::Crash { node: Node(0) },
    Event::Crash { node: Node(0) },
];

// The second node takes the application over.
static HAND: [Event; 1] = [Event::Takeover {
    node: Node(1),
    app: App(0),
    restart: Restart::Permanent,
}];

// One millisecond passes.
static TICK: [Event; 1] = [Event::Tick { ms: 1 }];

// What comes of these plans after the boots.
static TOLD: &str = "\
accepted 2 failovers 1 takeovers 0
app 0 Running(Node(1))
accepted 1 failovers 0 takeovers 0
refused 1 S5 not_alive
app 0 Lost(Node(0))
accepted 2 failovers 1 takeovers 0
app 0 Running(Node(1))
accepted 0 failovers 0 takeovers 0
app 0 Running(Node(0))
accepted 1 failovers 0 takeovers 1
app 0 Running(Node(1))
";

// A plan of these events.
fn plan_of(alloc: Global, events: &[Event]) -> Result<Plan, AllocError> {
    let name = Str::of(String::from_str(alloc, "plan")?);
    let events = Vec::from_slice(alloc, events)?;
    Ok(Plan { name, events })
}

fn plans_of(alloc: Global, all: &[&[Event]]) -> Result<Vec<Plan>, AllocError> {
    let mut plans = Vec::new(alloc);
    for events in all {
        plans.push(plan_of(alloc, events)?)?;
    }
    Ok(plans)
}

// Five plans, the third as the first, and the fourth without events.
fn plans(rt: &impl Abort, alloc: Global) -> Vec<Plan> {
    let all = [
        DOWN.as_slice(),
        TWICE.as_slice(),
        DOWN.as_slice(),
        &[],
        HAND.as_slice(),
    ];
    plans_of(alloc, all.as_slice()).ok().expect(rt, "memory")
}

fn tell_outcome(text: &mut String, outcome: &Outcome) -> Result<(), AllocError> {
    let Outcome {
        accepted,
        failovers,
        takeovers,
        ..
    } = outcome;
    writeln!(
        text,
        "accepted {accepted} failovers {failovers} takeovers {takeovers}"
    )?;
    if let Some((number, refusal)) = outcome.refused {
        writeln!(text, "refused {number} {refusal}")?;
    }
    for (app, standing) in outcome.standings.as_slice() {
        writeln!(text, "app {} {standing:?}", app.0)?;
    }
    Ok(())
}

// The outcomes as text.
fn text_of(rt: &impl Abort, alloc: Global, outcomes: &[Outcome]) -> String {
    let mut text = String::new(alloc);
    for outcome in outcomes {
        assert!(rt; tell_outcome(&mut text, outcome).is_ok());
    }
    text
}

// A simulation in which the application runs.
fn sim_at_work(rt: &impl Abort, alloc: Global) -> Sim {
    let mut base = sim_on(rt, alloc, CAVE);
    make_all(rt, alloc, &mut base, BOOTS.as_slice());
    base
}

// Two workers wait for one another here, each before its first plan, for so many turns at most.
#[derive(Drop)]
struct Meeting {
    turns: u32,
    first: AtomicBool,
    second: AtomicBool,
    missed: AtomicU64,
}

impl Meeting {
    fn new(turns: u32) -> Meeting {
        Meeting {
            turns,
            first: AtomicBool::new(false),
            second: AtomicBool::new(false),
            missed: AtomicU64::new(0),
        }
    }

    fn meet(&self, mine: &AtomicBool, other: &AtomicBool) {
        mine.store(true, Ordering::SeqCst);
        for _ in 0..self.turns {
            if other.load(Ordering::SeqCst) {
                return;
            }
            thread::yield_now();
        }
        self.missed.fetch_add(1, Ordering::SeqCst);
    }
}

impl Gate for Meeting {
    fn enter<R: Wait>(&self, _rt: &R, plan: usize) {
        if plan == 0 {
            self.meet(&self.first, &self.second);
        } else if plan == 1 {
            self.meet(&self.second, &self.first);
        }
    }

    fn leave<R: Wait>(&self, _rt: &R, _plan: usize) {}
}

// What so many workers give at a gate.
fn outcomes_at<R: Threads + Wait + Sync, G: Gate + Sync>(
    rt: &R,
    alloc: Global,
    base: &Sim,
    plans: &[Plan],
    workers: usize,
    gate: &G,
) -> Result<Vec<Outcome>, SweepFault> {
    sweep(rt, alloc, base, plans, workers, gate)
}

// What so many workers give.
fn outcomes_by<R: Threads + Wait + Sync>(
    rt: &R,
    alloc: Global,
    base: &Sim,
    plans: &[Plan],
    workers: usize,
) -> Result<Vec<Outcome>, SweepFault> {
    outcomes_at(rt, alloc, base, plans, workers, &FreeGate)
}

fn are_told(rt: &impl Abort, alloc: Global, outcomes: &[Outcome]) {
    let text = text_of(rt, alloc, outcomes);
    assert_eq!(rt; text.as_str(), TOLD);
}

// Do two workers meet, and give what one gives?
fn meet<R: Threads + Wait + Abort + Sync>(rt: &R, alloc: Global, plans: &[Plan], gate: &Meeting) {
    let base = sim_at_work(rt, alloc);
    let outcomes = outcomes_at(rt, alloc, &base, plans, 2, gate)
        .ok()
        .expect(rt, "outcomes");
    assert!(rt; gate.missed.load(Ordering::SeqCst) == 0);
    are_told(rt, alloc, outcomes.as_slice());
}

// Does the first of two plans wait for the other in vain, where one worker has both?
fn miss<R: Threads + Wait + Abort + Sync>(rt: &R, alloc: Global, plans: &[Plan], gate: &Meeting) {
    let base = sim_at_work(rt, alloc);
    assert!(rt; outcomes_at(rt, alloc, &base, plans, 1, gate).is_ok());
    assert!(rt; gate.missed.load(Ordering::SeqCst) == 1);
}

#[test]
fn two_workers_are_at_work_at_once(rt: HostRuntime) {
    let plans = plans(&rt, rt.alloc());
    let gate = Meeting::new(10_000_000);
    meet(&rt, rt.alloc(), plans.as_slice(), &gate);
}

#[test]
fn one_worker_meets_nobody(rt: HostRuntime) {
    let plans = plans(&rt, rt.alloc());
    let gate = Meeting::new(100);
    miss(&rt, rt.alloc(), plans.as_slice(), &gate);
}

fn gives_the_same<R: Threads + Wait + Abort + Sync>(
    rt: &R,
    alloc: Global,
    base: &Sim,
    plans: &[Plan],
    workers: usize,
) {
    let outcomes = outcomes_by(rt, alloc, base, plans, workers)
        .ok()
        .expect(rt, "outcomes");
    are_told(rt, alloc, outcomes.as_slice());
}

fn give_the_same<R: Threads + Wait + Abort + Sync>(rt: &R, alloc: Global, plans: &[Plan]) {
    let base = sim_at_work(rt, alloc);
    for workers in [1, 2, 4, 16] {
        gives_the_same(rt, alloc, &base, plans, workers);
    }
}

#[test]
fn the_number_of_workers_has_no_effect(rt: HostRuntime) {
    let plans = plans(&rt, rt.alloc());
    give_the_same(&rt, rt.alloc(), plans.as_slice());
}

// Is this sweep refused so?
fn is_refused<R: Threads + Wait + Abort + Sync>(
    rt: &R,
    alloc: Global,
    base: &Sim,
    plans: &[Plan],
    workers: usize,
    want: &str,
) {
    let fault = outcomes_by(rt, alloc, base, plans, workers)
        .err()
        .expect(rt, "a fault");
    let text = format!(in alloc; "{fault}").ok().expect(rt, "memory");
    assert_eq!(rt; text.as_str(), want);
}

#[test]
fn a_sweep_has_1_to_16_workers(rt: HostRuntime) {
    let base = sim_on(&rt, rt.alloc(), ONE_NODE);
    is_refused(&rt, rt.alloc(), &base, &[], 0, "V1 worker_count");
    is_refused(&rt, rt.alloc(), &base, &[], 17, "V1 worker_count");
    assert!(rt; outcomes_by(&rt, rt.alloc(), &base, &[], 16).is_ok());
}

#[test]
fn the_base_has_a_step_to_make_again(rt: HostRuntime) {
    let mut base = sim_at_work(&rt, rt.alloc());
    assert!(rt; undo(&mut base).is_some());
    is_refused(&rt, rt.alloc(), &base, &[], 1, "V2 base_not_at_end");
}

// A simulation with a full trail.
fn sim_with_full_trail(rt: &impl Abort, alloc: Global) -> Sim {
    let mut base = sim_on(rt, alloc, ONE_NODE);
    for _ in 0..Sim::TRAIL_LIMIT {
        make_all(rt, alloc, &mut base, TICK.as_slice());
    }
    base
}

// Is a plan refused for want of room?
fn has_no_room<R: Threads + Wait + Abort + Sync>(rt: &R, alloc: Global, base: &Sim) {
    let plans = plans_of(alloc, &[TICK.as_slice()])
        .ok()
        .expect(rt, "memory");
    is_refused(rt, alloc, base, plans.as_slice(), 1, "V3 trail_room");
}

#[test]
fn the_base_has_no_room(rt: HostRuntime) {
    let base = sim_with_full_trail(&rt, rt.alloc());
    has_no_room(&rt, rt.alloc(), &base);
}

// What a look at the simulation shows.
fn reply_to_look(rt: &impl Abort, alloc: Global, sim: &Sim) -> Reply {
    sim.look(alloc).ok().expect(rt, "memory")
}

// Tries a plan.
fn outcome_of(rt: &impl Abort, alloc: Global, sim: &mut Sim, plan: &Plan) -> Outcome {
    assert!(rt; sim.cursor() == sim.trail().len());
    assert!(rt; plan.events.len() <= Sim::TRAIL_LIMIT - sim.trail().len());
    try_plan(alloc, sim, plan).ok().expect(rt, "an outcome")
}

// Tries a plan, and tells its outcome.
fn tell_trial(rt: &impl Abort, alloc: Global, sim: &mut Sim, plan: &Plan, text: &mut String) {
    let outcome = outcome_of(rt, alloc, sim, plan);
    assert!(rt; tell_outcome(text, &outcome).is_ok());
}

// Does a look at the simulation show this?
fn shows(rt: &impl Abort, alloc: Global, sim: &Sim, before: &Reply) -> bool {
    before.same(&reply_to_look(rt, alloc, sim))
}

// Has each of these plans its outcome, and leaves the simulation as it was, which had these words?
fn stays_at(rt: &impl Abort, alloc: Global, sim: &mut Sim, plans: &[Plan], words: &State) {
    let before = reply_to_look(rt, alloc, sim);
    let mut text = String::new(alloc);
    for plan in plans {
        tell_trial(rt, alloc, sim, plan, &mut text);
        assert!(rt; shows(rt, alloc, sim, &before));
        assert!(rt; has_words(sim, words));
    }
    assert_eq!(rt; text.as_str(), TOLD);
}

// Has each of these plans its outcome, and leaves it as it was?
fn stays(rt: &impl Abort, alloc: Global, sim: &mut Sim, plans: &[Plan]) {
    let words = copy_of_state(rt, alloc, sim);
    stays_at(rt, alloc, sim, plans, &words);
}

// Is the last step there to be taken back, with as many edits as before all plans?
fn keeps_its_last_step(rt: &impl Abort, alloc: Global, plans: &[Plan]) {
    let mut sim = sim_at_work(rt, alloc);
    let edits = edits_of_third(rt, &sim);
    stays(rt, alloc, &mut sim, plans);
    assert!(rt; undo(&mut sim) == Some(edits));
}

#[test]
fn a_plan_leaves_the_simulation_as_it_was(rt: HostRuntime) {
    let plans = plans(&rt, rt.alloc());
    keeps_its_last_step(&rt, rt.alloc(), plans.as_slice());
}

// The first node takes the application back.
static HAND_BACK: [Event; 1] = [Event::Takeover {
    node: Node(0),
    app: App(0),
    restart: Restart::Permanent,
}];

// The application is handed to and fro, so many times.
fn to_and_fro(alloc: Global, times: usize) -> Result<Plan, AllocError> {
    let name = Str::of(String::from_str(alloc, "plan")?);
    let mut events = Vec::new(alloc);
    for _ in 0..times {
        events.push(HAND[0])?;
        events.push(HAND_BACK[0])?;
    }
    Ok(Plan { name, events })
}

// A plan of more edits than a worker keeps, and a plan behind it.
fn long_plans(alloc: Global) -> Result<Vec<Plan>, AllocError> {
    let mut plans = Vec::new(alloc);
    plans.push(to_and_fro(alloc, 16_000)?)?;
    plans.push(plan_of(alloc, DOWN.as_slice())?)?;
    Ok(plans)
}

// How many edits the takeover has that follows the three boots.
fn edits_of_takeover(rt: &impl Abort, sim: &Sim) -> usize {
    assert!(rt; sim.trail().len() == 4);
    sim.record(3).len()
}

// Has the takeover so many edits that 32,000 of them are more than 65,536?
fn is_long(rt: &impl Abort, alloc: Global) {
    let mut sim = sim_at_work(rt, alloc);
    make_all(rt, alloc, &mut sim, HAND.as_slice());
    assert!(rt; edits_of_takeover(rt, &sim) >= 3);
}

// What each of these plans comes to on the simulation.
fn text_of_trials(rt: &impl Abort, alloc: Global, sim: &mut Sim, plans: &[Plan]) -> String {
    let mut text = String::new(alloc);
    for plan in plans {
        tell_trial(rt, alloc, sim, plan, &mut text);
    }
    text
}

// What each of them comes to, swept by one worker.
fn text_of_sweep<R: Threads + Wait + Abort + Sync>(
    rt: &R,
    alloc: Global,
    base: &Sim,
    plans: &[Plan],
) -> String {
    let outcomes = outcomes_by(rt, alloc, base, plans, 1)
        .ok()
        .expect(rt, "outcomes");
    text_of(rt, alloc, outcomes.as_slice())
}

// Has each of these plans, swept by one worker, the outcome that it has on the simulation?
fn keep_the_outcomes<R: Threads + Wait + Abort + Sync>(rt: &R, alloc: Global, plans: &[Plan]) {
    let mut sim = sim_at_work(rt, alloc);
    let text = text_of_trials(rt, alloc, &mut sim, plans);
    let swept = text_of_sweep(rt, alloc, &sim, plans);
    assert_eq!(rt; swept.as_str(), text.as_str());
}

#[test]
fn a_plan_of_more_edits_than_are_kept_is_taken_back(rt: HostRuntime) {
    is_long(&rt, rt.alloc());
    let plans = long_plans(rt.alloc()).ok().expect(&rt, "memory");
    keep_the_outcomes(&rt, rt.alloc(), plans.as_slice());
}
