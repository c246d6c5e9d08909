//! The workers of a sweep: threads, each with a branch of the base.

ghost use Rattle.std.specs.Prelude.{⊤, ◌≡◌, ◌<◌, ℕ, length, map, All, Some, IfOk, IfErr, OnOk, slice_get, slice_index_or};
ghost use Rattle.std.specs.Option.{option_map};
ghost use Rattle.rh_outcomes.specs.Outcomes.{outcome_of};
ghost use Rattle.rh_plans.specs.Workers.{AreWorkers};
ghost use Rattle.rh_outcomes.specs.Sweeping.{HasRoom, MaySweep, WhyNotSwept};
ghost use Rattle.rh_sweep.specs.Working.{AreOutcomes, EachOf, IsAtBase};

use crate::branch::{Branch, Inside};
use crate::shares::{in_plan_order, why_not_swept};
use rh_base::OutOfMemory;
use rh_plans::{Outcome, Plan, SweepFault};
use rh_trail::Sim;
use std::alloc::Global;
use std::sync::Wait;
use std::thread;
use std::thread::Threads;

/// What is called round each plan, by the worker that tries it. It may wait, as for another worker, and has no part in the
/// outcomes. That a worker is at work beside another is never sure: where no thread can be made, they work in turn, and a
/// gate that waits for another worker waits for ever.
pub trait Gate {
    // It was entered for the plan of this number. An implementation may say what that comes to.
    ghost entered: { Self → ℕ → Type 0 } = { λ gate plan. ⊤ };

    // It was entered for this plan, and then left.
    ghost left: { Self → ℕ → Type 0 } = { λ gate plan. ⊤ };

    /// Before the plan of this number is tried, counted from 0.
    fn enter<R: Wait>(&self, rt: &R, plan: usize)
        ensures { entered self.now plan };

    /// After it was tried.
    fn leave<R: Wait>(&self, rt: &R, plan: usize)
        ensures { entered self.now plan → left self.now plan };
}

/// A gate at which nobody waits.
#[derive(Clone, Copy)]
pub struct FreeGate;

impl Gate for FreeGate {
    fn enter<R: Wait>(&self, _rt: &R, _plan: usize) {}

    fn leave<R: Wait>(&self, _rt: &R, _plan: usize) {}
}

/// The outcomes of the plans, in their order, each tried from the base.
///
/// Worker w of k takes the plans w, w + k, w + 2k and so on, in order, on its own copy of the base's state, in a thread of its own
/// where one can be made; otherwise its work runs before or after another's. Each plan is tried between entering the gate for it
/// and leaving. The outcomes depend neither on the number of workers nor on the gate. The call returns when all workers have
/// ended.
///
/// # Errors
/// The first of these that applies: `WorkerCount` unless there are 1 to 16 workers, `BaseNotAtEnd` if the base has steps
/// that could be made again, `TrailRoom` if some plan's events and the base's are more than a trail can hold, and
/// `OutOfMemory`.
pub fn sweep<R: Threads + Wait + Sync, G: Gate + Sync>(
    rt: &R,
    alloc: Global,
    base: &Sim,
    plans: &[Plan],
    workers: usize,
    gate: &G,
) -> Result<Vec<Outcome>, SweepFault>
    ensures outcomes { IfOk result
        (λ outcomes. outcomes.items ≡ map (outcome_of base.now.seen) plans.now) }
    ensures left { OnOk result ((n : ℕ) → n < length plans.now → G.left gate.now n) }
    ensures fine { OnOk result (MaySweep base.now.seen plans.now workers) }
    ensures fault { IfErr result (WhyNotSwept base.now.seen plans.now workers) }
{
    let parts = parts_of(rt, alloc, base, plans, workers, gate)?;
    match in_plan_order(alloc, base, plans, parts) {
        Ok(outcomes) => Ok(outcomes),
        Err(OutOfMemory) => Err(SweepFault::OutOfMemory),
    }
}

// What each worker made: that of number w has the outcomes of its plans, each of which was tried inside the gate.
fn parts_of<R: Threads + Wait + Sync, G: Gate + Sync>(
    rt: &R,
    alloc: Global,
    base: &Sim,
    plans: &[Plan],
    workers: usize,
    gate: &G,
) -> Result<Vec<Result<Vec<Outcome>, OutOfMemory>>, SweepFault>
    ensures count { IfOk result (λ parts. length parts.items ≡ workers) }
    ensures outcomes { IfOk result
        (λ parts. (w : ℕ) (d : _) → w < workers → IfOk (slice_index_or parts.items w d)
        (λ outcomes. AreOutcomes base.now.seen plans.now workers w outcomes.items)) }
    ensures left { IfOk result (λ parts. (w : ℕ) (d : _) → w < workers → OnOk
        (slice_index_or parts.items w d) (EachOf (G.left gate.now) (length plans.now) workers w)) }
    ensures fine { OnOk result (MaySweep base.now.seen plans.now workers) }
    ensures fault { IfErr result (WhyNotSwept base.now.seen plans.now workers) }
{
    if let Some(fault) = why_not_swept(base, plans, workers) {
        return Err(fault);
    }
    let parts = thread::map_indices(
        rt,
        alloc,
        workers,
        &|first| { work(rt, alloc, base, plans, workers, first, gate) },
    );
    match parts {
        Ok(parts) => Ok(parts),
        Err(_) => Err(SweepFault::OutOfMemory),
    }
}

// The outcomes of one worker's plans, in order, on a branch of the base. A worker without plans needs none.
fn work<R: Wait, G: Gate>(
    rt: &R,
    alloc: Global,
    base: &Sim,
    plans: &[Plan],
    workers: usize,
    first: usize,
    gate: &G,
) -> Result<Vec<Outcome>, OutOfMemory>
    requires workers { AreWorkers workers }
    requires first { first < workers }
    requires room { All (HasRoom base.now.seen) plans.now }
    ensures outcomes { IfOk result
        (λ outcomes. AreOutcomes base.now.seen plans.now workers first outcomes.items) }
    ensures left { OnOk result (EachOf (G.left gate.now) (length plans.now) workers first) }
{
    let mut outcomes = Vec::new(alloc);
    if first >= plans.len() {
        return Ok(outcomes);
    }
    let mut branch = Branch::of(alloc, base)?;
    let mut number = first;
    'plans: while number < plans.len() {
        let tried = try_inside(rt, alloc, base, plans, number, gate, &mut branch);
        let outcome = tried?.share_standings(outcomes.last())?;
        outcomes.push(outcome)?;
        number += workers;
    }
    Ok(outcomes)
}

// The outcome of the plan of this number, which is tried between entering the gate for it and leaving.
fn try_inside<R: Wait, G: Gate>(
    rt: &R,
    alloc: Global,
    base: &Sim,
    plans: &[Plan],
    number: usize,
    gate: &G,
    branch: &mut Branch,
) -> Result<Outcome, OutOfMemory>
    requires at { IsAtBase branch.old base.now }
    requires number { number < length plans.now }
    requires room { All (HasRoom base.now.seen) plans.now }
    ensures outcome { IfOk result (λ outcome.
        Some outcome ≡ option_map (outcome_of base.now.seen) (slice_get plans.now number)) }
    ensures at { OnOk result (IsAtBase branch.new base.now) }
    ensures left { G.left gate.now number }
{
    let inside = Inside::enter(rt, gate, number);
    let tried = inside.try_plan(alloc, base, plans, branch);
    inside.leave(rt, gate);
    tried
}
