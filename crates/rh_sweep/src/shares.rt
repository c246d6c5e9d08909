//! How plans are shared out among workers, and their outcomes put together.

ghost use Rattle.std.specs.Prelude.{◌≡◌, ◌<◌, ◌↔◌, ℕ, length, map, All, IsTrue, IsOk, slice_index_or, IfOk, IfSome, IfNone, OnOk, Some};
ghost use Rattle.rh_outcomes.specs.Outcomes.{outcome_of};
ghost use Rattle.rh_outcomes.specs.Sweeping.{HasRoom, IsAtEnd, MaySweep, WhyNotSwept};
ghost use Rattle.rh_sweep.specs.Working.{AreOutcomes, given};

use rh_base::OutOfMemory;
use rh_plans::{MAX_WORKERS, Outcome, Plan, SweepFault};
use rh_trail::Sim;
use std::alloc::Global;
use std::collections::VecDeque;

/// Why so many workers can't sweep these plans from the base, if they can't.
pub(crate) fn why_not_swept(base: &Sim, plans: &[Plan], workers: usize) -> Option<SweepFault>
    ensures none { IfNone result (MaySweep base.now.seen plans.now workers) }
    ensures some { IfSome result (WhyNotSwept base.now.seen plans.now workers) }
{
    if workers == 0 || workers > MAX_WORKERS {
        return Some(SweepFault::WorkerCount);
    }
    if base.cursor() < base.trail().len() {
        return Some(SweepFault::BaseNotAtEnd);
    }
    if !have_room(base, plans) {
        return Some(SweepFault::TrailRoom);
    }
    None
}

// Has the base's trail room for each of these plans?
fn have_room(base: &Sim, plans: &[Plan]) -> bool
    requires { IsAtEnd base.now.seen }
    ensures { IsTrue result ↔ All (HasRoom base.now.seen) plans.now }
{
    let room = Sim::TRAIL_LIMIT - base.trail().len();
    for plan in plans {
        if plan.events.len() > room {
            return false;
        }
    }
    true
}

/// The outcomes of all workers, in the order of the plans. Worker w of k has those of the plans w, w + k, w + 2k and so on.
/// Each outcome is moved, so that it lies in memory once.
pub(crate) fn in_plan_order(
    alloc: Global,
    base: &Sim,
    plans: &[Plan],
    parts: Vec<Result<Vec<Outcome>, OutOfMemory>>,
) -> Result<Vec<Outcome>, OutOfMemory>
    requires some { 0 < length parts.items }
    requires parts { (w : ℕ) (d : _) → w < length parts.items → IfOk (slice_index_or parts.items w
        d) (λ outcomes. AreOutcomes base.now.seen plans.now (length parts.items) w outcomes.items) }
    ensures outcomes { IfOk result
        (λ outcomes. outcomes.items ≡ map (outcome_of base.now.seen) plans.now) }
    ensures whole { OnOk result (All IsOk parts.items) }
{
    // Only the contract speaks of the base.
    let _ = base;
    let mut turns = turns_of(alloc, parts)?;
    let mut outcomes = Vec::with_capacity(alloc, plans.len())?;
    for _number in 0..plans.len() {
        let mut part = turns.pop_front().unwrap();
        outcomes.push(part.pop_front().unwrap())?;
        turns.push_back(part)?;
    }
    Ok(outcomes)
}

// The outcomes of each worker, to be taken from the first on, unless some worker lacked memory.
fn turns_of(
    alloc: Global,
    parts: Vec<Result<Vec<Outcome>, OutOfMemory>>,
) -> Result<VecDeque<VecDeque<Outcome>>, OutOfMemory>
    ensures { IfOk result
        (λ turns. map (λ turn. Some turn.items) turns.items ≡ map given parts.items) }
{
    let mut turns = VecDeque::with_capacity(alloc, parts.len())?;
    for part in parts {
        turns.push_back(VecDeque::from(part?))?;
    }
    Ok(turns)
}
