//! When plans are swept, how they are shared out among workers, and their outcomes put together.

ghost use Rattle.std.specs.Prelude.{◌≡◌, ◌≤◌, ◌*◌, ◌<◌, ◌↔◌, length, All, IsTrue, IsOk, IfOk, IfSome, IfNone, OnOk};
ghost use Rattle.std.specs.List.{flat_map};
ghost use Rattle.rh_otp_sweep.specs.Sweeping.{HasRoom, IsAtEnd, MaySweep, WhyNotSwept};
ghost use Rattle.rh_otp_sweep.specs.Working.{part_items};

use crate::outcome::LiveOutcome;
use rh_base::OutOfMemory;
use rh_otp_sim::LiveSim;
use rh_plans::{MAX_WORKERS, Plan, SweepFault};
use std::alloc::Global;
use std::collections::VecDeque;

/// So many steps there may be behind one another, as by the manual's rules.
pub const STEP_LIMIT: usize = 65_535;

/// Why so many workers can't sweep these plans from the base, if they can't.
pub(crate) fn why_not_swept(base: &LiveSim, plans: &[Plan], workers: usize) -> Option<SweepFault>
    ensures none { IfNone result (MaySweep base.now plans.now workers) }
    ensures some { IfSome result (WhyNotSwept base.now plans.now workers) }
{
    if workers == 0 || workers > MAX_WORKERS {
        return Some(SweepFault::WorkerCount);
    }
    if base.cursor() < base.steps() {
        return Some(SweepFault::BaseNotAtEnd);
    }
    if !have_room(base, plans) {
        return Some(SweepFault::TrailRoom);
    }
    None
}

// Is there room for each of these plans behind the base's steps?
fn have_room(base: &LiveSim, plans: &[Plan]) -> bool
    ensures { IsTrue result ↔ All (HasRoom base.now) plans.now }
{
    let done = base.cursor();
    for plan in plans {
        if done.saturating_add(plan.events.len()) > STEP_LIMIT {
            return false;
        }
    }
    true
}

/// How many plans each of so many workers gets, but for the last one: as few as they can share so many plans by.
pub(crate) fn share(plans: usize, workers: usize) -> usize
    requires { 0 < workers }
    ensures some { 0 < result }
    ensures all { plans ≤ result * workers }
{
    plans.saturating_sub(1) / workers + 1
}

/// What all workers made, in their order.
pub(crate) fn joined(
    alloc: Global,
    parts: Vec<Result<Vec<LiveOutcome>, OutOfMemory>>,
) -> Result<Vec<LiveOutcome>, OutOfMemory>
    ensures whole { OnOk result (All IsOk parts.items) }
    ensures all { IfOk result (λ all. all.items ≡ flat_map part_items parts.items) }
{
    let mut rest = VecDeque::from(parts);
    let mut all = Vec::new(alloc);
    'parts: while let Some(part) = rest.pop_front() {
        let mut outcomes = part?;
        all.append(&mut outcomes)?;
    }
    Ok(all)
}
