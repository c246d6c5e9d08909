//! Plans that are tried by the caller alone.

ghost use Rattle.std.specs.Prelude.{◌≡◌, map, All, IfOk, IfErr, OnOk};
ghost use Rattle.rh_outcomes.specs.Outcomes.{outcome_of};
ghost use Rattle.rh_outcomes.specs.Sweeping.{HasRoom, MaySweep, WhyNotSwept};

use super::Branch;
use crate::shares::why_not_swept;
use rh_base::OutOfMemory;
use rh_plans::{Outcome, Plan, SweepFault};
use rh_trail::Sim;
use std::alloc::Global;

/// The outcomes of the plans, in their order, each tried from the base: what [`crate::sweep`] gives for any number of workers.
///
/// It starts no thread, calls no gate and waits for nothing.
///
/// # Errors
/// Those of [`crate::sweep`] with one worker.
pub fn sweep_alone(alloc: Global, base: &Sim, plans: &[Plan]) -> Result<Vec<Outcome>, SweepFault>
    ensures outcomes { IfOk result
        (λ outcomes. outcomes.items ≡ map (outcome_of base.now.seen) plans.now) }
    ensures fine { OnOk result (MaySweep base.now.seen plans.now 1) }
    ensures fault { IfErr result (WhyNotSwept base.now.seen plans.now 1) }
{
    if let Some(fault) = why_not_swept(base, plans, 1) {
        return Err(fault);
    }
    match outcomes_of(alloc, base, plans) {
        Ok(outcomes) => Ok(outcomes),
        Err(OutOfMemory) => Err(SweepFault::OutOfMemory),
    }
}

// The outcomes of plans, in their order, on one branch of the base.
fn outcomes_of(alloc: Global, base: &Sim, plans: &[Plan]) -> Result<Vec<Outcome>, OutOfMemory>
    requires { All (HasRoom base.now.seen) plans.now }
    ensures { IfOk result (λ outcomes. outcomes.items ≡ map (outcome_of base.now.seen) plans.now) }
{
    let mut outcomes = Vec::new(alloc);
    let mut branch = Branch::of(alloc, base)?;
    for plan in plans {
        let outcome = branch
            .try_plan(alloc, base, plan)?
            .share_standings(outcomes.last())?;
        outcomes.push(outcome)?;
    }
    Ok(outcomes)
}
