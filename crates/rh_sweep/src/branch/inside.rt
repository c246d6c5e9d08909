//! A worker that is inside a gate.

ghost use Rattle.std.specs.Prelude.{◌≡◌, ◌<◌, length, All, IfOk, OnOk, Some, slice_get};
ghost use Rattle.std.specs.Option.{option_map};
ghost use Rattle.rh_outcomes.specs.Outcomes.{outcome_of};
ghost use Rattle.rh_outcomes.specs.Sweeping.{HasRoom};
ghost use Rattle.rh_sweep.specs.Working.{IsAtBase};

use super::Branch;
use crate::workers::Gate;
use rh_base::OutOfMemory;
use rh_plans::{Outcome, Plan};
use rh_trail::Sim;
use std::alloc::Global;
use std::sync::Wait;

/// That a worker has entered a gate for a plan and hasn't left it. It is made by entering alone, can't be dropped or copied,
/// and goes where the worker leaves.
pub(crate) struct Inside {
    // The plan's number.
    plan: usize,
}

impl Inside {
    /// Enters a gate for the plan of this number.
    pub(crate) fn enter<R: Wait, G: Gate>(rt: &R, gate: &G, plan: usize) -> Inside
        ensures entered { G.entered gate.now plan }
        ensures plan { result.plan ≡ plan }
    {
        gate.enter(rt, plan);
        Inside { plan }
    }

    /// The outcome of the plan for which the gate was entered, after which the branch is where its base is, as before.
    pub(crate) fn try_plan(
        &self,
        alloc: Global,
        base: &Sim,
        plans: &[Plan],
        branch: &mut Branch,
    ) -> Result<Outcome, OutOfMemory>
        requires at { IsAtBase branch.old base.now }
        requires plan { self.now.plan < length plans.now }
        requires room { All (HasRoom base.now.seen) plans.now }
        ensures outcome { IfOk result (λ outcome. Some outcome
            ≡ option_map (outcome_of base.now.seen) (slice_get plans.now self.now.plan)) }
        ensures at { OnOk result (IsAtBase branch.new base.now) }
    {
        branch.try_plan(alloc, base, &plans[self.plan])
    }

    /// Leaves the gate.
    pub(crate) fn leave<R: Wait, G: Gate>(self, rt: &R, gate: &G)
        requires { G.entered gate.now self.plan }
        ensures { G.left gate.now self.plan }
    {
        let Inside { plan } = self;
        gate.leave(rt, plan);
    }
}
