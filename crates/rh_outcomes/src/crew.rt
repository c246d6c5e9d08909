//! Who tries the plans of a sweep.

ghost use Rattle.std.specs.Prelude.{◌≡◌, ℕ, map, IfOk, IfErr, OnOk};
ghost use Rattle.rh_outcomes.specs.Outcomes.{outcome_of};
ghost use Rattle.rh_outcomes.specs.Sweeping.{MaySweep, WhyNotSwept};

use rh_plans::{Outcome, Plan, SweepFault};
use rh_trail::Sim;
use std::alloc::Global;

/// Some workers, who try plans. What is said of their call holds if it returns.
pub trait Crew {
    // They are in a state in which they can try plans.
    ghost ready: { Self → Type 0 };

    // How many they are.
    ghost workers: { Self → ℕ };

    /// The outcomes of the plans, in their order, each tried from the base.
    fn sweep(&self, alloc: Global, base: &Sim, plans: &[Plan]) -> Result<Vec<Outcome>, SweepFault>
        requires { ready self.now }
        ensures outcomes { IfOk result
            (λ outcomes. outcomes.items ≡ map (outcome_of base.now.seen) plans.now) }
        ensures fine { OnOk result (MaySweep base.now.seen plans.now (workers self.now)) }
        ensures fault { IfErr result (WhyNotSwept base.now.seen plans.now (workers self.now)) };
}
