//! What fires in a tick of a simulation.

ghost use Rattle.std.specs.Prelude.{◌≡◌, IfOk, None};
ghost use Rattle.rh_rules.specs.declared.event.Event.TheVariants.{Tick};
ghost use Rattle.rh_rules.specs.Refusals.{refused};
ghost use Rattle.rh_step.specs.Firings.{firings};
ghost use Rattle.rh_trail.specs.SimView.{state_of};

use crate::sim::Sim;
use rh_base::OutOfMemory;
use rh_step::{FiredTimer, firings_of};
use std::alloc::Global;

impl Sim {
    /// The timers that fire in a tick that isn't refused, in order, each with when it is due and what is told then. The simulation is
    /// lent: it is as before, also where memory is wanting.
    pub fn firings(&mut self, alloc: Global, ms: u64) -> Result<Vec<FiredTimer>, OutOfMemory>
        requires { refused (state_of self.old.seen) (Tick ms) ≡ None }
        ensures firings { IfOk result
            (λ fired. fired.items ≡ firings (state_of self.old.seen) ms self.old.seen.pick) }
        ensures kept { self.new ≡ self.old }
    {
        firings_of(alloc, &mut self.state, ms, self.pick)
    }
}
