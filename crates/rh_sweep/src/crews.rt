//! The crews that there are: the caller alone, and threads.

ghost use denote.Param.Send.{IsSync};
ghost use Rattle.std.specs.Prelude.{◌≡◌, ⊤};

use crate::branch::sweep_alone;
use crate::workers::{FreeGate, sweep};
use rh_outcomes::Crew;
use rh_plans::{Outcome, Plan, SweepFault};
use rh_trail::Sim;
use std::alloc::Global;
use std::sync::Wait;
use std::thread::Threads;

/// The caller as the only worker. It waits for nobody.
#[derive(Clone, Copy)]
pub struct Alone;

impl Crew for Alone {
    ghost ready = { λ crew. ⊤ };

    ghost workers = { λ crew. 1 };

    fn sweep(&self, alloc: Global, base: &Sim, plans: &[Plan]) -> Result<Vec<Outcome>, SweepFault> {
        sweep_alone(alloc, base, plans)
    }
}

/// Workers in threads of a host, for which it waits.
#[derive(Drop)]
pub struct Threaded<'a, T> {
    host: &'a T,
    workers: usize,
}

impl<'a, T> Threaded<'a, T> {
    /// So many of this host.
    pub fn new(host: &'a T, workers: usize) -> Threaded<'a, T>
        ensures { result.workers ≡ workers }
    {
        Threaded { host, workers }
    }
}

impl<T: Threads + Wait + Sync> Crew for Threaded<'_, T> {
    // Threads may share the host.
    ghost ready = { λ crew. IsSync T.row };

    ghost workers = { λ crew. crew.workers };

    fn sweep(&self, alloc: Global, base: &Sim, plans: &[Plan]) -> Result<Vec<Outcome>, SweepFault> {
        sweep(self.host, alloc, base, plans, self.workers, &FreeGate)
    }
}
