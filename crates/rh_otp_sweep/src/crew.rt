//! Who tries plans on live nodes.

ghost use denote.Param.Send.{IsSync};
ghost use Rattle.std.specs.Prelude.{⊤, ◌≡◌, ◌<◌, ℕ, map, IfOk, IfErr, OnOk};
ghost use Rattle.rh_otp_sweep.specs.Outcomes.{outcome_of};
ghost use Rattle.rh_otp_sweep.specs.Sweeping.{MaySweep, WhyNotSwept};

use crate::outcome::LiveOutcome;
use crate::sharing::{joined, share, why_not_swept};
use crate::trial::outcomes_of;
use rh_base::OutOfMemory;
use rh_otp_sim::LiveSim;
use rh_plans::{Plan, SweepFault};
use std::alloc::Global;
use std::thread;
use std::thread::Threads;

/// Some workers, who try plans on live nodes. What is said of their call holds if it returns.
pub trait Crew {
    // They are in a state in which they can try plans.
    ghost ready: { Self → Type 0 };

    // How many they are.
    ghost workers: { Self → ℕ };

    /// The outcomes of the plans, in their order, each tried from the base.
    ///
    /// # Errors
    /// The first of these that applies: `WorkerCount` unless there are 1 to 16 workers, `BaseNotAtEnd` if the base has steps that
    /// could be made again, `TrailRoom` if some plan's events and the base's steps are more than 65,535, and `OutOfMemory`.
    fn sweep(
        &self,
        alloc: Global,
        base: &LiveSim,
        plans: &[Plan],
    ) -> Result<Vec<LiveOutcome>, SweepFault>
        requires { ready self.now }
        ensures outcomes { IfOk result
            (λ outcomes. outcomes.items ≡ map (outcome_of base.now) plans.now) }
        ensures fine { OnOk result (MaySweep base.now plans.now (workers self.now)) }
        ensures fault { IfErr result (WhyNotSwept base.now plans.now (workers self.now)) };
}

/// The caller as the only worker. It starts no thread.
#[derive(Clone, Copy)]
pub struct Alone;

impl Crew for Alone {
    ghost ready = { λ crew. ⊤ };

    ghost workers = { λ crew. 1 };

    fn sweep(
        &self,
        alloc: Global,
        base: &LiveSim,
        plans: &[Plan],
    ) -> Result<Vec<LiveOutcome>, SweepFault> {
        if let Some(fault) = why_not_swept(base, plans, 1) {
            return Err(fault);
        }
        match outcomes_of(alloc, base, plans) {
            Ok(outcomes) => Ok(outcomes),
            Err(OutOfMemory) => Err(SweepFault::OutOfMemory),
        }
    }
}

/// Workers in threads of a host, which get plans that stand behind one another. Where no thread can be made they work in turn.
#[derive(Drop)]
pub struct Threaded<'a, T> {
    host: &'a T,
    workers: usize,
}

impl<'a, T> Threaded<'a, T> {
    /// So many of this host.
    pub fn new(host: &'a T, workers: usize) -> Threaded<'a, T>
        ensures { result.workers ≡ workers }
    {
        Threaded { host, workers }
    }
}

impl<T: Threads + Sync> Crew for Threaded<'_, T> {
    // Threads may share the host.
    ghost ready = { λ crew. IsSync T.row };

    ghost workers = { λ crew. crew.workers };

    fn sweep(
        &self,
        alloc: Global,
        base: &LiveSim,
        plans: &[Plan],
    ) -> Result<Vec<LiveOutcome>, SweepFault> {
        if let Some(fault) = why_not_swept(base, plans, self.workers) {
            return Err(fault);
        }
        match sweep_in_threads(self.host, alloc, base, plans, self.workers) {
            Ok(outcomes) => Ok(outcomes),
            Err(OutOfMemory) => Err(SweepFault::OutOfMemory),
        }
    }
}

// The outcomes of the plans, in their order, by so many workers at most.
fn sweep_in_threads<T: Threads + Sync>(
    rt: &T,
    alloc: Global,
    base: &LiveSim,
    plans: &[Plan],
    workers: usize,
) -> Result<Vec<LiveOutcome>, OutOfMemory>
    requires { 0 < workers }
    ensures { IfOk result (λ outcomes. outcomes.items ≡ map (outcome_of base.now) plans.now) }
{
    let parts = thread::map_chunks(
        rt,
        alloc,
        plans,
        share(plans.len(), workers),
        &|_first, plans: &[Plan]| -> Result<Vec<LiveOutcome>, OutOfMemory>
            ensures { IfOk result
                (λ outcomes. outcomes.items ≡ map (outcome_of base.entry.now) plans.now) }
        { outcomes_of(alloc, base, plans) },
    )?;
    joined(alloc, parts)
}
