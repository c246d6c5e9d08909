//! What the events of a plan are made on, one after the other.

ghost use Rattle.std.specs.Prelude.{◌≡◌, ◌≢◌, ◌<◌, IfOk, IfErr, OnOk, OnErr};
ghost use Rattle.rh_trail.specs.Lone.{served, answered, with_event, trail_limit};
ghost use Rattle.rh_trail.specs.SimView.{SimView, Held, state_of};
ghost use Rattle.rh_calls.specs.declared.call.Call.TheVariants as call;
ghost use Rattle.rh_calls.specs.declared.call.Reply.TheVariants as reply;
ghost use Rattle.rh_outcomes.specs.Outcomes.{standings_in};

use crate::standing::standings_in;
use rh_base::OutOfMemory;
use rh_plans::Standings;
use rh_step::{Event, Notice, Refusal};
use rh_trail::Sim;
use std::alloc::Global;

/// A simulation, or a branch of one.
pub(crate) trait Steps {
    // It went on from the first simulation, and is where the second is.
    ghost stands: { Self → Held → SimView → Type 0 };

    /// Makes an event, and gives its notices in order, in place of those that are there. A refused one changes nothing else.
    /// The list is the caller's, so that a plan has one for all its events.
    fn advance(
        &mut self,
        alloc: Global,
        event: Event,
        notices: &mut Vec<Notice>,
    ) -> Result<(), Refusal>
        requires { (base : Held) × (s : SimView) × stands self.old base s }
        ensures done { OnOk result ((base : Held) (s : SimView) → stands self.old base s → s.cursor
            < trail_limit → (served s (call.Step event) ≡ answered (reply.Done notices.new.items)
            (with_event s event)) × stands self.new base (with_event s event)) }
        ensures refused { IfErr result (λ refusal. refusal ≢ Refusal.OutOfMemory
            → (base : Held) (s : SimView) → stands self.old base s
            → served s (call.Step event) ≡ answered (reply.Refused refusal) s) }
        ensures kept { OnErr result
            ((base : Held) (s : SimView) → stands self.old base s → stands self.new base s) };

    /// Where the distributed applications stand.
    fn standings(&self, alloc: Global) -> Result<Standings, OutOfMemory>
        ensures { IfOk result (λ standings. (base : Held) (s : SimView) → stands self.now base s
            → standings ≡ standings_in (state_of s)) };
}

impl Steps for Sim {
    ghost use Rattle.rh_sweep.specs.Working.{WentOn};

    ghost stands = { WentOn };

    fn advance(
        &mut self,
        alloc: Global,
        event: Event,
        notices: &mut Vec<Notice>,
    ) -> Result<(), Refusal> {
        match self.step(alloc, event) {
            Ok(told) => {
                *notices = told;
                Ok(())
            }
            Err(refusal) => Err(refusal),
        }
    }

    fn standings(&self, alloc: Global) -> Result<Standings, OutOfMemory> {
        standings_in(alloc, self.state())
    }
}
