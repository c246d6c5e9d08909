//! A base without its past, on which a worker tries plans.

ghost use Rattle.std.specs.Prelude.{◌≡◌, true, IfOk, OnOk};
ghost use Rattle.rh_trail.specs.SimView.{SimView};
ghost use Rattle.rh_outcomes.specs.Outcomes.{outcome_of};
ghost use Rattle.rh_outcomes.specs.Sweeping.{HasRoom};

mod alone;
mod inside;

use crate::standing::standings_in;
use crate::steps::Steps;
use crate::trial::try_events;
pub use alone::sweep_alone;
pub(crate) use inside::Inside;
use rh_base::OutOfMemory;
use rh_plans::{Outcome, Plan, Standings};
use rh_state::{Edit, State, rewind};
use rh_step::{Event, Notice, Pick, Refusal, perform, refusal_of};
use rh_trail::Sim;
use std::alloc::Global;
use std::mem;

/// So many edits are kept to take a plan back, which take 2 MiB.
const EDIT_LIMIT: usize = 65_536;

/// A copy of a base's state, on which plans are tried one after the other, without what the base keeps for undo.
#[derive(Drop)]
pub(crate) struct Branch {
    pick: Pick,
    state: State,
    // What the plan that is tried has changed.
    edits: Vec<Edit>,
    // Whether that was too much to be kept.
    dropped: bool,
    // A list for the notices of an event. What stands in it says nothing: it is kept for its room alone, which is then not asked
    // for again at each event of each plan.
    notices: Vec<Notice>,
}

impl Branch {
    ghost use Rattle.rh_sweep.specs.Working.{IsAtBase, IsBranch};

    /// A branch of this base, which is where the base is.
    pub(crate) fn of(alloc: Global, base: &Sim) -> Result<Branch, OutOfMemory>
        ensures { IfOk result (λ branch. IsAtBase branch base.now) }
    {
        Ok(Branch {
            pick: base.pick(),
            state: base.state().copy(alloc)?,
            edits: Vec::new(alloc),
            dropped: false,
            notices: Vec::new(alloc),
        })
    }

    // The outcome of a plan, after which the branch is where its base is, as it was before. A worker beside others tries its
    // plans inside a gate alone (`Inside::try_plan`).
    fn try_plan(&mut self, alloc: Global, base: &Sim, plan: &Plan) -> Result<Outcome, OutOfMemory>
        requires at { IsAtBase self.old base.now }
        requires room { HasRoom base.now.seen plan.now }
        ensures outcome { IfOk result (λ outcome. outcome ≡ outcome_of base.now.seen plan.now) }
        ensures at { OnOk result (IsAtBase self.new base.now) }
    {
        // The base's words are those of its state.
        base.is_chained();
        let mut notices = mem::replace(&mut self.notices, Vec::new(alloc));
        let tried = try_events(alloc, self, plan.events.as_slice(), &mut notices);
        self.notices = notices;
        let outcome = tried?;
        self.go_back(alloc, base)?;
        Ok(outcome)
    }

    // Goes back to the base: takes the kept edits back, or copies the base's state again.
    fn go_back(&mut self, alloc: Global, base: &Sim) -> Result<(), OutOfMemory>
        requires { (s : SimView) × IsBranch self.old base.now s }
        ensures { OnOk result (IsAtBase self.new base.now) }
    {
        if self.dropped {
            return self.copy_again(alloc, base);
        }
        rewind(&mut self.edits, 0, &mut self.state);
        Ok(())
    }

    // Copies the base's state again, for a branch that can't be taken back.
    fn copy_again(&mut self, alloc: Global, base: &Sim) -> Result<(), OutOfMemory>
        requires dropped { self.old.dropped ≡ true }
        requires pick { self.old.pick ≡ base.now.seen.pick }
        ensures { OnOk result (IsAtBase self.new base.now) }
    {
        self.state = base.state().copy(alloc)?;
        self.edits.clear();
        self.dropped = false;
        Ok(())
    }
}

impl Steps for Branch {
    ghost use Rattle.rh_sweep.specs.Working.{IsBranch};

    ghost stands = { IsBranch };

    fn advance(
        &mut self,
        alloc: Global,
        event: Event,
        notices: &mut Vec<Notice>,
    ) -> Result<(), Refusal> {
        if let Some(refusal) = refusal_of(&self.state, &event) {
            return Err(refusal);
        }
        notices.clear();
        let made = perform(
            alloc,
            &mut self.state,
            &event,
            self.pick,
            &mut self.edits,
            notices,
        );
        if made.is_err() {
            return Err(Refusal::OutOfMemory);
        }
        if self.dropped || self.edits.len() > EDIT_LIMIT {
            self.edits.clear();
            self.dropped = true;
        }
        Ok(())
    }

    fn standings(&self, alloc: Global) -> Result<Standings, OutOfMemory> {
        standings_in(alloc, &self.state)
    }
}
