//! An event that is made to be taken back.

ghost use Rattle.std.specs.Prelude.{◌≡◌, [], None, OnOk};
ghost use Rattle.rh_base.specs.Exchanges.{back, AllBack};
ghost use Rattle.rh_state.specs.Edits.{exchange};
ghost use Rattle.rh_state.specs.Records.{CanGoBack, LedBy};
ghost use Rattle.rh_state.specs.Stored.{read};
ghost use Rattle.rh_rules.specs.Refusals.{refused};
ghost use Rattle.rh_trace.specs.Validity.{IsValid};
ghost use Rattle.rh_step.specs.Runs.{step};

use rh_base::OutOfMemory;
use rh_state::{Edit, State, rewind};
use rh_step::{Event, Notice, Pick, perform};
use std::alloc::Global;

/// An event that is made in a state and taken back.
#[derive(Drop)]
pub(crate) struct Trial {
    // What the event has changed, or nothing. Like the notices, the edits of the next one are kept in the same memory.
    pub(crate) edits: Vec<Edit>,
    // What it told, which nobody reads.
    notices: Vec<Notice>,
}

impl Trial {
    /// No event is made yet.
    pub(crate) fn of(alloc: Global) -> Trial
        ensures { result.edits.items ≡ [] }
    {
        Trial {
            edits: Vec::new(alloc),
            notices: Vec::new(alloc),
        }
    }

    /// Makes an event that isn't refused.
    #[tactic(auto, unfolding(rh_step::specs::Runs::step), using(crate::proofs::Stepped::cluster_kept))]
    pub(crate) fn make(
        &mut self,
        alloc: Global,
        state: &mut State,
        event: &Event,
        pick: Pick,
    ) -> Result<(), OutOfMemory>
        requires accepted { refused (read state.old) event.now ≡ None }
        requires valid { IsValid (read state.old) }
        requires none { self.old.edits.items ≡ [] }
        ensures state { OnOk result (read state.new ≡ step pick (read state.old) event.now) }
        ensures valid { OnOk result (IsValid (read state.new)) }
        ensures cluster { OnOk result ((read state.new).cluster ≡ (read state.old).cluster) }
        ensures led { OnOk result (LedBy state.old self.new.edits.items state.new) }
    {
        self.notices.clear();
        perform(
            alloc,
            state,
            event,
            pick,
            &mut self.edits,
            &mut self.notices,
        )
    }

    /// Takes back what was made.
    pub(crate) fn take_back(&mut self, state: &mut State)
        requires { AllBack exchange CanGoBack state.old self.old.edits.items }
        ensures state { state.new ≡ back exchange state.old self.old.edits.items }
        ensures none { self.new.edits.items ≡ [] }
    {
        rewind(&mut self.edits, 0, state);
    }

    /// Forgets what was made, whose state isn't needed any more.
    pub(crate) fn forget(&mut self)
        ensures { self.new.edits.items ≡ [] }
    {
        self.edits.clear();
    }
}
