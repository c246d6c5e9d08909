//! A search by the caller alone.

ghost use Rattle.std.specs.Prelude.{◌≡◌, ◌<◌, ◌+◌, [], length, IfOk, OnOk, IfSome, IfNone};
ghost use Rattle.rh_state.specs.Stored.{read};
ghost use Rattle.rh_trace.specs.Validity.{IsValid};
ghost use Rattle.rh_explore.specs.Families.{children, IsFamily};
ghost use Rattle.rh_explore.specs.Kept.{IsFrontOf, IsEndedFor, IsKeptFor, IsUnderWayFor};
ghost use Rattle.rh_explore.specs.Workers.{IsIdle};

use crate::bounds::Covered;
use crate::families::{Family, Front};
use crate::search::Search;
use crate::space::Space;
use crate::watch::Watch;
use crate::worker::Worker;
use rh_base::OutOfMemory;
use std::alloc::Global;

/// All states that a search finds, and which lists of events were looked at. What comes of a state is kept before the next one is
/// expanded, so that it is known then what the states before led to, and one worker's memory serves all.
pub(crate) fn find_alone<W: Watch>(
    watch: &mut W,
    alloc: Global,
    search: &Search,
) -> Result<(Space, Covered), OutOfMemory>
    requires { IsValid (read search.now.base.now) }
    ensures kept { IfOk result (λ found. IsKeptFor search.now found.0) }
    ensures ended { IfOk result (λ found. IsEndedFor search.now found.0 found.1) }
{
    let mut space = Space::of(alloc, search)?;
    let mut front = Front::of(alloc, search.base.copy(alloc)?)?;
    let mut worker = Worker::of(alloc);
    'families: while let Some(family) = front.families.pop_front() {
        space.tell(watch);
        if let Some(covered) = space.take_family(alloc, search, &mut front, &mut worker, family)? {
            return Ok((space, covered));
        }
    }
    Ok((space, Covered::All))
}

impl Space {
    // Expands the states of a family, which come next, and keeps what comes of each. If the search ends there, it answers how far it came.
    fn take_family(
        &mut self,
        alloc: Global,
        search: &Search,
        front: &mut Front,
        worker: &mut Worker,
        family: Family,
    ) -> Result<Option<Covered>, OutOfMemory>
        requires kept { IsKeptFor search.now self.old }
        requires under_way { IsUnderWayFor search.now self.old front.old.next }
        requires family { IsFamily family }
        requires front { IsFrontOf search.now self.old front.old (children search.now.pick family) }
        requires idle { IsIdle worker.old }
        requires entered { worker.old.entered.edits.items ≡ [] }
        ensures kept { OnOk result (IsKeptFor search.now self.new) }
        ensures next { IfOk result
            (λ end. IfNone end (front.new.next ≡ front.old.next + length family.events.items)) }
        ensures under_way { IfOk result
            (λ end. IfNone end (IsUnderWayFor search.now self.new front.new.next)) }
        ensures front { IfOk result
            (λ end. IfNone end (IsFrontOf search.now self.new front.new [])) }
        ensures ended { IfOk result (λ end. IfSome end (IsEndedFor search.now self.new)) }
        ensures idle { OnOk result (IsIdle worker.new) }
        ensures entered { OnOk result (worker.new.entered.edits.items ≡ []) }
    {
        let Family { state, events } = family;
        let mut state = Box::into_inner(state);
        'events: for event in events.as_slice() {
            let expansion = worker.expand(alloc, search, &self.known_so_far(), &mut state, *event)?;
            if let Some(covered) = self.take_one(alloc, search, front, expansion)? {
                return Ok(Some(covered));
            }
        }
        Ok(None)
    }
}
