//! The events that lead to the states that were found.

ghost use Rattle.std.specs.Prelude.{◌≡◌, ◌<◌, length, slice_get, Some, IfOk};
ghost use Rattle.rh_explore.specs.Kept.{paths_of, AreLinked};

use crate::space::Found;
use rh_base::OutOfMemory;
use rh_step::Event;
use std::alloc::Global;

/// The events that lead from the base to the state of this number, the first one first.
pub(crate) fn path_to(
    alloc: Global,
    found: &[Found],
    number: usize,
) -> Result<Vec<Event>, OutOfMemory>
    requires linked { AreLinked found.now }
    requires within { number < length found.now }
    ensures { IfOk result (λ path. slice_get (paths_of found.now) number ≡ Some path.items) }
{
    let mut path = Vec::with_capacity(alloc, found[number].depth as usize)?;
    let mut at = number;
    'back: while let Some((from, event)) = found[at].last {
        path.push(event)?;
        at = from;
    }
    path.reverse();
    Ok(path)
}
