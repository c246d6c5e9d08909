//! All lists of events that may come, tried one after the other.

ghost use Rattle.std.specs.Prelude.{◌≡◌, IfOk, OnOk};
ghost use Rattle.rh_otp_report.specs.Report.{report_of};
ghost use Rattle.rh_otp_explore.specs.Due.{event_in};
ghost use Rattle.rh_otp_explore.specs.Listing.{level, next_by, scope_of};
ghost use Rattle.rh_otp_explore.specs.Tallying.{all_tallied};

use crate::due::event_in;
use crate::stand::Stand;
use crate::tally::Tally;
use rh_base::OutOfMemory;
use rh_explore::Move;
use rh_rules::Event;
use std::alloc::Global;

/// What may happen, how many nodes may not be up behind each event, and how many lists are tried at most.
#[derive(Clone, Copy)]
pub(crate) struct Bounds<'a> {
    pub(crate) moves: &'a [Move],
    pub(crate) down: usize,
    pub(crate) states: usize,
}

// The event that a move is behind a list, and the live nodes behind it, if it may come.
fn next_by(
    alloc: Global,
    stand: &Stand,
    may: Move,
    down: usize,
) -> Result<Option<(Event, Stand)>, OutOfMemory>
    ensures { IfOk result
        (λ next. next ≡ next_by down stand.now (event_in (report_of stand.now) may)) }
{
    let Some(event) = event_in(alloc, &stand.report, may)? else {
        return Ok(None);
    };
    match stand.after(alloc, event, down)? {
        Some(next) => Ok(Some((event, next))),
        None => Ok(None),
    }
}

/// Tries all lists that are longer by so many events than the one that led here, unless it is over before.
pub(crate) fn try_longer(
    alloc: Global,
    bounds: Bounds,
    stand: &Stand,
    events: &mut Vec<Event>,
    left: u8,
    tally: &mut Tally,
) -> Result<(), OutOfMemory>
    ensures events { OnOk result (events.new.items ≡ events.old.items) }
    ensures tally { OnOk result (tally.new ≡ all_tallied bounds.entry.states tally.old (level
        (scope_of bounds.entry) left (record { events = events.old.items; sim = stand.now }))) }
{
    if tally.is_over(bounds.states) {
        return Ok(());
    }
    if left == 0 {
        return tally.take(alloc, bounds.states, stand, events.as_slice());
    }
    for may in bounds.moves {
        if let Some((event, next)) = next_by(alloc, stand, *may, bounds.down)? {
            events.push(event)?;
            try_longer(alloc, bounds, &next, events, left - 1, tally)?;
            events.pop();
        }
    }
    Ok(())
}
