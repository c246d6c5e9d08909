//! When time may pass, and how much.

ghost use Rattle.std.specs.Prelude.{◌≡◌, ◌++◌, IfOk, OnOk};
ghost use Rattle.rh_otp_explore.specs.Due.{due_of, dues_at, dues_in, dues, sooner, earliest, ms_to, tick_to, wait_in, event_in};

use rh_base::OutOfMemory;
use rh_explore::Move;
use rh_otp_report::{NodeReport, NodeTimer, Report};
use rh_rules::Event;
use std::alloc::Global;

// When a timer is due.
fn due_of(timer: NodeTimer) -> u64
    ensures { result ≡ due_of timer }
{
    match timer {
        NodeTimer::Sync(due) | NodeTimer::Failover(_, due) => due,
    }
}

// Adds when the timers of a node are due.
fn push_dues(found: &mut Vec<u64>, report: &NodeReport) -> Result<(), OutOfMemory>
    ensures { OnOk result (found.new.items ≡ found.old.items ++ dues_at report.now) }
{
    for timer in report.timers.as_slice() {
        found.push(due_of(*timer))?;
    }
    Ok(())
}

// When all timers of nodes are due.
fn dues_in(alloc: Global, nodes: &[NodeReport]) -> Result<Vec<u64>, OutOfMemory>
    ensures { IfOk result (λ found. found.items ≡ dues_in nodes.now) }
{
    let mut found = Vec::new(alloc);
    for report in nodes {
        push_dues(&mut found, report)?;
    }
    Ok(found)
}

/// When all timers are due that are told, in milliseconds: also those that start nothing any more, since OTP never cancels them.
pub(crate) fn dues(alloc: Global, report: &Report) -> Result<Vec<u64>, OutOfMemory>
    ensures { IfOk result (λ found. found.items ≡ dues report.now) }
{
    dues_in(alloc, report.nodes.as_slice())
}

// The sooner of two times.
fn sooner(due: u64, other: Option<u64>) -> Option<u64>
    ensures { result ≡ sooner due other }
{
    match other {
        None => Some(due),
        Some(other) => Some(if due < other { due } else { other }),
    }
}

// The first of these times.
fn earliest(dues: &[u64]) -> Option<u64>
    ensures { result ≡ earliest dues.now }
{
    let mut first = None;
    for index in (0..dues.len()).rev() {
        first = sooner(dues[index], first);
    }
    first
}

/// How long it takes until then, in milliseconds: one at least.
pub(crate) fn ms_to(now: u64, due: u64) -> u64
    ensures { result ≡ ms_to now due }
{
    due.saturating_sub(now).max(1)
}

/// So long time passes.
pub(crate) fn tick_to(now: u64, due: u64) -> Event
    ensures { result ≡ tick_to now due }
{
    Event::Tick {
        ms: ms_to(now, due),
    }
}

// The tick to the next timer that is told, if one is.
fn wait_in(alloc: Global, report: &Report) -> Result<Option<Event>, OutOfMemory>
    ensures { IfOk result (λ event. event ≡ wait_in report.now) }
{
    let dues = dues(alloc, report)?;
    match earliest(dues.as_slice()) {
        Some(due) => Ok(Some(tick_to(report.time, due))),
        None => Ok(None),
    }
}

/// The event that a move is, if it is one, by what is told of live nodes: to wait is a tick to the next timer that is told.
pub(crate) fn event_in(
    alloc: Global,
    report: &Report,
    may: Move,
) -> Result<Option<Event>, OutOfMemory>
    ensures { IfOk result (λ event. event ≡ event_in report.now may) }
{
    match may {
        Move::Make(event) => Ok(Some(event)),
        Move::Wait => wait_in(alloc, report),
    }
}
