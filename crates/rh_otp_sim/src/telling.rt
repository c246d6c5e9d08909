//! What is told of a command.

ghost use Rattle.std.specs.Prelude.{◌≡◌, IfOk};
ghost use Rattle.std.specs.List.{list_any, filter_map};
ghost use Rattle.rh_otp_sim.specs.Telling.{verdict_in, is_end_of, has_ended, told_with, answer_from, answer_told, answer_of, answered_line, line_of, lines_of};

use crate::lines::{Answer, Line};
use crate::verdict::{Verdict, verdict_of, weightier};
use rh_base::OutOfMemory;
use rh_model::Node;
use rh_otp_model::Event;
use rh_otp_system::{Call, Stage};
use std::alloc::Global;

// What a call was answered, if it was.
pub(crate) fn verdict_in(call: &Call) -> Option<Verdict>
    ensures { result ≡ verdict_in call.now }
{
    match call.stage {
        Stage::Done(outcome) => Some(verdict_of(call.ask, outcome)),
        _ => None,
    }
}

// Is it the end of the node?
fn is_end_of(node: Node, event: Event) -> bool
    ensures { result ≡ is_end_of node event }
{
    match event {
        Event::Ended(other) => other.0 == node.0,
        _ => false,
    }
}

// Has the node ended?
pub(crate) fn has_ended(events: &[Event], node: Node) -> bool
    ensures { result ≡ has_ended node events.now }
{
    events.iter().any(|event| is_end_of(node, *event))
}

// With one verdict more.
fn told_with(told: Option<Verdict>, verdict: Verdict) -> Verdict
    ensures { result ≡ told_with told verdict }
{
    match told {
        Some(one) => weightier(one, verdict),
        None => verdict,
    }
}

// The answer, where so much is told.
fn answer_told(told: Option<Verdict>) -> Answer
    ensures { result ≡ answer_told told }
{
    match told {
        Some(verdict) => Answer::Told(verdict),
        None => Answer::Told(Verdict::Done),
    }
}

/// The answer of all these calls together that were made behind the one of this number.
pub fn answer_of(calls: &[Call], before: u32) -> Answer
    ensures { result ≡ answer_of before calls.now }
{
    let mut told = None;
    for call in calls {
        if call.number > before {
            let Some(verdict) = verdict_in(call) else {
                return Answer::NoAnswer;
            };
            told = Some(told_with(told, verdict));
        }
    }
    answer_told(told)
}

// The line of the call of this number, if it was answered.
fn answered_line(calls: &[Call], number: u32) -> Option<Line>
    ensures { result ≡ answered_line number calls.now }
{
    for call in calls {
        if call.number == number {
            let verdict = verdict_in(call)?;
            return Some(Line::Answered(call.ask, call.node, call.app, verdict));
        }
    }
    None
}

// The line of an event, if it has one.
fn line_of(events: &[Event], calls: &[Call], before: u32, event: Event) -> Option<Line>
    ensures { result ≡ line_of events.now calls.now before event }
{
    match event {
        Event::Up(node) => Some(Line::Up(node)),
        Event::Ended(node) => Some(Line::Ended(node)),
        Event::Started(app, node, kind) => Some(Line::Started(app, node, kind)),
        Event::Stopped(app, node) if !has_ended(events, node) => Some(Line::Stopped(app, node)),
        Event::Failed(app, node, fault) => Some(Line::Failed(app, node, fault)),
        Event::Answered(number) if number <= before => answered_line(calls, number),
        _ => None,
    }
}

/// The lines of what has happened, where the last command made the calls behind the one of this number.
pub fn lines_of(
    alloc: Global,
    events: &[Event],
    calls: &[Call],
    before: u32,
) -> Result<Vec<Line>, OutOfMemory>
    ensures { IfOk result (λ lines. lines.items ≡ lines_of events.now calls.now before) }
{
    let mut lines = Vec::new(alloc);
    for event in events {
        if let Some(line) = line_of(events, calls, before, *event) {
            lines.push(line)?;
        }
    }
    Ok(lines)
}
