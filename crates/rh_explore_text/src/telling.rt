//! What a search found, as text.

ghost use Rattle.std.specs.Prelude.{◌≡◌, ◌++◌, None, All, fold, IfOk, OnOk};
ghost use Rattle.std.specs.List.{flat_map, list_any};
ghost use Rattle.std.specs.String.{string_bytes};
ghost use Rattle.rh_state.specs.Stored.{read};
ghost use Rattle.rh_trace.specs.Validity.{IsValid};
ghost use Rattle.rh_rules.specs.Refusals.{refused};
ghost use Rattle.rh_step.specs.Runs.{step};
ghost use Rattle.rh_explore_text.specs.FoundText.{steps_words, down_words, head_line, event_line, fails_text, verdict_text, found_text, last_line, is_failure, is_unfinished, found_end, AllAccepted, CanCome};

use crate::reading::Search;
use rh_base::OutOfMemory;
use rh_calls::{Call, report};
use rh_cluster::Cluster;
use rh_explore::{Covered, Explored, Verdict};
use rh_run::Told;
use rh_script::command_text;
use rh_state::State;
use rh_step::{Event, Pick, perform};
use std::alloc::Global;

/// Adds of how many events the longest lists are of which all were looked at, unless they are all.
pub fn push_steps(text: &mut String, covered: Covered) -> Result<(), OutOfMemory>
    ensures { OnOk result (string_bytes text.new ≡ string_bytes text.old ++ steps_words covered) }
{
    if let Covered::UpTo(steps) = covered {
        write!(text, " up to {steps} steps")?;
    }
    Ok(())
}

/// Adds how many nodes are not up at most, unless all may be.
pub fn push_down(text: &mut String, cluster: &Cluster, down: usize) -> Result<(), OutOfMemory>
    ensures { OnOk result
        (string_bytes text.new ≡ string_bytes text.old ++ down_words cluster.now down) }
{
    if down < cluster.node_count() {
        write!(text, " up to {down} down")?;
    }
    Ok(())
}

// The first line: how many states were found, and within which bounds.
#[tactic(auto, unfolding(crate::specs::FoundText::head_line))]
fn head_line(
    alloc: Global,
    cluster: &Cluster,
    down: usize,
    found: &Explored,
) -> Result<String, OutOfMemory>
    ensures { IfOk result (λ text. string_bytes text ≡ head_line cluster.now down found.now) }
{
    let states = found.states;
    let deepest = found.deepest;
    let mut text = format!(in alloc; "explored {states} states deepest {deepest}")?;
    push_steps(&mut text, found.covered)?;
    push_down(&mut text, cluster, down)?;
    text.push_str("\n")?;
    Ok(text)
}

// Adds an event as a command.
#[tactic(auto, unfolding(crate::specs::FoundText::event_line))]
fn push_event(
    alloc: Global,
    text: &mut Vec<u8>,
    cluster: &Cluster,
    event: Event,
) -> Result<(), OutOfMemory>
    ensures { OnOk result (text.new.items ≡ text.old.items ++ event_line cluster.now event) }
{
    let command = command_text(alloc, cluster, Call::Step(event))?;
    text.extend_from_slice(command.as_bytes())?;
    text.push(b'\n')?;
    Ok(())
}

/// Adds events as commands.
pub fn push_events(
    alloc: Global,
    text: &mut Vec<u8>,
    cluster: &Cluster,
    events: &[Event],
) -> Result<(), OutOfMemory>
    ensures { OnOk result
        (text.new.items ≡ text.old.items ++ flat_map (event_line cluster.now) events.now) }
{
    'events: for event in events {
        push_event(alloc, text, cluster, *event)?;
    }
    Ok(())
}

// Makes an event that isn't refused.
#[tactic(auto, unfolding(rh_step::specs::Runs::step))]
fn make(alloc: Global, state: &mut State, pick: Pick, event: &Event) -> Result<(), OutOfMemory>
    requires accepted { refused (read state.old) event.now ≡ None }
    requires valid { IsValid (read state.old) }
    ensures state { OnOk result (read state.new ≡ step pick (read state.old) event.now) }
    ensures valid { OnOk result (IsValid (read state.new)) }
{
    let mut edits = Vec::new(alloc);
    let mut notices = Vec::new(alloc);
    perform(alloc, state, event, pick, &mut edits, &mut notices)
}

// The state behind events none of which is refused.
pub fn state_behind(
    alloc: Global,
    base: &State,
    pick: Pick,
    events: &[Event],
) -> Result<State, OutOfMemory>
    requires accepted { AllAccepted pick (read base.now) events.now }
    requires valid { IsValid (read base.now) }
    ensures { IfOk result (λ state. read state ≡ fold (step pick) (read base.now) events.now) }
{
    let mut state = base.copy(alloc)?;
    'events: for event in events {
        make(alloc, &mut state, pick, event)?;
    }
    Ok(state)
}

// Adds the list of events behind which what is asked doesn't hold, and the report at its end.
fn push_fails(
    alloc: Global,
    text: &mut Vec<u8>,
    cluster: &Cluster,
    base: &State,
    pick: Pick,
    events: &[Event],
) -> Result<(), OutOfMemory>
    requires accepted { AllAccepted pick (read base.now) events.now }
    requires valid { IsValid (read base.now) }
    ensures { OnOk result (text.new.items
        ≡ text.old.items ++ fails_text cluster.now pick (read base.now) events.now) }
{
    let count = events.len();
    let line = format!(in alloc; "fails in {count}\n")?;
    text.extend_from_slice(line.as_bytes())?;
    push_events(alloc, text, cluster, events)?;
    let state = state_behind(alloc, base, pick, events)?;
    let report = report(alloc, &state)?;
    text.extend_from_slice(report.as_slice())?;
    Ok(())
}

// Adds a verdict.
fn push_verdict(
    alloc: Global,
    text: &mut Vec<u8>,
    cluster: &Cluster,
    base: &State,
    pick: Pick,
    verdict: &Verdict,
) -> Result<(), OutOfMemory>
    requires come { CanCome pick (read base.now) verdict.now }
    requires valid { IsValid (read base.now) }
    ensures { OnOk result (text.new.items
        ≡ text.old.items ++ verdict_text cluster.now pick (read base.now) verdict.now) }
{
    match verdict {
        Verdict::Holds => {
            text.extend_from_slice(b"holds\n".as_slice())?;
            Ok(())
        }
        Verdict::Fails(events) => push_fails(alloc, text, cluster, base, pick, events.as_slice()),
    }
}

// Adds verdicts.
fn push_verdicts(
    alloc: Global,
    text: &mut Vec<u8>,
    cluster: &Cluster,
    base: &State,
    pick: Pick,
    verdicts: &[Verdict],
) -> Result<(), OutOfMemory>
    requires come { All (CanCome pick (read base.now)) verdicts.now }
    requires valid { IsValid (read base.now) }
    ensures { OnOk result (text.new.items
        ≡ text.old.items ++ flat_map (verdict_text cluster.now pick (read base.now)) verdicts.now) }
{
    'verdicts: for verdict in verdicts {
        push_verdict(alloc, text, cluster, base, pick, verdict)?;
    }
    Ok(())
}

/// Did the search end before all was looked at?
pub fn is_unfinished(steps: u32, covered: Covered) -> bool
    ensures { result ≡ is_unfinished steps covered }
{
    match covered {
        Covered::All => false,
        Covered::UpTo(whole) => whole < steps,
    }
}

// Adds that the search ended before all was looked at, if it did.
fn push_last(text: &mut Vec<u8>, steps: u32, covered: Covered) -> Result<(), OutOfMemory>
    ensures { OnOk result (text.new.items ≡ text.old.items ++ last_line steps covered) }
{
    if is_unfinished(steps, covered) {
        text.extend_from_slice(b"unfinished\n".as_slice())?;
    }
    Ok(())
}

/// Adds what a search found.
pub fn push_found(
    alloc: Global,
    text: &mut Vec<u8>,
    cluster: &Cluster,
    base: &State,
    pick: Pick,
    search: &Search,
    found: &Explored,
) -> Result<(), OutOfMemory>
    requires come { All (CanCome pick (read base.now)) found.now.verdicts.items }
    requires valid { IsValid (read base.now) }
    ensures { OnOk result (text.new.items ≡ text.old.items
        ++ found_text cluster.now pick (read base.now) search.now.down search.now.steps found.now) }
{
    let head = head_line(alloc, cluster, search.down as usize, found)?;
    text.extend_from_slice(head.as_bytes())?;
    let verdicts = found.verdicts.as_slice();
    push_verdicts(alloc, text, cluster, base, pick, verdicts)?;
    push_last(text, search.steps, found.covered)
}

// Does it say that what is asked doesn't hold?
fn is_failure(verdict: &Verdict) -> bool
    ensures { result ≡ is_failure verdict.now }
{
    matches!(verdict, Verdict::Fails(_))
}

// Does one of these say so?
fn has_failure(verdicts: &[Verdict]) -> bool
    ensures { result ≡ list_any is_failure verdicts.now }
{
    verdicts.iter().any(|verdict| is_failure(verdict))
}

/// The fault that this tells, if it does: something that is asked fails, or the search is unfinished.
pub fn found_end(steps: u32, found: &Explored) -> Option<Told>
    ensures { result ≡ found_end steps found.now }
{
    if has_failure(found.verdicts.as_slice()) {
        Some(Told::Differs)
    } else if is_unfinished(steps, found.covered) {
        Some(Told::Unfinished)
    } else {
        None
    }
}
