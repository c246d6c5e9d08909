//! What a search found, as text.

ghost use Rattle.std.specs.Prelude.{◌≡◌, ◌++◌, OnOk, IfOk};
ghost use Rattle.std.specs.List.{flat_map, list_any, list_all};
ghost use Rattle.std.specs.String.{string_bytes};
ghost use Rattle.rh_otp_explore_text.specs.FoundText.{head_line, fails_text, asked_text, is_held, is_left, last_line, found_text, found_end};

use rh_base::OutOfMemory;
use rh_cluster::Cluster;
use rh_explore_text::{is_unfinished, push_down, push_events, push_steps};
use rh_otp_explore::{Asked, Failure, LiveExplored};
use rh_otp_text::report_text;
use rh_run::Told;
use std::alloc::Global;

// The first line: how many lists were tried, and within which bounds.
#[tactic(auto, unfolding(crate::specs::FoundText::head_line))]
fn head_line(
    alloc: Global,
    cluster: &Cluster,
    down: usize,
    found: &LiveExplored,
) -> Result<String, OutOfMemory>
    ensures { IfOk result (λ text. string_bytes text ≡ head_line cluster.now down found.now) }
{
    let lists = found.lists;
    let mut text = format!(in alloc; "explored {lists} lists")?;
    push_steps(&mut text, found.covered)?;
    push_down(&mut text, cluster, down)?;
    text.push_str("\n")?;
    Ok(text)
}

// Adds the list of events behind which what is asked doesn't hold, and the report at its end.
fn push_fails(
    alloc: Global,
    text: &mut Vec<u8>,
    cluster: &Cluster,
    failure: &Failure,
) -> Result<(), OutOfMemory>
    ensures { OnOk result (text.new.items ≡ text.old.items ++ fails_text cluster.now failure.now) }
{
    let count = failure.events.len();
    let line = format!(in alloc; "fails in {count}\n")?;
    text.extend_from_slice(line.as_bytes())?;
    push_events(alloc, text, cluster, failure.events.as_slice())?;
    let report = report_text(alloc, cluster, &failure.report)?;
    text.extend_from_slice(report.as_bytes())?;
    Ok(())
}

// Adds what is known of an ask.
fn push_asked(
    alloc: Global,
    text: &mut Vec<u8>,
    cluster: &Cluster,
    asked: &Asked,
) -> Result<(), OutOfMemory>
    ensures { OnOk result (text.new.items ≡ text.old.items ++ asked_text cluster.now asked.now) }
{
    match &asked.first {
        None => {
            text.extend_from_slice(b"holds\n".as_slice())?;
            Ok(())
        }
        Some(failure) => push_fails(alloc, text, cluster, failure),
    }
}

// Adds what is known of all asks.
fn push_all_asked(
    alloc: Global,
    text: &mut Vec<u8>,
    cluster: &Cluster,
    all: &[Asked],
) -> Result<(), OutOfMemory>
    ensures { OnOk result
        (text.new.items ≡ text.old.items ++ flat_map (asked_text cluster.now) all.now) }
{
    for asked in all {
        push_asked(alloc, text, cluster, asked)?;
    }
    Ok(())
}

// Did what is asked hold behind all lists that were tried?
fn is_held(asked: &Asked) -> bool
    ensures { result ≡ is_held asked.now }
{
    asked.first.is_none()
}

// Did one of these?
fn is_one_held(all: &[Asked]) -> bool
    ensures { result ≡ list_any is_held all.now }
{
    all.iter().any(|asked| is_held(asked))
}

// Did all of these?
fn are_all_held(all: &[Asked]) -> bool
    ensures { result ≡ list_all is_held all.now }
{
    all.iter().all(|asked| is_held(asked))
}

/// Is an ask left of which it can't be said whether it holds behind all lists of at most so many events?
pub(crate) fn is_left(steps: u32, found: &LiveExplored) -> bool
    ensures { result ≡ is_left steps found.now }
{
    is_unfinished(steps, found.covered) && is_one_held(found.asked.as_slice())
}

// Adds that one is, if one is.
fn push_last(text: &mut Vec<u8>, steps: u32, found: &LiveExplored) -> Result<(), OutOfMemory>
    ensures { OnOk result (text.new.items ≡ text.old.items ++ last_line steps found.now) }
{
    if is_left(steps, found) {
        text.extend_from_slice(b"unfinished\n".as_slice())?;
    }
    Ok(())
}

/// Adds what a search found.
pub(crate) fn push_found(
    alloc: Global,
    text: &mut Vec<u8>,
    cluster: &Cluster,
    down: u64,
    steps: u32,
    found: &LiveExplored,
) -> Result<(), OutOfMemory>
    ensures { OnOk result
        (text.new.items ≡ text.old.items ++ found_text cluster.now down steps found.now) }
{
    let head = head_line(alloc, cluster, down as usize, found)?;
    text.extend_from_slice(head.as_bytes())?;
    push_all_asked(alloc, text, cluster, found.asked.as_slice())?;
    push_last(text, steps, found)
}

/// The fault that this tells: something that is asked fails, or else it can't be said of all lists of at most so many events.
pub(crate) fn found_end(steps: u32, found: &LiveExplored) -> Option<Told>
    ensures { result ≡ found_end steps found.now }
{
    if !are_all_held(found.asked.as_slice()) {
        return Some(Told::Differs);
    }
    if is_left(steps, found) {
        return Some(Told::Unfinished);
    }
    None
}
