//! The line of a plan with what came of it, and the one of a sweep that is refused.

ghost use Rattle.std.specs.Prelude.{◌≡◌, ◌++◌, OnOk, IfOk};
ghost use Rattle.rh_calls.specs.declared.call.Reply.TheVariants as reply;
ghost use Rattle.rh_script.specs.Answers.{answer_text};
ghost use Rattle.rh_json_lines.specs.OutcomeLines.{accepted_json, count_json, counts_json, event_json, refused_event_json, ends_json, outcome_line, sweep_fault_line};

use crate::clusters::refused_line;
use crate::standings::push_standings;
use rh_base::{OutOfMemory, Str};
use rh_calls::Reply;
use rh_cluster::Cluster;
use rh_json_text::{after_first, before_first, push_number, push_string, push_text};
use rh_plans::{Outcome, SweepFault};
use rh_rules::Refusal;
use rh_script::answer_text;
use std::alloc::Global;

// Adds the name of a plan, and how many of its events were accepted.
#[tactic(auto, unfolding(crate::specs::OutcomeLines::accepted_json))]
fn push_accepted(
    alloc: Global,
    out: &mut Vec<u8>,
    name: &Str,
    outcome: &Outcome,
) -> Result<(), OutOfMemory>
    ensures { OnOk result (out.new.items ≡ out.old.items ++ accepted_json name.now outcome.now) }
{
    push_text(out, "{\"plan\":")?;
    push_string(out, name.as_str().as_bytes())?;
    push_text(out, ",\"accepted\":")?;
    push_number(alloc, out, outcome.accepted as u128)
}

// Adds what was counted, behind its key, which begins with a comma.
fn push_count(alloc: Global, out: &mut Vec<u8>, key: &str, count: u128) -> Result<(), OutOfMemory>
    ensures { OnOk result (out.new.items ≡ out.old.items ++ count_json key.now count) }
{
    push_text(out, key)?;
    push_number(alloc, out, count)
}

// Adds what was counted in it.
#[tactic(auto, unfolding(crate::specs::OutcomeLines::counts_json))]
fn push_counts(alloc: Global, out: &mut Vec<u8>, outcome: &Outcome) -> Result<(), OutOfMemory>
    ensures { OnOk result (out.new.items ≡ out.old.items ++ counts_json outcome.now) }
{
    push_count(alloc, out, ",\"failovers\":", outcome.failovers)?;
    push_count(alloc, out, ",\"takeovers\":", outcome.takeovers)
}

// What a run answers to an event that is refused.
fn refusal_text(alloc: Global, cluster: &Cluster, refusal: Refusal) -> Result<Vec<u8>, OutOfMemory>
    ensures { IfOk result (λ text. text.items ≡ answer_text cluster.now (reply.Refused refusal)) }
{
    answer_text(alloc, cluster, &Reply::Refused(refusal))
}

// Adds the event of this place, counted from 0, which was refused.
#[tactic(auto, unfolding(crate::specs::OutcomeLines::event_json))]
fn push_event(
    alloc: Global,
    out: &mut Vec<u8>,
    cluster: &Cluster,
    place: usize,
    refusal: Refusal,
) -> Result<(), OutOfMemory>
    ensures { OnOk result (out.new.items ≡ out.old.items ++ event_json cluster.now place refusal) }
{
    let answer = refusal_text(alloc, cluster, refusal)?;
    push_count(alloc, out, ",\"refused\":{\"event\":", place as u128 + 1)?;
    push_text(out, ",\"answer\":")?;
    push_string(out, before_first(answer.as_slice(), b'\n'))?;
    push_text(out, "}")
}

// Adds the refused event, if one was refused.
fn push_refused(
    alloc: Global,
    out: &mut Vec<u8>,
    cluster: &Cluster,
    refused: Option<(usize, Refusal)>,
) -> Result<(), OutOfMemory>
    ensures { OnOk result
        (out.new.items ≡ out.old.items ++ refused_event_json cluster.now refused) }
{
    match refused {
        None => Ok(()),
        Some((place, refusal)) => push_event(alloc, out, cluster, place, refusal),
    }
}

// Adds where each distributed application stands at its end, and the end of the line.
#[tactic(auto, unfolding(crate::specs::OutcomeLines::ends_json))]
fn push_ends(out: &mut Vec<u8>, cluster: &Cluster, outcome: &Outcome) -> Result<(), OutOfMemory>
    ensures { OnOk result (out.new.items ≡ out.old.items ++ ends_json cluster.now outcome.now) }
{
    push_text(out, ",\"applications\":")?;
    push_standings(out, cluster, outcome.standings.as_slice())?;
    push_text(out, "}\n")
}

/// The line of the plan of this name, with its outcome.
#[tactic(auto, unfolding(crate::specs::OutcomeLines::outcome_line))]
pub fn outcome_line(
    alloc: Global,
    cluster: &Cluster,
    name: &Str,
    outcome: &Outcome,
) -> Result<Vec<u8>, OutOfMemory>
    ensures { IfOk result (λ line. line.items ≡ outcome_line cluster.now name.now outcome.now) }
{
    let mut line = Vec::new(alloc);
    push_accepted(alloc, &mut line, name, outcome)?;
    push_counts(alloc, &mut line, outcome)?;
    push_refused(alloc, &mut line, cluster, outcome.refused)?;
    push_ends(&mut line, cluster, outcome)?;
    Ok(line)
}

/// The line of a sweep that is refused.
pub fn sweep_fault_line(alloc: Global, fault: SweepFault) -> Result<Vec<u8>, OutOfMemory>
    ensures { IfOk result (λ line. line.items ≡ sweep_fault_line fault) }
{
    let words = format!(in alloc; "{fault}")?;
    refused_line(alloc, words.as_str())
}
