//! The texts of answers.

ghost use Rattle.std.specs.Prelude.{◌≡◌, ◌++◌, codes, OnOk, IfOk};
ghost use Rattle.std.specs.List.{flat_map};
ghost use Rattle.std.specs.String.{string_bytes};
ghost use Rattle.rh_otp_text.specs.Lines.{line_text};
ghost use Rattle.rh_otp_text.specs.Replies.{answer_line, happened_text, outcome_text, moved_text, seen_text, reply_text};

use crate::lines::{push_line, push_refusal, push_verdict};
use crate::report::report_text;
use rh_base::OutOfMemory;
use rh_calls::push_decimal;
use rh_model::Cluster;
use rh_otp_report::report_of;
use rh_otp_sim::{Answer, Happened, Line, LiveReply, LiveSim, Outcome};
use std::alloc::Global;

/// Adds the line of the answer to a command.
pub fn push_answer(text: &mut String, cluster: &Cluster, answer: Answer) -> Result<(), OutOfMemory>
    ensures { OnOk result
        (string_bytes text.new ≡ string_bytes text.old ++ answer_line cluster.now answer) }
{
    match answer {
        Answer::Told(verdict) => push_verdict(text, cluster, verdict)?,
        Answer::NoAnswer => text.push_str("no answer")?,
    }
    text.push_str("\n")?;
    Ok(())
}

// Adds these lines.
fn push_lines(text: &mut String, cluster: &Cluster, lines: &[Line]) -> Result<(), OutOfMemory>
    ensures { OnOk result (string_bytes text.new
        ≡ string_bytes text.old ++ flat_map (line_text cluster.now) lines.now) }
{
    for line in lines {
        push_line(text, cluster, *line)?;
    }
    Ok(())
}

// Adds what has happened.
fn push_happened(
    text: &mut String,
    cluster: &Cluster,
    happened: &Happened,
) -> Result<(), OutOfMemory>
    ensures { OnOk result
        (string_bytes text.new ≡ string_bytes text.old ++ happened_text cluster.now happened.now) }
{
    push_answer(text, cluster, happened.answer)?;
    push_lines(text, cluster, happened.lines.as_slice())
}

// The text of what a step comes to.
fn outcome_text(alloc: Global, cluster: &Cluster, outcome: &Outcome) -> Result<String, OutOfMemory>
    ensures { IfOk result (λ text. string_bytes text ≡ outcome_text cluster.now outcome.now) }
{
    // As much as most answers take.
    let mut text = String::with_capacity(alloc, 512)?;
    match outcome {
        Outcome::Refused(refusal) => {
            push_refusal(&mut text, cluster, *refusal)?;
            text.push_str("\n")?;
        }
        Outcome::Endless => text.push_str("endless\n")?,
        Outcome::Done(happened) => push_happened(&mut text, cluster, happened)?,
    }
    Ok(text)
}

// The text where so many steps were taken back or made again.
fn moved_text(alloc: Global, count: usize) -> Result<String, OutOfMemory>
    ensures { IfOk result (λ text. string_bytes text ≡ moved_text count) }
{
    let mut text = String::new(alloc);
    text.push_str("ok ")?;
    push_decimal(&mut text, count as u64)?;
    text.push_str("\n")?;
    Ok(text)
}

// The text of the state.
fn seen_text(alloc: Global, sim: &LiveSim) -> Result<String, OutOfMemory>
    ensures { IfOk result (λ text. string_bytes text ≡ seen_text sim.now) }
{
    let told = report_of(alloc, sim)?;
    let body = report_text(alloc, sim.cluster(), &told)?;
    let mut text = String::new(alloc);
    text.push_str("ok\n")?;
    text.push_str(body.as_str())?;
    Ok(text)
}

// A text of its own.
fn text_of(alloc: Global, words: &str) -> Result<String, OutOfMemory>
    ensures { IfOk result (λ text. string_bytes text ≡ words.now) }
{
    let mut text = String::new(alloc);
    text.push_str(words)?;
    Ok(text)
}

/// The text of an answer, where the simulation is this behind the call.
#[tactic(auto, unfolding(crate::specs::Replies::reply_text))]
pub fn reply_text(alloc: Global, sim: &LiveSim, reply: &LiveReply) -> Result<String, OutOfMemory>
    ensures { IfOk result (λ text. string_bytes text ≡ reply_text sim.now reply.now) }
{
    match reply {
        LiveReply::Step(outcome) => outcome_text(alloc, sim.cluster(), outcome),
        LiveReply::Undone | LiveReply::Redone => text_of(alloc, "ok\n"),
        LiveReply::AtStart => text_of(alloc, "refused at_start\n"),
        LiveReply::AtEnd => text_of(alloc, "refused at_end\n"),
        LiveReply::Moved(count) => moved_text(alloc, *count),
        LiveReply::Seen => seen_text(alloc, sim),
    }
}
