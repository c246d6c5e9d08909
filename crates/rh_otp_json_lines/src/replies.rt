//! The line of a command with the answer of live nodes.

ghost use Rattle.std.specs.Prelude.{◌≡◌, ◌++◌, OnOk, IfOk};
ghost use Rattle.rh_json_lines.specs.AnswerLines.{first_line};
ghost use Rattle.rh_json_text.specs.Json.{json_string};
ghost use Rattle.rh_otp_text.specs.Replies.{reply_text};
ghost use Rattle.rh_otp_json_lines.specs.Replies.{answered_error, happened_json, seen_json, more_json, reply_line};

use crate::calls::push_error_in;
use crate::notices::push_notices;
use crate::reports::push_report;
use rh_base::OutOfMemory;
use rh_json_lines::{push_command, push_ok};
use rh_json_text::{before_first, push_string, push_text};
use rh_model::Cluster;
use rh_otp_report::report_of;
use rh_otp_sim::{Answer, Happened, LiveReply, LiveSim, Outcome};
use rh_otp_text::reply_text;
use std::alloc::Global;

// Adds the first line of an answer's text.
fn push_first_line(
    alloc: Global,
    out: &mut Vec<u8>,
    sim: &LiveSim,
    reply: &LiveReply,
) -> Result<(), OutOfMemory>
    ensures { OnOk result (out.new.items
        ≡ out.old.items ++ json_string (first_line (reply_text sim.now reply.now))) }
{
    let answer = reply_text(alloc, sim, reply)?;
    push_string(out, before_first(answer.as_bytes(), b'\n'))
}

// Adds the first line of an answer. The report isn't made as text, of which nothing would be told.
#[tactic(auto, unfolding(rh_otp_text::specs::Replies::reply_text))]
fn push_answer(
    alloc: Global,
    out: &mut Vec<u8>,
    sim: &LiveSim,
    reply: &LiveReply,
) -> Result<(), OutOfMemory>
    ensures { OnOk result (out.new.items
        ≡ out.old.items ++ json_string (first_line (reply_text sim.now reply.now))) }
{
    match reply {
        LiveReply::Seen => push_ok(out),
        _ => push_first_line(alloc, out, sim, reply),
    }
}

// Adds the error alone, where the answer to a command is one.
fn push_answered_error(
    alloc: Global,
    out: &mut Vec<u8>,
    cluster: &Cluster,
    answer: Answer,
) -> Result<(), OutOfMemory>
    ensures { OnOk result (out.new.items ≡ out.old.items ++ answered_error cluster.now answer) }
{
    match answer {
        Answer::Told(verdict) => push_error_in(alloc, out, cluster, verdict),
        Answer::NoAnswer => Ok(()),
    }
}

// Adds what has happened at a step.
fn push_happened(
    alloc: Global,
    out: &mut Vec<u8>,
    cluster: &Cluster,
    happened: &Happened,
) -> Result<(), OutOfMemory>
    ensures { OnOk result
        (out.new.items ≡ out.old.items ++ happened_json cluster.now happened.now) }
{
    push_answered_error(alloc, out, cluster, happened.answer)?;
    push_text(out, ",\"notices\":")?;
    push_notices(alloc, out, cluster, happened.lines.as_slice())
}

// Adds the report of the state.
fn push_seen(alloc: Global, out: &mut Vec<u8>, sim: &LiveSim) -> Result<(), OutOfMemory>
    ensures { OnOk result (out.new.items ≡ out.old.items ++ seen_json sim.now) }
{
    let report = report_of(alloc, sim)?;
    push_text(out, ",\"report\":")?;
    push_report(
        alloc,
        out,
        sim.cursor(),
        sim.steps(),
        sim.cluster(),
        &report,
    )
}

// Adds what follows the answer.
fn push_more(
    alloc: Global,
    out: &mut Vec<u8>,
    sim: &LiveSim,
    reply: &LiveReply,
) -> Result<(), OutOfMemory>
    ensures { OnOk result (out.new.items ≡ out.old.items ++ more_json sim.now reply.now) }
{
    match reply {
        LiveReply::Step(Outcome::Done(happened)) => {
            push_happened(alloc, out, sim.cluster(), happened)
        }
        LiveReply::Seen => push_seen(alloc, out, sim),
        _ => Ok(()),
    }
}

/// The line of a command of this number, with its answer, where the simulation is this behind it.
#[tactic(auto, unfolding(crate::specs::Replies::reply_line, rh_json_lines::specs::AnswerLines::head_json))]
pub fn reply_line(
    alloc: Global,
    sim: &LiveSim,
    number: u64,
    command: &[u8],
    reply: &LiveReply,
) -> Result<Vec<u8>, OutOfMemory>
    ensures { IfOk result
        (λ line. line.items ≡ reply_line sim.now number command.now reply.now) }
{
    // As much as most lines take.
    let mut line = Vec::with_capacity(alloc, 1_024)?;
    push_command(alloc, &mut line, number, command)?;
    push_answer(alloc, &mut line, sim, reply)?;
    push_more(alloc, &mut line, sim, reply)?;
    push_text(&mut line, "}\n")?;
    Ok(line)
}
