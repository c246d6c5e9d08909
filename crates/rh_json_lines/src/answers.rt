//! The line of a command with its answer.

ghost use Rattle.std.specs.Prelude.{◌≡◌, ◌++◌, List, ℕ, None, OnOk, IfOk, codes};
ghost use Rattle.std.specs.Fmt.{decimal};
ghost use Rattle.std.specs.Option.{option_map};
ghost use Rattle.rh_model.specs.ClusterView.{ClusterView};
ghost use Rattle.rh_state.specs.Stored.{read};
ghost use Rattle.rh_calls.specs.declared.call.Reply.TheVariants as reply;
ghost use Rattle.rh_script.specs.Answers.{answer_text};
ghost use Rattle.rh_json_text.specs.Json.{json_string, json_array};
ghost use Rattle.rh_json_lines.specs.Notices.{notice_json, timed_notices};
ghost use Rattle.rh_json_lines.specs.Reports.{report_json};
ghost use Rattle.rh_json_lines.specs.AnswerLines.{first_line, more_json, reply_line, bad_json};

use crate::notices::push_notices;
use crate::reports::push_report;
use rh_base::OutOfMemory;
use rh_calls::Reply;
use rh_cluster::Cluster;
use rh_json_text::{before_first, push_number, push_string, push_text};
use rh_script::answer_text;
use rh_state::State;
use rh_step::{FiredTimer, Notice};
use std::alloc::Global;

// Adds the notices of a step.
fn push_told(
    alloc: Global,
    out: &mut Vec<u8>,
    cluster: &Cluster,
    notices: &[Notice],
    fired: &Option<Vec<FiredTimer>>,
) -> Result<(), OutOfMemory>
    ensures { OnOk result (out.new.items
        ≡ out.old.items ++ (codes ",\"notices\":" ++ json_array (notice_json cluster.now)
        (timed_notices notices.now (option_map (λ f. f.items) fired.now)))) }
{
    push_text(out, ",\"notices\":")?;
    push_notices(alloc, out, cluster, notices, fired)
}

// Adds a report behind so many steps, of so many.
fn push_seen(
    alloc: Global,
    out: &mut Vec<u8>,
    cursor: usize,
    trail: usize,
    state: &State,
) -> Result<(), OutOfMemory>
    ensures { OnOk result (out.new.items
        ≡ out.old.items ++ (codes ",\"report\":" ++ report_json cursor trail (read state.now))) }
{
    push_text(out, ",\"report\":")?;
    push_report(alloc, out, cursor, trail, state)
}

// Adds what follows the answer.
fn push_more(
    alloc: Global,
    out: &mut Vec<u8>,
    cluster: &Cluster,
    state: &State,
    fired: &Option<Vec<FiredTimer>>,
    reply: &Reply,
) -> Result<(), OutOfMemory>
    ensures { OnOk result (out.new.items ≡ out.old.items
        ++ more_json cluster.now (option_map (λ f. f.items) fired.now) reply.now (read state.now)) }
{
    match reply {
        Reply::Done(notices) => push_told(alloc, out, cluster, notices.as_slice(), fired),
        Reply::Seen { cursor, trail, .. } => push_seen(alloc, out, *cursor, *trail, state),
        _ => Ok(()),
    }
}

/// Adds the number of a command's line, the line, and the key of its answer.
pub fn push_command(
    alloc: Global,
    out: &mut Vec<u8>,
    number: u64,
    command: &[u8],
) -> Result<(), OutOfMemory>
    ensures { OnOk result (out.new.items ≡ out.old.items ++ (codes "{\"line\":" ++ decimal number
        ++ codes ",\"command\":" ++ json_string command.now ++ codes ",\"answer\":")) }
{
    push_text(out, "{\"line\":")?;
    push_number(alloc, out, number as u128)?;
    push_text(out, ",\"command\":")?;
    push_string(out, command)?;
    push_text(out, ",\"answer\":")
}

/// Adds the first line of the answer that a step or a report has: the word needs no escape.
#[tactic(auto, unfolding(rh_json_text::specs::Json::json_string, rh_json_text::specs::Json::escaped))]
pub fn push_ok(out: &mut Vec<u8>) -> Result<(), OutOfMemory>
    ensures { OnOk result (out.new.items ≡ out.old.items ++ json_string (codes "ok")) }
{
    push_text(out, "\"ok\"")
}

// Adds the first line of an answer that is told as it is.
fn push_told_answer(
    alloc: Global,
    out: &mut Vec<u8>,
    cluster: &Cluster,
    reply: &Reply,
) -> Result<(), OutOfMemory>
    ensures { OnOk result (out.new.items
        ≡ out.old.items ++ json_string (first_line (answer_text cluster.now reply.now))) }
{
    let answer = answer_text(alloc, cluster, reply)?;
    push_string(out, before_first(answer.as_slice(), b'\n'))
}

// Adds the first line of an answer: nothing else of an answer is written as it is. What may be long, the lines of notices and of a
// report, isn't made for it.
#[tactic(auto, unfolding(rh_script::specs::Answers::answer_text))]
fn push_answer(
    alloc: Global,
    out: &mut Vec<u8>,
    cluster: &Cluster,
    reply: &Reply,
) -> Result<(), OutOfMemory>
    ensures { OnOk result (out.new.items
        ≡ out.old.items ++ json_string (first_line (answer_text cluster.now reply.now))) }
{
    match reply {
        Reply::Done(_) | Reply::Seen { .. } => push_ok(out),
        _ => push_told_answer(alloc, out, cluster, reply),
    }
}

// The line of a command of this number, with its answer, in the state behind it.
#[tactic(auto, unfolding(crate::specs::AnswerLines::reply_line, crate::specs::AnswerLines::head_json))]
pub fn reply_line(
    alloc: Global,
    number: u64,
    command: &[u8],
    cluster: &Cluster,
    state: &State,
    fired: &Option<Vec<FiredTimer>>,
    reply: &Reply,
) -> Result<Vec<u8>, OutOfMemory>
    ensures { IfOk result (λ line. line.items ≡ reply_line cluster.now number command.now
        (option_map (λ f. f.items) fired.now) reply.now (read state.now)) }
{
    // As much as most lines take.
    let mut line = Vec::with_capacity(alloc, 1_024)?;
    push_command(alloc, &mut line, number, command)?;
    push_answer(alloc, &mut line, cluster, reply)?;
    push_more(alloc, &mut line, cluster, state, fired, reply)?;
    push_text(&mut line, "}\n")?;
    Ok(line)
}

/// The line of a command of this number that asks for the report, where so many steps stand, of so many. Nothing is told of the
/// cluster, nor of the report as text, so who has no such text needs to make none.
#[tactic(auto, unfolding(crate::specs::AnswerLines::reply_line, crate::specs::AnswerLines::head_json, rh_script::specs::Answers::answer_text))]
pub fn seen_line(
    alloc: Global,
    number: u64,
    command: &[u8],
    cursor: usize,
    trail: usize,
    state: &State,
) -> Result<Vec<u8>, OutOfMemory>
    ensures { IfOk result (λ line. (c : ClusterView) (report : List ℕ) → line.items
        ≡ reply_line c number command.now None (reply.Seen cursor trail report) (read state.now)) }
{
    // As much as most lines take.
    let mut line = Vec::with_capacity(alloc, 1_024)?;
    push_command(alloc, &mut line, number, command)?;
    push_ok(&mut line)?;
    push_seen(alloc, &mut line, cursor, trail, state)?;
    push_text(&mut line, "}\n")?;
    Ok(line)
}

// The line of one that is no command.
#[tactic(auto, unfolding(crate::specs::AnswerLines::bad_json))]
pub fn bad_line(alloc: Global, number: u64) -> Result<Vec<u8>, OutOfMemory>
    ensures { IfOk result (λ line. line.items ≡ bad_json number) }
{
    let mut line = Vec::new(alloc);
    push_text(&mut line, "{\"line\":")?;
    push_number(alloc, &mut line, number as u128)?;
    push_text(&mut line, ",\"bad\":true}\n")?;
    Ok(line)
}
