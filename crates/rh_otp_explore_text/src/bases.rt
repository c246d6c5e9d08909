//! The base of a search: its commands, given to live nodes, and what they are answered.

ghost use Rattle.std.specs.Prelude.{List, ℕ, ◌≡◌, ◌+◌, ◌++◌, ◌∷◌, map, None, IfOk, OnOk};
ghost use Rattle.rh_json.specs.RunJson.{asked_in};
ghost use Rattle.rh_otp_json.specs.LiveJson.{answer_line, answer_lines};
ghost use Rattle.rh_otp_run.specs.Laws.{answers_text};
ghost use Rattle.rh_otp_sim.specs.Calls.{made_by, reply_to};
ghost use Rattle.rh_otp_sim.specs.Laws.{behind};
ghost use Rattle.rh_otp_text.specs.Replies.{reply_text};
ghost use Rattle.rh_script.specs.Commands.{line_of};
ghost use Rattle.rh_script.specs.Lines.{raw_lines, content};
ghost use Rattle.rh_explore_text.specs.SearchLines.{search_lines_asked, bad_search_line, search_of};
ghost use Rattle.rh_otp_explore_text.specs.Bases.{calls_in, base_json, GoesOn};

use rh_base::OutOfMemory;
use rh_calls::Call;
use rh_explore_text::search_base_is_answered;
use rh_otp_json_lines::reply_line;
use rh_otp_sim::LiveSim;
use rh_otp_text::reply_text;
use rh_script::{Line, content, line_of, split_line};
use std::alloc::Global;

// Gives a call to live nodes, and adds the answer.
fn push_answer(
    alloc: Global,
    text: &mut Vec<u8>,
    sim: &mut LiveSim,
    call: Call,
) -> Result<(), OutOfMemory>
    ensures sim { OnOk result (sim.new ≡ made_by call sim.old) }
    ensures text { OnOk result (text.new.items
        ≡ text.old.items ++ reply_text (made_by call sim.old) (reply_to call sim.old)) }
{
    let reply = sim.answer(alloc, call)?;
    let answer = reply_text(alloc, sim, &reply)?;
    text.extend_from_slice(answer.as_bytes())?;
    Ok(())
}

/// Gives calls to live nodes, one after the other, and adds the answers.
pub(crate) fn push_answers(
    alloc: Global,
    text: &mut Vec<u8>,
    sim: &mut LiveSim,
    calls: &[Call],
) -> Result<(), OutOfMemory>
    ensures sim { OnOk result (sim.new ≡ behind calls.now sim.old) }
    ensures text { OnOk result
        (text.new.items ≡ text.old.items ++ answers_text sim.old calls.now) }
{
    for call in calls {
        push_answer(alloc, text, sim, *call)?;
    }
    Ok(())
}

// Gives the call of a line, which has this number, to live nodes, and adds the line with the answer.
#[tactic(auto, using(rh_otp_run::proofs::Keeping::call_keeps_cluster))]
fn push_reply(
    alloc: Global,
    out: &mut Vec<u8>,
    sim: &mut LiveSim,
    number: u64,
    line: &[u8],
    call: Call,
) -> Result<(), OutOfMemory>
    ensures sim { OnOk result (sim.new ≡ made_by call sim.old) }
    ensures cluster { OnOk result (sim.new.cluster ≡ sim.old.cluster) }
    ensures out { OnOk result
        (out.new.items ≡ out.old.items ++ answer_line sim.old number line.now call) }
{
    let reply = sim.answer(alloc, call)?;
    let text = reply_line(alloc, sim, number, line, &reply)?;
    out.extend_from_slice(text.as_slice())?;
    Ok(())
}

// Adds the line of a command with its answer, if it is one. Is it one that a run takes?
fn push_line(
    alloc: Global,
    out: &mut Vec<u8>,
    sim: &mut LiveSim,
    number: u64,
    line: &[u8],
) -> Result<bool, OutOfMemory>
    ensures goes_on { IfOk result (λ on. (lines : List (List ℕ)) → GoesOn on sim.old.cluster
        sim.old sim.new number line.now lines out.old.items out.new.items) }
    ensures cluster { OnOk result (sim.new.cluster ≡ sim.old.cluster) }
{
    match line_of(alloc, sim.cluster(), line)? {
        Line::Nothing => Ok(true),
        Line::Asks(call) => {
            push_reply(alloc, out, sim, number, line, call)?;
            Ok(true)
        }
        Line::Bad => Ok(false),
    }
}

// Gives the commands of lines to live nodes, up to the first line that is none, and adds the lines with their answers.
fn push_lines(
    alloc: Global,
    out: &mut Vec<u8>,
    sim: &mut LiveSim,
    script: &[u8],
) -> Result<(), OutOfMemory>
    ensures sim { OnOk result (sim.new ≡ behind (calls_in
        (asked_in sim.old.cluster 1 (map content (raw_lines script.now)))) sim.old) }
    ensures out { OnOk result (out.new.items
        ≡ out.old.items ++ base_json sim.old (map content (raw_lines script.now))) }
{
    let mut rest = script;
    let mut number: u64 = 1;
    'lines: while !rest.is_empty() {
        let (line, after) = split_line(rest);
        if !push_line(alloc, out, sim, number, content(line))? {
            return Ok(());
        }
        rest = after;
        number += 1;
    }
    Ok(())
}

/// Gives the commands of the base to live nodes, and adds the lines with their answers: those before the first line that a run takes for
/// no command.
pub(crate) fn push_base(
    alloc: Global,
    out: &mut Vec<u8>,
    sim: &mut LiveSim,
    script: &[u8],
) -> Result<(), OutOfMemory>
    requires fits { bad_search_line
        (search_lines_asked sim.old.cluster (map content (raw_lines script.now))) ≡ None }
    ensures sim { OnOk result (sim.new ≡ behind (search_of sim.old.cluster
        (search_lines_asked sim.old.cluster (map content (raw_lines script.now)))).base sim.old) }
    ensures out { OnOk result (out.new.items
        ≡ out.old.items ++ base_json sim.old (map content (raw_lines script.now))) }
{
    search_base_is_answered();
    push_lines(alloc, out, sim, script)
}
