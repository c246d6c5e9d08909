//! What is found of the answer of live nodes to a command.

ghost use Rattle.std.specs.Prelude.{◌≡◌, ◌++◌, ◌∷◌, [], IfOk, OnOk};
ghost use Rattle.std.specs.List.{flat_map};
ghost use Rattle.rh_otp_sim.specs.Verdicts.{is_done};
ghost use Rattle.rh_script.specs.CommandWords.{command_words};
ghost use Rattle.rh_script_lint.specs.Refused.{is_of_a_name};
ghost use Rattle.rh_otp_lint.specs.Answers.{no_answer, endless, refused_step, start_fails, of_verdict, of_answer, of_line, of_outcome, of_reply};

use rh_base::{OutOfMemory, Str};
use rh_calls::{Call, app_word, node_word};
use rh_cluster::Cluster;
use rh_findings::{Finding, Kind};
use rh_model::{App, Node};
use rh_otp_model::Fault;
use rh_otp_sim::{Answer, Line, LiveReply, Outcome, Verdict};
use rh_otp_text::{push_fault, push_verdict};
use rh_rules::Refusal;
use rh_script::command_text;
use std::alloc::Global;

// The warning of a command on the line of this number, of which a call hasn't returned.
#[tactic(auto, unfolding(crate::specs::Answers::no_answer))]
fn no_answer(alloc: Global, number: u64, command: &str) -> Result<Finding, OutOfMemory>
    ensures { IfOk result (λ found. found ≡ no_answer number command.now) }
{
    let text = format!(in alloc;
        "no_answer: {command} isn't answered: a call of it is still open"
    )?;
    Ok(Finding {
        line: Some(number),
        kind: Kind::Warning,
        text: Str::of(text),
        path: None,
    })
}

// The warning of a command that has no end.
#[tactic(auto, unfolding(crate::specs::Answers::endless))]
fn endless(alloc: Global, number: u64, command: &str) -> Result<Finding, OutOfMemory>
    ensures { IfOk result (λ found. found ≡ endless number command.now) }
{
    let text = format!(in alloc;
        "endless: {command} has no end: all isn't quiet after a million moves; nothing has changed"
    )?;
    Ok(Finding {
        line: Some(number),
        kind: Kind::Warning,
        text: Str::of(text),
        path: None,
    })
}

// The hint of a command that is answered so.
#[tactic(auto, unfolding(crate::specs::Answers::refused_step))]
fn refused_step(
    alloc: Global,
    number: u64,
    command: &str,
    answer: &str,
) -> Result<Finding, OutOfMemory>
    ensures { IfOk result (λ found. found ≡ refused_step number command.now answer.now) }
{
    let text = format!(in alloc; "refused_step: run --rules otp25 answers {command}: {answer}")?;
    Ok(Finding {
        line: Some(number),
        kind: Kind::Hint,
        text: Str::of(text),
        path: None,
    })
}

// The hint of a start by a boot script that has failed.
#[tactic(auto, unfolding(crate::specs::Answers::start_fails))]
fn start_fails(
    alloc: Global,
    number: u64,
    app: &str,
    node: &str,
    why: &str,
) -> Result<Finding, OutOfMemory>
    ensures { IfOk result (λ found. found ≡ start_fails number app.now node.now why.now) }
{
    let text = format!(in alloc; "start_fails: {app} fails to start at {node}: {why}")?;
    Ok(Finding {
        line: Some(number),
        kind: Kind::Hint,
        text: Str::of(text),
        path: None,
    })
}

// Did it go well?
fn is_done(verdict: Verdict) -> bool
    ensures { result ≡ is_done verdict }
{
    matches!(verdict, Verdict::Done)
}

// Adds that a command is answered so.
fn push_refused(
    alloc: Global,
    found: &mut Vec<Finding>,
    cluster: &Cluster,
    number: u64,
    call: Call,
    answer: &str,
) -> Result<(), OutOfMemory>
    ensures { OnOk result (found.new.items
        ≡ found.old.items ++ refused_step number (command_words cluster.now call) answer.now ∷ []) }
{
    let command = command_text(alloc, cluster, call)?;
    found.push(refused_step(alloc, number, command.as_str(), answer)?)?;
    Ok(())
}

// Adds that a command is answered otherwise than by `ok`, where it is.
fn push_told(
    alloc: Global,
    found: &mut Vec<Finding>,
    cluster: &Cluster,
    number: u64,
    call: Call,
    verdict: Verdict,
) -> Result<(), OutOfMemory>
    ensures { OnOk result
        (found.new.items ≡ found.old.items ++ of_verdict cluster.now number call verdict) }
{
    if is_done(verdict) {
        return Ok(());
    }
    let mut answer = String::new(alloc);
    push_verdict(&mut answer, cluster, verdict)?;
    push_refused(alloc, found, cluster, number, call, answer.as_str())
}

// Adds what is found of an answer.
fn push_answer(
    alloc: Global,
    found: &mut Vec<Finding>,
    cluster: &Cluster,
    number: u64,
    call: Call,
    answer: Answer,
) -> Result<(), OutOfMemory>
    ensures { OnOk result
        (found.new.items ≡ found.old.items ++ of_answer cluster.now number call answer) }
{
    match answer {
        Answer::Told(verdict) => push_told(alloc, found, cluster, number, call, verdict),
        Answer::NoAnswer => {
            let command = command_text(alloc, cluster, call)?;
            found.push(no_answer(alloc, number, command.as_str())?)?;
            Ok(())
        }
    }
}

// Adds that a start has failed.
fn push_failed(
    alloc: Global,
    found: &mut Vec<Finding>,
    cluster: &Cluster,
    number: u64,
    app: App,
    node: Node,
    why: Fault,
) -> Result<(), OutOfMemory>
    ensures { OnOk result (found.new.items
        ≡ found.old.items ++ of_line cluster.now number (Line.Failed app node why)) }
{
    let mut words = String::new(alloc);
    push_fault(&mut words, cluster, why)?;
    let app = app_word(cluster, app);
    let node = node_word(cluster, node);
    found.push(start_fails(alloc, number, app, node, words.as_str())?)?;
    Ok(())
}

// Adds what is found of what an observer is told.
fn push_line(
    alloc: Global,
    found: &mut Vec<Finding>,
    cluster: &Cluster,
    number: u64,
    line: Line,
) -> Result<(), OutOfMemory>
    ensures { OnOk result (found.new.items ≡ found.old.items ++ of_line cluster.now number line) }
{
    match line {
        Line::Failed(app, node, why) => {
            push_failed(alloc, found, cluster, number, app, node, why)
        }
        _ => Ok(()),
    }
}

// Adds what is found of all that has happened.
fn push_lines(
    alloc: Global,
    found: &mut Vec<Finding>,
    cluster: &Cluster,
    number: u64,
    lines: &[Line],
) -> Result<(), OutOfMemory>
    ensures { OnOk result (found.new.items
        ≡ found.old.items ++ flat_map (of_line cluster.now number) lines.now) }
{
    for line in lines {
        push_line(alloc, found, cluster, number, *line)?;
    }
    Ok(())
}

// Is it for a name that the cluster hasn't?
fn is_of_a_name(refusal: Refusal) -> bool
    ensures { result ≡ is_of_a_name refusal }
{
    matches!(refusal, Refusal::UnknownNode | Refusal::UnknownApp)
}

// Adds what is found of what a step comes to.
fn push_outcome(
    alloc: Global,
    found: &mut Vec<Finding>,
    cluster: &Cluster,
    number: u64,
    call: Call,
    outcome: &Outcome,
) -> Result<(), OutOfMemory>
    ensures { OnOk result
        (found.new.items ≡ found.old.items ++ of_outcome cluster.now number call outcome.now) }
{
    match outcome {
        Outcome::Refused(refusal) => {
            if is_of_a_name(*refusal) {
                return Ok(());
            }
            let verdict = Verdict::Refused(*refusal);
            push_told(alloc, found, cluster, number, call, verdict)
        }
        Outcome::Endless => {
            let command = command_text(alloc, cluster, call)?;
            found.push(endless(alloc, number, command.as_str())?)?;
            Ok(())
        }
        Outcome::Done(happened) => {
            push_answer(alloc, found, cluster, number, call, happened.answer)?;
            push_lines(alloc, found, cluster, number, happened.lines.as_slice())
        }
    }
}

/// Adds what is found of the answer to a command on the line of this number.
pub(crate) fn push_reply(
    alloc: Global,
    found: &mut Vec<Finding>,
    cluster: &Cluster,
    number: u64,
    call: Call,
    reply: &LiveReply,
) -> Result<(), OutOfMemory>
    ensures { OnOk result
        (found.new.items ≡ found.old.items ++ of_reply cluster.now number call reply.now) }
{
    match reply {
        LiveReply::Step(outcome) => push_outcome(alloc, found, cluster, number, call, outcome),
        LiveReply::AtStart => {
            push_refused(alloc, found, cluster, number, call, "refused at_start")
        }
        LiveReply::AtEnd => push_refused(alloc, found, cluster, number, call, "refused at_end"),
        _ => Ok(()),
    }
}
