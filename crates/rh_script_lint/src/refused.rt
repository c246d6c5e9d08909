//! The hint of a command that `run` refuses.

ghost use Rattle.std.specs.Prelude.{◌≡◌, ◌++◌, IfOk, OnOk};
ghost use Rattle.std.specs.List.{list_any};
ghost use Rattle.std.specs.Option.{option_map};
ghost use Rattle.std.specs.String.{string_bytes};
ghost use Rattle.rh_rules.specs.Refusals.{refusal_words};
ghost use Rattle.rh_script.specs.Answers.{reason_words};
ghost use Rattle.rh_script_lint.specs.Refused.{why_refused, is_told_of_line, says_refused, refused_step, of_reply};

use rh_base::{OutOfMemory, Str};
use rh_calls::{Call, Reply, dep_word};
use rh_cluster::Cluster;
use rh_findings::{Finding, Kind};
use rh_rules::Refusal;
use rh_script::command_text;
use rh_step_findings::StepFinding;
use std::alloc::Global;

// A refusal, as it stands in an answer: the dependency that isn't started is named.
fn refusal_text(alloc: Global, cluster: &Cluster, refusal: Refusal) -> Result<String, OutOfMemory>
    ensures { IfOk result
        (λ text. string_bytes text ≡ refusal_words refusal ++ reason_words cluster.now refusal) }
{
    let mut text = format!(in alloc; "{refusal}")?;
    if let Refusal::DependencyNotStarted { dep } = refusal {
        text.push_str(" ")?;
        text.push_str(dep_word(cluster, dep))?;
    }
    Ok(text)
}

// Why a reply refuses its command, if it does.
fn why_refused(
    alloc: Global,
    cluster: &Cluster,
    reply: &Reply,
) -> Result<Option<String>, OutOfMemory>
    ensures { IfOk result (λ why. option_map string_bytes why ≡ why_refused cluster.now reply.now) }
{
    Ok(match reply {
        Reply::Refused(refusal) => Some(refusal_text(alloc, cluster, *refusal)?),
        Reply::AtStart => Some(String::from_str(alloc, "at_start")?),
        Reply::AtEnd => Some(String::from_str(alloc, "at_end")?),
        _ => None,
    })
}

// Does what is found in the line tell it?
fn is_told_of_line(reply: &Reply) -> bool
    ensures { result ≡ is_told_of_line reply.now }
{
    matches!(
        reply,
        Reply::Refused(Refusal::UnknownNode | Refusal::UnknownApp)
    )
}

// Is this a finding of a step that is refused?
fn says_refused(finding: &StepFinding) -> bool
    ensures { result ≡ says_refused finding.now }
{
    matches!(
        finding,
        StepFinding::StartWhereNotListed { .. }
            | StepFinding::TakeoverWhereForbidden { .. }
            | StepFinding::StartOfAWaitingLocal { .. }
    )
}

// Is one of them?
fn any_says_refused(findings: &[StepFinding]) -> bool
    ensures { result ≡ list_any says_refused findings.now }
{
    for finding in findings {
        if says_refused(finding) {
            return true;
        }
    }
    false
}

// The hint of a command on the line of this number.
#[tactic(auto, unfolding(crate::specs::Refused::refused_step))]
fn refused_step(
    alloc: Global,
    number: u64,
    command: &str,
    why: &str,
) -> Result<Finding, OutOfMemory>
    ensures { IfOk result (λ found. found ≡ refused_step number command.now why.now) }
{
    let text = format!(in alloc; "refused_step: run refuses {command}: {why}")?;
    Ok(Finding {
        line: Some(number),
        kind: Kind::Hint,
        text: Str::of(text),
        path: None,
    })
}

// Adds what is told of the reply to a command with these findings.
#[tactic(auto, unfolding(crate::specs::Refused::of_reply))]
pub fn push_reply(
    alloc: Global,
    found: &mut Vec<Finding>,
    cluster: &Cluster,
    number: u64,
    call: Call,
    findings: &[StepFinding],
    reply: &Reply,
) -> Result<(), OutOfMemory>
    ensures { OnOk result (found.new.items
        ≡ found.old.items ++ of_reply cluster.now number call findings.now reply.now) }
{
    if is_told_of_line(reply) || any_says_refused(findings) {
        return Ok(());
    }
    if let Some(why) = why_refused(alloc, cluster, reply)? {
        let command = command_text(alloc, cluster, call)?;
        found.push(refused_step(alloc, number, command.as_str(), why.as_str())?)?;
    }
    Ok(())
}
