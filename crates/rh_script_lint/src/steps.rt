//! What a live OTP does otherwise at the steps of a script, and which of them `run` refuses.

ghost use Rattle.std.specs.Prelude.{◌≡◌, ◌+◌, ◌≤◌, ◌^◌, ◌++◌, ◌||◌, [], ◌∷◌, IfOk, OnOk, map, length, List};
ghost use Rattle.std.specs.List.{flat_map, list_any};
ghost use Rattle.rh_state.specs.Stored.{read};
ghost use Rattle.rh_trail.specs.Lone.{served};
ghost use Rattle.rh_script.specs.Lines.{raw_lines, content};
ghost use Rattle.rh_script_lint.specs.Steps.{step_found, is_another_past, another_past, of_steps, findings_of, of_call, ends_at, of_rest, of_script_steps};

use crate::refused::push_reply;
use rh_base::{OutOfMemory, Str};
use rh_calls::Call;
use rh_cluster::Cluster;
use rh_findings::{Finding, Kind, sentence};
use rh_line_lint::{names_of, words_of};
use rh_script::{Line, content, line_of, split_line};
use rh_step_findings::StepFinding;
use rh_step_lint::step_findings;
use rh_trail::Sim;
use std::alloc::Global;

// A finding of a step on the line of this number.
#[tactic(auto, unfolding(crate::specs::Steps::step_found))]
fn step_found(
    alloc: Global,
    cluster: &Cluster,
    number: u64,
    finding: &StepFinding,
) -> Result<Finding, OutOfMemory>
    ensures { IfOk result (λ found. found ≡ step_found cluster.now number finding.now) }
{
    let kind = if finding.is_warning() {
        Kind::Warning
    } else {
        Kind::Hint
    };
    Ok(Finding {
        line: Some(number),
        kind,
        text: sentence(alloc, words_of(finding), names_of(cluster, finding))?,
        path: None,
    })
}

// Adds the findings of a step.
fn push_found(
    alloc: Global,
    found: &mut Vec<Finding>,
    cluster: &Cluster,
    number: u64,
    findings: &[StepFinding],
) -> Result<(), OutOfMemory>
    ensures { OnOk result (found.new.items
        ≡ found.old.items ++ flat_map (λ f. step_found cluster.now number f ∷ []) findings.now) }
{
    for finding in findings {
        found.push(step_found(alloc, cluster, number, finding)?)?;
    }
    Ok(())
}

// Has a live cluster another past behind this finding?
fn is_another_past(finding: &StepFinding) -> bool
    ensures { result ≡ is_another_past finding.now }
{
    finding.is_warning() && finding.hangs()
}

// Is there such a finding?
fn leads_elsewhere(findings: &[StepFinding]) -> bool
    ensures { result ≡ list_any is_another_past findings.now }
{
    for finding in findings {
        if is_another_past(finding) {
            return true;
        }
    }
    false
}

// What is told of it on the line of this number.
#[tactic(auto, unfolding(crate::specs::Steps::another_past))]
fn another_past(alloc: Global, number: u64) -> Result<Finding, OutOfMemory>
    ensures { IfOk result (λ found. found ≡ another_past number) }
{
    let text = format!(in alloc; "another_past: from here on a live cluster has another past")?;
    Ok(Finding {
        line: Some(number),
        kind: Kind::Hint,
        text: Str::of(text),
        path: None,
    })
}

// Adds the findings of a step, and that a live cluster has another past behind it. The answer is whether it has.
#[tactic(auto, unfolding(crate::specs::Steps::of_steps))]
fn push_steps(
    alloc: Global,
    found: &mut Vec<Finding>,
    cluster: &Cluster,
    number: u64,
    findings: &[StepFinding],
) -> Result<bool, OutOfMemory>
    ensures found { OnOk result
        (found.new.items ≡ found.old.items ++ of_steps cluster.now number findings.now) }
    ensures ends { IfOk result (λ ends. ends ≡ list_any is_another_past findings.now) }
{
    push_found(alloc, found, cluster, number, findings)?;
    let ends = leads_elsewhere(findings);
    if ends {
        found.push(another_past(alloc, number)?)?;
    }
    Ok(ends)
}

// The findings of a call in the state of a simulation.
fn findings_of(alloc: Global, sim: &Sim, call: &Call) -> Result<Vec<StepFinding>, OutOfMemory>
    ensures { IfOk result (λ findings. findings.items ≡ findings_of sim.now.seen call.now) }
{
    match call {
        Call::Step(event) => step_findings(alloc, sim.state(), event),
        _ => Ok(Vec::new(alloc)),
    }
}

// Adds what is found of a call, gives it to the simulation, and adds what is told of the reply. The answer is whether a live cluster has
// another past behind it.
fn take_call(
    alloc: Global,
    found: &mut Vec<Finding>,
    sim: &mut Sim,
    number: u64,
    call: Call,
) -> Result<bool, OutOfMemory>
    ensures found { OnOk result
        (found.new.items ≡ found.old.items ++ of_call sim.old.seen number call) }
    ensures ends { IfOk result (λ ends. ends ≡ ends_at sim.old.seen call) }
    ensures sim { OnOk result (sim.new.seen ≡ (served sim.old.seen call).sim) }
{
    let findings = findings_of(alloc, sim, &call)?;
    let ends = push_steps(alloc, found, sim.cluster(), number, findings.as_slice())?;
    let reply = sim.answer(alloc, call)?.into_one();
    let told = findings.as_slice();
    push_reply(alloc, found, sim.cluster(), number, call, told, &reply)?;
    Ok(ends)
}

// Adds what is found of a line. The answer is whether nothing is told of the lines behind it.
fn take_line(
    alloc: Global,
    found: &mut Vec<Finding>,
    sim: &mut Sim,
    all: bool,
    number: u64,
    line: &[u8],
) -> Result<bool, OutOfMemory>
    ensures { IfOk result (λ ends. (lines : List _)
        → found.new.items ++ of_rest ends all sim.new.seen (number + 1) lines
        ≡ found.old.items ++ of_script_steps all sim.old.seen number (line.now ∷ lines)) }
{
    match line_of(alloc, sim.cluster(), line)? {
        Line::Nothing => Ok(false),
        Line::Bad => Ok(true),
        Line::Asks(call) => {
            let ends = take_call(alloc, found, sim, number, call)?;
            Ok(!all && ends)
        }
    }
}

/// What a live OTP does otherwise at the steps of a script, of which the first line has this number: each finding of a step as
/// `rh_step_lint` has it, from the state before the step and the event. Behind a warning of a step that hangs it is told that a live
/// cluster has another past. Last of a line it is told that `run` refuses the command, where neither a finding of the step nor a name
/// that the cluster hasn't tells that. Nothing is told behind a line that is no command, nor behind the first warning of a step that
/// hangs unless all is asked for.
pub fn step_lines(
    alloc: Global,
    sim: &mut Sim,
    all: bool,
    first: u64,
    script: &[u8],
) -> Result<Vec<Finding>, OutOfMemory>
    requires numbers { first + length script.now ≤ 2 ^ 64 }
    ensures { IfOk result (λ found.
        found.items ≡ of_script_steps all sim.old.seen first (map content (raw_lines script.now))) }
{
    let mut found = Vec::new(alloc);
    let mut rest = script;
    let mut passed: u64 = 0;
    'lines: while !rest.is_empty() {
        let (line, after) = split_line(rest);
        if take_line(alloc, &mut found, sim, all, first + passed, content(line))? {
            return Ok(found);
        }
        rest = after;
        passed += 1;
    }
    Ok(found)
}
