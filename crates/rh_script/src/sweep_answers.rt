//! The texts of plans and their outcomes.

ghost use Rattle.std.specs.Prelude.{◌≡◌, ◌++◌, OnOk, IfOk};
ghost use Rattle.std.specs.List.{flat_map};
ghost use Rattle.std.specs.String.{string_bytes};
ghost use Rattle.rh_calls.specs.Report.{standing_line};
ghost use Rattle.rh_script.specs.SweepAnswers.{counted, plan_line, refused_line, outcome_text, sweep_fault_text};

use crate::answers::push_reason;
use itoa::Buffer;
use rh_base::{OutOfMemory, Str};
use rh_calls::push_standing_line;
use rh_cluster::{App, Cluster};
use rh_plans::{Outcome, SweepFault};
use rh_rules::Refusal;
use rh_state::Standing;
use std::alloc::Global;

// Adds what was counted, behind its word.
fn push_count(text: &mut String, word: &str, count: u128) -> Result<(), OutOfMemory>
    ensures { OnOk result
        (string_bytes text.new ≡ string_bytes text.old ++ counted word.now count) }
{
    text.push_str(" ")?;
    text.push_str(word)?;
    text.push_str(" ")?;
    let mut buffer = Buffer::new();
    text.push_str(buffer.format(count))?;
    Ok(())
}

// Adds the line of a plan, with what was counted.
#[tactic(auto, unfolding(crate::specs::SweepAnswers::plan_line))]
fn push_plan_line(text: &mut String, name: &Str, outcome: &Outcome) -> Result<(), OutOfMemory>
    ensures { OnOk result
        (string_bytes text.new ≡ string_bytes text.old ++ plan_line name.now outcome.now) }
{
    text.push_str("plan ")?;
    text.push_str(name.as_str())?;
    push_count(text, "accepted", outcome.accepted as u128)?;
    push_count(text, "failovers", outcome.failovers)?;
    push_count(text, "takeovers", outcome.takeovers)?;
    text.push_str("\n")?;
    Ok(())
}

// Adds the line of the refused event, if one was refused.
#[tactic(auto, unfolding(crate::specs::SweepAnswers::refused_line))]
fn push_refused_line(
    text: &mut String,
    cluster: &Cluster,
    refused: Option<(usize, Refusal)>,
) -> Result<(), OutOfMemory>
    ensures { OnOk result
        (string_bytes text.new ≡ string_bytes text.old ++ refused_line cluster.now refused) }
{
    if let Some((place, refusal)) = refused {
        let number = place as u128 + 1;
        write!(text, "refused {number} {refusal}")?;
        push_reason(text, cluster, refusal)?;
        text.push_str("\n")?;
    }
    Ok(())
}

// Adds the line of each application.
fn push_standings(
    text: &mut String,
    cluster: &Cluster,
    standings: &[(App, Standing)],
) -> Result<(), OutOfMemory>
    ensures { OnOk result (string_bytes text.new ≡ string_bytes text.old
        ++ flat_map (λ at. standing_line cluster.now at.0 at.1) standings.now) }
{
    for at in standings {
        push_standing_line(text, cluster, at.0, at.1)?;
    }
    Ok(())
}

/// The text of a plan's outcome: a line with the plan's name and what was counted, a line with the refused event where one
/// was refused, and a line for each distributed application, as in the report.
#[tactic(auto, unfolding(crate::specs::SweepAnswers::outcome_text))]
pub fn outcome_text(
    alloc: Global,
    cluster: &Cluster,
    name: &Str,
    outcome: &Outcome,
) -> Result<String, OutOfMemory>
    ensures { IfOk result
        (λ text. string_bytes text ≡ outcome_text cluster.now name.now outcome.now) }
{
    // As much as the outcome of a plan in a small cluster takes.
    let mut text = String::with_capacity(alloc, 1_024)?;
    push_plan_line(&mut text, name, outcome)?;
    push_refused_line(&mut text, cluster, outcome.refused)?;
    push_standings(&mut text, cluster, outcome.standings.as_slice())?;
    Ok(text)
}

/// The text of a sweep that was refused.
#[tactic(auto, unfolding(crate::specs::SweepAnswers::sweep_fault_text))]
pub fn sweep_fault_text(alloc: Global, fault: SweepFault) -> Result<String, OutOfMemory>
    ensures { IfOk result (λ text. string_bytes text ≡ sweep_fault_text fault) }
{
    Ok(format!(in alloc; "sweep refused {fault}\n")?)
}
