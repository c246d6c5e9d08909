//! The lines of a plan.

ghost use Rattle.std.specs.Prelude.{◌≡◌, ◌+◌, ◌++◌, Some, OnOk, IfOk};
ghost use Rattle.std.specs.List.{flat_map};
ghost use Rattle.std.specs.String.{string_bytes};
ghost use Rattle.rh_otp_plans.specs.OutcomeText.{plan_line, event_line, stop_line, dist_line, boot_line, hang_lines, outcome_text};

use rh_base::{OutOfMemory, Str};
use rh_calls::{app_word, node_word, push_decimal};
use rh_model::{App, Cluster, Node};
use rh_otp_report::Block;
use rh_otp_sweep::{EventAnswer, Hang, LiveOutcome, Stop};
use rh_otp_text::{push_answer, push_apps, push_block, push_calls};
use rh_rules::Refusal;
use rh_script::push_reason;
use std::alloc::Global;

// Adds the line of a plan.
#[tactic(auto, unfolding(crate::specs::OutcomeText::plan_line))]
fn push_plan_line(text: &mut String, name: &Str, accepted: usize) -> Result<(), OutOfMemory>
    ensures { OnOk result
        (string_bytes text.new ≡ string_bytes text.old ++ plan_line name.now accepted) }
{
    text.push_str("plan ")?;
    text.push_str(name.as_str())?;
    text.push_str(" accepted ")?;
    push_decimal(text, accepted as u64)?;
    text.push_str("\n")?;
    Ok(())
}

// Adds the line of an event that wasn't answered by `ok`.
#[tactic(auto, unfolding(crate::specs::OutcomeText::event_line))]
fn push_event_line(
    text: &mut String,
    cluster: &Cluster,
    answer: EventAnswer,
) -> Result<(), OutOfMemory>
    ensures { OnOk result
        (string_bytes text.new ≡ string_bytes text.old ++ event_line cluster.now answer) }
{
    text.push_str("answer ")?;
    push_decimal(text, answer.event as u64)?;
    text.push_str(" ")?;
    push_answer(text, cluster, answer.answer)
}

// Adds those of all such events.
fn push_events(
    text: &mut String,
    cluster: &Cluster,
    answers: &[EventAnswer],
) -> Result<(), OutOfMemory>
    ensures { OnOk result (string_bytes text.new
        ≡ string_bytes text.old ++ flat_map (event_line cluster.now) answers.now) }
{
    for answer in answers {
        push_event_line(text, cluster, *answer)?;
    }
    Ok(())
}

// Adds the line of the event of this number, which couldn't be given to a node.
#[tactic(auto, unfolding(crate::specs::OutcomeText::stop_line))]
fn push_refused_line(
    text: &mut String,
    cluster: &Cluster,
    number: u128,
    refusal: Refusal,
) -> Result<(), OutOfMemory>
    ensures { OnOk result (string_bytes text.new
        ≡ string_bytes text.old ++ stop_line cluster.now number (Some (Stop.Refused refusal))) }
{
    write!(text, "refused {number} {refusal}")?;
    push_reason(text, cluster, refusal)?;
    text.push_str("\n")?;
    Ok(())
}

// Adds the line of the event of this number, if the plan ended there.
#[tactic(auto, unfolding(crate::specs::OutcomeText::stop_line))]
fn push_stop_line(
    text: &mut String,
    cluster: &Cluster,
    number: u128,
    stop: Option<Stop>,
) -> Result<(), OutOfMemory>
    ensures { OnOk result
        (string_bytes text.new ≡ string_bytes text.old ++ stop_line cluster.now number stop) }
{
    match stop {
        None => Ok(()),
        Some(Stop::Refused(refusal)) => push_refused_line(text, cluster, number, refusal),
        Some(Stop::Endless) => {
            write!(text, "endless {number}\n")?;
            Ok(())
        }
    }
}

// Adds the line of a dist_ac that waits.
#[tactic(auto, unfolding(crate::specs::OutcomeText::dist_line))]
fn push_dist_line(
    text: &mut String,
    cluster: &Cluster,
    node: Node,
    block: Option<Block>,
) -> Result<(), OutOfMemory>
    ensures { OnOk result
        (string_bytes text.new ≡ string_bytes text.old ++ dist_line cluster.now node block) }
{
    let Some(block) = block else {
        return Ok(());
    };
    text.push_str("blocked ")?;
    text.push_str(node_word(cluster, node))?;
    text.push_str(" dist_ac ")?;
    push_block(text, cluster, block)?;
    text.push_str("\n")?;
    Ok(())
}

// Adds the line of a boot script that waits.
#[tactic(auto, unfolding(crate::specs::OutcomeText::boot_line))]
fn push_boot_line(
    text: &mut String,
    cluster: &Cluster,
    node: Node,
    boot: Option<App>,
) -> Result<(), OutOfMemory>
    ensures { OnOk result
        (string_bytes text.new ≡ string_bytes text.old ++ boot_line cluster.now node boot) }
{
    let Some(app) = boot else {
        return Ok(());
    };
    text.push_str("blocked ")?;
    text.push_str(node_word(cluster, node))?;
    text.push_str(" boot ")?;
    text.push_str(app_word(cluster, app))?;
    text.push_str("\n")?;
    Ok(())
}

// Adds the lines of what hangs at a node.
fn push_hang(text: &mut String, cluster: &Cluster, hang: Hang) -> Result<(), OutOfMemory>
    ensures { OnOk result
        (string_bytes text.new ≡ string_bytes text.old ++ hang_lines cluster.now hang) }
{
    push_dist_line(text, cluster, hang.node, hang.block)?;
    push_boot_line(text, cluster, hang.node, hang.boot)
}

// Adds those of all nodes at which something hangs.
fn push_hangs(text: &mut String, cluster: &Cluster, hangs: &[Hang]) -> Result<(), OutOfMemory>
    ensures { OnOk result (string_bytes text.new
        ≡ string_bytes text.old ++ flat_map (hang_lines cluster.now) hangs.now) }
{
    for hang in hangs {
        push_hang(text, cluster, *hang)?;
    }
    Ok(())
}

/// The text of a plan's outcome: how many of its events were made, those that weren't answered by `ok`, the one at which it ended, if it
/// did before its last, where the distributed applications run then, what hangs, and which calls are open.
#[tactic(auto, unfolding(crate::specs::OutcomeText::outcome_text))]
pub(crate) fn outcome_text(
    alloc: Global,
    cluster: &Cluster,
    name: &Str,
    outcome: &LiveOutcome,
) -> Result<String, OutOfMemory>
    ensures { IfOk result
        (λ text. string_bytes text ≡ outcome_text cluster.now name.now outcome.now) }
{
    // As much as the outcome of a plan in a small cluster takes.
    let mut text = String::with_capacity(alloc, 1_024)?;
    push_plan_line(&mut text, name, outcome.accepted)?;
    push_events(&mut text, cluster, outcome.answers.as_slice())?;
    let number = outcome.accepted as u128 + 1;
    push_stop_line(&mut text, cluster, number, outcome.stop)?;
    push_apps(&mut text, cluster, outcome.apps.as_slice())?;
    push_hangs(&mut text, cluster, outcome.hangs.as_slice())?;
    push_calls(&mut text, cluster, outcome.calls.as_slice())?;
    Ok(text)
}
