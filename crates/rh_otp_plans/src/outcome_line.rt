//! The line of JSON of a plan.

ghost use Rattle.std.specs.Prelude.{◌≡◌, ◌+◌, ◌++◌, OnOk, IfOk};
ghost use Rattle.std.specs.List.{flat_map};
ghost use Rattle.rh_json_text.specs.Json.{json_array, behind_comma};
ghost use Rattle.rh_otp_plans.specs.OutcomeJson.{accepted_json, answer_fields, answered_json, event_json, answers_list, refused_json, endless_json, stop_json, hang_json, hangs_list, events_json, state_json, outcome_line};

use rh_base::{OutOfMemory, Str};
use rh_json_lines::push_node_at;
use rh_json_text::{close_array, push_number, push_string, push_text};
use rh_model::Cluster;
use rh_otp_json_lines::{push_apps_at, push_block, push_boot, push_open_at, push_verdict};
use rh_otp_sim::{Answer, Verdict};
use rh_otp_sweep::{EventAnswer, Hang, LiveOutcome, Stop};
use rh_rules::Refusal;
use std::alloc::Global;

// Adds the name of a plan, and how many of its events were made.
#[tactic(auto, unfolding(crate::specs::OutcomeJson::accepted_json))]
fn push_accepted(
    alloc: Global,
    out: &mut Vec<u8>,
    name: &Str,
    accepted: usize,
) -> Result<(), OutOfMemory>
    ensures { OnOk result (out.new.items ≡ out.old.items ++ accepted_json name.now accepted) }
{
    push_text(out, "{\"plan\":")?;
    push_string(out, name.as_str().as_bytes())?;
    push_text(out, ",\"accepted\":")?;
    push_number(alloc, out, accepted as u128)
}

// Adds the fields of an answer.
fn push_answer(
    alloc: Global,
    out: &mut Vec<u8>,
    cluster: &Cluster,
    answer: Answer,
) -> Result<(), OutOfMemory>
    ensures { OnOk result (out.new.items ≡ out.old.items ++ answer_fields cluster.now answer) }
{
    match answer {
        Answer::Told(verdict) => push_verdict(alloc, out, cluster, verdict),
        Answer::NoAnswer => push_text(out, ",\"answer\":\"no answer\""),
    }
}

// Adds the event of this number with the fields of its answer.
#[tactic(auto, unfolding(crate::specs::OutcomeJson::answered_json))]
fn push_answered(
    alloc: Global,
    out: &mut Vec<u8>,
    cluster: &Cluster,
    number: u128,
    answer: Answer,
) -> Result<(), OutOfMemory>
    ensures { OnOk result
        (out.new.items ≡ out.old.items ++ answered_json cluster.now number answer) }
{
    push_text(out, "{\"event\":")?;
    push_number(alloc, out, number)?;
    push_answer(alloc, out, cluster, answer)?;
    push_text(out, "}")
}

// Adds an event that wasn't answered by `ok`.
#[tactic(auto, unfolding(crate::specs::OutcomeJson::event_json))]
fn push_event(
    alloc: Global,
    out: &mut Vec<u8>,
    cluster: &Cluster,
    answer: EventAnswer,
) -> Result<(), OutOfMemory>
    ensures { OnOk result (out.new.items ≡ out.old.items ++ event_json cluster.now answer) }
{
    push_answered(alloc, out, cluster, answer.event as u128, answer.answer)
}

// Adds such events, each behind a comma.
fn push_each_event(
    alloc: Global,
    out: &mut Vec<u8>,
    cluster: &Cluster,
    answers: &[EventAnswer],
) -> Result<(), OutOfMemory>
    ensures { OnOk result (out.new.items
        ≡ out.old.items ++ flat_map (behind_comma (event_json cluster.now)) answers.now) }
{
    for answer in answers {
        push_text(out, ",")?;
        push_event(alloc, out, cluster, *answer)?;
    }
    Ok(())
}

// Adds the array of such events.
#[tactic(auto, using(rh_json_text::proofs::Arrays::array_is_closed))]
fn push_all_events(
    alloc: Global,
    out: &mut Vec<u8>,
    cluster: &Cluster,
    answers: &[EventAnswer],
) -> Result<(), OutOfMemory>
    ensures { OnOk result
        (out.new.items ≡ out.old.items ++ json_array (event_json cluster.now) answers.now) }
{
    let start = out.len();
    push_each_event(alloc, out, cluster, answers)?;
    close_array(out, start)
}

// Adds their field.
fn push_answers_at(
    alloc: Global,
    out: &mut Vec<u8>,
    cluster: &Cluster,
    answers: &[EventAnswer],
) -> Result<(), OutOfMemory>
    ensures { OnOk result (out.new.items ≡ out.old.items ++ answers_list cluster.now answers.now) }
{
    push_text(out, ",\"answers\":")?;
    push_all_events(alloc, out, cluster, answers)
}

// Adds the event of this number, which couldn't be given to a node.
fn push_refused(
    alloc: Global,
    out: &mut Vec<u8>,
    cluster: &Cluster,
    number: u128,
    refusal: Refusal,
) -> Result<(), OutOfMemory>
    ensures { OnOk result
        (out.new.items ≡ out.old.items ++ refused_json cluster.now number refusal) }
{
    push_text(out, ",\"refused\":")?;
    let answer = Answer::Told(Verdict::Refused(refusal));
    push_answered(alloc, out, cluster, number, answer)
}

// Adds the event of this number, which has no end.
#[tactic(auto, unfolding(crate::specs::OutcomeJson::endless_json))]
fn push_endless(alloc: Global, out: &mut Vec<u8>, number: u128) -> Result<(), OutOfMemory>
    ensures { OnOk result (out.new.items ≡ out.old.items ++ endless_json number) }
{
    push_text(out, ",\"endless\":")?;
    push_number(alloc, out, number)
}

// Adds the event of this number, if the plan ended there.
fn push_stop(
    alloc: Global,
    out: &mut Vec<u8>,
    cluster: &Cluster,
    number: u128,
    stop: Option<Stop>,
) -> Result<(), OutOfMemory>
    ensures { OnOk result (out.new.items ≡ out.old.items ++ stop_json cluster.now number stop) }
{
    match stop {
        None => Ok(()),
        Some(Stop::Refused(refusal)) => push_refused(alloc, out, cluster, number, refusal),
        Some(Stop::Endless) => push_endless(alloc, out, number),
    }
}

// Adds a node at which something hangs, and what.
#[tactic(auto, unfolding(crate::specs::OutcomeJson::hang_json))]
fn push_hang(out: &mut Vec<u8>, cluster: &Cluster, hang: Hang) -> Result<(), OutOfMemory>
    ensures { OnOk result (out.new.items ≡ out.old.items ++ hang_json cluster.now hang) }
{
    push_node_at(out, "{\"node\":", cluster, hang.node)?;
    push_block(out, cluster, hang.block)?;
    push_boot(out, cluster, hang.boot)?;
    push_text(out, "}")
}

// Adds such nodes, each behind a comma.
fn push_each_hang(out: &mut Vec<u8>, cluster: &Cluster, hangs: &[Hang]) -> Result<(), OutOfMemory>
    ensures { OnOk result (out.new.items
        ≡ out.old.items ++ flat_map (behind_comma (hang_json cluster.now)) hangs.now) }
{
    for hang in hangs {
        push_text(out, ",")?;
        push_hang(out, cluster, *hang)?;
    }
    Ok(())
}

// Adds the array of such nodes.
#[tactic(auto, using(rh_json_text::proofs::Arrays::array_is_closed))]
fn push_all_hangs(out: &mut Vec<u8>, cluster: &Cluster, hangs: &[Hang]) -> Result<(), OutOfMemory>
    ensures { OnOk result
        (out.new.items ≡ out.old.items ++ json_array (hang_json cluster.now) hangs.now) }
{
    let start = out.len();
    push_each_hang(out, cluster, hangs)?;
    close_array(out, start)
}

// Adds their field.
fn push_hangs_at(out: &mut Vec<u8>, cluster: &Cluster, hangs: &[Hang]) -> Result<(), OutOfMemory>
    ensures { OnOk result (out.new.items ≡ out.old.items ++ hangs_list cluster.now hangs.now) }
{
    push_text(out, ",\"blocked\":")?;
    push_all_hangs(out, cluster, hangs)
}

// Adds what came of a plan's events.
#[tactic(auto, unfolding(crate::specs::OutcomeJson::events_json))]
fn push_events(
    alloc: Global,
    out: &mut Vec<u8>,
    cluster: &Cluster,
    name: &Str,
    outcome: &LiveOutcome,
) -> Result<(), OutOfMemory>
    ensures { OnOk result
        (out.new.items ≡ out.old.items ++ events_json cluster.now name.now outcome.now) }
{
    push_accepted(alloc, out, name, outcome.accepted)?;
    push_answers_at(alloc, out, cluster, outcome.answers.as_slice())?;
    let number = outcome.accepted as u128 + 1;
    push_stop(alloc, out, cluster, number, outcome.stop)
}

// Adds the state at its end.
#[tactic(auto, unfolding(crate::specs::OutcomeJson::state_json))]
fn push_state(
    out: &mut Vec<u8>,
    cluster: &Cluster,
    outcome: &LiveOutcome,
) -> Result<(), OutOfMemory>
    ensures { OnOk result (out.new.items ≡ out.old.items ++ state_json cluster.now outcome.now) }
{
    push_apps_at(out, cluster, outcome.apps.as_slice())?;
    push_hangs_at(out, cluster, outcome.hangs.as_slice())?;
    push_open_at(out, cluster, outcome.calls.as_slice())
}

/// The line of the plan of this name, with its outcome.
#[tactic(auto, unfolding(crate::specs::OutcomeJson::outcome_line))]
pub(crate) fn outcome_line(
    alloc: Global,
    cluster: &Cluster,
    name: &Str,
    outcome: &LiveOutcome,
) -> Result<Vec<u8>, OutOfMemory>
    ensures { IfOk result (λ line. line.items ≡ outcome_line cluster.now name.now outcome.now) }
{
    // As much as most lines take.
    let mut line = Vec::with_capacity(alloc, 1_024)?;
    push_events(alloc, &mut line, cluster, name, outcome)?;
    push_state(&mut line, cluster, outcome)?;
    push_text(&mut line, "}\n")?;
    Ok(line)
}
