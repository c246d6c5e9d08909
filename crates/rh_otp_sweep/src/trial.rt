//! One plan, tried on live nodes and taken back.

ghost use Rattle.std.specs.Prelude.{◌≡◌, ◌++◌, ◌∷◌, [], map, IfOk, OnOk, if◌then◌else◌};
ghost use Rattle.rh_otp_sim.specs.Sim.{without_past};
ghost use Rattle.rh_otp_sweep.specs.Outcomes.{is_ok, course_of, hang_at, hangs_in, outcome_of};
ghost use Rattle.rh_otp_sweep.specs.Working.{IsAtBase};

use crate::outcome::{EventAnswer, Hang, LiveOutcome, Stop};
use rh_base::OutOfMemory;
use rh_otp_report::{NodeReport, Report, report_of};
use rh_otp_sim::{Answer, LiveSim, Outcome, Verdict};
use rh_plans::Plan;
use rh_rules::Event;
use std::alloc::Global;

// How far a plan came.
#[derive(Drop)]
struct Progress {
    accepted: usize,
    answers: Vec<EventAnswer>,
    stop: Option<Stop>,
}

// Is it `ok`?
fn is_ok(answer: Answer) -> bool
    ensures { result ≡ is_ok answer }
{
    matches!(answer, Answer::Told(Verdict::Done))
}

// Adds the answer to the event of this number, if it isn't `ok`.
fn push_answer(
    answers: &mut Vec<EventAnswer>,
    event: usize,
    answer: Answer,
) -> Result<(), OutOfMemory>
    ensures { OnOk result (answers.new.items ≡ (if is_ok answer then answers.old.items
        else answers.old.items ++ record { event = event; answer = answer } ∷ [])) }
{
    if !is_ok(answer) {
        answers.push(EventAnswer { event, answer })?;
    }
    Ok(())
}

// Gives the events one after the other, up to the first that changes nothing.
fn go_ahead(alloc: Global, sim: &mut LiveSim, events: &[Event]) -> Result<Progress, OutOfMemory>
    ensures { IfOk result (λ p. course_of 0 sim.old events.now ≡ record {
      accepted = p.accepted;
      answers = p.answers.items;
      stop = p.stop;
      sim = sim.new;
    }) }
{
    let mut answers = Vec::new(alloc);
    for index in 0..events.len() {
        match sim.step(alloc, events[index])? {
            Outcome::Done(happened) => push_answer(&mut answers, index + 1, happened.answer)?,
            Outcome::Refused(refusal) => {
                return Ok(Progress {
                    accepted: index,
                    answers,
                    stop: Some(Stop::Refused(refusal)),
                });
            }
            Outcome::Endless => {
                return Ok(Progress {
                    accepted: index,
                    answers,
                    stop: Some(Stop::Endless),
                });
            }
        }
    }
    Ok(Progress {
        accepted: events.len(),
        answers,
        stop: None,
    })
}

// What hangs at a node, if something does.
fn hang_at(report: &NodeReport) -> Option<Hang>
    ensures { result ≡ hang_at report.now }
{
    if report.block.is_some() || report.boot.is_some() {
        return Some(Hang {
            node: report.node,
            block: report.block,
            boot: report.boot,
        });
    }
    None
}

// What hangs at these nodes.
fn hangs_in(alloc: Global, nodes: &[NodeReport]) -> Result<Vec<Hang>, OutOfMemory>
    ensures { IfOk result (λ hangs. hangs.items ≡ hangs_in nodes.now) }
{
    let mut hangs = Vec::new(alloc);
    for node in nodes {
        if let Some(hang) = hang_at(node) {
            hangs.push(hang)?;
        }
    }
    Ok(hangs)
}

/// The outcome of a plan from the base where the simulation is, and then is again.
pub(crate) fn try_plan(
    alloc: Global,
    sim: &mut LiveSim,
    plan: &Plan,
) -> Result<LiveOutcome, OutOfMemory>
    requires { IsAtBase sim.old sim.old }
    ensures outcome { IfOk result (λ outcome. outcome ≡ outcome_of sim.old plan.now) }
    ensures back { OnOk result (IsAtBase sim.new sim.old) }
{
    let progress = go_ahead(alloc, sim, plan.events.as_slice())?;
    let report = report_of(alloc, sim)?;
    sim.undo_all();
    let hangs = hangs_in(alloc, report.nodes.as_slice())?;
    let Progress {
        accepted,
        answers,
        stop,
    } = progress;
    let Report {
        time: _,
        nodes: _,
        apps,
        calls,
    } = report;
    Ok(LiveOutcome {
        accepted,
        answers,
        stop,
        apps,
        hangs,
        calls,
    })
}

/// The outcomes of plans, in their order, on a simulation of their own.
pub(crate) fn outcomes_of(
    alloc: Global,
    base: &LiveSim,
    plans: &[Plan],
) -> Result<Vec<LiveOutcome>, OutOfMemory>
    ensures { IfOk result (λ outcomes. outcomes.items ≡ map (outcome_of base.now) plans.now) }
{
    let mut outcomes = Vec::new(alloc);
    let mut sim = base.without_past(alloc)?;
    for plan in plans {
        let outcome = try_plan(alloc, &mut sim, plan)?;
        outcomes.push(outcome)?;
    }
    Ok(outcomes)
}
