//! All that a live OTP does otherwise at a step.

ghost use Rattle.std.specs.Prelude.{◌≡◌, IfOk};
ghost use Rattle.std.specs.Option.{option_to_list};
ghost use Rattle.rh_state.specs.Stored.{read};
ghost use Rattle.rh_step_findings.specs.Findings.{not_listed_found, not_permitted_found, already_started_found, findings_refused, step_findings_of};

use crate::listing::push_if_any;
use crate::step::Step;
use rh_base::OutOfMemory;
use rh_refusals::refusal_of;
use rh_rules::{Event, Refusal};
use rh_state::State;
use rh_step_findings::StepFinding;
use std::alloc::Global;

// A node isn't in the list.
fn not_listed(event: &Event) -> Option<StepFinding>
    ensures { option_to_list result ≡ not_listed_found event.now }
{
    match *event {
        Event::Start { node, app, .. } => Some(StepFinding::StartWhereNotListed { node, app }),
        Event::Takeover { node, app, .. } => Some(StepFinding::StartWhereNotListed { node, app }),
        _ => None,
    }
}

// It is moved to where it is forbidden.
fn not_permitted(event: &Event) -> Option<StepFinding>
    ensures { option_to_list result ≡ not_permitted_found event.now }
{
    match *event {
        Event::Takeover { node, app, .. } => Some(StepFinding::TakeoverWhereForbidden {
            node,
            app,
        }),
        _ => None,
    }
}

// A local one is started once more where it waits.
fn already_started(step: &Step<'_>) -> Option<StepFinding>
    ensures { option_to_list result ≡ already_started_found step.now.state step.now.event }
{
    match step.event {
        Event::Start { node, app, .. } if step.is_local(app) && step.waits(node, app) => {
            Some(StepFinding::StartOfAWaitingLocal { node, app })
        }
        _ => None,
    }
}

// Of an event that is refused.
#[tactic(auto, unfolding(rh_step_findings::specs::Findings::findings_refused))]
fn finding_refused(step: &Step<'_>, event: &Event, refusal: Refusal) -> Option<StepFinding>
    requires { event.now ≡ step.now.event }
    ensures { option_to_list result ≡ findings_refused step.now.state step.now.event refusal }
{
    match refusal {
        Refusal::NotListed => not_listed(event),
        Refusal::NotPermitted => not_permitted(event),
        Refusal::AlreadyStarted => already_started(step),
        _ => None,
    }
}

/// What a live OTP does otherwise than the rules at the step that an event makes from a state: all findings of which that is so by
/// their definitions, first those at a node with an application by kind, then node, then application, in the order of the cluster
/// file, and then those of nodes that come up. Of an event that is refused it is what a live OTP does all the same.
#[tactic(auto, unfolding(rh_step_findings::specs::Findings::step_findings_of))]
pub fn step_findings(
    alloc: Global,
    state: &State,
    event: &Event,
) -> Result<Vec<StepFinding>, OutOfMemory>
    ensures { IfOk result (λ found. found.items ≡ step_findings_of (read state.now) event.now) }
{
    let step = Step::new(alloc, state, *event)?;
    match refusal_of(state, event) {
        None => step.findings_made(alloc),
        Some(refusal) => {
            let mut found = Vec::new(alloc);
            push_if_any(&mut found, finding_refused(&step, event, refusal))?;
            Ok(found)
        }
    }
}
