//! One plan, tried and taken back.

ghost use Rattle.std.specs.Prelude.{◌≡◌, ◌≤◌, take, IfOk, count_by};
ghost use Rattle.rh_rules.specs.declared.notice.Notice.{Notice};
ghost use Rattle.rh_trail.specs.Chain.{chain};
ghost use Rattle.rh_trail.specs.SimView.{SimView, Held, state_of};
ghost use Rattle.rh_outcomes.specs.Outcomes.{outcome_in, outcome_of, is_failover, is_takeover};
ghost use Rattle.rh_outcomes.specs.Sweeping.{HasRoom, HasRoomFor, IsAtEnd};
ghost use Rattle.rh_sweep.specs.Working.{ended};

use crate::steps::Steps;
use rh_base::OutOfMemory;
use rh_plans::{Outcome, Plan};
use rh_state::Kind;
use rh_step::{Event, Notice, Refusal};
use rh_trail::Sim;
use std::alloc::Global;

// How a plan ended, and what was counted in it.
#[derive(Clone, Copy)]
struct Count {
    accepted: u32,
    refused: Option<(usize, Refusal)>,
    failovers: u128,
    takeovers: u128,
}

/// The outcome of a plan, tried on this simulation, which is left as it was, also where memory is wanting.
///
/// The simulation has no step that could be made again, and its trail has room for the plan's events. Nothing is copied but
/// what each step keeps.
pub fn try_plan(alloc: Global, sim: &mut Sim, plan: &Plan) -> Result<Outcome, OutOfMemory>
    requires end { IsAtEnd sim.old.seen }
    requires room { HasRoom sim.old.seen plan.now }
    ensures outcome { IfOk result (λ outcome. outcome ≡ outcome_of sim.old.seen plan.now) }
    ensures kept { sim.new ≡ sim.old }
{
    // As many records as events stand.
    sim.is_chained();
    let start = sim.cursor();
    let mut notices = Vec::new(alloc);
    let outcome = try_events(alloc, sim, plan.events.as_slice(), &mut notices);
    go_back(sim, start);
    sim.cut_redo();
    outcome
}

/// The outcome of these events, with the simulation or the branch where they lead. The list is for the notices of each event.
pub(crate) fn try_events<S: Steps>(
    alloc: Global,
    steps: &mut S,
    events: &[Event],
    notices: &mut Vec<Notice>,
) -> Result<Outcome, OutOfMemory>
    requires { (base : Held) × (s : SimView) × S.stands steps.old base s × HasRoomFor s events.now }
    ensures outcome { IfOk result (λ outcome. (base : Held) (s : SimView)
        → S.stands steps.old base s → HasRoomFor s events.now → outcome ≡ outcome_in s events.now) }
    ensures ahead { (base : Held) (s : SimView) → S.stands steps.old base s
        → HasRoomFor s events.now → (t : SimView) × S.stands steps.new base t }
{
    let count = go_ahead(alloc, steps, events, notices)?;
    let standings = steps.standings(alloc)?;
    Ok(Outcome {
        accepted: count.accepted,
        refused: count.refused,
        standings,
        failovers: count.failovers,
        takeovers: count.takeovers,
    })
}

// Makes the events up to the first refused one.
fn go_ahead<S: Steps>(
    alloc: Global,
    steps: &mut S,
    events: &[Event],
    notices: &mut Vec<Notice>,
) -> Result<Count, OutOfMemory>
    requires { (base : Held) × (s : SimView) × S.stands steps.old base s × HasRoomFor s events.now }
    ensures outcome { IfOk result (λ c. (base : Held) (s : SimView) → S.stands steps.old base s
        → HasRoomFor s events.now → (t : SimView) × S.stands steps.new base t × (ended (state_of t)
        c.accepted c.refused c.failovers c.takeovers ≡ outcome_in s events.now)) }
    ensures ahead { (base : Held) (s : SimView) → S.stands steps.old base s
        → HasRoomFor s events.now → (t : SimView) × S.stands steps.new base t }
{
    let mut failovers = 0;
    let mut takeovers = 0;
    for index in 0..events.len() {
        match steps.advance(alloc, events[index], notices) {
            Ok(()) => {
                failovers += failovers_in(notices.as_slice()) as u128;
                takeovers += takeovers_in(notices.as_slice()) as u128;
            }
            Err(refusal) => {
                if refusal.is_memory() {
                    return Err(OutOfMemory);
                }
                return Ok(Count {
                    accepted: index as u32,
                    refused: Some((index, refusal)),
                    failovers,
                    takeovers,
                });
            }
        }
    }
    Ok(Count {
        accepted: events.len() as u32,
        refused: None,
        failovers,
        takeovers,
    })
}

// How many applications were started that were lost with another node.
fn failovers_in(notices: &[Notice]) -> usize
    ensures { result ≡ count_by is_failover notices.now }
{
    let mut found = 0;
    for notice in notices {
        if is_failover(notice) {
            found += 1;
        }
    }
    found
}

// How many were started in place of one that ran elsewhere.
fn takeovers_in(notices: &[Notice]) -> usize
    ensures { result ≡ count_by is_takeover notices.now }
{
    let mut found = 0;
    for notice in notices {
        if is_takeover(notice) {
            found += 1;
        }
    }
    found
}

// Was an application started that was lost with another node?
fn is_failover(notice: &Notice) -> bool
    ensures { result ≡ is_failover notice.now }
{
    matches!(notice, Notice::Started { lost: Some(_), .. })
}

// Was one started in place of one that ran elsewhere?
fn is_takeover(notice: &Notice) -> bool
    ensures { result ≡ is_takeover notice.now }
{
    matches!(
        notice,
        Notice::Started {
            kind: Kind::Takeover(_),
            ..
        }
    )
}

// Takes steps back to this place of the trail.
fn go_back(sim: &mut Sim, cursor: usize)
    requires { cursor ≤ sim.old.seen.cursor }
    ensures seen { sim.new.seen ≡ record sim.old.seen { cursor = cursor } }
    ensures words { sim.new.words ≡ chain sim.old cursor }
    ensures records { take cursor sim.new.records ≡ take cursor sim.old.records }
{
    'back: while sim.cursor() > cursor {
        let _ = sim.undo();
    }
}
