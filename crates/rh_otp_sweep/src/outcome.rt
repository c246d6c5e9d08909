//! What comes of a plan on live nodes.

use rh_model::{App, Node};
use rh_otp_report::{AppReport, Block, OpenCall};
use rh_otp_sim::Answer;
use rh_rules::Refusal;
use std::marker::Model;

/// An event of a plan that was made, and not answered by `ok`.
#[derive(Clone, Copy, Debug, PartialEq, Eq)]
pub struct EventAnswer {
    /// Its number in the plan, counted from 1.
    pub event: usize,
    /// What it was answered.
    pub answer: Answer,
}

/// Why an event of a plan changed nothing. The plan ends there.
#[derive(Clone, Copy, Debug, PartialEq, Eq)]
pub enum Stop {
    /// It can't be given to a node.
    Refused(Refusal),
    /// It has no end that is in sight: something still moved behind a million moves.
    Endless,
}

/// What hangs at a node.
#[derive(Clone, Copy, Debug, PartialEq, Eq)]
pub struct Hang {
    pub node: Node,
    /// For what its dist_ac waits.
    pub block: Option<Block>,
    /// For which application's start its boot script waits.
    pub boot: Option<App>,
}

/// What comes of a plan on live nodes.
#[derive(Drop)]
pub struct LiveOutcome {
    /// How many of its events were made. If it stopped, the next one is where.
    pub accepted: usize,
    /// Those that weren't answered by `ok`, in their order.
    pub answers: Vec<EventAnswer>,
    /// Why it ended before its last event, if it did.
    pub stop: Option<Stop>,
    /// The distributed applications, in the order of the file, and where they run at the plan's end.
    pub apps: Vec<AppReport>,
    /// The nodes at which something hangs then, in the order of the file.
    pub hangs: Vec<Hang>,
    /// The calls that haven't returned then, in the order in which they were made.
    pub calls: Vec<OpenCall>,
}

/// Contracts see it as its parts.
impl Model for LiveOutcome {
    ghost use Rattle.rh_otp_sweep.specs.Outcomes.{LiveOutcomeView};

    ghost Value = { LiveOutcomeView };

    ghost view = { λ o. record {
      accepted = o.accepted;
      answers = o.answers.items;
      stop = o.stop;
      apps = o.apps.items;
      hangs = o.hangs.items;
      calls = o.calls.items;
    } };
}
