//! What follows from a command.

use crate::verdict::Verdict;
use rh_model::{App, Node};
use rh_otp_model::{Fault, StartType};
use rh_otp_system::Ask;
use std::marker::Model;

/// The answer to a command.
#[derive(Clone, Copy, Debug, PartialEq, Eq)]
pub enum Answer {
    /// Its calls were answered so, or it has none.
    Told(Verdict),
    /// A call of it is still open.
    NoAnswer,
}

/// What an observer is told.
#[derive(Clone, Copy, Debug, PartialEq, Eq)]
pub enum Line {
    /// The node's wait for others is over.
    Up(Node),
    /// The node has ended.
    Ended(Node),
    /// The application has started at the node.
    Started(App, Node, StartType),
    /// It has stopped there.
    Stopped(App, Node),
    /// Its start by the boot script has failed there.
    Failed(App, Node, Fault),
    /// A call of an earlier command was answered.
    Answered(Ask, Node, App, Verdict),
    /// The application is started at the node, and doesn't run there.
    Waits(App, Node),
    /// It is being started there, and that hasn't ended.
    Pending(App, Node),
}

/// What has happened at a command.
#[derive(Drop)]
pub struct Happened {
    pub answer: Answer,
    pub lines: Vec<Line>,
}

/// Contracts see it as its parts.
impl Model for Happened {
    ghost use Rattle.rh_otp_sim.specs.Views.{HappenedView};

    ghost Value = { HappenedView };

    ghost view = { λ h. record { answer = h.answer; lines = h.lines.items } };
}
