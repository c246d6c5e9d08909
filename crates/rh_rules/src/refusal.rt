//! Why a step may be refused.

ghost use Rattle.std.specs.Prelude.{◌≡◌, ◌↔◌, IsTrue};
ghost use Rattle.rh_rules.specs.declared.refusal.Refusal.{Refusal};

use rh_model::Dep;
use std::fmt;

/// Why a step was refused. It is shown as its code and its name.
#[derive(Clone, Copy, Debug, PartialEq, Eq)]
pub enum Refusal {
    /// There is no such node.
    UnknownNode,
    /// There is no such application.
    UnknownApp,
    /// The node is alive already.
    AlreadyAlive,
    /// The node has incarnation 9,999, the last one.
    IncarnationLimit,
    /// The node is down.
    NotAlive,
    /// No time would pass.
    ZeroTick,
    /// The time would be above 10^12 milliseconds.
    TimeLimit,
    /// The node isn't up, or no node of the application's list is.
    NodeNotUp,
    /// The application isn't distributed (kernel(6), `distributed`).
    NotDistributed,
    /// The application's list has no such node (kernel(6), `distributed`).
    NotListed,
    /// The application is started there already, or wherever it can be (application(3), `start/2`).
    AlreadyStarted,
    /// The application isn't started there, or isn't started at any node (application(3), `stop/1`).
    NeverStarted,
    /// The application runs nowhere (application(3), `takeover/2`).
    NotRunning,
    /// The application runs there already.
    RunsHere,
    /// The application doesn't run there.
    NotRunningHere,
    /// The application may not run there (application(3), `permit/2`).
    NotPermitted,
    /// An application that it depends on doesn't run there (app(4), `applications`).
    DependencyNotStarted { dep: Dep },
    /// The trail holds 65,535 events, the most that it can.
    TrailFull,
    /// Memory was refused.
    OutOfMemory,
}

impl Refusal {
    /// Whether memory was refused. Any other refusal is one of the state or of the trail.
    pub fn is_memory(&self) -> bool
        ensures { IsTrue result ↔ (self.now ≡ Refusal.OutOfMemory) }
    {
        *self == Refusal::OutOfMemory
    }
}

impl fmt::Display for Refusal {
    ghost use Rattle.std.specs.Prelude.{Some};
    ghost use Rattle.rh_rules.specs.Refusals.{refusal_words};

    ghost output = { λ refusal. Some (refusal_words refusal) };

    fn fmt<W: fmt::Write>(&self, f: &mut fmt::Formatter<W>) -> fmt::Result {
        match self {
            Refusal::UnknownNode => write!(f, "S1 unknown_node"),
            Refusal::UnknownApp => write!(f, "S2 unknown_app"),
            Refusal::AlreadyAlive => write!(f, "S3 already_alive"),
            Refusal::IncarnationLimit => write!(f, "S4 incarnation_limit"),
            Refusal::NotAlive => write!(f, "S5 not_alive"),
            Refusal::ZeroTick => write!(f, "S6 zero_tick"),
            Refusal::TimeLimit => write!(f, "S7 time_limit"),
            Refusal::NodeNotUp => write!(f, "S8 node_not_up"),
            Refusal::NotDistributed => write!(f, "S9 not_distributed"),
            Refusal::NotListed => write!(f, "S10 not_listed"),
            Refusal::AlreadyStarted => write!(f, "S11 already_started"),
            Refusal::NeverStarted => write!(f, "S12 never_started"),
            Refusal::NotRunning => write!(f, "S13 not_running"),
            Refusal::RunsHere => write!(f, "S14 runs_here"),
            Refusal::NotRunningHere => write!(f, "S15 not_running_here"),
            Refusal::NotPermitted => write!(f, "S16 not_permitted"),
            Refusal::DependencyNotStarted { .. } => write!(f, "S17 dependency_not_started"),
            Refusal::TrailFull => write!(f, "S18 trail_full"),
            Refusal::OutOfMemory => write!(f, "S19 out_of_memory"),
        }
    }
}
