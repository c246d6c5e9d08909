//! A rehearsal on live nodes of OTP 25.2.3: commands, what follows from each, and undo and redo.
//!
//! A caller opens a [`LiveSim`] for a cluster (`rh_model`) and its nodes' own files (`rh_otp_file`), and gives it the events of
//! `rh_rules`. [`LiveSim::step`] refuses an event that can't be given to a node, or carries it out on a draft of the cells
//! (`rh_history`), lets the system settle (`rh_otp_system`), writes what was touched as one step, and tells what has happened
//! ([`Happened`]). A step that is refused, or has no end, changes nothing. Undo and redo are those of `rh_history`: after any calls they
//! are each other's reverse ([`live_calls_are_reversible`]). [`LiveSim::answer`] does what a call of a script asks.
//! [`LiveSim::without_past`] is a copy for who tries something else from the same state.
#![tactic(auto)]

mod acting;
mod calls;
mod laws;
mod lines;
mod refusing;
mod sim;
mod stepping;
mod telling;
mod verdict;
mod waiting;

pub use calls::LiveReply;
pub use laws::live_calls_are_reversible;
pub use lines::{Answer, Happened, Line};
pub use sim::LiveSim;
pub use stepping::Outcome;
pub use verdict::Verdict;
pub use waiting::{has_ended_by_itself, is_here};
