//! A simulation of a cluster: a trail of events with a cursor in it, undo and redo.
//!
//! [`Sim`] keeps the trail of the events that were accepted, with what each changed ([`Records`]), and one state. It answers each call
//! of `rh_calls`, a look by its report.
#![tactic(auto)]

mod laws;
mod records;
mod sim;

pub use laws::calls_are_reversible;
pub use records::Records;
pub use sim::{AtEnd, AtStart, Sim};
