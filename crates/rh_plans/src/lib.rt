//! Plans, what comes of them, and why there is no sweep of them: what those share who read plans, try them and tell of them.
//!
//! A [`Plan`] is a list of events, and its [`Outcome`] is what comes of them, with the [`Standings`] that they lead to. A
//! [`SweepFault`] says why plans aren't swept, and [`MAX_WORKERS`] how many may try them.
#![tactic(auto)]

mod fault;
mod plan;
mod workers;

pub use fault::SweepFault;
pub use plan::{Outcome, Plan, Standings};
pub use workers::MAX_WORKERS;
