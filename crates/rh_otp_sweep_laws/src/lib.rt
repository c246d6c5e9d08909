//! The law of plans on live nodes: what comes of a plan is what comes of its events in a run behind the base.
//!
//! It is a function without a body, whose contract is the law ([`plans_are_runs`]); its statement stands in `specs/`. No program stands
//! on it.
#![tactic(auto)]

mod laws;

pub use laws::plans_are_runs;
