//! Laws of searches on live nodes: what a search says of lists of events holds of runs of these events behind the base.
//!
//! A law is a function without a body, whose contract is the law ([`failures_are_runs`], [`runs_are_searched`],
//! [`live_answers_are_one`]); its statement stands in `specs/`. No program stands on it.
#![tactic(auto)]

mod laws;

pub use laws::{failures_are_runs, live_answers_are_one, runs_are_searched};
