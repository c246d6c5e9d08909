//! What comes of plans that are tried from a simulation, as definitions, and who tries them.
//!
//! `specs/` says what the outcome of a plan is, when plans are swept, and why not. A [`Crew`] is whoever tries plans for a program:
//! `rh_sweep` has those that there are.
#![tactic(auto)]

mod crew;

pub use crew::Crew;
