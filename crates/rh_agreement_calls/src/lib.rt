//! Where both sets of rules answer calls alike, as laws: those that end an application that isn't distributed, at a node where it runs and
//! that they keep, and those that start one where it can start; and any number of them one after the other. No program stands on them.
//!
//! Each is a function without a body, whose contract is the law ([`stops_are_answered_alike`]); their statements stand in `specs/`. They go
//! on from `rh_agreement`, whose laws begin where both are at rest and end there again, and so they fit between them.
#![tactic(auto)]

mod laws;

pub use laws::{
    calm_calls_are_answered_alike, exits_are_answered_alike, forbids_are_answered_alike,
    starts_are_answered_alike, stops_are_answered_alike,
};
