//! Where both sets of rules answer calls of any application alike, distributed or not, as laws: stops, and ends that keep the node, where
//! it runs, stops where it only waits, and starts of a distributed one at its best node where it runs nowhere, or at one of no earlier
//! group while it runs elsewhere; and any number of them, and of the calls of `rh_agreement_calls`, one after the other. No program stands
//! on them.
//!
//! Each is a function without a body, whose contract is the law ([`stops_where_it_runs_are_answered_alike`]); their statements stand in
//! `specs/`. They go on from `rh_agreement` and `rh_agreement_calls`: their laws begin where both are at rest and end there again, and so
//! they fit between those.
#![tactic(auto)]

mod laws;

pub use laws::{
    calls_of_any_are_answered_alike, exits_where_it_runs_are_answered_alike,
    starts_where_it_is_placed_are_answered_alike, starts_where_it_waits_are_answered_alike,
    stops_where_it_runs_are_answered_alike, stops_where_it_waits_are_answered_alike,
};
