//! Whole rehearsals that both sets of rules answer alike, as laws: of boots, calls, crashes and ticks as the laws of agreement at rest have
//! them, but takeovers that are refused, from where no node has begun; with cold starts among them; and whole cold starts, with conditions on
//! the files alone, but for one. No program stands on them.
//!
//! Each is a function without a body, whose contract is the law ([`agreed_calls_are_answered_alike`],
//! [`agreed_rehearsals_are_answered_alike`], [`cold_calls_are_answered_up_to_order`], [`cold_rehearsals_are_answered_up_to_order`],
//! [`whole_starts_are_answered_alike`], [`rehearsals_behind_a_cold_start_are_answered_up_to_order`]); their statements stand in `specs/`.
#![tactic(auto)]

mod laws;

pub use laws::{
    agreed_calls_are_answered_alike, agreed_rehearsals_are_answered_alike,
    cold_calls_are_answered_up_to_order, cold_rehearsals_are_answered_up_to_order,
    rehearsals_behind_a_cold_start_are_answered_up_to_order, whole_starts_are_answered_alike,
};
