//! Where both sets of rules agree, as laws: for which commands `run` and `run --rules otp25` give the same answer. No program stands on
//! them.
//!
//! Each is a function without a body, whose contract is the law ([`reversals_are_answered_alike`]); its statement stands in `specs/`. They
//! speak of two simulations that tell the same of the clock and of each node: one by the manual's rules (`rh_trail`), one of live nodes
//! (`rh_otp_sim`). What each tells of applications may differ.
#![tactic(auto)]

mod laws;

pub use laws::{
    crashes_are_answered_alike, crashes_come_to_an_end, nodes_events_are_refused_alike,
    peaceful_calls_are_answered_alike, quiet_ticks_are_answered_alike, rehearsals_begin_at_rest,
    rehearsals_begin_together, reversals_are_answered_alike, ticks_at_rest_are_answered_alike,
    what_no_node_takes_is_refused_by_both,
};
