//! Time that passes on live nodes of OTP 25 over several moments, behind which the order of messages makes no difference.
//!
//! A law is a function without a body, whose contract is the law ([`left_over_timers_change_nothing`],
//! [`waits_that_end_nodes_end_alike`], [`waits_that_end_nodes_do_no_more`], [`ticks_through_moments_end_alike`]); its statement stands in
//! `specs/`. No program stands on it.
#![tactic(auto)]

mod laws;

pub use laws::{
    left_over_timers_change_nothing, ticks_through_moments_end_alike,
    waits_that_end_nodes_do_no_more, waits_that_end_nodes_end_alike,
};
