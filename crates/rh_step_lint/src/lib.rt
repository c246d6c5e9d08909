//! A step where a live OTP does otherwise than the rules, found from the state before it and the event.
//!
//! [`step_findings`] reads a state and changes nothing. What it finds is defined in rh_step_findings.
#![tactic(auto)]

mod after;
mod candidates;
mod lacks;
mod listing;
mod losing;
mod others;
mod pairs;
mod permitting;
mod ranking;
mod reading;
mod rising;
mod starting;
mod step;
mod telling;
mod touching;
mod tries;
mod trying;

pub use telling::step_findings;
