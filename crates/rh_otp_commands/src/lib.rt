//! Commands on live nodes of OTP 25 that are alike, and that stay so.
//!
//! A law is a function without a body, whose contract is the law ([`commands_begin_alike`], [`commands_end_alike`],
//! [`ticks_end_alike`]); its statement stands in `specs/`. No program stands on it. `rh_otp_orders` says when two systems are alike; these
//! laws follow them over the next command, and over time that passes.
#![tactic(auto)]

mod laws;

pub use laws::{commands_begin_alike, commands_end_alike, ticks_end_alike};
