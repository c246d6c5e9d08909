//! Calls of an operator to live nodes of OTP 25 that end an application, behind which the order of messages makes no difference.
//!
//! A law is a function without a body, whose contract is the law ([`stops_end_alike`], [`exits_end_alike`], [`forbids_end_alike`]); its
//! statement stands in `specs/`. No program stands on it. Each shows of a whole command that it is orderly, as the laws of `rh_otp_orders`
//! ask for it.
#![tactic(auto)]

mod laws;

pub use laws::{exits_end_alike, forbids_end_alike, stops_end_alike};
