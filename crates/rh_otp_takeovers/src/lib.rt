//! Takeovers of distributed applications by an operator of live nodes of OTP 25, behind which the order of messages makes no difference.
//!
//! A law is a function without a body, whose contract is the law ([`takeovers_end_alike`]); its statement stands in `specs/`. No program
//! stands on it. It shows of a whole command that it is orderly, as the laws of `rh_otp_orders` ask for it.
#![tactic(auto)]

mod laws;

pub use laws::takeovers_end_alike;
