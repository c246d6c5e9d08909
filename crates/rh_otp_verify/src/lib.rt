//! Scripts that say what live nodes of OTP 25.2.3 are to answer to their commands.
//!
//! [`run_live_verify`] is the program of `rh_verify` over a simulation of live nodes (`rh_otp_sim`): lines `#= TEXT` are compared with
//! what a run on live nodes (`rh_otp_run`) answers, and `#? TEXT` with the lines of its report. What is expected, how it is compared
//! and how that is told are `rh_verify`'s; here stand only the rules by which it is answered, and what is read of the input for them.
#![tactic(auto)]

mod laws;
mod rehearsing;
mod verifying;

pub use laws::live_differences_are_told;
pub use verifying::run_live_verify;
