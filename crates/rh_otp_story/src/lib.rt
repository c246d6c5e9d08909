//! A script printed again with what live nodes of OTP 25.2.3 answer to it: behind each command the answer and what newly hangs, in
//! comment lines.
//!
//! [`run_live_story`] is the program of `rh_story` over a simulation of live nodes (`rh_otp_sim`). How a script is printed again is
//! `rh_story`'s; here stands what is told of a call: the lines that a run on live nodes (`rh_otp_run`) answers, and those lines of its
//! report that tell where a call or a boot script got stuck.
#![tactic(auto)]

mod hanging;
mod story;
mod telling;

pub use story::run_live_story;
