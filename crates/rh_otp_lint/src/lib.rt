//! The program `lint --rules otp25`: what is wrong with an input, and what comes of its commands on live nodes of OTP 25.2.3.
//!
//! [`run_live_lint`] lists what `lint` finds in the text of a cluster and in the lines of a script as such, and for each command what a
//! simulation of live nodes (`rh_otp_sim`) comes to behind it: a call that isn't answered, a node at which something newly hangs, an
//! application that newly runs at several nodes. Nothing is guessed, so nothing is left out behind a step that hangs. How findings are
//! listed is `rh_lint`'s.
#![tactic(auto)]

mod answers;
mod hanging;
mod linting;
mod steps;
mod twice;

pub use linting::run_live_lint;
