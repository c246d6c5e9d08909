//! A run on live nodes of OTP 25.2.3: from the bytes that are read to the bytes that are written.
//!
//! [`run_live`] reads a cluster file, a line `===` and a script, as `run` of `rh_run` does, and answers the commands of the script by a
//! simulation of live nodes (`rh_otp_sim`) in place of the manual's rules. What each node's own file tells is read from the same text
//! (`rh_otp_file`), and `rh_otp_text` has the texts. How it ends is told as `rh_run` tells it.
//! With neither echo nor strict the answers stand alone, which is a law ([`plain_manner_is_bare`]). [`answer_call`] answers one call.
#![tactic(auto)]

mod laws;
mod running;

pub use laws::plain_manner_is_bare;
pub use running::{answer_call, run_live};
