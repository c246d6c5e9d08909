//! A dialogue with live nodes of OTP 25.2.3: each line is answered before more is read.
//!
//! [`run_live_dialogue`] is the dialogue of `rh_manner` with a simulation of live nodes (`rh_otp_sim`): what is written is what a run on
//! live nodes writes (`rh_otp_run`, or `rh_otp_json` in JSON), and when it is written `rh_manner` says.
#![tactic(auto)]

mod dialogue;
mod voice;

pub use dialogue::run_live_dialogue;
pub use voice::LiveVoice;
