//! What programs read of a run on live nodes of OTP 25.2.3: the program of `rh_otp_run`, which writes JSON in place of lines.
//!
//! [`live_json`] reads a cluster file, a line `===` and a script, as `run_json` of `rh_json` does, and answers the commands of the
//! script by a simulation of live nodes (`rh_otp_sim`), a line for each. `rh_otp_json_lines` has these lines; those of the cluster, of a
//! file that is refused and of a line that is no command are `rh_json`'s. How it ends is told as `rh_run` tells it.
#![tactic(auto)]

mod running;

pub use running::{answer_call, live_json};
