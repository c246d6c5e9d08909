//! A sweep on live nodes of OTP 25.2.3: from the bytes that are read to the bytes that are written.
//!
//! [`sweep_live`] reads a cluster file, a line `===` and a script of a base and plans, as `sweep` does (`rh_run`), answers the base's
//! commands as `run --rules otp25` does (`rh_otp_run`), has a crew try the plans on live nodes (`rh_otp_sweep`), and tells of each what
//! came of its events, and where the distributed applications run then, what hangs, and which calls are open. [`sweep_live_json`] does
//! the same by lines of JSON. How many workers there are has no part in what is written.
#![tactic(auto)]

mod json;
mod outcome_line;
mod outcome_text;
mod sweeping;

pub use json::sweep_live_json;
pub use sweeping::sweep_live;
