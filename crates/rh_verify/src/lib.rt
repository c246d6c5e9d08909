//! Scripts that say what their commands are to be answered.
//!
//! [`run_verify`] answers the commands of a script, and compares what comes with the comment lines behind each: `#= TEXT` is a line
//! of its answer, and `#? TEXT` one of the report behind it. [`verify_script`] does so over any [`Rehearsal`], by whatever rules it
//! answers; `run_verify` is that over a simulation by the rules of the manual.
#![tactic(auto)]

mod blocks;
mod expected;
mod judging;
mod laws;
mod manual;
mod rehearsal;
mod scripts;
mod spaces;
mod tally;
mod verifying;

pub use laws::differences_are_told;
pub use rehearsal::Rehearsal;
pub use scripts::verify_script;
pub use tally::Tally;
pub use verifying::run_verify;
