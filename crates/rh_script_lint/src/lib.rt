//! What lint finds in the steps of a script.
//!
//! [`step_lines`] makes the steps in a simulation of its own and tells what a live OTP does otherwise at them (`rh_step_lint` finds it),
//! and which of them `run` refuses. What is wrong with a line as such is `rh_line_lint`'s; `rh_lint` puts both in order.
#![tactic(auto)]

mod laws;
mod refused;
mod steps;

pub use laws::tells_the_answer;
pub use steps::step_lines;
