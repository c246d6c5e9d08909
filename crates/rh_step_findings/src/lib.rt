//! A step where a live OTP does otherwise than the rules: what is told of it, and when, as definitions over the state before the step
//! and the event.
//!
//! A [`StepFinding`] is what is told. docs/LIVE_OTP.md tells an operator the same differences; nothing is said here of how live
//! processes come to that. No code finds anything here: rh_step_lint does.
#![tactic(auto)]

mod code;
mod finding;
mod lack;
mod relation;
mod touch;

pub use code::Code;
pub use finding::StepFinding;
pub use lack::Lack;
pub use relation::Relation;
pub use touch::{Touch, Trial};
