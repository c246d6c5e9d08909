//! The program `lint`: what is wrong with an input, where, and what was meant.
//!
//! [`run_lint`] reads a cluster file and a script, and lists all that is found in them, a line for each finding, or a
//! line of JSON. [`of_fault`], [`line_count`], [`list_text`] and [`lint_end`] are parts of it, for a program that finds other things at
//! steps.
#![tactic(auto)]

mod finding;
mod json;
mod linting;

pub use finding::{line_count, of_fault};
pub use linting::{lint_end, list_text, run_lint};
pub use rh_asked::LintManner;
