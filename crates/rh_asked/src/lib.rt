//! What can be asked of the program, and in which manner.
//!
//! [`Program`] has a variant for each thing that it does. Nothing is done here: `rh_command_line` reads a command line as a [`Program`], and `rh_programs` does it.
#![tactic(auto)]

mod manner;
mod program;

pub use manner::{LintManner, Manner, SearchRoom};
pub use program::Program;
