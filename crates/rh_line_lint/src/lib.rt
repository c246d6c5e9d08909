//! What lint finds in single lines of a script, and the words in which it tells of a step.
//!
//! [`line_findings`] tells each line that is no command, with the command that may have been meant or the word that isn't what the
//! command takes, and each node and application that a command names and the cluster hasn't. [`words_of`] and [`names_of`] are the words for what a live OTP does otherwise at a step.
#![tactic(auto)]

mod arguments;
mod bad;
mod blame;
mod commands;
mod laws;
mod lines;
mod names;
mod step_words;
mod unknown;
mod words;

pub use laws::blame_is_as_read;
pub use lines::line_findings;
pub use step_words::{names_of, words_of};
