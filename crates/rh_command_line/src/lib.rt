//! The command line: what its words ask for, or why they are refused.
//!
//! [`asked_of`] reads the words by `clap`, from a table of subcommands and their options.
#![tactic(auto)]

mod building;
mod command_line;
mod explore_help;
mod help;
mod reading;
mod reasons;
mod rules;
mod table;

pub use command_line::{Asked, Words, asked_of};
