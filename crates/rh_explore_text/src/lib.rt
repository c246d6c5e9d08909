//! What no sequence of events can do: the texts of a search through all states that a set of events reaches.
//!
//! [`run_explore`] reads a cluster file, a base, and behind it which events may come and what is asked of each state that they
//! reach. It tells of each ask that it holds, or the shortest list of events behind which it doesn't. [`explore_json`] tells the same
//! by lines of JSON, for programs; a law says that its lines of the base are those of the same commands
//! ([`search_base_is_answered`]). A [`rh_explore::Crew`] expands the states for both, and what is told is the same for any.
//!
//! What a script asks of a search ([`search_in`]), and the words of bounds and events, serve the search on live nodes too.
#![tactic(auto)]

mod asks;
mod events;
mod exploring;
mod found_lines;
mod json;
mod laws;
mod lines;
mod reading;
mod searching;
mod telling;
mod words;

pub use exploring::run_explore;
pub use found_lines::{push_asked, push_down_field, push_events_array, push_steps_field};
pub use json::explore_json;
pub use laws::search_base_is_answered;
pub use reading::{Search, SearchScript, search_in};
pub use telling::{is_unfinished, push_down, push_events, push_steps};
