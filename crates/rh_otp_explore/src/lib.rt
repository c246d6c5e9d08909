//! What no sequence of events can do on live nodes of OTP 25.2.3: a search through all lists of a set of events.
//!
//! [`explore_live`] tries the lists of events that may come on live nodes behind a base, shorter ones first, and tells of each ask that it
//! held behind all of them, or the first list behind which it didn't. Lives, calls and the clock belong to what live nodes are, and none
//! are merged: lists are counted here, where `rh_explore` counts states. What is asked is what that crate asks (`rh_explore::Ask`), of what
//! is told of live nodes (`rh_otp_report`).
#![tactic(auto)]

mod asking;
mod due;
mod listing;
mod search;
mod stand;
mod tally;

pub use search::{LiveExplored, LiveSearch, MOST_EVENTS, explore_live};
pub use tally::{Asked, Failure};
