//! The moves of applications that follow of themselves after an event, one after the other until none is left.
//!
//! [`settle`] makes them, as does [`settle_marked`] where local applications can start at marked pairs alone, and [`next_move`]
//! is the one that comes next in a state.
#![tactic(auto)]

mod app_sets;
mod board;
mod calls;
mod laws;
mod ready;
mod search;
mod settling;

pub use laws::{
    few_moves, never_left_wanted, next_are_first, placed_in_first_group, quiet_and_lost_stay,
    runs_at_one_node, settles_by_pick, settling_keeps, still_if_none_enabled,
    taken_over_by_earlier_groups, waits_for_a_reason,
};
pub use search::next_move;
pub use settling::{settle, settle_marked};
