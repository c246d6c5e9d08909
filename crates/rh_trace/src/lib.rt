//! What an event does to a state, change by change: what it tells, which pairs are marked by it, and how it is taken back.
//!
//! A [`Trace`] is kept beside the state; the functions of [`recording`] change both together, and [`make_move`] makes one move of an
//! application.
#![tactic(auto)]

mod make;
pub mod recording;
mod starting;
mod trace;

pub use make::make_move;
pub use starting::start_kind;
pub use trace::Trace;
