//! One step of a cluster: what may happen to it, when that is refused, and what follows from it.
//!
//! [`refusal_of`] says why an [`Event`] is refused in a state, and [`perform`] makes one that isn't.
#![tactic(auto)]

mod firings;
mod laws;
mod step;
mod ticks;

pub use firings::{FiredTimer, firings_are_in_time, firings_of, firings_tell_the_tick};
pub use laws::{first_is_valid, next_is_allowed, next_is_valid, ticks_add_up, time_goes_on};
pub use rh_events::{Event, Refusal};
pub use rh_refusals::refusal_of;
pub use rh_rules::{Notice, Pick};
pub use step::perform;
