//! When an event is refused: for what reason, and at which nodes an application can be started by hand.
//!
//! [`refusal_of`] says why an [`Event`](rh_rules::Event) is refused in a state. Each call reads a state and changes nothing, and
//! none takes memory.
#![tactic(auto)]

mod refusing;
mod starting;
mod targets;

pub use refusing::refusal_of;
pub use starting::{is_started_anywhere, is_started_at};
pub use targets::is_target;
