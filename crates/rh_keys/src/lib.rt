//! The key of a state: the numbers by which states that are alike are found, in bytes.
//!
//! A [`KeyMaker`] makes the [`Key`] of a state. Two states of a cluster are alike exactly if their keys are equal ([`keys_tell_apart`]):
//! the clock, the starts of nodes and the start kinds have no part in it, and timers are counted from now. No answer depends on these:
//! a step commutes with a shift of the clock, and with other starts ([`next_commutes_with_shifts`]).
#![tactic(auto)]

mod key;
mod laws;
mod making;
mod parts;
mod shift_laws;

pub use key::Key;
pub use laws::keys_tell_apart;
pub use making::KeyMaker;
pub use shift_laws::{alike_accept_alike, next_commutes_with_shifts};
