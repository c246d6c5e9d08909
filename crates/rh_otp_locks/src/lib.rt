//! What `global`'s locks are held for, among live nodes of OTP 25.
//!
//! A law is a function without a body, whose contract is the law ([`locks_are_held_for_something`], [`nobody_has_a_lock_at_rest`]);
//! its statement stands in `specs/`. No program stands on it.
#![tactic(auto)]

mod laws;

pub use laws::{locks_are_held_for_something, nobody_has_a_lock_at_rest};
