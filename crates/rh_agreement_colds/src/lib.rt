//! Where both sets of rules answer the last boot of a cold start by the same lines, as a law: all nodes of a cluster wait for one another,
//! and come up when the last one begins. No program stands on it.
//!
//! It is a function without a body ([`last_boots_are_answered_in_some_order`]), whose contract is the law; its statement stands in `specs/`.
#![tactic(auto)]

mod laws;

pub use laws::last_boots_are_answered_in_some_order;
