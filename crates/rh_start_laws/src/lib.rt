//! The law of a cold start, beside the rules: what the last boot of a cluster comes to whose nodes all wait for one another. No program
//! stands on it.
//!
//! It is a function without a body ([`last_boots_start_all`]), whose contract is the law; its statement stands in `specs/Starts`.
#![tactic(auto)]

mod laws;

pub use laws::last_boots_start_all;
