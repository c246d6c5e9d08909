//! Where both sets of rules answer a failover alike, as a law: a tick in which the time of an application that was lost with its node is
//! over, so that it starts at another one. No program stands on it.
//!
//! It is a function without a body, whose contract is the law ([`failovers_are_answered_alike`]); its statement stands in `specs/`. It
//! begins where both are at rest and ends there again, as the laws of the crates below do, and so fits between these.
#![tactic(auto)]

mod laws;

pub use laws::failovers_are_answered_alike;
