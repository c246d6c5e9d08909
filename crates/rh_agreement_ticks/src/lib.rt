//! Where both sets of rules answer a tick through several moments alike, as a law: live nodes never cancel a timer, so that more timers are
//! due on their side than by the manual's rules, as those of the waits of a cold start. Applications may fail over on the way, and nodes
//! may end with their waits. No program stands on it.
//!
//! It is a function without a body, whose contract is the law ([`ticks_through_moments_are_answered_alike`]); its statement stands in
//! `specs/`. It begins where both are at rest and ends there again, as the laws of the crates below do, and so fits between these.
#![tactic(auto)]

mod laws;

pub use laws::ticks_through_moments_are_answered_alike;
