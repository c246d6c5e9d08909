//! Where both sets of rules answer takeovers by a call alike, as laws: where a distributed application runs at another node on both
//! sides, and moves from there to the node of the call, and where both refuse one for the same reason; and any number of those that move,
//! and of the calls of `rh_agreement_spread`, one after the other. No program stands on them.
//!
//! Each is a function without a body, whose contract is the law ([`takeovers_are_answered_alike`],
//! [`calls_and_takeovers_are_answered_alike`], [`takeovers_are_refused_alike`]); their statements stand in `specs/`. A takeover that moves
//! begins where both are at rest and ends there again, as the calls of `rh_agreement_spread` do, and so fits between these.
#![tactic(auto)]

mod laws;

pub use laws::{
    calls_and_takeovers_are_answered_alike, takeovers_are_answered_alike,
    takeovers_are_refused_alike,
};
