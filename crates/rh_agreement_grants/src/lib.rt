//! Where both sets of rules answer permits of distributed applications alike by which these start, or are called back from another node, as
//! laws; and any number of them, and of the calls of `rh_agreement_permits`, one after the other. No program stands on them.
//!
//! Each is a function without a body, whose contract is the law ([`permits_by_which_it_starts_are_answered_alike`],
//! [`permits_by_which_it_is_called_back_are_answered_alike`], [`calls_and_grants_are_answered_alike`]); their statements stand in `specs/`.
//! Such a permit begins where both are at rest and ends there again, as the calls of `rh_agreement_permits` do, and so fits between these.
#![tactic(auto)]

mod laws;

pub use laws::{
    calls_and_grants_are_answered_alike, permits_by_which_it_is_called_back_are_answered_alike,
    permits_by_which_it_starts_are_answered_alike,
};
