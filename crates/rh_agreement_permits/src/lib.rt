//! Where both sets of rules answer permissions of distributed applications alike, as laws: those that change nothing else, also where the
//! application runs elsewhere, and forbids where it runs and can run at no other node; and any number of them, and of the calls of
//! `rh_agreement_spread`, one after the other. No program stands on them.
//!
//! Each is a function without a body, whose contract is the law ([`permits_alone_are_answered_alike`],
//! [`permits_where_it_runs_elsewhere_are_answered_alike`], [`forbids_where_it_runs_are_answered_alike`],
//! [`calls_and_permits_are_answered_alike`]); their statements stand in `specs/`. Such a permission begins where both are at rest and ends
//! there again, as the calls of `rh_agreement_spread` do, and so fits between these.
#![tactic(auto)]

mod laws;

pub use laws::{
    calls_and_permits_are_answered_alike, forbids_where_it_runs_are_answered_alike,
    permits_alone_are_answered_alike, permits_where_it_runs_elsewhere_are_answered_alike,
};
