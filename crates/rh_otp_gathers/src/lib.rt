//! Live nodes of OTP 25 that wait for one another until the last one is there: their waits end, and all their dist_acs synchronise.
//!
//! A law is a function without a body, whose contract is the law ([`nodes_that_gather_come_to_one_state`],
//! [`last_boots_come_to_one_state`]); its statement stands in `specs/`. No program stands on it.
#![tactic(auto)]

mod laws;

pub use laws::{last_boots_come_to_one_state, nodes_that_gather_come_to_one_state};
