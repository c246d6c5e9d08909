//! A whole cluster of live nodes of OTP 25 that wait for one another begins, one node after the other: each boot ends alike.
//!
//! A law is a function without a body, whose contract is the law ([`cold_starts_go_on`], [`last_boots_end_as_scripts_do`],
//! [`cold_boots_end_alike`], [`cold_starts_end_alike`], [`last_boots_come_up`], [`last_boots_come_to_rest`]); its statement stands in
//! `specs/`. No program stands on it. It puts together the laws of `rh_otp_waits`, of boots before the last one, of `rh_otp_gathers`, of
//! what comes before the boot scripts, and of `rh_otp_together`, of the scripts.
#![tactic(auto)]

mod laws;

pub use laws::{
    cold_boots_end_alike, cold_starts_end_alike, cold_starts_go_on, last_boots_come_to_rest,
    last_boots_come_up, last_boots_end_as_scripts_do,
};
