//! Whole rehearsals of live nodes of OTP 25, which come to the same by every order of messages if each of their commands does.
//!
//! A law is a function without a body, whose contract is the law ([`rehearsals_end_alike`], [`reports_are_the_same`],
//! [`covered_rehearsals_end_alike`]); its statement stands in `specs/`. No program stands on it. They say of `rh_otp_sim`'s simulations,
//! with their steps, undo and redo, what `rh_otp_commands` says of one command.
#![tactic(auto)]

mod laws;

pub use laws::{covered_rehearsals_end_alike, rehearsals_end_alike, reports_are_the_same};
