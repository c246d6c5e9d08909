//! Boot scripts of live nodes of OTP 25 that begin at once, behind which the order of messages makes no difference.
//!
//! A law is a function without a body, whose contract is the law ([`boot_scripts_end_alike_together`],
//! [`boot_scripts_come_to_one_state`]); its statement stands in `specs/`. No program stands on it.
#![tactic(auto)]

mod laws;

pub use laws::{boot_scripts_come_to_one_state, boot_scripts_end_alike_together};
