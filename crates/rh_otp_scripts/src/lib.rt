//! Boot scripts of live nodes of OTP 25, behind which the order of messages makes no difference.
//!
//! A law is a function without a body, whose contract is the law ([`scripts_end_alike`], [`boots_end_alike`]); its statement stands in
//! `specs/`. No program stands on it. Each shows that every order of what comes of it ends alike.
#![tactic(auto)]

mod laws;

pub use laws::{boots_end_alike, scripts_end_alike};
