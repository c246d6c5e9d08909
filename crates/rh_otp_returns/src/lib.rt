//! A node of OTP 25 that comes up where all else is at rest: every order of the whole of it ends alike.
//!
//! A law is a function without a body, whose contract is the law; its statement stands in `specs/`. No program stands on it. The node
//! comes back to nodes that are up ([`returns_end_alike`]), or its wait for others is over by its time ([`arrivals_end_alike`]). Each
//! puts together the laws of `rh_otp_joins`, of what comes before the boot script, and of `rh_otp_scripts`, of the script.
#![tactic(auto)]

mod laws;

pub use laws::{arrivals_come_to_one_state, arrivals_end_alike, returns_end_alike};
