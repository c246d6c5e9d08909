//! Calls of an operator to live nodes of OTP 25 that start an application, or end its node, behind which the order of messages makes no
//! difference.
//!
//! A law is a function without a body, whose contract is the law ([`starts_end_alike`], [`permits_end_alike`],
//! [`starts_elsewhere_end_alike`], [`fatal_exits_end_alike`]); its statement stands in `specs/`. No program stands on it. Each shows of a
//! whole command that it is orderly, as the laws of `rh_otp_orders` ask for it.
#![tactic(auto)]

mod laws;

pub use laws::{
    fatal_exits_end_alike, permits_end_alike, starts_elsewhere_end_alike, starts_end_alike,
};
