//! Permissions of distributed applications by which they start, stop or move, changed by an operator of live nodes of OTP 25, behind which
//! the order of messages makes no difference.
//!
//! A law is a function without a body, whose contract is the law ([`forbids_that_stop_end_alike`], [`permits_that_start_end_alike`],
//! [`permits_elsewhere_end_alike`], [`forbids_that_move_end_alike`]); its statement stands in `specs/`. No program stands on it. Each shows
//! of a whole command that it is orderly, as the laws of `rh_otp_orders` ask for it.
#![tactic(auto)]

mod laws;

pub use laws::{
    forbids_that_move_end_alike, forbids_that_stop_end_alike, permits_elsewhere_end_alike,
    permits_that_start_end_alike,
};
