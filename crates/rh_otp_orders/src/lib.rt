//! In which orders messages can arrive at live nodes of OTP 25, and where it makes no difference.
//!
//! A law is a function without a body, whose contract is the law ([`whichever_comes_first`]); its statement stands in `specs/`.
//! No program stands on it. It speaks of `rh_otp_system`'s moves, as the laws of `rh_otp_laws` do.
#![tactic(auto)]

mod laws;

pub use laws::{
    alike_go_on_alike, alike_move_alike, alike_reach_alike, every_pick_ends_alike,
    messages_at_two_nodes_commute, orderly_nodes_end_alike, own_matters_leave_alone,
    whichever_comes_first,
};
