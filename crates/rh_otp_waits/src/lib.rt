//! Boots of live nodes of OTP 25 that wait on for another node, behind which the order of messages makes no difference.
//!
//! A law is a function without a body, whose contract is the law ([`waiting_boots_end_alike`], [`waiting_boots_leave_all_waiting`],
//! [`nodes_that_name_one_another_see_one_another`], [`all_but_the_last_end_alike`]); its statement stands in `specs/`. No program stands on
//! it. Two of them show of a whole command that every order of what comes of it ends alike.
#![tactic(auto)]

mod laws;

pub use laws::{
    all_but_the_last_end_alike, nodes_that_name_one_another_see_one_another,
    waiting_boots_end_alike, waiting_boots_leave_all_waiting,
};
