//! `application_controller` of OTP 25.2.3: what is started and what runs at one node, as the node itself sees it.
//!
//! A [`Turn`] is the process at work: what it knows of its node, its state ([`Controller`]), and what it has done so far. A message
//! is handled by [`Turn::receive`], whose contract names the rule for each; each rule restates a function of OTP's source, which its
//! definition names. `rh_otp_model` has the messages.
#![tactic(auto)]

mod calls;
mod changes;
mod reading;
mod sending;
mod started;
mod starting;
mod state;
mod turn;

pub use state::{Controller, Place, Starting};
pub use turn::Turn;
