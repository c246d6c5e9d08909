//! A node of OTP 25 that comes back to nodes that are up and at rest: until its boot script begins, every order comes to one state.
//!
//! A law is a function without a body, whose contract is the law ([`joins_come_to_one_state`], [`joins_end_as_boots_do`],
//! [`connections_there_end_alike`], [`connected_nodes_are_alive`], [`leads_on`], [`ends_alike_from_there`]); its statement stands in
//! `specs/`. No program stands on it. The laws of `rh_otp_orders` are of whole commands; these are of the first part of one, and say how
//! such parts are put together.
#![tactic(auto)]

mod laws;

pub use laws::{
    connected_nodes_are_alive, connections_there_end_alike, ends_alike_from_there,
    joins_come_to_one_state, joins_end_as_boots_do, leads_on,
};
