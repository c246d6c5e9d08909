//! The law that ties a rehearsal to the laws of live nodes: each state that a simulation of them holds is one that they reach.
//!
//! It is a function without a body, whose contract is the law ([`live_states_are_reached`]); its statement stands in `specs/`. It says of
//! each state of a history what `rh_otp_laws` says of all that live nodes reach. No program stands on it.
#![tactic(auto)]

mod laws;

pub use laws::live_states_are_reached;
