//! A live node of OTP 25.2.3: its processes, and how far it is.
//!
//! A [`LiveNode`] is what one node holds: its application_controller (`rh_otp_controller`), its dist_ac where it has one
//! (`rh_otp_dist`), the nodes that kernel still waits for, and the place in its boot list. A call here is what happens inside one
//! node: a process takes a turn, and what it has done is answered as a list of outputs. Who is told, who is connected, and what is
//! on its way is the system's (`rh_otp_system`).
#![tactic(auto)]

mod boot;
mod kernel;
mod node;
mod remote;
mod turns;

pub use kernel::drop_node;
pub use node::{LiveNode, Phase};
