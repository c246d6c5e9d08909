//! The live nodes of a cluster of OTP 25.2.3 with what is between them: connections, messages on their way, `global`'s locks,
//! timers, and the calls of an operator.
//!
//! A [`System`] is all of that while a command is carried out. What a single node does is `rh_otp_node`'s; what it sends and asks
//! for is carried out here, in order. [`System::settle`] delivers messages until nothing moves. The rules are definitions of their
//! own (specs/), one for each function, and each function's contract says that it makes what its definition says.
#![tactic(auto)]

mod at_nodes;
mod calling;
mod calls;
mod cell;
mod connecting;
mod delivering;
mod doing;
mod ending;
mod joining;
mod laws;
mod moves;
mod net;
mod outputs;
mod reading;
mod resting;
mod sending;
mod slow;
mod system;
mod working;

pub use calls::{Ask, Call, Stage};
pub use cell::Cell;
pub use laws::settles_by_moves;
pub use moves::Move;
pub use net::Net;
pub use slow::{Answered, Slow};
pub use system::System;
