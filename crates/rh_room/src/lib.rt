//! A simulation that several sessions share: each call is served whole, and the log of all calls is a history that a
//! single caller could have had.
//!
//! [`open_room`] gives a [`Room`] with a [`Pass`] for each session, [`Room::serve`] answers a call, and [`close`] compares
//! what the passes were told with the log. Threads share a room as a [`Shared`].
#![tactic(auto)]

mod closing;
mod opening;
mod pass;
mod replies;
mod room;

pub use closing::{CloseFault, CloseReason, Closed, close};
pub use opening::open_room;
pub use pass::{Entry, Pass, Receipt, RoomFault};
pub use room::{Room, Shared};
