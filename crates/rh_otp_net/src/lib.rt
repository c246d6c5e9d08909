//! What lies between live nodes of OTP 25.2.3: connections, the locks of `global`, timers, and messages on their way.
//!
//! [`Links`] are the connections, and [`Links::to_connect`] those that `global` makes when two more nodes see one another.
//! [`Locks`] are those of the one resource `dist_ac`: a process takes them at all of its nodes or at none. [`Timers`] hold messages
//! that are sent when they are due. Of messages on their way [`first_of_pair`] says which one of two processes comes first, and an
//! [`Order`] which of several.
//! `rh_otp_model` has the processes and messages, `rh_otp_dist` and `rh_otp_controller` what a process does.
//!
//! Contracts see each of these as the list of its rows, in the order in which they came. Nothing is asked of the numbers in a row:
//! one that no node has is kept and answered, too.
#![tactic(auto)]

mod alike;
mod links;
mod locks;
mod matrix;
mod order;
mod queue;
mod timers;

pub use alike::is_process;
pub use links::{Link, Links};
pub use locks::{Held, Locks};
pub use order::Order;
pub use queue::first_of_pair;
pub use timers::{Timer, Timers};
