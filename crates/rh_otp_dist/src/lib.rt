//! `dist_ac` of OTP 25.2.3: where the distributed applications run, as one node sees it.
//!
//! A [`Turn`] is the process at work: what it knows of its node, what it asks of others and is told at once ([`Asked`]), its state
//! ([`Dist`]), and what it has done so far. A dist_ac handles one message at a time. Within one it may have to wait for another one:
//! then it stands in a [`Stand`], and all else stays in its mailbox. That is why one start that waits for good blocks all that comes
//! behind it. Each rule restates a function of OTP's source, which its definition names; `rh_otp_model` has the messages, and
//! `rh_otp_controller` the process beside it.
//!
//! A caller makes a [`Dist`] for a node that begins, and puts what comes for it into its mailbox ([`Dist::receive`]).
//! [`Dist::next_mail`] says which message of it the process takes, if any, and [`Dist::need`] what that one asks of the system
//! first. For each turn the caller makes a [`Turn`] of the state: [`Turn::handle_next`] handles the message, and
//! [`Turn::into_parts`] gives the state back, with all that the process did. Nothing is asked of the numbers in a message: one that
//! no node or application has is answered, too.
//!
//! When its node's wait is over the caller lets the process stand where it waits for the lock of all nodes that it sees
//! ([`Dist::wait_for_lock`]), and has it introduce itself once it has that lock ([`Turn::introduce`]).
#![tactic(auto)]

mod attempt;
mod attempts;
mod calls;
mod choosing;
mod finding;
mod neighbours;
mod node_down;
mod nodes;
mod outside;
mod reading;
mod received;
mod sending;
mod state;
mod told;
mod turn;
mod verdict;
mod waiting;
mod weighing;

pub use attempt::{AskedBy, Attempt, PermitCall};
pub use outside::Need;
pub use state::{Appl, Dist, Introducing, PermitWait, Stand, Standing, Told, Weighing};
pub use turn::{Asked, Turn};
pub use verdict::Verdict;
