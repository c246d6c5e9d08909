//! What the processes of live nodes of OTP 25.2.3 are named by, what they send one another, and how they look rows up.
//!
//! A live node has an `application_controller`, a `dist_ac` where its `distributed` is set, and smaller processes ([`Role`]). They
//! send one another a [`Message`]; what a process does in a turn is a list of [`Output`]s. `rh_otp_controller` and `rh_otp_dist` have
//! the processes. The rules are those of OTP's own sources, and not the manual's, which `rh_rules` has.
#![tactic(auto)]

mod fault;
mod flags;
mod message;
mod output;
mod own;
mod process;
mod rows;
mod wait;

pub use fault::{Fault, Outcome};
pub use flags::Flags;
pub use message::{Change, Message, Reply};
pub use output::{Envelope, Event, Output, Requester};
pub use own::{Entry, Own, Written};
pub use process::{Here, Process, Role, StartType};
pub use rows::{drop_app, drop_rows, has_row, key_delete, key_find, key_replace, key_store};
pub use wait::{OwnFile, Wait};
