//! Each program from its devices to the exit status.
//!
//! The programs themselves stand in the crates below: [`Program`] has a variant for each, and the definitions beside it say what
//! each owes. [`rehearse_alone`] is those that start no threads, and [`rehearse_together`] each, with threads;
//! [`rehearse_dialogue`] is those that answer as they read ([`tongue_of`]). A program more is a variant, and a line of each function and
//! definition that goes by variants; nothing else knows which programs there are.
#![tactic(auto)]

mod status;
mod sweeping;

pub use rh_asked::{Program, SearchRoom};
pub use rh_explore::{Nobody, Watch};
pub use rh_manner::{Form, Pair, Voice};
pub use status::{Tongue, rehearse_alone, rehearse_dialogue, rehearse_together, tongue_of};
pub use sweeping::{sweep_json, sweep_json_alone};
