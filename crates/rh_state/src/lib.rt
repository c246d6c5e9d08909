//! The state of a cluster at one time, with its timers.
//!
//! A [`State`] is read and set part by part, and each part is what it says: which nodes are up, what runs and waits at
//! each, where each distributed application stands, which timers are set. What may happen to it is not said here.
#![tactic(auto)]

mod edit;
mod record;
mod state;
mod status;
mod table;

pub use edit::{Change, Edit};
pub use record::{go_back, go_forth, rewind};
pub use state::{State, first_state, first_state_sharing};
pub use status::{Kind, Mode, Place, Standing, Timer};
