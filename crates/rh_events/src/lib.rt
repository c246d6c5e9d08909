//! What may happen to a cluster, and what it changes of itself: nodes boot, come up and end, applications are started,
//! stopped, permitted and taken over by hand.
//!
//! [`change`] makes the change of an [`Event`] that isn't refused and tells what follows at once; that applications settle
//! afterwards is rh_settle's.
#![tactic(auto)]

mod booting;
mod by_hand;
mod changing;
mod coming_up;
mod ending;
mod everywhere;
mod laws;
mod marking;
mod readiness;

pub use changing::change;
pub use coming_up::{come_up, let_ready_come_up};
pub use ending::end;
pub use laws::end_leaves_others;
pub use readiness::{all_alive, cancel_if_set};
pub use rh_rules::{Event, Refusal};
