//! The rules, as definitions: what may happen to a cluster, when that is refused, and what follows from it.
//!
//! They stand in `specs/`, a file for each chapter of docs/RULES.md and in its order, beside the types of which they speak. No
//! code makes a step here: what is proved against them stands in the crates above.
#![tactic(auto)]

mod event;
mod notice;
mod pick;
mod refusal;

pub use event::Event;
pub use notice::{Move, Notice, Pair};
pub use pick::Pick;
pub use refusal::Refusal;
