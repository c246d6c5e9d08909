//! What is told of the state of live nodes: where each application runs, what waits, what is forbidden, and what hangs.
//!
//! [`report_of`] reads it of a simulation (`rh_otp_sim`) as values, which `rh_otp_text` prints. What live nodes can show an observer is
//! there, beside that what only the simulation knows: for what a dist_ac or a boot script waits, which calls are open, and which
//! timers are set.
#![tactic(auto)]

mod apps;
mod block;
mod calls;
mod forbidden;
mod node;
mod report;
mod rows;
mod timers;

pub use apps::AppReport;
pub use block::Block;
pub use calls::OpenCall;
pub use node::NodeReport;
pub use report::{Report, report_of};
pub use rows::{Runs, Waits};
pub use timers::NodeTimer;
