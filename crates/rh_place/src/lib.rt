//! Where an application can run, and where it is to run.
//!
//! Each call reads a state and changes nothing, and none takes memory.
#![tactic(auto)]

mod choosing;
mod node_set;
mod operating;

pub use choosing::{best, candidates, choose, operational_among, operational_nodes};
pub use node_set::NodeSet;
pub use operating::{deps_run, missing_dep, operational};
pub use rh_rules::Pick;
