//! What a cluster file says that can't be what was meant, or that a live OTP takes otherwise than the rules do: all of it decided
//! from the cluster alone.
//!
//! [`file_findings`] reads a cluster of `rh_model` and lists each [`FileFinding`]. It changes nothing, and a cluster with findings
//! can be rehearsed as any other. The words for a person aren't here.
#![tactic(auto)]

mod at_apps;
mod at_nodes;
mod boot_lists;
mod circles;
mod cluster;
mod crossings;
mod finding;
mod findings;
mod laws;
mod losses;
mod node_lists;
mod rows;
mod sync_lists;
mod timeouts;

pub use finding::FileFinding;
pub use findings::file_findings;
pub use laws::findings_are_so;
