//! Names of a cluster file that are skipped and were meant otherwise, and what else its terms alone show.
//!
//! [`term_findings`] takes the terms that `rh_terms::read_terms` reads. They need not describe a cluster: what has another shape is
//! passed over, so a file that `rh_cluster` refuses can be asked too. Both sides of a finding are told: the name as it is written,
//! and the one that is read. [`nearest`] finds, for any word, the known name that was meant.
#![tactic(auto)]

mod finding;
mod findings;
mod laws;
mod meant;
mod names;
mod near;
mod parts;
mod shapes;

pub use finding::TermFinding;
pub use findings::term_findings;
pub use laws::{findings_are_so, names_are_read};
pub use names::ReadName;
pub use near::nearest;
pub use shapes::{elements, entry, node, term_name};
