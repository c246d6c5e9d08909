//! What lint finds in a cluster file, and where one that is refused is at fault.
//!
//! [`text_findings`] tells the names that are skipped and nearly one that is read, and what a cluster file says that can't be meant, or
//! that a live OTP takes otherwise. [`fault_finding`] tells the fault of a text that is no cluster.
//!
//! A check tells one fault by its code, and mostly not where it is. [`way_to_fault`] finds the part up to which the file is refused so,
//! where what stands behind is taken out: term, section or key, parameter and element, one after the other. [`fault_in`] tells the fault
//! with its line, the way there and what was expected.
#![tactic(auto)]

mod blame;
mod constructs;
mod cuts;
mod expected;
mod fault;
mod file;
mod file_words;
mod hints;
mod lines;
mod looked;
mod shapes;
mod sides;
mod spans;
mod taking_part;
mod telling;
mod terms;
mod text;
mod told;
mod waits;
mod ways;
mod words;

pub use blame::{MOST_READ, MOST_TRIED, Step, way_to_fault};
pub use cuts::Cut;
pub use fault::fault_finding;
pub use telling::MOST_SHOWN;
pub use text::text_findings;
pub use told::fault_in;
