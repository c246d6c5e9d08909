//! A run, a check and a sweep: from the bytes that are read to the bytes that are written.
//!
//! [`run`] reads a cluster file, a line `===` and a script, and answers the commands of the script. [`run_check`] reads the
//! cluster file alone, and says whether it is one. [`run_sweep_by`] has a crew try plans from the simulation behind a base: the
//! caller alone, or several workers.
//!
//! A program of another crate is made of the same parts: it tells of a text that is no cluster by [`write_fault`], answers a
//! call by [`answer_call`] and a bad line by [`answer_bad`], and ends as [`ended`] says.
//!
//! They read from a `Source` and write to a `Sink` of `rh_devices`.
#![tactic(auto)]

mod checking;
mod fault;
mod running;
mod sweeping;

pub use checking::run_check;
pub use fault::{RunFault, Told, ended};
pub use running::{answer_bad, answer_call, run, write_fault};
pub use sweeping::run_sweep_by;
