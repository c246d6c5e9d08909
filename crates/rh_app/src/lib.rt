//! The programs: from the bytes that are read to the bytes that are written.
//!
//! [`run`] reads a cluster file, a line `===` and a script, and answers the commands of the script. [`run_check`] reads the
//! cluster file alone, and says whether it is one. [`run_sessions`] has several sessions share one cluster, each in a thread
//! of its own. [`run_sweep`] tries plans from the simulation behind a base, by several workers, and [`run_sweep_alone`] by
//! one, without threads.
//!
//! A program of another crate is made of the same parts: it reads by [`read_input`], tells of a text that is no cluster by
//! [`write_fault`], answers a call by [`answer_call`] and a bad line by [`answer_bad`], and ends as [`ended`] says.
//!
//! They read from a [`Source`] and write to a [`Sink`]: [`Reader`], [`Writer`] and [`Buffered`] are those of the standard library,
//! [`Bytes`] and [`Text`] are memory. [`run_in_memory`] is a run over memory.
#![tactic(auto)]

mod fault;
mod laws;
mod memory;
mod sessions;
mod sweeping;

pub use laws::{
    answer_all, open_and_undo_all, redo_and_undo, rehearsals_are_reversible,
    serve_step_and_own_undo, serve_step_and_undo, sessions_are_reversible, step_and_undo,
    step_undo_and_redo, undo_all_and_redo_all, undo_and_redo,
};
pub use memory::{InMemory, run_in_memory};
pub use rh_calls::report;
pub use rh_devices::{
    Buffered, Bytes, Failed, ReadFault, Reader, Sink, Source, Text, Watched, WriteFault, Writer,
    read_input, write_text,
};
pub use rh_run::{RunFault, Told, answer_bad, answer_call, ended, run, run_check, write_fault};
pub use sessions::run_sessions;
pub use sweeping::{run_sweep, run_sweep_alone};
