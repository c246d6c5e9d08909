//! The end of such a program.

use crate::answer::Answer;
use std::alloc::Global;
use std::process::ExitCode;
use std::rt::Runtime;

/// Writes `done`, `refused` (memory was refused, and all is as before), `changed` and what isn't as it has to be, or
/// `unprepared` where there is no such call, or its beginning can't be made. Gives the exit status.
pub fn tell<T: Runtime<A = Global>>(rt: &T, told: Option<Answer>) -> ExitCode {
    let (written, status) = match told {
        Some(Answer::Done) => (println!(rt; "done"), 0),
        Some(Answer::Refused) => (println!(rt; "refused"), 0),
        Some(Answer::Changed(what)) => (println!(rt; "changed {what}"), 1),
        None => (println!(rt; "unprepared"), 2),
    };
    ExitCode::from(if written.is_ok() { status } else { 3 })
}
