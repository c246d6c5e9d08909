//! The program: what the command line asks, over standard input and output.
#![tactic(auto)]

mod process;
mod progress;
mod standard;

use process::process;
use progress::Progress;
use rh_command_line::Words;
use rh_devices::{Buffered, Reader};
use standard::{HostThreads, StandardError};
use std::io::IsTerminal;
use std::process::ExitCode;
use std::{env, io};

// The words of the command line.
fn words_of(rt: &HostRuntime) -> Words {
    match env::args(rt) {
        Ok(arguments) => match arguments.collect(rt.alloc()) {
            Ok(words) => Words::Given(words),
            Err(_) => Words::OutOfMemory,
        },
        Err(error) => {
            if error.kind() == io::ErrorKind::OutOfMemory {
                Words::OutOfMemory
            } else {
                Words::NotUtf8
            }
        }
    }
}

fn main(rt: HostRuntime) -> ExitCode {
    let alloc = rt.alloc();
    let words = words_of(&rt);
    let reader = Reader::new(rt.reader());
    let writer = Buffered::new(alloc, io::writer(&rt));
    let mut errors = StandardError::new(&rt);
    let threads = HostThreads::new(&rt);
    let mut progress = Progress::new(&rt, rt.stderr().is_terminal());
    ExitCode::from(process(
        alloc,
        &words,
        reader,
        writer,
        &mut errors,
        &threads,
        &mut progress,
    ))
}
