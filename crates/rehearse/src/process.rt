//! What the process does: from the words of its command line to the status with which it ends.

ghost use Rattle.std.specs.Prelude.{◌≡◌, None, false};
ghost use Rattle.clap.specs.declared.error.Error.{Error};
ghost use Rattle.rh_asked.specs.Programs.{IsStaffed, is_alone};
ghost use Rattle.rh_programs.specs.Status.{IsDone, StatusGives, tongue_of};
ghost use Rattle.rehearse.specs.Process.{EndsBy, EndsOver, ProcessGives};

use clap::Error;
use rh_asked::Program;
use rh_command_line::{Asked, Words, asked_of};
use rh_devices::{Failed, Sink, Source, Watched};
use rh_programs::{Pair, Watch, rehearse_alone, rehearse_dialogue, tongue_of};
use std::alloc::Global;

// The status of a command line that is refused, or asks for help.
const REFUSED: u8 = 1;

// The status of want of memory before a program runs.
const NO_MEMORY: u8 = 5;

/// Where it is told why a command line is refused.
pub trait Complain {
    // It was in the first state, is in the second now, and was told this error.
    ghost tells: { Self → Self → Error → Type 0 };

    /// Tells the text of the error. Whether that could be told has no part in how the process ends.
    fn tell(&mut self, error: &Error)
        ensures { tells self.old self.new error.now };
}

/// What runs the programs that start threads. It may wait for these: what is said of its call holds if that returns.
pub trait Together {
    // It is in a state in which it can run programs.
    ghost ready: { Self → Type 0 };

    /// Runs such a program over its devices, and answers the exit status.
    fn rehearse<S: Source, K: Sink, W: Watch>(
        &self,
        alloc: Global,
        program: Program,
        reader: &mut Watched<S>,
        writer: &mut Watched<K>,
        watch: &mut W,
    ) -> u8
        requires ready { ready self.now }
        requires reader { reader.old.failed ≡ false }
        requires writer { writer.old.failed ≡ false }
        requires together { is_alone program ≡ false }
        requires workers { IsStaffed program }
        ensures ends { StatusGives S.gives S.fails K.takes K.flushes K.fails program result
            reader.old reader.new writer.old writer.new }
        ensures done { result ≡ 0 → IsDone S.gives K.takes K.flushes program reader.old reader.new
            writer.old writer.new };
}

/// Does what the words ask, and answers the status with which the process ends. Where they ask for a program, it runs over the
/// reader and the writer; else neither is touched. There is no writer where there was no memory for its buffer.
///
/// It waits for nothing, unless the call of `threads` does, which is made for a program that starts threads. That has to be ready. Who
/// watches is told how far a search is.
pub fn process<S: Source + Drop, K: Sink + Drop, E: Complain, H: Together, W: Watch>(
    alloc: Global,
    words: &Words,
    reader: S,
    writer: Result<K, Failed>,
    errors: &mut E,
    threads: &H,
    watch: &mut W,
) -> u8
    requires { H.ready threads.now }
    ensures { ProcessGives S.gives S.fails K.takes K.flushes K.fails E.tells words.now reader writer
        errors.old errors.new result }
{
    match asked_of(alloc, words) {
        Asked::For(program) => match writer {
            Ok(writer) => over_devices(alloc, program, reader, writer, threads, watch),
            Err(_) => NO_MEMORY,
        },
        Asked::Refused(error) => {
            errors.tell(&error);
            REFUSED
        }
        Asked::OutOfMemory => NO_MEMORY,
    }
}

// Runs a program over devices that haven't failed: over both as one, where it answers as it reads.
fn over_devices<S: Source + Drop, K: Sink + Drop, H: Together, W: Watch>(
    alloc: Global,
    program: Program,
    reader: S,
    writer: K,
    threads: &H,
    watch: &mut W,
) -> u8
    requires staffed { IsStaffed program }
    requires ready { H.ready threads.now }
    ensures { EndsOver S.gives S.fails K.takes K.flushes K.fails program reader writer result }
{
    match tongue_of(program) {
        Some(tongue) => {
            let mut device = Watched::new(Pair::new(reader, writer));
            rehearse_dialogue(alloc, tongue, &mut device)
        }
        None => over_both(alloc, program, reader, writer, threads, watch),
    }
}

// Runs a program that reads all first.
fn over_both<S: Source + Drop, K: Sink + Drop, H: Together, W: Watch>(
    alloc: Global,
    program: Program,
    reader: S,
    writer: K,
    threads: &H,
    watch: &mut W,
) -> u8
    requires staffed { IsStaffed program }
    requires ready { H.ready threads.now }
    ensures { EndsBy S.gives S.fails K.takes K.flushes K.fails None program reader writer result }
{
    let mut reader = Watched::new(reader);
    let mut writer = Watched::new(writer);
    if program.is_alone() {
        rehearse_alone(alloc, program, &mut reader, &mut writer, watch)
    } else {
        threads.rehearse(alloc, program, &mut reader, &mut writer, watch)
    }
}
