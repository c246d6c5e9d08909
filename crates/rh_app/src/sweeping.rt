//! Sweeps with the crews that there are.

ghost use Rattle.std.specs.Prelude.{◌≡◌, false};
ghost use Rattle.rh_plans.specs.Workers.{AreWorkers};
ghost use Rattle.rh_run.specs.Programs.{ProgramGives, NoThreads};
ghost use Rattle.rh_run.specs.SweepText.{OwesSweep};

use rh_devices::{Sink, Source, Watched};
use rh_rules::Pick;
use rh_run::{RunFault, run_sweep_by};
use rh_sweep::{Alone, Threaded};
use std::alloc::Global;
use std::sync::Wait;
use std::thread::Threads;

/// Reads all of the input, a cluster file, a line `===` and a script of a base and plans, and then writes the answers to the
/// base's commands, as [`rh_run::run`] does, and for each plan what comes of its events behind the base.
///
/// The plans are shared among so many workers, each in a thread of its own where one can be made. What is written doesn't
/// depend on their number. The input has at most 16,777,216 bytes. Neither device is flushed.
///
/// # Errors
/// `Cluster` and `BadLine` (a line that is no command, or a line of a plan that is no event) are told alone. `Sweep` is the
/// end of the text that was written: the base has steps that could be made again, or a plan has more events than the base's
/// trail has room for. `Read` comes where the reader has failed or the input is too long: nothing was written. `Write` comes
/// where the writer has failed, and `OutOfMemory` where a growth was refused: a front of the text was written.
pub fn run_sweep<T: Threads + Wait + Sync, S: Source, K: Sink>(
    rt: &T,
    alloc: Global,
    reader: &mut Watched<S>,
    writer: &mut Watched<K>,
    pick: Pick,
    workers: usize,
) -> Result<(), RunFault>
    requires reader { reader.old.failed ≡ false }
    requires writer { writer.old.failed ≡ false }
    requires workers { AreWorkers workers }
    ensures { ProgramGives S.gives S.fails K.takes K.fails
        (OwesSweep pick) NoThreads result reader.old reader.new writer.old writer.new }
{
    run_sweep_by(&Threaded::new(rt, workers), alloc, reader, writer, pick)
}

/// Does what [`run_sweep`] does, with the caller as the only worker: it starts no thread and waits for none.
///
/// # Errors
/// Those of [`run_sweep`].
pub fn run_sweep_alone<S: Source, K: Sink>(
    alloc: Global,
    reader: &mut Watched<S>,
    writer: &mut Watched<K>,
    pick: Pick,
) -> Result<(), RunFault>
    requires reader { reader.old.failed ≡ false }
    requires writer { writer.old.failed ≡ false }
    ensures { ProgramGives S.gives S.fails K.takes K.fails
        (OwesSweep pick) NoThreads result reader.old reader.new writer.old writer.new }
{
    run_sweep_by(&Alone, alloc, reader, writer, pick)
}
