//! Sweeps that are told as JSON, with the crews that there are.

ghost use Rattle.std.specs.Prelude.{◌≡◌, false};
ghost use Rattle.rh_plans.specs.Workers.{AreWorkers};
ghost use Rattle.rh_run.specs.Programs.{ProgramGives, NoThreads};
ghost use Rattle.rh_json.specs.SweepJson.{OwesSweepJson};

use rh_devices::{Sink, Source, Watched};
use rh_json::sweep_json_by;
use rh_rules::Pick;
use rh_run::RunFault;
use rh_sweep::{Alone, Threaded};
use std::alloc::Global;
use std::sync::Wait;
use std::thread::Threads;

/// Reads all of the input, a cluster file, a line `===` and a script of a base and plans, and then writes lines of JSON: the cluster,
/// each command of the base with its answer, as [`rh_json::run_json`] does, and each plan with what comes of its events behind the
/// base.
///
/// The plans are shared among so many workers, each in a thread of its own where one can be made. What is written doesn't
/// depend on their number. The input has at most 16,777,216 bytes. Neither device is flushed.
///
/// # Errors
/// Those of [`rh_app::run_sweep`], for the same inputs: `Cluster`, `BadLine` and `Sweep` are what the last line tells.
pub fn sweep_json<T: Threads + Wait + Sync, S: Source, K: Sink>(
    rt: &T,
    alloc: Global,
    reader: &mut Watched<S>,
    writer: &mut Watched<K>,
    pick: Pick,
    workers: usize,
) -> Result<(), RunFault>
    requires reader { reader.old.failed ≡ false }
    requires writer { writer.old.failed ≡ false }
    requires workers { AreWorkers workers }
    ensures { ProgramGives S.gives S.fails K.takes K.fails
        (OwesSweepJson pick) NoThreads result reader.old reader.new writer.old writer.new }
{
    sweep_json_by(&Threaded::new(rt, workers), alloc, reader, writer, pick)
}

/// Does what [`sweep_json`] does, with the caller as the only worker: it starts no thread and waits for none.
///
/// # Errors
/// Those of [`sweep_json`].
pub fn sweep_json_alone<S: Source, K: Sink>(
    alloc: Global,
    reader: &mut Watched<S>,
    writer: &mut Watched<K>,
    pick: Pick,
) -> Result<(), RunFault>
    requires reader { reader.old.failed ≡ false }
    requires writer { writer.old.failed ≡ false }
    ensures { ProgramGives S.gives S.fails K.takes K.fails
        (OwesSweepJson pick) NoThreads result reader.old reader.new writer.old writer.new }
{
    sweep_json_by(&Alone, alloc, reader, writer, pick)
}
