//! The program `check`, as JSON.

ghost use Rattle.std.specs.Prelude.{◌≡◌, false};
ghost use Rattle.rh_run.specs.CheckText.{check_end};
ghost use Rattle.rh_run.specs.Programs.{ProgramGives, NoThreads};
ghost use Rattle.rh_run.specs.RunText.{Wrote, Broke};
ghost use Rattle.rh_json_lines.specs.ClusterLines.{cluster_line, fault_line};
ghost use Rattle.rh_json.specs.CheckJson.{check_json, OwesCheckJson};

use rh_cluster::{Cluster, ClusterFault, read_cluster};
use rh_devices::{Sink, Source, Watched, WriteFault, read_input, write_text};
use rh_json_lines::{cluster_line, fault_line};
use rh_run::{RunFault, Told, ended};
use rh_script::cut;
use std::alloc::Global;

/// Reads all of the input, and then writes one line of JSON: the nodes and applications of its cluster file, or its first fault.
///
/// A script behind a line `===` is ignored. The input has at most 16,777,216 bytes. Neither device is flushed.
///
/// # Errors
/// Those of [`rh_run::run_check`], for the same inputs: `Cluster` is what the line tells.
pub fn check_json<S: Source, K: Sink>(
    alloc: Global,
    reader: &mut Watched<S>,
    writer: &mut Watched<K>,
) -> Result<(), RunFault>
    requires reader { reader.old.failed ≡ false }
    requires writer { writer.old.failed ≡ false }
    ensures { ProgramGives S.gives S.fails K.takes K.fails OwesCheckJson NoThreads result reader.old
        reader.new writer.old writer.new }
{
    let input = read_input(alloc, reader)?;
    let told = check_input(alloc, input.as_slice(), writer)?;
    ended(told)
}

// Writes what the check of an input says.
#[tactic(auto, unfolding(crate::specs::CheckJson::check_json, rh_run::specs::CheckText::check_end))]
fn check_input<K: Sink>(
    alloc: Global,
    input: &[u8],
    writer: &mut Watched<K>,
) -> Result<Option<Told>, WriteFault>
    requires { writer.old.failed ≡ false }
    ensures { Wrote K.takes K.fails result (check_json input.now)
        (check_end input.now) writer.old writer.new }
{
    let (text, _) = cut(input);
    match read_cluster(alloc, text) {
        Err(fault) => {
            if fault.is_memory() {
                return Err(WriteFault::OutOfMemory);
            }
            write_fault(alloc, &fault, writer)?;
            Ok(Some(Told::Cluster(fault)))
        }
        Ok(cluster) => {
            write_cluster(alloc, &cluster, writer)?;
            Ok(None)
        }
    }
}

/// Writes the line of a cluster.
pub fn write_cluster<K: Sink>(
    alloc: Global,
    cluster: &Cluster,
    writer: &mut Watched<K>,
) -> Result<(), WriteFault>
    requires { writer.old.failed ≡ false }
    ensures { Broke K.takes K.fails result (cluster_line cluster.now) writer.old writer.new }
{
    let line = cluster_line(alloc, cluster)?;
    write_text(writer, line.as_slice())
}

/// Writes the line that tells why a text is no cluster.
pub fn write_fault<K: Sink>(
    alloc: Global,
    fault: &ClusterFault,
    writer: &mut Watched<K>,
) -> Result<(), WriteFault>
    requires { writer.old.failed ≡ false }
    ensures { Broke K.takes K.fails result (fault_line fault.now) writer.old writer.new }
{
    let line = fault_line(alloc, fault)?;
    write_text(writer, line.as_slice())
}
