//! The program `check`: the cluster file is read, and that is all.

ghost use Rattle.std.specs.Prelude.{◌≡◌, false, IfOk};
ghost use Rattle.std.specs.String.{string_bytes};
ghost use Rattle.rh_run.specs.CheckText.{count_text, check_text, check_end, OwesCheck};
ghost use Rattle.rh_run.specs.Programs.{ProgramGives, NoThreads};
ghost use Rattle.rh_run.specs.RunText.{Wrote, Broke};

use crate::fault::{RunFault, Told, ended};
use crate::running::write_fault;
use rh_base::OutOfMemory;
use rh_cluster::{Cluster, ClusterFault, read_cluster};
use rh_devices::{Sink, Source, Watched, WriteFault, read_input, write_text};
use rh_script::cut;
use std::alloc::Global;

/// Reads all of the input, and then writes how many nodes and applications its cluster file has, or its first fault.
///
/// A script behind a line `===` is ignored. The input has at most 16,777,216 bytes. Neither device is flushed.
///
/// # Errors
/// `Cluster` is the end of the text that was written. `Read` comes where the reader has failed or the input is too
/// long: nothing was written. `Write` comes where the writer has failed, and `OutOfMemory` where a growth was refused:
/// a front of the text was written.
pub fn run_check<S: Source, K: Sink>(
    alloc: Global,
    reader: &mut Watched<S>,
    writer: &mut Watched<K>,
) -> Result<(), RunFault>
    requires reader { reader.old.failed ≡ false }
    requires writer { writer.old.failed ≡ false }
    ensures { ProgramGives S.gives S.fails K.takes K.fails OwesCheck NoThreads result reader.old
        reader.new writer.old writer.new }
{
    let input = read_input(alloc, reader)?;
    let told = check_input(alloc, input.as_slice(), writer)?;
    ended(told)
}

// Writes what the check of an input says.
#[tactic(auto, unfolding(crate::specs::CheckText::check_text, crate::specs::CheckText::check_end))]
fn check_input<K: Sink>(
    alloc: Global,
    input: &[u8],
    writer: &mut Watched<K>,
) -> Result<Option<Told>, WriteFault>
    requires { writer.old.failed ≡ false }
    ensures { Wrote K.takes K.fails result (check_text input.now)
        (check_end input.now) writer.old writer.new }
{
    let (text, _) = cut(input);
    match read_cluster(alloc, text) {
        Err(fault) => {
            if fault.is_memory() {
                return Err(WriteFault::OutOfMemory);
            }
            write_fault(alloc, &fault, writer)?;
            Ok(Some(Told::Cluster(fault)))
        }
        Ok(cluster) => {
            write_counts(alloc, &cluster, writer)?;
            Ok(None)
        }
    }
}

// Writes how many nodes and applications a cluster has.
fn write_counts<K: Sink>(
    alloc: Global,
    cluster: &Cluster,
    writer: &mut Watched<K>,
) -> Result<(), WriteFault>
    requires { writer.old.failed ≡ false }
    ensures { Broke K.takes K.fails result (count_text cluster.now) writer.old writer.new }
{
    let text = count_text(alloc, cluster)?;
    write_text(writer, text.as_bytes())
}

// The text that tells how many nodes and applications a cluster has.
#[tactic(auto, unfolding(crate::specs::CheckText::count_text))]
fn count_text(alloc: Global, cluster: &Cluster) -> Result<String, OutOfMemory>
    ensures { IfOk result (λ text. string_bytes text ≡ count_text cluster.now) }
{
    let nodes = cluster.node_count();
    let apps = cluster.app_count();
    Ok(format!(in alloc; "ok {nodes} nodes {apps} applications\n")?)
}
