//! The program `verify`: commands are answered, and what is expected of them is compared.

ghost use Rattle.std.specs.Prelude.{◌≡◌, false};
ghost use Rattle.rh_trail.specs.Lone.{opened};
ghost use Rattle.rh_run.specs.RunText.{Wrote};
ghost use Rattle.rh_run.specs.Programs.{ProgramGives, NoThreads};
ghost use Rattle.rh_verify.specs.Manual.{manual};
ghost use Rattle.rh_verify.specs.Spaces.{lines_of};
ghost use Rattle.rh_verify.specs.VerifyText.{line_behind, script_text, script_end, verify_text, verify_end, OwesVerify};

use crate::scripts::verify_script;
use rh_cluster::{Cluster, read_cluster};
use rh_devices::{Sink, Source, Watched, WriteFault, read_input};
use rh_rules::Pick;
use rh_run::{RunFault, Told, ended, write_fault};
use rh_script::cut;
use rh_trail::Sim;
use std::alloc::Global;

/// Reads all of the input, a cluster file, a line `===` and a script, and then writes of which commands something that the script
/// expects doesn't hold, and how many there are.
///
/// Behind a command lines `#= TEXT` are what it is to be answered, all lines and no other, and a line `#? TEXT` is one that the
/// report then is to have, spaces at the front aside. A command without them may be answered anything. It ends at the first line
/// that is no command. The input has at most 16,777,216 bytes. Neither device is flushed.
///
/// # Errors
/// `Cluster`, `BadLine` and `Differs` are the end of the text that was written. `Read` comes where the reader has failed or
/// the input is too long: nothing was written. `Write` comes where the writer has failed, and `OutOfMemory` where a growth
/// was refused: a front of the text was written.
pub fn run_verify<S: Source, K: Sink>(
    alloc: Global,
    reader: &mut Watched<S>,
    writer: &mut Watched<K>,
    pick: Pick,
) -> Result<(), RunFault>
    requires reader { reader.old.failed ≡ false }
    requires writer { writer.old.failed ≡ false }
    ensures { ProgramGives S.gives S.fails K.takes K.fails
        (OwesVerify pick) NoThreads result reader.old reader.new writer.old writer.new }
{
    let input = read_input(alloc, reader)?;
    let told = verify_input(alloc, input.as_slice(), writer, pick)?;
    ended(told)
}

// Writes what the verification of an input tells.
#[tactic(auto, unfolding(crate::specs::VerifyText::verify_text, crate::specs::VerifyText::verify_end))]
fn verify_input<K: Sink>(
    alloc: Global,
    input: &[u8],
    writer: &mut Watched<K>,
    pick: Pick,
) -> Result<Option<Told>, WriteFault>
    requires { writer.old.failed ≡ false }
    ensures { Wrote K.takes K.fails result (verify_text input.now pick)
        (verify_end input.now pick) writer.old writer.new }
{
    let (text, script) = cut(input);
    match read_cluster(alloc, text) {
        Err(fault) => {
            if fault.is_memory() {
                return Err(WriteFault::OutOfMemory);
            }
            write_fault(alloc, &fault, writer)?;
            Ok(Some(Told::Cluster(fault)))
        }
        Ok(cluster) => verify_cluster(alloc, cluster, text, script, writer, pick),
    }
}

// Writes what the verification of a script tells, whose cluster is of this text.
fn verify_cluster<K: Sink>(
    alloc: Global,
    cluster: Cluster,
    text: &[u8],
    script: &[u8],
    writer: &mut Watched<K>,
    pick: Pick,
) -> Result<Option<Told>, WriteFault>
    requires { writer.old.failed ≡ false }
    ensures { let k = line_behind text.now in Wrote K.takes K.fails result
        (script_text manual (opened cluster pick) k (lines_of script.now))
        (script_end manual (opened cluster pick) k (lines_of script.now)) writer.old writer.new }
{
    let mut sim = Sim::open(alloc, cluster, pick)?;
    verify_script(alloc, &mut sim, text, script, writer)
}
