//! The program `verify --rules otp25`: commands are answered by live nodes, and what is expected of them is compared.

ghost use Rattle.std.specs.Prelude.{◌≡◌, false};
ghost use Rattle.rh_run.specs.RunText.{Wrote};
ghost use Rattle.rh_run.specs.Programs.{ProgramGives, NoThreads};
ghost use Rattle.rh_verify.specs.Spaces.{lines_of};
ghost use Rattle.rh_verify.specs.VerifyText.{line_behind, script_text, script_end};
ghost use Rattle.rh_otp_verify.specs.LiveVerify.{live, live_verify_text, live_verify_end, OwesLiveVerify};

use crate::rehearsing::LiveNodes;
use rh_cluster::read_cluster;
use rh_devices::{Sink, Source, Watched, WriteFault, read_input};
use rh_otp_file::own_files;
use rh_otp_net::Order;
use rh_otp_sim::LiveSim;
use rh_run::{RunFault, Told, ended, write_fault};
use rh_script::cut;
use rh_verify::verify_script;
use std::alloc::Global;

/// Reads all of the input, a cluster file, a line `===` and a script, and then writes of which commands something that the script
/// expects doesn't hold, and how many there are, where live nodes answer, with messages taken in this order.
///
/// Behind a command lines `#= TEXT` are what live nodes are to answer, all lines and no other, and a line `#? TEXT` is one that their
/// report then is to have, spaces at the front aside. A command without them may be answered anything. It ends at the first line
/// that is no command. The input has at most 16,777,216 bytes. Neither device is flushed.
///
/// # Errors
/// `Cluster`, `BadLine` and `Differs` are the end of the text that was written. `Read` comes where the reader has failed or
/// the input is too long: nothing was written. `Write` comes where the writer has failed, and `OutOfMemory` where a growth
/// was refused: a front of the text was written.
pub fn run_live_verify<S: Source, K: Sink>(
    alloc: Global,
    reader: &mut Watched<S>,
    writer: &mut Watched<K>,
    order: Order,
) -> Result<(), RunFault>
    requires reader { reader.old.failed ≡ false }
    requires writer { writer.old.failed ≡ false }
    ensures { ProgramGives S.gives S.fails K.takes K.fails
        (OwesLiveVerify order) NoThreads result reader.old reader.new writer.old writer.new }
{
    let input = read_input(alloc, reader)?;
    let told = verify_input(alloc, input.as_slice(), writer, order)?;
    ended(told)
}

// Writes what the verification of an input tells.
#[tactic(auto, unfolding(crate::specs::LiveVerify::live_verify_text, crate::specs::LiveVerify::live_verify_end))]
fn verify_input<K: Sink>(
    alloc: Global,
    input: &[u8],
    writer: &mut Watched<K>,
    order: Order,
) -> Result<Option<Told>, WriteFault>
    requires { writer.old.failed ≡ false }
    ensures { Wrote K.takes K.fails result (live_verify_text order input.now)
        (live_verify_end order input.now) writer.old writer.new }
{
    let (text, script) = cut(input);
    match read_cluster(alloc, text) {
        Err(fault) => {
            if fault.is_memory() {
                return Err(WriteFault::OutOfMemory);
            }
            write_fault(alloc, &fault, writer)?;
            Ok(Some(Told::Cluster(fault)))
        }
        Ok(cluster) => {
            let files = own_files(alloc, &cluster, text)?;
            let sim = LiveSim::open(alloc, cluster, files, order)?;
            verify_nodes(alloc, sim, text, script, writer)
        }
    }
}

// Writes what the verification of a script tells, which stands behind this text, where these live nodes answer.
fn verify_nodes<K: Sink>(
    alloc: Global,
    sim: LiveSim,
    text: &[u8],
    script: &[u8],
    writer: &mut Watched<K>,
) -> Result<Option<Told>, WriteFault>
    requires { writer.old.failed ≡ false }
    ensures { let k = line_behind text.now in Wrote K.takes K.fails result
        (script_text live sim k (lines_of script.now)) (script_end live sim k (lines_of script.now))
        writer.old writer.new }
{
    let mut nodes = LiveNodes { sim };
    verify_script(alloc, &mut nodes, text, script, writer)
}
