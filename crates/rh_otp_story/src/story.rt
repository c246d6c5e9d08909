//! The program `story --rules otp25`: a script is printed again, with what live nodes answer behind each command.

ghost use Rattle.std.specs.Prelude.{◌≡◌, false};
ghost use Rattle.rh_otp_sim.specs.Sim.{opened};
ghost use Rattle.rh_script.specs.Lines.{raw_lines, script_lines};
ghost use Rattle.rh_run.specs.RunText.{bad_line, lines_asked, run_end, Wrote};
ghost use Rattle.rh_run.specs.Programs.{ProgramGives, NoThreads};
ghost use Rattle.rh_story.specs.StoryText.{story_behind};
ghost use Rattle.rh_otp_story.specs.LiveStory.{live, live_story_text, OwesLiveStory};

use crate::telling::LiveNodes;
use rh_cluster::{Cluster, read_cluster};
use rh_devices::{Sink, Source, Watched, WriteFault, read_input};
use rh_otp_file::own_files;
use rh_otp_model::OwnFile;
use rh_otp_net::Order;
use rh_otp_sim::LiveSim;
use rh_run::{RunFault, Told, ended, write_fault};
use rh_script::cut;
use rh_story::tell_story;
use std::alloc::Global;

/// Reads all of the input, a cluster file, a line `===` and a script, and writes the script again: each line as it stands, and behind
/// each command the lines of the answer of live nodes, with messages taken in this order, as comments `#= `; behind these, as comments
/// `#- `, each line `N blocked ..` of what hangs by the report behind the command, and didn't by the one before it: the words of the
/// report, with the node's name in front. With `whole` the cluster file and the line `===` come first.
///
/// There are no times, since what live nodes tell has none, and there is no table at the end. What an earlier story wrote is left
/// out: comment lines, and the blank line before its table. The first line that is no command ends the commands: it is told, and the
/// rest stands as it was. The input has at most 16,777,216 bytes. Neither device is flushed.
///
/// # Errors
/// `Cluster` and `BadLine` are told in the text that was written. `Read` comes where the reader has failed or the input is too long:
/// nothing was written. `Write` comes where the writer has failed, and `OutOfMemory` where a growth was refused: a front of the
/// text was written.
pub fn run_live_story<S: Source, K: Sink>(
    alloc: Global,
    reader: &mut Watched<S>,
    writer: &mut Watched<K>,
    order: Order,
    whole: bool,
) -> Result<(), RunFault>
    requires reader { reader.old.failed ≡ false }
    requires writer { writer.old.failed ≡ false }
    ensures { ProgramGives S.gives S.fails K.takes K.fails
        (OwesLiveStory order whole) NoThreads result reader.old reader.new writer.old writer.new }
{
    let input = read_input(alloc, reader)?;
    let told = tell_input(alloc, input.as_slice(), writer, order, whole)?;
    ended(told)
}

// Writes the story of an input.
#[tactic(auto, unfolding(crate::specs::LiveStory::live_story_text, rh_run::specs::RunText::run_end))]
fn tell_input<K: Sink>(
    alloc: Global,
    input: &[u8],
    writer: &mut Watched<K>,
    order: Order,
    whole: bool,
) -> Result<Option<Told>, WriteFault>
    requires { writer.old.failed ≡ false }
    ensures { Wrote K.takes K.fails result (live_story_text order whole input.now)
        (run_end input.now) writer.old writer.new }
{
    let (text, _script) = cut(input);
    match read_cluster(alloc, text) {
        Err(fault) => {
            if fault.is_memory() {
                return Err(WriteFault::OutOfMemory);
            }
            write_fault(alloc, &fault, writer)?;
            Ok(Some(Told::Cluster(fault)))
        }
        Ok(cluster) => {
            let files = own_files(alloc, &cluster, text)?;
            let bad = tell_cluster(alloc, cluster, files, order, input, writer, whole)?;
            Ok(bad.map(Told::BadLine))
        }
    }
}

// Writes the story of an input whose cluster this is, and whose nodes' own files say this. The answer is the number of the bad line
// that ended its commands, if one did.
fn tell_cluster<K: Sink>(
    alloc: Global,
    cluster: Cluster,
    files: Vec<OwnFile>,
    order: Order,
    input: &[u8],
    writer: &mut Watched<K>,
    whole: bool,
) -> Result<Option<u64>, WriteFault>
    requires { writer.old.failed ≡ false }
    ensures { Wrote K.takes K.fails result
        (story_behind live (opened cluster files.items order) whole (raw_lines input.now))
        (bad_line 1 (lines_asked cluster (script_lines input.now))) writer.old writer.new }
{
    let sim = LiveSim::open(alloc, cluster, files, order)?;
    let mut nodes = LiveNodes { sim };
    tell_story(alloc, &mut nodes, input, writer, whole)
}
