//! The program `story`: a script is printed again, with what came of each command behind it.

ghost use Rattle.std.specs.Prelude.{◌≡◌, false};
ghost use Rattle.rh_trail.specs.Lone.{opened};
ghost use Rattle.rh_script.specs.Lines.{raw_lines, script_lines};
ghost use Rattle.rh_run.specs.RunText.{bad_line, lines_asked, run_end, Wrote};
ghost use Rattle.rh_run.specs.Programs.{ProgramGives, NoThreads};
ghost use Rattle.rh_story.specs.LineText.{manual};
ghost use Rattle.rh_story.specs.StoryText.{story_behind, story_text, OwesStory};

use crate::writing::tell_story;
use rh_cluster::{Cluster, read_cluster};
use rh_devices::{Sink, Source, Watched, WriteFault, read_input};
use rh_run::{RunFault, Told, ended, write_fault};
use rh_script::cut;
use rh_step::Pick;
use rh_trail::Sim;
use std::alloc::Global;

/// Reads all of the input, a cluster file, a line `===` and a script, and writes the script again: each line as it stands,
/// and behind each command the lines of its answer as comments. Behind the last line, after a blank one, comes a line for each
/// distributed application: where it ran. With `whole` the cluster file and the line `===` come first.
///
/// What an earlier story wrote is left out: comment lines, and the blank line before its table. The first line that is no command
/// ends the commands: it is told, and the rest stands as it was, without a table. The input has at most 16,777,216 bytes. Neither
/// device is flushed.
///
/// # Errors
/// `Cluster` and `BadLine` are told in the text that was written. `Read` comes where the reader has failed or the
/// input is too long: nothing was written. `Write` comes where the writer has failed, and `OutOfMemory` where a growth
/// was refused: a front of the text was written.
pub fn run_story<S: Source, K: Sink>(
    alloc: Global,
    reader: &mut Watched<S>,
    writer: &mut Watched<K>,
    pick: Pick,
    whole: bool,
) -> Result<(), RunFault>
    requires reader { reader.old.failed ≡ false }
    requires writer { writer.old.failed ≡ false }
    ensures { ProgramGives S.gives S.fails K.takes K.fails
        (OwesStory pick whole) NoThreads result reader.old reader.new writer.old writer.new }
{
    let input = read_input(alloc, reader)?;
    let told = tell_input(alloc, input.as_slice(), writer, pick, whole)?;
    ended(told)
}

// Writes the story of an input.
#[tactic(auto, unfolding(crate::specs::StoryText::story_text, rh_run::specs::RunText::run_end))]
fn tell_input<K: Sink>(
    alloc: Global,
    input: &[u8],
    writer: &mut Watched<K>,
    pick: Pick,
    whole: bool,
) -> Result<Option<Told>, WriteFault>
    requires { writer.old.failed ≡ false }
    ensures { Wrote K.takes K.fails result (story_text input.now pick whole)
        (run_end input.now) writer.old writer.new }
{
    let (text, _script) = cut(input);
    match read_cluster(alloc, text) {
        Err(fault) => {
            if fault.is_memory() {
                return Err(WriteFault::OutOfMemory);
            }
            write_fault(alloc, &fault, writer)?;
            Ok(Some(Told::Cluster(fault)))
        }
        Ok(cluster) => {
            let bad = tell_cluster(alloc, cluster, input, writer, pick, whole)?;
            Ok(bad.map(Told::BadLine))
        }
    }
}

// Writes the story of an input whose cluster this is. The answer is the number of the bad line that ended its commands, if one did.
fn tell_cluster<K: Sink>(
    alloc: Global,
    cluster: Cluster,
    input: &[u8],
    writer: &mut Watched<K>,
    pick: Pick,
    whole: bool,
) -> Result<Option<u64>, WriteFault>
    requires { writer.old.failed ≡ false }
    ensures { Wrote K.takes K.fails result
        (story_behind manual (opened cluster pick) whole (raw_lines input.now))
        (bad_line 1 (lines_asked cluster (script_lines input.now))) writer.old writer.new }
{
    let mut sim = Sim::open(alloc, cluster, pick)?;
    tell_story(alloc, &mut sim, input, writer, whole)
}
