//! The story of an input, over any simulation.

ghost use Rattle.std.specs.Prelude.{◌≡◌, [], map, false, IfOk};
ghost use Rattle.rh_script.specs.Lines.{raw_lines, content, script_lines};
ghost use Rattle.rh_run.specs.RunText.{bad_line, lines_asked, Wrote, Broke};
ghost use Rattle.rh_story.specs.StoryText.{head_if, lines_by, story_behind};

use crate::head::{head_text, script_of};
use crate::lines::tell_line;
use crate::table::{lack_behind, text_to_show};
use crate::teller::Teller;
use rh_base::OutOfMemory;
use rh_devices::{Sink, Watched, WriteFault, write_text};
use rh_script::split_line;
use std::alloc::Global;

/// Writes the story of an input, which describes the cluster of this simulation: its script again, with what came of each command, and
/// what stands at the end. With `whole` the cluster's text and the line `===` come first. The answer is the number of the bad line
/// that ended its commands, if one did; what is behind it stands as it was.
///
/// # Errors
/// Where the writer has failed, or a growth was refused: a front of the text was written.
pub fn tell_story<T: Teller, K: Sink>(
    alloc: Global,
    sim: &mut T,
    input: &[u8],
    writer: &mut Watched<K>,
    whole: bool,
) -> Result<Option<u64>, WriteFault>
    requires { writer.old.failed ≡ false }
    ensures { let s = T.view sim.old in Wrote K.takes K.fails result
        (story_behind T.telling s whole (raw_lines input.now))
        (bad_line 1 (lines_asked ((T.telling).cluster s) (script_lines input.now)))
        writer.old writer.new }
{
    let head = head_if(alloc, input, whole)?;
    write_head(head.as_slice(), writer)?;
    let lack = lack_behind("", head.as_slice());
    tell_lines(alloc, sim, lack, script_of(input), writer)
}

// The cluster's text with the line `===`, where the whole is asked for.
fn head_if(alloc: Global, input: &[u8], whole: bool) -> Result<Vec<u8>, OutOfMemory>
    ensures { IfOk result (λ text. text.items ≡ head_if whole (raw_lines input.now)) }
{
    if whole {
        head_text(alloc, input)
    } else {
        Ok(Vec::new(alloc))
    }
}

// Writes the text before the script.
fn write_head<K: Sink>(head: &[u8], writer: &mut Watched<K>) -> Result<(), WriteFault>
    requires { writer.old.failed ≡ false }
    ensures { Broke K.takes K.fails result head.now writer.old writer.new }
{
    write_text(writer, head)
}

// Writes the story of lines, the first of which has number 1, behind a text that lacks so much of its end. The answer is the
// number of the first bad line.
fn tell_lines<T: Teller, K: Sink>(
    alloc: Global,
    sim: &mut T,
    lack: &'static str,
    script: &[u8],
    writer: &mut Watched<K>,
) -> Result<Option<u64>, WriteFault>
    requires { writer.old.failed ≡ false }
    ensures { let s = T.view sim.old in Wrote K.takes K.fails result
        (lines_by T.telling s 1 lack.now (raw_lines script.now))
        (bad_line 1 (lines_asked ((T.telling).cluster s) (map content (raw_lines script.now))))
        writer.old writer.new }
{
    let mut room = Vec::new(alloc);
    let mut rest = script;
    let mut number: u64 = 1;
    let mut behind = lack;
    'lines: while !rest.is_empty() {
        let (line, after) = split_line(rest);
        let is_bad = tell_line(alloc, &mut room, sim, number, line)?;
        let text = text_to_show(line, after, room.as_slice());
        write_text(writer, text)?;
        if is_bad {
            write_text(writer, after)?;
            return Ok(Some(number));
        }
        behind = lack_behind(behind, text);
        rest = after;
        number += 1;
    }
    drop(room);
    write_ending(alloc, sim, behind, writer)?;
    Ok(None)
}

// Writes what stands at the end, behind a text that lacks so much of its end.
fn write_ending<T: Teller, K: Sink>(
    alloc: Global,
    sim: &mut T,
    lack: &str,
    writer: &mut Watched<K>,
) -> Result<(), WriteFault>
    requires { writer.old.failed ≡ false }
    ensures { Broke K.takes K.fails result
        ((T.telling).ending lack.now (T.view sim.old)) writer.old writer.new }
{
    let text = sim.ending(alloc, lack)?;
    write_text(writer, text.as_slice())
}
