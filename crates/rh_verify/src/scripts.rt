//! The verification of a script, over any rehearsal.

ghost use Rattle.std.specs.Prelude.{◌≡◌, ◌+◌, ◌≤◌, length, false};
ghost use Rattle.rh_run.specs.RunText.{Wrote};
ghost use Rattle.rh_verify.specs.Spaces.{lines_of};
ghost use Rattle.rh_verify.specs.VerifyText.{line_behind, script_text, script_end, last_text, last_end, tally_end};

use crate::blocks::{write_blocks, write_stray};
use crate::expected::lines_before;
use crate::rehearsal::Rehearsal;
use crate::spaces::line_count;
use crate::tally::{Tally, tally_text, with_stray};
use rh_devices::{Sink, Watched, WriteFault, write_text};
use rh_run::{Told, answer_bad};
use std::alloc::Global;

/// Writes what the verification of a script tells, which stands behind the cluster's text and a line `===`: of which commands
/// something that the script expects doesn't hold, and how many there are. The answer is the fault that this tells.
///
/// The rehearsal answers the commands, and is where they lead behind it. The text ends at the first line that is no command.
///
/// # Errors
/// Where the writer has failed, or a growth was refused: a front of the text was written.
pub fn verify_script<R: Rehearsal, K: Sink>(
    alloc: Global,
    rehearsal: &mut R,
    text: &[u8],
    script: &[u8],
    writer: &mut Watched<K>,
) -> Result<Option<Told>, WriteFault>
    requires { writer.old.failed ≡ false }
    ensures { let k = line_behind text.now in Wrote K.takes K.fails result
        (script_text R.rules (R.view rehearsal.old) k (lines_of script.now))
        (script_end R.rules (R.view rehearsal.old) k (lines_of script.now))
        writer.old writer.new }
{
    let first = line_behind(text);
    let lines = lines_before(alloc, rehearsal.cluster(), script)?;
    let count = write_stray(alloc, first, lines.as_slice(), writer)?;
    let counted = write_blocks(alloc, rehearsal, first, script, writer)?;
    write_last(alloc, with_stray(count, counted.0), counted.1, writer)
}

// The number of a script's first line, where it stands behind this text and the line `===`.
fn line_behind(text: &[u8]) -> u64
    ensures number { result ≡ line_behind text.now }
    ensures within { result ≤ length text.now + 2 }
{
    line_count(text) + 2
}

// Writes the counts, or the line that is no command, and answers the fault that this tells.
fn write_last<K: Sink>(
    alloc: Global,
    tally: Tally,
    bad: Option<u64>,
    writer: &mut Watched<K>,
) -> Result<Option<Told>, WriteFault>
    requires { writer.old.failed ≡ false }
    ensures { Wrote K.takes K.fails result (last_text tally bad)
        (last_end tally bad) writer.old writer.new }
{
    match bad {
        Some(number) => {
            answer_bad(alloc, number, writer)?;
            Ok(Some(Told::BadLine(number)))
        }
        None => {
            let text = tally_text(alloc, tally)?;
            write_text(writer, text.as_bytes())?;
            Ok(tally_end(tally))
        }
    }
}

// The fault that the last line tells.
fn tally_end(tally: Tally) -> Option<Told>
    ensures { result ≡ tally_end tally }
{
    if tally.differing == 0 {
        None
    } else {
        Some(Told::Differs)
    }
}
