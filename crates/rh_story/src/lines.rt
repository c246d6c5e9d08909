//! What is told of a line of the script.

ghost use Rattle.std.specs.Prelude.{◌≡◌, ◌++◌, [], OnOk, IfOk, ◌≤◌, vec_capacity};
ghost use Rattle.rh_script.specs.Lines.{content};
ghost use Rattle.rh_script.specs.Commands.{line_of};
ghost use Rattle.rh_script.specs.Answers.{bad_text};
ghost use Rattle.rh_story.specs.LineText.{answer_lines, kept, line_by, behind_by, is_bad};
ghost use Rattle.rh_story.specs.declared.lines.TheConstants.{KEPT};

use crate::head::push_closed;
use crate::teller::Teller;
use crate::ticks::push_answer;
use rh_base::OutOfMemory;
use rh_script::{Line, bad_text, content, is_told, line_of};
use std::alloc::Global;

// Room that is kept from line to line, in bytes: what nearly all lines take, with what comes of them.
const KEPT: usize = 65_536;

// Empties a buffer. The room for a longer text is given back, all of it: a smaller block would have to be asked for.
fn empty(text: &mut Vec<u8>)
    ensures items { text.new.items ≡ [] }
    ensures room { vec_capacity text.new ≤ KEPT }
{
    text.clear();
    if text.capacity() > KEPT {
        text.shrink_to(0);
    }
}

/// Makes what a story writes for a line of this number, which is given to the simulation, in a buffer, whatever that held. The
/// answer is whether the line is no command.
pub fn tell_line<T: Teller>(
    alloc: Global,
    text: &mut Vec<u8>,
    sim: &mut T,
    number: u64,
    line: &[u8],
) -> Result<bool, OutOfMemory>
    ensures text { let s = T.view sim.old in OnOk result (text.new.items ≡ line_by T.telling s
        number line.now (line_of ((T.telling).cluster s) (content line.now))) }
    ensures bad { IfOk result (λ bad. bad
        ≡ is_bad (line_of ((T.telling).cluster (T.view sim.old)) (content line.now))) }
    ensures sim { let s = T.view sim.old in OnOk result (T.view sim.new
        ≡ behind_by T.telling s (line_of ((T.telling).cluster s) (content line.now))) }
    ensures cluster { OnOk result
        ((T.telling).cluster (T.view sim.new) ≡ (T.telling).cluster (T.view sim.old)) }
{
    empty(text);
    let asked = line_of(alloc, sim.cluster(), content(line))?;
    match asked {
        Line::Nothing => push_kept(text, line)?,
        Line::Asks(call) => {
            push_closed(text, line)?;
            sim.push_call(alloc, text, call)?;
        }
        Line::Bad => {
            push_closed(text, line)?;
            push_bad(alloc, text, number)?;
        }
    }
    Ok(matches!(asked, Line::Bad))
}

// Adds a line that asks nothing, as it stands, unless an earlier story told it.
fn push_kept(text: &mut Vec<u8>, line: &[u8]) -> Result<(), OutOfMemory>
    ensures { OnOk result (text.new.items ≡ text.old.items ++ kept line.now) }
{
    if !is_told(content(line)) {
        text.extend_from_slice(line)?;
    }
    Ok(())
}

// Adds that a line is no command.
fn push_bad(alloc: Global, text: &mut Vec<u8>, number: u64) -> Result<(), OutOfMemory>
    ensures { OnOk result (text.new.items ≡ text.old.items ++ answer_lines (bad_text number)) }
{
    let answer = bad_text(alloc, number)?;
    push_answer(text, answer.as_bytes())
}
