//! What is told of an accepted event: its notices with their reasons, and in a tick by the timers that fired.

ghost use Rattle.std.specs.Prelude.{◌≡◌, ◌++◌, OnOk};
ghost use Rattle.std.specs.List.{flat_map};
ghost use Rattle.rh_state.specs.Stored.{read};
ghost use Rattle.rh_trace.specs.Validity.{IsValid};
ghost use Rattle.rh_story.specs.LineText.{answer_lines, time_line, notice_lines, firing_lines};

use crate::reasons::push_why;
use rh_base::OutOfMemory;
use rh_script::{Kind, mark, push_notice as push_notice_line, split_line};
use rh_state::State;
use rh_step::{FiredTimer, Notice};
use std::alloc::Global;

/// Adds each line of an answer behind the mark of answers.
pub fn push_answer(text: &mut Vec<u8>, answer: &[u8]) -> Result<(), OutOfMemory>
    ensures { OnOk result (text.new.items ≡ text.old.items ++ answer_lines answer.now) }
{
    let mut rest = answer;
    'lines: while !rest.is_empty() {
        let (line, after) = split_line(rest);
        text.extend_from_slice(mark(Kind::Answer).as_bytes())?;
        text.extend_from_slice(line)?;
        rest = after;
    }
    Ok(())
}

// Adds the line of a time.
fn push_time(alloc: Global, text: &mut Vec<u8>, time: u64) -> Result<(), OutOfMemory>
    ensures { OnOk result (text.new.items ≡ text.old.items ++ time_line time) }
{
    let words = format!(in alloc; "{time}\n")?;
    text.extend_from_slice(mark(Kind::Time).as_bytes())?;
    text.extend_from_slice(words.as_bytes())?;
    Ok(())
}

// Adds a notice, and why it is told. Each line is made in a buffer, whatever that held.
fn push_notice(
    text: &mut Vec<u8>,
    line: &mut String,
    state: &State,
    notice: &Notice,
) -> Result<(), OutOfMemory>
    requires { IsValid (read state.now) }
    ensures { OnOk result
        (text.new.items ≡ text.old.items ++ notice_lines (read state.now) notice.now) }
{
    line.clear();
    // As much as most lines take.
    line.reserve(64)?;
    push_notice_line(line, state.cluster(), notice)?;
    push_answer(text, line.as_bytes())?;
    push_why(text, line, state, notice)
}

/// Adds notices, each with why it is told by this state.
pub fn push_notices(
    alloc: Global,
    text: &mut Vec<u8>,
    state: &State,
    notices: &[Notice],
) -> Result<(), OutOfMemory>
    requires { IsValid (read state.now) }
    ensures { OnOk result
        (text.new.items ≡ text.old.items ++ flat_map (notice_lines (read state.now)) notices.now) }
{
    let mut line = String::new(alloc);
    for notice in notices {
        push_notice(text, &mut line, state, notice)?;
    }
    Ok(())
}

// Adds what a timer that fired told.
fn push_firing(
    alloc: Global,
    text: &mut Vec<u8>,
    state: &State,
    fired: &FiredTimer,
) -> Result<(), OutOfMemory>
    requires { IsValid (read state.now) }
    ensures { OnOk result
        (text.new.items ≡ text.old.items ++ firing_lines (read state.now) fired.now) }
{
    if fired.notices().is_empty() {
        return Ok(());
    }
    push_time(alloc, text, fired.due())?;
    push_notices(alloc, text, state, fired.notices())
}

/// Adds what is told of an accepted tick in which these timers fired, which led to this state.
pub fn push_firings(
    alloc: Global,
    text: &mut Vec<u8>,
    state: &State,
    firings: &[FiredTimer],
) -> Result<(), OutOfMemory>
    requires { IsValid (read state.now) }
    ensures { OnOk result
        (text.new.items ≡ text.old.items ++ flat_map (firing_lines (read state.now)) firings.now) }
{
    for fired in firings {
        push_firing(alloc, text, state, fired)?;
    }
    Ok(())
}
