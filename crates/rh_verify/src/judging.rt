//! What doesn't hold of a command, and the block that tells it.

ghost use Rattle.std.specs.Prelude.{◌≡◌, ◌≢◌, ◌++◌, List, ℕ, map, codes, IfOk, OnOk};
ghost use Rattle.std.specs.List.{flat_map};
ghost use Rattle.std.specs.Option.{MatchOption};
ghost use Rattle.std.specs.Str.{bytes_eq};
ghost use Rattle.rh_verify.specs.Spaces.{lines_of, below};
ghost use Rattle.rh_verify.specs.Expected.{answers_in, wanted_among};
ghost use Rattle.rh_verify.specs.Judging.{verdict_of};
ghost use Rattle.rh_verify.specs.Blocks.{is_answered, has_line, missing, head_line, block_of, stray_text};

use crate::expected::{answers_in, wanted_among};
use crate::rehearsal::Rehearsal;
use crate::spaces::{lines_of, push_each, without_front, without_spaces};
use crate::tally::Verdict;
use rh_base::OutOfMemory;
use std::alloc::Global;

// What stands behind this line and its end, where a text begins with them.
fn behind_line<'a>(text: &'a [u8], line: &[u8]) -> Option<&'a [u8]>
    ensures { MatchOption result ((rest : List ℕ) → text.now ≢ line.now ++ codes "\n" ++ rest)
        (λ rest. text.now ≡ line.now ++ codes "\n" ++ rest.now) }
{
    match text.strip_prefix(line) {
        Some(rest) => rest.strip_prefix(b"\n".as_slice()),
        None => None,
    }
}

// Whether a text is these lines, each with its end.
fn is_joined(lines: &[&[u8]], text: &[u8]) -> bool
    ensures { result
        ≡ bytes_eq (flat_map (λ l. l ++ codes "\n") (map (λ line. line.now) lines.now)) text.now }
{
    let mut rest = text;
    for line in lines {
        match behind_line(rest, *line) {
            Some(after) => rest = after,
            None => return false,
        }
    }
    rest.is_empty()
}

// Whether an answer is these lines and no other. Where there are none, it may be any.
fn is_answered(lines: &[&[u8]], answer: &[u8]) -> bool
    ensures { result ≡ is_answered (map (λ line. line.now) lines.now) answer.now }
{
    if lines.is_empty() {
        return true;
    }
    is_joined(lines, answer)
}

// Whether a report of these lines has this line, spaces at the front aside.
fn has_line(report: &[&[u8]], line: &[u8]) -> bool
    ensures { result ≡ has_line (map (λ l. l.now) report.now) line.now }
{
    let wanted = without_front(line);
    for line in report {
        if without_front(*line) == wanted {
            return true;
        }
    }
    false
}

// Those of the wanted lines that a report lacks.
fn missing_lines<'a>(
    alloc: Global,
    report: &[u8],
    wanted: &[&'a [u8]],
) -> Result<Vec<&'a [u8]>, OutOfMemory>
    ensures { IfOk result (λ lines. map (λ line. line.now) lines.items
        ≡ missing report.now (map (λ line. line.now) wanted.now)) }
{
    let report = lines_of(alloc, report)?;
    let mut lines = Vec::new(alloc);
    for line in wanted {
        if !has_line(report.as_slice(), *line) {
            lines.push(*line)?;
        }
    }
    Ok(lines)
}

// Those of the wanted lines that the report of a rehearsal lacks. Where none is wanted, the report isn't made.
fn missing_in_report<'a, R: Rehearsal>(
    alloc: Global,
    rehearsal: &R,
    wanted: &[&'a [u8]],
) -> Result<Vec<&'a [u8]>, OutOfMemory>
    ensures { IfOk result (λ lines. map (λ line. line.now) lines.items
        ≡ missing ((R.rules).report (R.view rehearsal.now)) (map (λ line. line.now) wanted.now)) }
{
    if wanted.is_empty() {
        return Ok(Vec::new(alloc));
    }
    let report = rehearsal.report(alloc)?;
    missing_lines(alloc, report.as_slice(), wanted)
}

// The first line of a block: the number of a line, and what stands there.
fn head_line(alloc: Global, number: u64, line: &[u8]) -> Result<Vec<u8>, OutOfMemory>
    ensures { IfOk result (λ text. text.items ≡ head_line number line.now) }
{
    let mut text = format!(in alloc; "line {number}: ")?.into_bytes();
    text.extend_from_slice(line)?;
    text.extend_from_slice(b"\n".as_slice())?;
    Ok(text)
}

// Adds an answer that isn't what was wanted: all that was, and all that came.
fn push_answer(
    alloc: Global,
    block: &mut Vec<u8>,
    wanted: &[&[u8]],
    came: &[u8],
) -> Result<(), OutOfMemory>
    ensures { OnOk result (block.new.items
        ≡ block.old.items ++ (flat_map (below (codes "wanted ")) (map (λ line. line.now) wanted.now)
        ++ flat_map (below (codes "came ")) (lines_of came.now))) }
{
    let came = lines_of(alloc, came)?;
    push_each(block, "wanted ", wanted)?;
    push_each(block, "came ", came.as_slice())
}

// What is told of a command of which something doesn't hold, and nothing of another.
fn block_of(
    alloc: Global,
    number: u64,
    line: &[u8],
    wanted: &[&[u8]],
    came: &[u8],
    lacking: &[&[u8]],
) -> Result<Vec<u8>, OutOfMemory>
    ensures { IfOk result (λ text. text.items ≡ block_of number line.now
        (map (λ l. l.now) wanted.now) came.now (map (λ l. l.now) lacking.now)) }
{
    let is_answered = is_answered(wanted, came);
    if is_answered && lacking.is_empty() {
        return Ok(Vec::new(alloc));
    }
    let mut block = head_line(alloc, number, without_spaces(line))?;
    if !is_answered {
        push_answer(alloc, &mut block, wanted, came)?;
    }
    push_each(&mut block, "wanted in the report ", lacking)?;
    Ok(block)
}

// The block of a command that was answered this, with such lines behind it, and what became of it. The rehearsal is that behind it.
pub fn judge<R: Rehearsal>(
    alloc: Global,
    rehearsal: &R,
    number: u64,
    line: &[u8],
    came: &[u8],
    behind: &[&[u8]],
) -> Result<(Vec<u8>, Verdict), OutOfMemory>
    ensures block { IfOk result (λ found. let lines = map (λ l. l.now) behind.now in found.0.items
        ≡ block_of number line.now (answers_in lines) came.now
        (missing ((R.rules).report (R.view rehearsal.now)) (wanted_among lines))) }
    ensures verdict { IfOk result (λ found. let lines = map (λ l. l.now) behind.now in found.1
        ≡ verdict_of (answers_in lines) came.now (wanted_among lines)
        (missing ((R.rules).report (R.view rehearsal.now)) (wanted_among lines))) }
{
    let answers = answers_in(alloc, behind)?;
    let wanted = wanted_among(alloc, behind)?;
    let lacking = missing_in_report(alloc, rehearsal, wanted.as_slice())?;
    let block = block_of(
        alloc,
        number,
        line,
        answers.as_slice(),
        came,
        lacking.as_slice(),
    )?;
    let is_checked = !answers.is_empty() || !wanted.is_empty();
    let differs = !block.is_empty();
    Ok((
        block,
        Verdict {
            is_checked,
            differs,
        },
    ))
}

// The block of an expectation to which there is no command.
#[tactic(auto, unfolding(crate::specs::Blocks::stray_text))]
pub fn stray_text(alloc: Global, number: u64, line: &[u8]) -> Result<Vec<u8>, OutOfMemory>
    ensures { IfOk result (λ text. text.items ≡ stray_text (number, line.now)) }
{
    let mut block = head_line(alloc, number, line)?;
    block.extend_from_slice(b"  no command stands before it\n".as_slice())?;
    Ok(block)
}
