//! The blocks of a script, which are written as its commands are made.

ghost use Rattle.std.specs.Prelude.{◌≡◌, ◌+◌, ◌<◌, ◌≤◌, ◌^◌, length, map, false, IfOk, OnOk};
ghost use Rattle.std.specs.List.{filter, flat_map};
ghost use Rattle.rh_script.specs.Commands.{line_of};
ghost use Rattle.rh_run.specs.RunText.{bad_line, lines_asked};
ghost use Rattle.rh_verify.specs.Spaces.{lines_of};
ghost use Rattle.rh_verify.specs.Expected.{check_of, asked_by, Passes, numbered, is_expectation};
ghost use Rattle.rh_verify.specs.Blocks.{block_text, stray_text};
ghost use Rattle.rh_verify.specs.Counts.{tally_of};
ghost use Rattle.rh_verify.specs.Judging.{verdict_on, Gave, Takes, was_bad};
ghost use Rattle.rh_verify.specs.VerifyText.{script_checks};

use crate::expected::{is_expectation, lines_ahead};
use crate::judging::{judge, stray_text};
use crate::rehearsal::Rehearsal;
use crate::tally::{Tally, Verdict, with_verdict};
use rh_calls::Call;
use rh_devices::{Sink, Watched, WriteFault, write_text};
use rh_script::{Line, content, line_of, split_line};
use std::alloc::Global;

// Writes the blocks of the expectations among these lines, of which the first has this number, and answers how many there are.
pub fn write_stray<K: Sink>(
    alloc: Global,
    first: u64,
    lines: &[&[u8]],
    writer: &mut Watched<K>,
) -> Result<u64, WriteFault>
    requires writer { writer.old.failed ≡ false }
    requires numbers { first + length lines.now ≤ 2 ^ 64 }
    ensures text { let found = filter (λ at. is_expectation at.1)
        (numbered first (map (λ line. line.now) lines.now)) in Gave K.takes K.fails result
        (flat_map stray_text found) (length found) writer.old writer.new }
    ensures within { IfOk result (λ count. count ≤ length lines.now) }
{
    let mut count: u64 = 0;
    for place in 0..lines.len() {
        if is_expectation(lines[place]) {
            let block = stray_text(alloc, first + place as u64, lines[place])?;
            write_text(writer, block.as_slice())?;
            count += 1;
        }
    }
    Ok(count)
}

// Writes the blocks of the commands of a script, whose first line has this number, up to the first bad line. It answers what was
// counted, and the number of that line, counted from 1.
pub fn write_blocks<R: Rehearsal, K: Sink>(
    alloc: Global,
    rehearsal: &mut R,
    first: u64,
    script: &[u8],
    writer: &mut Watched<K>,
) -> Result<(Tally, Option<u64>), WriteFault>
    requires writer { writer.old.failed ≡ false }
    requires begun { 1 ≤ first }
    requires numbers { first + length script.now ≤ 2 ^ 64 }
    ensures text { let sim = R.view rehearsal.old in let lines = lines_of script.now in
        let all = script_checks R.rules sim first lines in
        let bad = bad_line 1 (lines_asked ((R.rules).cluster sim) lines) in
        Gave K.takes K.fails result (flat_map block_text all) (tally_of all, bad)
        writer.old writer.new }
    ensures counted { IfOk result (λ v. (v.0.commands ≤ length script.now)
        × (v.0.checked ≤ length script.now) × (v.0.differing ≤ length script.now)) }
{
    let mut tally = Tally {
        commands: 0,
        checked: 0,
        differing: 0,
    };
    let mut behind = Vec::new(alloc);
    let mut rest = script;
    let mut passed: u64 = 0;
    'lines: while !rest.is_empty() {
        let (line, after) = split_line(rest);
        let taken = take_line(
            alloc,
            rehearsal,
            first + passed,
            content(line),
            after,
            &mut behind,
            &mut tally,
            writer,
        )?;
        if taken.is_bad {
            return Ok((tally, Some(passed + 1)));
        }
        rest = taken.rest;
        passed += taken.count;
    }
    Ok((tally, None))
}

// What was taken of a script: a line, and those that were read with it.
#[derive(Clone, Copy)]
pub struct Taken<'a> {
    // Whether the line is bad.
    pub is_bad: bool,
    // What stands behind the lines that were taken, and how many they are.
    pub rest: &'a [u8],
    pub count: u64,
}

// Takes a line, and writes the block of its command, if it is one. With a command the comments and blank lines behind it are taken:
// they are put into a list, whatever that held.
fn take_line<'a, R: Rehearsal, K: Sink>(
    alloc: Global,
    rehearsal: &mut R,
    number: u64,
    line: &[u8],
    after: &'a [u8],
    behind: &mut Vec<&'a [u8]>,
    tally: &mut Tally,
    writer: &mut Watched<K>,
) -> Result<Taken<'a>, WriteFault>
    requires writer { writer.old.failed ≡ false }
    requires commands { tally.old.commands + 1 < 2 ^ 64 }
    requires checked { tally.old.checked + 1 < 2 ^ 64 }
    requires differing { tally.old.differing + 1 < 2 ^ 64 }
    ensures taken { let sim = R.view rehearsal.old in let c = (R.rules).cluster sim in
        Takes K.takes K.fails R.rules (was_bad result) sim (R.view rehearsal.new)
        tally.old tally.new number (line.now, line_of c line.now) (asked_by c (lines_of after.now))
        writer.old writer.new }
    ensures cluster { OnOk result ((R.rules).cluster (R.view rehearsal.new)
        ≡ (R.rules).cluster (R.view rehearsal.old)) }
    ensures rest { let c = (R.rules).cluster (R.view rehearsal.old) in IfOk result (λ taken.
        Passes (asked_by c (lines_of after.now)) (asked_by c (lines_of taken.rest.now))
        taken.count) }
    ensures some { IfOk result (λ taken. 1 ≤ taken.count) }
    ensures within { IfOk result
        (λ taken. taken.count + length taken.rest.now ≤ length after.now + 1) }
{
    match line_of(alloc, rehearsal.cluster(), line)? {
        Line::Nothing => Ok(Taken {
            is_bad: false,
            rest: after,
            count: 1,
        }),
        Line::Bad => Ok(Taken {
            is_bad: true,
            rest: after,
            count: 1,
        }),
        Line::Asks(call) => {
            let rest = lines_ahead(alloc, rehearsal.cluster(), behind, after)?;
            let lines = behind.as_slice();
            let verdict = write_block(alloc, rehearsal, number, line, call, lines, writer)?;
            *tally = with_verdict(*tally, verdict);
            Ok(Taken {
                is_bad: false,
                rest,
                count: behind.len() as u64 + 1,
            })
        }
    }
}

// Makes a call, and writes what doesn't hold of its command, behind which these lines stand.
#[tactic(auto, unfolding(crate::specs::Blocks::block_text))]
fn write_block<R: Rehearsal, K: Sink>(
    alloc: Global,
    rehearsal: &mut R,
    number: u64,
    line: &[u8],
    call: Call,
    behind: &[&[u8]],
    writer: &mut Watched<K>,
) -> Result<Verdict, WriteFault>
    requires { writer.old.failed ≡ false }
    ensures behind { OnOk result
        (R.view rehearsal.new ≡ (R.rules).behind (R.view rehearsal.old) call) }
    ensures cluster { OnOk result ((R.rules).cluster (R.view rehearsal.new)
        ≡ (R.rules).cluster (R.view rehearsal.old)) }
    ensures text { let sim = R.view rehearsal.old in
        let x = check_of R.rules number line.now sim call (map (λ l. l.now) behind.now) in
        Gave K.takes K.fails result (block_text x) (verdict_on x) writer.old writer.new }
{
    let came = rehearsal.answer(alloc, call)?;
    let (block, verdict) = judge(alloc, rehearsal, number, line, came.as_slice(), behind)?;
    write_text(writer, block.as_slice())?;
    Ok(verdict)
}
