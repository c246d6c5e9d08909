//! What is expected of the commands of a script.

ghost use Rattle.std.specs.Prelude.{◌≡◌, ◌+◌, ◌≤◌, ◌++◌, [], length, map, IfOk, OnOk, vec_capacity};
ghost use Rattle.std.specs.List.{cons_option};
ghost use Rattle.rh_script.specs.Notes.{note_of};
ghost use Rattle.rh_verify.specs.Spaces.{lines_of};
ghost use Rattle.rh_verify.specs.Expected.{asked_by, ahead, passed_by, answer_in, wanted_in, answers_in, wanted_among, is_expectation};
ghost use Rattle.rh_verify.specs.declared.expected.TheConstants.{KEPT};

use crate::spaces::push_line;
use rh_base::OutOfMemory;
use rh_cluster::Cluster;
use rh_script::{Kind, Line, content, line_of, note_of, split_line};
use std::alloc::Global;

// Room for lines that is kept from command to command: for as many as nearly all commands have behind them.
const KEPT: usize = 1_024;

// Empties a list of lines. The room for a longer one is given back, all of it: a smaller block would have to be asked for.
fn empty<'a>(lines: &mut Vec<&'a [u8]>)
    ensures items { lines.new.items ≡ [] }
    ensures room { vec_capacity lines.new ≤ KEPT }
{
    lines.clear();
    if lines.capacity() > KEPT {
        lines.shrink_to(0);
    }
}

// Puts the comments and blank lines of a script that stand before the first command into a list, whatever that held. The answer is
// the script from that command on.
pub fn lines_ahead<'a>(
    alloc: Global,
    cluster: &Cluster,
    lines: &mut Vec<&'a [u8]>,
    script: &'a [u8],
) -> Result<&'a [u8], OutOfMemory>
    ensures lines { OnOk result (map (λ line. line.now) lines.new.items
        ≡ ahead (asked_by cluster.now (lines_of script.now))) }
    ensures rest { IfOk result (λ rest. asked_by cluster.now (lines_of script.now) ≡ passed_by
        (map (λ line. line.now) lines.new.items) ++ asked_by cluster.now (lines_of rest.now)) }
    ensures within { IfOk result
        (λ rest. length lines.new.items + length rest.now ≤ length script.now) }
{
    empty(lines);
    let mut rest = script;
    'lines: while !rest.is_empty() {
        let (line, after) = split_line(rest);
        let line = content(line);
        match line_of(alloc, cluster, line)? {
            Line::Nothing => push_line(lines, line)?,
            _ => return Ok(rest),
        }
        rest = after;
    }
    Ok(rest)
}

// The comments and blank lines of a script that stand before the first command.
pub fn lines_before<'a>(
    alloc: Global,
    cluster: &Cluster,
    script: &'a [u8],
) -> Result<Vec<&'a [u8]>, OutOfMemory>
    ensures lines { IfOk result (λ lines.
        map (λ line. line.now) lines.items ≡ ahead (asked_by cluster.now (lines_of script.now))) }
    ensures within { IfOk result (λ lines. length lines.items ≤ length script.now) }
{
    let mut lines = Vec::new(alloc);
    let _rest = lines_ahead(alloc, cluster, &mut lines, script)?;
    Ok(lines)
}

// Adds the line of an answer that this line wants, if it wants one.
fn push_answer<'a>(texts: &mut Vec<&'a [u8]>, line: &'a [u8]) -> Result<(), OutOfMemory>
    ensures { OnOk result (map (λ text. text.now) texts.new.items
        ≡ map (λ text. text.now) texts.old.items ++ cons_option (answer_in (note_of line.now)) []) }
{
    match note_of(line) {
        Some((Kind::Answer, text)) => {
            push_line(texts, text)?;
            Ok(())
        }
        Some((Kind::Time | Kind::Reason | Kind::Table | Kind::Wanted, _)) | None => Ok(()),
    }
}

// The lines of an answer that these lines want.
pub fn answers_in<'a>(alloc: Global, lines: &[&'a [u8]]) -> Result<Vec<&'a [u8]>, OutOfMemory>
    ensures { IfOk result (λ texts.
        map (λ text. text.now) texts.items ≡ answers_in (map (λ line. line.now) lines.now)) }
{
    let mut texts = Vec::new(alloc);
    for line in lines {
        push_answer(&mut texts, *line)?;
    }
    Ok(texts)
}

// Adds the line of a report that this line wants, if it wants one.
fn push_wanted<'a>(texts: &mut Vec<&'a [u8]>, line: &'a [u8]) -> Result<(), OutOfMemory>
    ensures { OnOk result (map (λ text. text.now) texts.new.items
        ≡ map (λ text. text.now) texts.old.items ++ cons_option (wanted_in (note_of line.now)) []) }
{
    match note_of(line) {
        Some((Kind::Wanted, text)) => {
            push_line(texts, text)?;
            Ok(())
        }
        Some((Kind::Answer | Kind::Time | Kind::Reason | Kind::Table, _)) | None => Ok(()),
    }
}

// The lines of a report that these lines want.
pub fn wanted_among<'a>(alloc: Global, lines: &[&'a [u8]]) -> Result<Vec<&'a [u8]>, OutOfMemory>
    ensures { IfOk result (λ texts.
        map (λ text. text.now) texts.items ≡ wanted_among (map (λ line. line.now) lines.now)) }
{
    let mut texts = Vec::new(alloc);
    for line in lines {
        push_wanted(&mut texts, *line)?;
    }
    Ok(texts)
}

// Whether something is expected by a line.
pub fn is_expectation(line: &[u8]) -> bool
    ensures { result ≡ is_expectation line.now }
{
    match note_of(line) {
        Some((Kind::Answer | Kind::Wanted, _)) => true,
        Some((Kind::Time | Kind::Reason | Kind::Table, _)) | None => false,
    }
}
