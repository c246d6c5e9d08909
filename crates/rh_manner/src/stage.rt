//! A run in its midst: what came of the lines that were taken so far.

ghost use Rattle.std.specs.Prelude.{◌≡◌, ◌+◌, ◌<◌, ◌^◌, ◌++◌, [], Some, length, false, IfOk, OnOk};
ghost use Rattle.rh_script.specs.Lines.{content, raw_lines};
ghost use Rattle.rh_script.specs.Commands.{line_of};
ghost use Rattle.rh_manner.specs.declared.stage.Stage.TheVariants as stage;
ghost use Rattle.rh_run.specs.RunText.{Wrote};
ghost use Rattle.rh_manner.specs.Speech.{is_bad, line_made, line_said};
ghost use Rattle.rh_manner.specs.Stages.{NumbersWithin, Opens, Takes, WroteLine, end_from, next_number, text_from};

use crate::speaker::Speaker;
use rh_base::OutOfMemory;
use rh_cluster::{ClusterFault, read_cluster};
use rh_devices::{Sink, Watched, WriteFault};
use rh_run::Told;
use rh_script::{Line, content, cut, line_of, split_line};
use std::alloc::Global;

/// How far a run has come.
#[derive(Drop)]
pub enum Stage<R> {
    /// In the cluster file, of which this text has come.
    Cluster(Vec<u8>),
    /// In the script: the rehearsal, and the number of the next line.
    Script(R, u64),
}

/// What came of some lines.
#[derive(Drop)]
pub enum Turn<R> {
    /// The run goes on from here.
    Goes(Stage<R>),
    /// It has ended, and tells this.
    Ends(Told),
}

/// Takes some more lines, and writes the answers to them.
pub fn take<K: Sink, T: Speaker>(
    alloc: Global,
    stage: Stage<T::Rehearsal>,
    lines: &[u8],
    writer: &mut Watched<K>,
    speaker: &T,
) -> Result<Turn<T::Rehearsal>, WriteFault>
    requires writer { writer.old.failed ≡ false }
    requires room { next_number stage + length (raw_lines lines.now) < 2 ^ 64 }
    ensures lines { Takes K.takes K.fails (T.speech speaker.now) T.view result stage
        (raw_lines lines.now) writer.old writer.new }
    ensures number { NumbersWithin result (next_number stage + length (raw_lines lines.now)) }
{
    match stage {
        Stage::Cluster(text) => take_cluster(alloc, text, lines, writer, speaker),
        Stage::Script(rehearsal, number) => take_script(
            alloc, rehearsal, number, lines, writer, speaker,
        ),
    }
}

/// Takes what stands behind the last whole line, where the input has ended. The answer is what the whole text tells.
pub fn finish<K: Sink, T: Speaker>(
    alloc: Global,
    stage: Stage<T::Rehearsal>,
    rest: &[u8],
    writer: &mut Watched<K>,
    speaker: &T,
) -> Result<Option<Told>, WriteFault>
    requires writer { writer.old.failed ≡ false }
    requires room { next_number stage + length (raw_lines rest.now) < 2 ^ 64 }
    ensures { let sp = T.speech speaker.now in Wrote K.takes K.fails result
        (text_from sp T.view stage (raw_lines rest.now))
        (end_from sp T.view stage (raw_lines rest.now)) writer.old writer.new }
{
    let turn = take(alloc, stage, rest, writer, speaker)?;
    match turn {
        Turn::Ends(told) => Ok(Some(told)),
        Turn::Goes(stage) => close(alloc, stage, writer, speaker),
    }
}

// Ends a run where no lines are left.
fn close<K: Sink, T: Speaker>(
    alloc: Global,
    stage: Stage<T::Rehearsal>,
    writer: &mut Watched<K>,
    speaker: &T,
) -> Result<Option<Told>, WriteFault>
    requires { writer.old.failed ≡ false }
    ensures { Wrote K.takes K.fails result (text_from (T.speech speaker.now) T.view stage [])
        (end_from (T.speech speaker.now) T.view stage []) writer.old writer.new }
{
    match stage {
        Stage::Script(_, _) => Ok(None),
        Stage::Cluster(text) => match open(alloc, text.as_slice(), writer, speaker)? {
            Opened::Script(_) => Ok(None),
            Opened::Refused(fault) => Ok(Some(Told::Cluster(fault))),
        },
    }
}

// Takes lines where the line `===` hasn't come before.
fn take_cluster<K: Sink, T: Speaker>(
    alloc: Global,
    before: Vec<u8>,
    lines: &[u8],
    writer: &mut Watched<K>,
    speaker: &T,
) -> Result<Turn<T::Rehearsal>, WriteFault>
    requires writer { writer.old.failed ≡ false }
    requires room { 1 + length (raw_lines lines.now) < 2 ^ 64 }
    ensures lines { Takes K.takes K.fails (T.speech speaker.now) T.view result
        (stage.Cluster before) (raw_lines lines.now) writer.old writer.new }
    ensures number { NumbersWithin result (1 + length (raw_lines lines.now)) }
{
    let (front, script) = cut(lines);
    let text = join_texts(before, front)?;
    if front.len() == lines.len() {
        return Ok(Turn::Goes(Stage::Cluster(text)));
    }
    let opened = open(alloc, text.as_slice(), writer, speaker)?;
    match opened {
        Opened::Script(rehearsal) => take_script(alloc, rehearsal, 1, script, writer, speaker),
        Opened::Refused(fault) => Ok(Turn::Ends(Told::Cluster(fault))),
    }
}

// A text with more behind it.
fn join_texts(before: Vec<u8>, bytes: &[u8]) -> Result<Vec<u8>, OutOfMemory>
    ensures { IfOk result (λ text. text.items ≡ before.items ++ bytes.now) }
{
    let mut text = before;
    text.extend_from_slice(bytes)?;
    Ok(text)
}

/// What came of a whole cluster file.
#[derive(Drop)]
pub enum Opened<R> {
    /// A rehearsal, in its first state.
    Script(R),
    /// It describes no cluster. That was written.
    Refused(ClusterFault),
}

// Reads the whole cluster file, and writes what stands before all answers, or why it is none.
fn open<K: Sink, T: Speaker>(
    alloc: Global,
    text: &[u8],
    writer: &mut Watched<K>,
    speaker: &T,
) -> Result<Opened<T::Rehearsal>, WriteFault>
    requires { writer.old.failed ≡ false }
    ensures { Opens K.takes K.fails (T.speech speaker.now) T.view result text.now
        writer.old writer.new }
{
    match read_cluster(alloc, text) {
        Ok(cluster) => {
            let rehearsal = speaker.open(alloc, cluster, text)?;
            let form = speaker.form();
            form.begin(alloc, speaker.cluster(&rehearsal), writer)?;
            Ok(Opened::Script(rehearsal))
        }
        Err(fault) => {
            if fault.is_memory() {
                return Err(WriteFault::OutOfMemory);
            }
            speaker.form().refuse(alloc, &fault, writer)?;
            Ok(Opened::Refused(fault))
        }
    }
}

// Takes lines of the script, the first of which has this number, up to the first bad one.
fn take_script<K: Sink, T: Speaker>(
    alloc: Global,
    start: T::Rehearsal,
    first: u64,
    lines: &[u8],
    writer: &mut Watched<K>,
    speaker: &T,
) -> Result<Turn<T::Rehearsal>, WriteFault>
    requires writer { writer.old.failed ≡ false }
    requires room { first + length (raw_lines lines.now) < 2 ^ 64 }
    ensures lines { Takes K.takes K.fails (T.speech speaker.now) T.view result
        (stage.Script start first) (raw_lines lines.now) writer.old writer.new }
    ensures number { NumbersWithin result (first + length (raw_lines lines.now)) }
{
    let mut rehearsal = start;
    let mut rest = lines;
    let mut number = first;
    'lines: while !rest.is_empty() {
        let (line, after) = split_line(rest);
        if answer_line(
            alloc,
            &mut rehearsal,
            number,
            content(line),
            writer,
            speaker,
        )? {
            return Ok(Turn::Ends(Told::BadLine(number)));
        }
        rest = after;
        number += 1;
    }
    Ok(Turn::Goes(Stage::Script(rehearsal, number)))
}

// Writes the answer to a line, if it gets one. The answer is whether it is no command.
fn answer_line<K: Sink, T: Speaker>(
    alloc: Global,
    rehearsal: &mut T::Rehearsal,
    number: u64,
    line: &[u8],
    writer: &mut Watched<K>,
    speaker: &T,
) -> Result<bool, WriteFault>
    requires { writer.old.failed ≡ false }
    ensures text { let sp = T.speech speaker.now in let v = T.view rehearsal.old in
        WroteLine K.takes K.fails result
        (line_said sp v number line.now (line_of (sp.cluster v) line.now)) writer.old writer.new }
    ensures bad { let sp = T.speech speaker.now in let v = T.view rehearsal.old in
        IfOk result (λ bad. bad ≡ is_bad (line_of (sp.cluster v) line.now)) }
    ensures made { let sp = T.speech speaker.now in let v = T.view rehearsal.old in
        OnOk result (T.view rehearsal.new ≡ line_made sp v (line_of (sp.cluster v) line.now)) }
    ensures cluster { let sp = T.speech speaker.now in
        OnOk result (sp.cluster (T.view rehearsal.new) ≡ sp.cluster (T.view rehearsal.old)) }
{
    match line_of(alloc, speaker.cluster(rehearsal), line)? {
        Line::Nothing => Ok(false),
        Line::Asks(call) => {
            speaker.answer(alloc, rehearsal, number, line, call, writer)?;
            Ok(false)
        }
        Line::Bad => {
            speaker.form().mark_bad(alloc, number, writer)?;
            Ok(true)
        }
    }
}
