//! The program `run`: commands are answered one after the other.

ghost use Rattle.std.specs.Prelude.{List, ◌≡◌, map, false, OnOk};
ghost use Rattle.rh_trail.specs.Lone.{opened, served};
ghost use Rattle.rh_script.specs.Lines.{raw_lines, content};
ghost use Rattle.rh_script.specs.declared.script.Line.{Line};
ghost use Rattle.rh_script.specs.Commands.{line_of};
ghost use Rattle.rh_script.specs.Answers.{answer_text, fault_text, bad_text};
ghost use Rattle.rh_run.specs.RunText.{script_text, bad_line, lines_asked, run_text, run_end, OwesRun, Wrote, Broke, Turns};
ghost use Rattle.rh_run.specs.Programs.{ProgramGives, NoThreads};

use crate::fault::{RunFault, Told, ended};
use rh_calls::{Call, Reply};
use rh_cluster::{Cluster, ClusterFault, read_cluster};
use rh_devices::{Sink, Source, Watched, WriteFault, read_input, write_text};
use rh_rules::Pick;
use rh_script::{Line, answer_text, bad_text, content, cut, fault_text, line_of, split_line};
use rh_trail::Sim;
use std::alloc::Global;

/// Reads all of the input, a cluster file, a line `===` and a script, and then writes the answer to each command.
///
/// It ends at the first line that is no command. The input has at most 16,777,216 bytes. Neither device is flushed.
///
/// # Errors
/// `Cluster` and `BadLine` are the end of the text that was written. `Read` comes where the reader has failed or the
/// input is too long: nothing was written. `Write` comes where the writer has failed, and `OutOfMemory` where a growth
/// was refused: a front of the text was written.
pub fn run<S: Source, K: Sink>(
    alloc: Global,
    reader: &mut Watched<S>,
    writer: &mut Watched<K>,
    pick: Pick,
) -> Result<(), RunFault>
    requires reader { reader.old.failed ≡ false }
    requires writer { writer.old.failed ≡ false }
    ensures { ProgramGives S.gives S.fails K.takes K.fails
        (OwesRun pick) NoThreads result reader.old reader.new writer.old writer.new }
{
    let input = read_input(alloc, reader)?;
    let told = answer_input(alloc, input.as_slice(), writer, pick)?;
    ended(told)
}

// Writes the answers to an input.
#[tactic(auto, unfolding(crate::specs::RunText::run_text, crate::specs::RunText::run_end))]
fn answer_input<K: Sink>(
    alloc: Global,
    input: &[u8],
    writer: &mut Watched<K>,
    pick: Pick,
) -> Result<Option<Told>, WriteFault>
    requires { writer.old.failed ≡ false }
    ensures { Wrote K.takes K.fails result (run_text input.now pick)
        (run_end input.now) writer.old writer.new }
{
    let (text, script) = cut(input);
    match read_cluster(alloc, text) {
        Err(fault) => {
            if fault.is_memory() {
                return Err(WriteFault::OutOfMemory);
            }
            write_fault(alloc, &fault, writer)?;
            Ok(Some(Told::Cluster(fault)))
        }
        Ok(cluster) => {
            let bad = answer_script(alloc, cluster, script, writer, pick)?;
            Ok(bad.map(Told::BadLine))
        }
    }
}

/// Writes why the text is no cluster.
pub fn write_fault<K: Sink>(
    alloc: Global,
    fault: &ClusterFault,
    writer: &mut Watched<K>,
) -> Result<(), WriteFault>
    requires { writer.old.failed ≡ false }
    ensures { Broke K.takes K.fails result (fault_text fault.now) writer.old writer.new }
{
    let text = fault_text(alloc, fault)?;
    write_text(writer, text.as_bytes())
}

// Writes the answers to a script. The answer is the number of the bad line that ended it, if one did.
fn answer_script<K: Sink>(
    alloc: Global,
    cluster: Cluster,
    script: &[u8],
    writer: &mut Watched<K>,
    pick: Pick,
) -> Result<Option<u64>, WriteFault>
    requires { writer.old.failed ≡ false }
    ensures { Wrote K.takes K.fails result (script_text cluster (opened cluster pick) 1
        (lines_asked cluster (map content (raw_lines script.now)))) (bad_line 1
        (lines_asked cluster (map content (raw_lines script.now)))) writer.old writer.new }
{
    let mut sim = Sim::open(alloc, cluster, pick)?;
    answer_lines(alloc, &mut sim, script, writer)
}

// Writes the answers to lines, the first of which has number 1, up to the first bad line, and answers its number.
fn answer_lines<K: Sink>(
    alloc: Global,
    sim: &mut Sim,
    script: &[u8],
    writer: &mut Watched<K>,
) -> Result<Option<u64>, WriteFault>
    requires { writer.old.failed ≡ false }
    ensures { Wrote K.takes K.fails result (script_text sim.old.seen.cluster sim.old.seen 1
        (lines_asked sim.old.seen.cluster (map content (raw_lines script.now))))
        (bad_line 1 (lines_asked sim.old.seen.cluster (map content (raw_lines script.now))))
        writer.old writer.new }
{
    let mut rest = script;
    let mut number: u64 = 1;
    'lines: while !rest.is_empty() {
        let (line, after) = split_line(rest);
        match answer_line(alloc, sim, number, line, writer)? {
            Some(bad) => return Ok(Some(bad)),
            None => {
                rest = after;
                number += 1;
            }
        }
    }
    Ok(None)
}

// Writes the answer to a line, if it gets one. The answer is the number of a bad line.
fn answer_line<K: Sink>(
    alloc: Global,
    sim: &mut Sim,
    number: u64,
    line: &[u8],
    writer: &mut Watched<K>,
) -> Result<Option<u64>, WriteFault>
    requires { writer.old.failed ≡ false }
    ensures text { (lines : List Line)
        → Turns K.takes K.fails result sim.old.seen.cluster sim.old.seen sim.new.seen number
        (line_of sim.old.seen.cluster (content line.now)) lines writer.old writer.new }
    ensures cluster { OnOk result (sim.new.seen.cluster ≡ sim.old.seen.cluster) }
{
    match line_of(alloc, sim.cluster(), content(line))? {
        Line::Nothing => Ok(None),
        Line::Asks(call) => {
            answer_call(alloc, sim, call, writer)?;
            Ok(None)
        }
        Line::Bad => {
            answer_bad(alloc, number, writer)?;
            Ok(Some(number))
        }
    }
}

/// Writes that a line is no command.
pub fn answer_bad<K: Sink>(
    alloc: Global,
    number: u64,
    writer: &mut Watched<K>,
) -> Result<(), WriteFault>
    requires { writer.old.failed ≡ false }
    ensures { Broke K.takes K.fails result (bad_text number) writer.old writer.new }
{
    let text = bad_text(alloc, number)?;
    write_text(writer, text.as_bytes())
}

/// Gives a call to the simulation, and writes the answer.
#[tactic(auto, using(crate::proofs::Keeping::served_keeps_cluster))]
pub fn answer_call<K: Sink>(
    alloc: Global,
    sim: &mut Sim,
    call: Call,
    writer: &mut Watched<K>,
) -> Result<(), WriteFault>
    requires { writer.old.failed ≡ false }
    ensures sim { OnOk result (sim.new.seen ≡ (served sim.old.seen call).sim) }
    ensures cluster { OnOk result (sim.new.seen.cluster ≡ sim.old.seen.cluster) }
    ensures text { Broke K.takes K.fails result
        (answer_text sim.old.seen.cluster (served sim.old.seen call).reply) writer.old writer.new }
{
    let reply = sim.answer(alloc, call)?.into_one();
    write_answer(alloc, sim.cluster(), &reply, writer)
}

// Writes the answer of a reply.
fn write_answer<K: Sink>(
    alloc: Global,
    cluster: &Cluster,
    reply: &Reply,
    writer: &mut Watched<K>,
) -> Result<(), WriteFault>
    requires { writer.old.failed ≡ false }
    ensures { Broke K.takes K.fails result
        (answer_text cluster.now reply.now) writer.old writer.new }
{
    let text = answer_text(alloc, cluster, reply)?;
    write_text(writer, text.as_slice())
}
