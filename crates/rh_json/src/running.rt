//! The program `run`, as JSON.

ghost use Rattle.std.specs.Prelude.{List, ℕ, ◌≡◌, ◌++◌, map, false, OnOk, IfOk};
ghost use Rattle.rh_calls.specs.declared.call.Call.TheVariants as call;
ghost use Rattle.rh_trail.specs.Lone.{opened, served};
ghost use Rattle.rh_script.specs.Lines.{raw_lines, content};
ghost use Rattle.rh_run.specs.RunText.{bad_line, lines_asked, run_end, Wrote, Broke};
ghost use Rattle.rh_run.specs.Programs.{ProgramGives, NoThreads};
ghost use Rattle.rh_json_lines.specs.ClusterLines.{cluster_line};
ghost use Rattle.rh_json_lines.specs.AnswerLines.{answer_line, bad_json};
ghost use Rattle.rh_json.specs.RunJson.{script_json, run_json, OwesRunJson, Turns};

use crate::checking::{write_cluster, write_fault};
use rh_base::OutOfMemory;
use rh_calls::Call;
use rh_cluster::{Cluster, read_cluster};
use rh_devices::{Sink, Source, Watched, WriteFault, read_input, write_text};
use rh_json_lines::{bad_line, fired_by, reply_line, seen_line};
use rh_run::{RunFault, Told, ended};
use rh_script::{Line, content, cut, line_of, split_line};
use rh_step::Pick;
use rh_trail::Sim;
use std::alloc::Global;

/// Reads all of the input, a cluster file, a line `===` and a script, and then writes lines of JSON: the cluster, and each command
/// with its answer.
///
/// It ends at the first line that is no command. The input has at most 16,777,216 bytes. Neither device is flushed.
///
/// # Errors
/// Those of [`rh_run::run`], for the same inputs: `Cluster` and `BadLine` are what the last line tells.
pub fn run_json<S: Source, K: Sink>(
    alloc: Global,
    reader: &mut Watched<S>,
    writer: &mut Watched<K>,
    pick: Pick,
) -> Result<(), RunFault>
    requires reader { reader.old.failed ≡ false }
    requires writer { writer.old.failed ≡ false }
    ensures { ProgramGives S.gives S.fails K.takes K.fails
        (OwesRunJson pick) NoThreads result reader.old reader.new writer.old writer.new }
{
    let input = read_input(alloc, reader)?;
    let told = answer_input(alloc, input.as_slice(), writer, pick)?;
    ended(told)
}

// Writes the answers to an input.
#[tactic(auto, unfolding(crate::specs::RunJson::run_json, rh_run::specs::RunText::run_end))]
fn answer_input<K: Sink>(
    alloc: Global,
    input: &[u8],
    writer: &mut Watched<K>,
    pick: Pick,
) -> Result<Option<Told>, WriteFault>
    requires { writer.old.failed ≡ false }
    ensures { Wrote K.takes K.fails result (run_json input.now pick)
        (run_end input.now) writer.old writer.new }
{
    let (text, script) = cut(input);
    match read_cluster(alloc, text) {
        Err(fault) => {
            if fault.is_memory() {
                return Err(WriteFault::OutOfMemory);
            }
            write_fault(alloc, &fault, writer)?;
            Ok(Some(Told::Cluster(fault)))
        }
        Ok(cluster) => {
            let bad = answer_script(alloc, cluster, script, writer, pick)?;
            Ok(bad.map(Told::BadLine))
        }
    }
}

// Writes the cluster, and the answers to a script. The answer is the number of the bad line that ended it, if one did.
fn answer_script<K: Sink>(
    alloc: Global,
    cluster: Cluster,
    script: &[u8],
    writer: &mut Watched<K>,
    pick: Pick,
) -> Result<Option<u64>, WriteFault>
    requires { writer.old.failed ≡ false }
    ensures { Wrote K.takes K.fails result (cluster_line cluster ++ script_json cluster
        (opened cluster pick) 1 (map content (raw_lines script.now))) (bad_line 1
        (lines_asked cluster (map content (raw_lines script.now)))) writer.old writer.new }
{
    write_cluster(alloc, &cluster, writer)?;
    answer_opened(alloc, cluster, script, writer, pick)
}

// Writes the answers to a script.
fn answer_opened<K: Sink>(
    alloc: Global,
    cluster: Cluster,
    script: &[u8],
    writer: &mut Watched<K>,
    pick: Pick,
) -> Result<Option<u64>, WriteFault>
    requires { writer.old.failed ≡ false }
    ensures { Wrote K.takes K.fails result
        (script_json cluster (opened cluster pick) 1 (map content (raw_lines script.now)))
        (bad_line 1 (lines_asked cluster (map content (raw_lines script.now))))
        writer.old writer.new }
{
    let mut sim = Sim::open(alloc, cluster, pick)?;
    answer_lines(alloc, &mut sim, script, writer)
}

// Writes the answers to lines, the first of which has number 1, up to the first bad line, and answers its number.
fn answer_lines<K: Sink>(
    alloc: Global,
    sim: &mut Sim,
    script: &[u8],
    writer: &mut Watched<K>,
) -> Result<Option<u64>, WriteFault>
    requires { writer.old.failed ≡ false }
    ensures { Wrote K.takes K.fails result
        (script_json sim.old.seen.cluster sim.old.seen 1 (map content (raw_lines script.now)))
        (bad_line 1 (lines_asked sim.old.seen.cluster (map content (raw_lines script.now))))
        writer.old writer.new }
{
    let mut rest = script;
    let mut number: u64 = 1;
    'lines: while !rest.is_empty() {
        let (line, after) = split_line(rest);
        match answer_line(alloc, sim, number, content(line), writer)? {
            Some(bad) => return Ok(Some(bad)),
            None => {
                rest = after;
                number += 1;
            }
        }
    }
    Ok(None)
}

// Writes the answer to a line, if it gets one. The answer is the number of a bad line.
fn answer_line<K: Sink>(
    alloc: Global,
    sim: &mut Sim,
    number: u64,
    line: &[u8],
    writer: &mut Watched<K>,
) -> Result<Option<u64>, WriteFault>
    requires { writer.old.failed ≡ false }
    ensures text { (lines : List (List ℕ)) → Turns K.takes K.fails result sim.old.seen.cluster
        sim.old.seen sim.new.seen number line.now lines writer.old writer.new }
    ensures cluster { OnOk result (sim.new.seen.cluster ≡ sim.old.seen.cluster) }
{
    match line_of(alloc, sim.cluster(), line)? {
        Line::Nothing => Ok(None),
        Line::Asks(call) => {
            answer_call(alloc, sim, number, line, call, writer)?;
            Ok(None)
        }
        Line::Bad => {
            write_bad(alloc, number, writer)?;
            Ok(Some(number))
        }
    }
}

/// Writes that the line of this number is bad: it is no command, or no event of a plan, or asks nothing that there is.
pub fn write_bad<K: Sink>(
    alloc: Global,
    number: u64,
    writer: &mut Watched<K>,
) -> Result<(), WriteFault>
    requires { writer.old.failed ≡ false }
    ensures { Broke K.takes K.fails result (bad_json number) writer.old writer.new }
{
    let line = bad_line(alloc, number)?;
    write_text(writer, line.as_slice())
}

/// Gives the call of a line, which has this number, to the simulation, and writes the line with the answer.
pub fn answer_call<K: Sink>(
    alloc: Global,
    sim: &mut Sim,
    number: u64,
    line: &[u8],
    call: Call,
    writer: &mut Watched<K>,
) -> Result<(), WriteFault>
    requires { writer.old.failed ≡ false }
    ensures sim { OnOk result (sim.new.seen ≡ (served sim.old.seen call).sim) }
    ensures cluster { OnOk result (sim.new.seen.cluster ≡ sim.old.seen.cluster) }
    ensures text { Broke K.takes K.fails result
        (answer_line sim.old.seen.cluster sim.old.seen number line.now call) writer.old writer.new }
{
    let text = line_of_call(alloc, sim, number, line, call)?;
    write_text(writer, text.as_slice())
}

// The line of a command that asks for the report, with the answer. The report isn't made as text, of which nothing would be told.
#[tactic(auto, unfolding(rh_json_lines::specs::AnswerLines::answer_line))]
fn line_of_look(alloc: Global, sim: &Sim, number: u64, line: &[u8]) -> Result<Vec<u8>, OutOfMemory>
    ensures { IfOk result (λ text.
        text.items ≡ answer_line sim.now.seen.cluster sim.now.seen number line.now call.Look) }
{
    seen_line(
        alloc,
        number,
        line,
        sim.cursor(),
        sim.trail().len(),
        sim.state(),
    )
}

// Gives the call of a line to the simulation, and makes the line with the answer.
#[tactic(auto, unfolding(rh_json_lines::specs::AnswerLines::answer_line), using(rh_run::proofs::Keeping::served_keeps_cluster))]
fn line_of_call(
    alloc: Global,
    sim: &mut Sim,
    number: u64,
    line: &[u8],
    call: Call,
) -> Result<Vec<u8>, OutOfMemory>
    ensures sim { OnOk result (sim.new.seen ≡ (served sim.old.seen call).sim) }
    ensures cluster { OnOk result (sim.new.seen.cluster ≡ sim.old.seen.cluster) }
    ensures text { IfOk result
        (λ text. text.items ≡ answer_line sim.old.seen.cluster sim.old.seen number line.now call) }
{
    if let Call::Look = call {
        return line_of_look(alloc, sim, number, line);
    }
    let fired = fired_by(alloc, sim, &call)?;
    let reply = sim.answer(alloc, call)?.into_one();
    reply_line(
        alloc,
        number,
        line,
        sim.cluster(),
        sim.state(),
        &fired,
        &reply,
    )
}
