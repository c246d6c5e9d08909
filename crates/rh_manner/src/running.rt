//! The program: commands are answered one after the other, in a manner.

ghost use Rattle.std.specs.Prelude.{List, None, ◌≡◌, ◌++◌, map, false, IfOk, OnOk};
ghost use Rattle.rh_trail.specs.Lone.{opened, served};
ghost use Rattle.rh_script.specs.Lines.{raw_lines, content};
ghost use Rattle.rh_script.specs.Commands.{line_of};
ghost use Rattle.rh_script.specs.Answers.{answer_text, bad_text};
ghost use Rattle.rh_run.specs.RunText.{Wrote, Broke};
ghost use Rattle.rh_run.specs.Programs.{ProgramGives, NoThreads};
ghost use Rattle.rh_manner.specs.MannerText.{Said, OwesRunIn, echo_of, end_of, is_refused_step, manner_end, manner_text, said_by, said_end, said_text};
ghost use Rattle.rh_manner.specs.Turns.{Turns, WroteCall};

use rh_asked::Manner;
use rh_base::OutOfMemory;
use rh_calls::{Call, Reply};
use rh_cluster::{Cluster, read_cluster};
use rh_devices::{Sink, Source, Watched, WriteFault, read_input, write_text};
use rh_rules::Pick;
use rh_run::{RunFault, Told, answer_bad, ended, write_fault};
use rh_script::{Line, answer_text, content, cut, line_of, split_line};
use rh_trail::Sim;
use std::alloc::Global;

/// Reads all of the input, a cluster file, a line `===` and a script, and then writes the answer to each command, each behind the
/// command itself where the manner says so.
///
/// It ends at the first line that is no command. The input has at most 16,777,216 bytes. Neither device is flushed.
///
/// # Errors
/// `Cluster`, `BadLine` and `Refused` are what the text tells that was written: `Refused` comes in a strict manner alone, where a
/// step was refused and each line is a command. `Read` comes where the reader has failed or the input is too long: nothing was
/// written. `Write` comes where the writer has failed, and `OutOfMemory` where a growth was refused: a front of the text was
/// written.
pub fn run_in<S: Source, K: Sink>(
    alloc: Global,
    reader: &mut Watched<S>,
    writer: &mut Watched<K>,
    pick: Pick,
    manner: Manner,
) -> Result<(), RunFault>
    requires reader { reader.old.failed ≡ false }
    requires writer { writer.old.failed ≡ false }
    ensures { ProgramGives S.gives S.fails K.takes K.fails
        (OwesRunIn manner pick) NoThreads result reader.old reader.new writer.old writer.new }
{
    let input = read_input(alloc, reader)?;
    let told = answer_input(alloc, input.as_slice(), writer, pick, manner)?;
    ended(told)
}

// Writes the answers to an input.
#[tactic(auto, unfolding(crate::specs::MannerText::manner_text, crate::specs::MannerText::manner_end))]
fn answer_input<K: Sink>(
    alloc: Global,
    input: &[u8],
    writer: &mut Watched<K>,
    pick: Pick,
    manner: Manner,
) -> Result<Option<Told>, WriteFault>
    requires { writer.old.failed ≡ false }
    ensures { Wrote K.takes K.fails result (manner_text manner input.now pick)
        (manner_end manner input.now pick) writer.old writer.new }
{
    let (text, script) = cut(input);
    match read_cluster(alloc, text) {
        Err(fault) => {
            if fault.is_memory() {
                return Err(WriteFault::OutOfMemory);
            }
            write_fault(alloc, &fault, writer)?;
            Ok(Some(Told::Cluster(fault)))
        }
        Ok(cluster) => answer_script(alloc, cluster, script, writer, pick, manner),
    }
}

// Writes the answers to a script. The answer is what the text tells at its end.
fn answer_script<K: Sink>(
    alloc: Global,
    cluster: Cluster,
    script: &[u8],
    writer: &mut Watched<K>,
    pick: Pick,
    manner: Manner,
) -> Result<Option<Told>, WriteFault>
    requires { writer.old.failed ≡ false }
    ensures { Wrote K.takes K.fails result (said_text manner cluster (opened cluster pick) 1
        (said_by cluster (map content (raw_lines script.now)))) (said_end manner (opened cluster
        pick) (said_by cluster (map content (raw_lines script.now)))) writer.old writer.new }
{
    let mut sim = Sim::open(alloc, cluster, pick)?;
    answer_lines(alloc, &mut sim, script, writer, manner)
}

/// What came of a line.
#[derive(Clone, Copy)]
pub enum Turn {
    /// It asked nothing, or was answered; whether it was a step that was refused.
    Goes(bool),
    /// It is no command.
    Ends,
}

// Writes the answers to lines, the first of which has number 1, up to the first bad line, and answers what the text tells then.
fn answer_lines<K: Sink>(
    alloc: Global,
    sim: &mut Sim,
    script: &[u8],
    writer: &mut Watched<K>,
    manner: Manner,
) -> Result<Option<Told>, WriteFault>
    requires { writer.old.failed ≡ false }
    ensures { Wrote K.takes K.fails result (said_text manner sim.old.seen.cluster sim.old.seen 1
        (said_by sim.old.seen.cluster (map content (raw_lines script.now))))
        (said_end manner sim.old.seen
        (said_by sim.old.seen.cluster (map content (raw_lines script.now)))) writer.old writer.new }
{
    let mut rest = script;
    let mut number: u64 = 1;
    let mut refused = false;
    'lines: while !rest.is_empty() {
        let (line, after) = split_line(rest);
        let turn = answer_line(alloc, sim, number, content(line), writer, manner)?;
        match turn {
            Turn::Ends => return Ok(Some(Told::BadLine(number))),
            Turn::Goes(was_refused) => {
                refused = refused | was_refused;
                rest = after;
                number += 1;
            }
        }
    }
    Ok(end_of(manner, refused))
}

/// What the text tells at its end that has no bad line: in a strict manner that a step was refused, if one was.
pub fn end_of(manner: Manner, refused: bool) -> Option<Told>
    ensures { result ≡ end_of manner refused None }
{
    if manner.strict && refused {
        Some(Told::Refused)
    } else {
        None
    }
}

// Writes a line, where commands are printed, and the answer to it, if it gets one.
fn answer_line<K: Sink>(
    alloc: Global,
    sim: &mut Sim,
    number: u64,
    line: &[u8],
    writer: &mut Watched<K>,
    manner: Manner,
) -> Result<Turn, WriteFault>
    requires { writer.old.failed ≡ false }
    ensures text { (lines : List Said)
        → Turns K.takes K.fails result manner sim.old.seen.cluster sim.old.seen sim.new.seen number
        (line.now, line_of sim.old.seen.cluster line.now) lines writer.old writer.new }
    ensures cluster { OnOk result (sim.new.seen.cluster ≡ sim.old.seen.cluster) }
{
    match line_of(alloc, sim.cluster(), line)? {
        Line::Nothing => Ok(Turn::Goes(false)),
        Line::Asks(call) => {
            let refused = answer_command(alloc, sim, line, call, writer, manner)?;
            Ok(Turn::Goes(refused))
        }
        Line::Bad => {
            answer_bad_line(alloc, number, line, writer, manner)?;
            Ok(Turn::Ends)
        }
    }
}

/// Writes a line that is no command, where commands are printed, and that the line of this number is none.
pub fn answer_bad_line<K: Sink>(
    alloc: Global,
    number: u64,
    line: &[u8],
    writer: &mut Watched<K>,
    manner: Manner,
) -> Result<(), WriteFault>
    requires { writer.old.failed ≡ false }
    ensures { Broke K.takes K.fails result
        (echo_of manner line.now ++ bad_text number) writer.old writer.new }
{
    write_echo(alloc, line, writer, manner)?;
    answer_bad(alloc, number, writer)
}

// Writes a command, where commands are printed, gives its call to the simulation, and writes the answer. Whether it was a step
// that was refused.
fn answer_command<K: Sink>(
    alloc: Global,
    sim: &mut Sim,
    command: &[u8],
    call: Call,
    writer: &mut Watched<K>,
    manner: Manner,
) -> Result<bool, WriteFault>
    requires { writer.old.failed ≡ false }
    ensures sim { OnOk result (sim.new.seen ≡ (served sim.old.seen call).sim) }
    ensures cluster { OnOk result (sim.new.seen.cluster ≡ sim.old.seen.cluster) }
    ensures refused { IfOk result
        (λ refused. refused ≡ is_refused_step (served sim.old.seen call).reply) }
    ensures text { WroteCall K.takes K.fails result (echo_of manner command.now ++ answer_text
        sim.old.seen.cluster (served sim.old.seen call).reply) writer.old writer.new }
{
    write_echo(alloc, command, writer, manner)?;
    answer_call(alloc, sim, call, writer)
}

// Gives a call to the simulation, and writes the answer. Whether it was a step that was refused.
#[tactic(auto, using(rh_run::proofs::Keeping::served_keeps_cluster))]
fn answer_call<K: Sink>(
    alloc: Global,
    sim: &mut Sim,
    call: Call,
    writer: &mut Watched<K>,
) -> Result<bool, WriteFault>
    requires { writer.old.failed ≡ false }
    ensures sim { OnOk result (sim.new.seen ≡ (served sim.old.seen call).sim) }
    ensures cluster { OnOk result (sim.new.seen.cluster ≡ sim.old.seen.cluster) }
    ensures refused { IfOk result
        (λ refused. refused ≡ is_refused_step (served sim.old.seen call).reply) }
    ensures text { WroteCall K.takes K.fails result
        (answer_text sim.old.seen.cluster (served sim.old.seen call).reply) writer.old writer.new }
{
    let reply = sim.answer(alloc, call)?.into_one();
    write_answer(alloc, sim.cluster(), &reply, writer)?;
    Ok(is_refused_step(&reply))
}

// Was this a step that was refused?
fn is_refused_step(reply: &Reply) -> bool
    ensures { result ≡ is_refused_step reply.now }
{
    matches!(reply, Reply::Refused(_))
}

// Writes the answer of a reply.
fn write_answer<K: Sink>(
    alloc: Global,
    cluster: &Cluster,
    reply: &Reply,
    writer: &mut Watched<K>,
) -> Result<(), WriteFault>
    requires { writer.old.failed ≡ false }
    ensures { Broke K.takes K.fails result
        (answer_text cluster.now reply.now) writer.old writer.new }
{
    let text = answer_text(alloc, cluster, reply)?;
    write_text(writer, text.as_slice())
}

/// Writes a line as it stands, behind `> `, where commands are printed, and else nothing.
pub fn write_echo<K: Sink>(
    alloc: Global,
    line: &[u8],
    writer: &mut Watched<K>,
    manner: Manner,
) -> Result<(), WriteFault>
    requires { writer.old.failed ≡ false }
    ensures { Broke K.takes K.fails result (echo_of manner line.now) writer.old writer.new }
{
    let text = echo_of(alloc, manner, line)?;
    write_text(writer, text.as_slice())
}

// A line as it stands, where commands are printed, and else nothing.
fn echo_of(alloc: Global, manner: Manner, line: &[u8]) -> Result<Vec<u8>, OutOfMemory>
    ensures { IfOk result (λ text. text.items ≡ echo_of manner line.now) }
{
    let mut text = Vec::new(alloc);
    if manner.echo {
        text.extend_from_slice("> ".as_bytes())?;
        text.extend_from_slice(line)?;
        text.push(b'\n')?;
    }
    Ok(text)
}
