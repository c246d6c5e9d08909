//! The program `run --rules otp25`: commands are answered one after the other, in a manner.

ghost use Rattle.std.specs.Prelude.{List, None, ◌≡◌, ◌++◌, map, false, IfOk, OnOk};
ghost use Rattle.rh_otp_sim.specs.Sim.{opened};
ghost use Rattle.rh_otp_sim.specs.Calls.{made_by, reply_to};
ghost use Rattle.rh_otp_text.specs.Replies.{reply_text};
ghost use Rattle.rh_script.specs.Lines.{raw_lines, content};
ghost use Rattle.rh_script.specs.Commands.{line_of};
ghost use Rattle.rh_run.specs.RunText.{Wrote, Broke};
ghost use Rattle.rh_run.specs.Programs.{ProgramGives, NoThreads};
ghost use Rattle.rh_manner.specs.MannerText.{Said, said_by};
ghost use Rattle.rh_manner.specs.Turns.{WroteCall};
ghost use Rattle.rh_otp_run.specs.LiveText.{answered_text, is_ok, is_refused_outcome, is_refused_step, said_text, said_end, live_text, live_end, OwesLiveRun, Turns};

use rh_asked::Manner;
use rh_calls::Call;
use rh_cluster::{Cluster, read_cluster};
use rh_devices::{Sink, Source, Watched, WriteFault, read_input, write_text};
use rh_manner::{Turn, answer_bad_line, end_of, write_echo};
use rh_otp_file::own_files;
use rh_otp_model::OwnFile;
use rh_otp_net::Order;
use rh_otp_sim::{Answer, LiveReply, LiveSim, Outcome, Verdict};
use rh_otp_text::reply_text;
use rh_run::{RunFault, Told, ended, write_fault};
use rh_script::{Line, content, cut, line_of, split_line};
use std::alloc::Global;

/// Reads all of the input, a cluster file, a line `===` and a script, and then writes the answer of live nodes to each command, with
/// messages taken in this order, each behind the command itself where the manner says so.
///
/// It ends at the first line that is no command. The input has at most 16,777,216 bytes. Neither device is flushed.
///
/// # Errors
/// `Cluster`, `BadLine` and `Refused` are what the text tells that was written: `Refused` comes in a strict manner alone, where a
/// step wasn't answered by `ok` and each line is a command. `Read` comes where the reader has failed or the input is too long:
/// nothing was written. `Write` comes where the writer has failed, and `OutOfMemory` where a growth was refused: a front of the
/// text was written.
pub fn run_live<S: Source, K: Sink>(
    alloc: Global,
    reader: &mut Watched<S>,
    writer: &mut Watched<K>,
    order: Order,
    manner: Manner,
) -> Result<(), RunFault>
    requires reader { reader.old.failed ≡ false }
    requires writer { writer.old.failed ≡ false }
    ensures { ProgramGives S.gives S.fails K.takes K.fails
        (OwesLiveRun order manner) NoThreads result reader.old reader.new writer.old writer.new }
{
    let input = read_input(alloc, reader)?;
    let told = answer_input(alloc, input.as_slice(), writer, order, manner)?;
    ended(told)
}

// Writes the answers to an input.
#[tactic(auto, unfolding(crate::specs::LiveText::live_text, crate::specs::LiveText::live_end))]
fn answer_input<K: Sink>(
    alloc: Global,
    input: &[u8],
    writer: &mut Watched<K>,
    order: Order,
    manner: Manner,
) -> Result<Option<Told>, WriteFault>
    requires { writer.old.failed ≡ false }
    ensures { Wrote K.takes K.fails result (live_text order manner input.now)
        (live_end order manner input.now) writer.old writer.new }
{
    let (text, script) = cut(input);
    match read_cluster(alloc, text) {
        Err(fault) => {
            if fault.is_memory() {
                return Err(WriteFault::OutOfMemory);
            }
            write_fault(alloc, &fault, writer)?;
            Ok(Some(Told::Cluster(fault)))
        }
        Ok(cluster) => {
            let files = own_files(alloc, &cluster, text)?;
            answer_script(alloc, cluster, files, order, script, writer, manner)
        }
    }
}

// Writes the answers to a script. The answer is what the text tells at its end.
fn answer_script<K: Sink>(
    alloc: Global,
    cluster: Cluster,
    files: Vec<OwnFile>,
    order: Order,
    script: &[u8],
    writer: &mut Watched<K>,
    manner: Manner,
) -> Result<Option<Told>, WriteFault>
    requires { writer.old.failed ≡ false }
    ensures { Wrote K.takes K.fails result (said_text manner (opened cluster files.items order) 1
        (said_by cluster (map content (raw_lines script.now)))) (said_end manner
        (opened cluster files.items order) (said_by cluster (map content (raw_lines script.now))))
        writer.old writer.new }
{
    let mut sim = LiveSim::open(alloc, cluster, files, order)?;
    answer_lines(alloc, &mut sim, script, writer, manner)
}

// Writes the answers to lines, the first of which has number 1, up to the first bad line, and answers what the text tells then.
fn answer_lines<K: Sink>(
    alloc: Global,
    sim: &mut LiveSim,
    script: &[u8],
    writer: &mut Watched<K>,
    manner: Manner,
) -> Result<Option<Told>, WriteFault>
    requires { writer.old.failed ≡ false }
    ensures { Wrote K.takes K.fails result (said_text manner sim.old 1
        (said_by sim.old.cluster (map content (raw_lines script.now)))) (said_end manner sim.old
        (said_by sim.old.cluster (map content (raw_lines script.now)))) writer.old writer.new }
{
    let mut rest = script;
    let mut number: u64 = 1;
    let mut refused = false;
    'lines: while !rest.is_empty() {
        let (line, after) = split_line(rest);
        let turn = answer_line(alloc, sim, number, content(line), writer, manner)?;
        match turn {
            Turn::Ends => return Ok(Some(Told::BadLine(number))),
            Turn::Goes(was_refused) => {
                refused = refused | was_refused;
                rest = after;
                number += 1;
            }
        }
    }
    Ok(end_of(manner, refused))
}

// Writes a line, where commands are printed, and the answer to it, if it gets one.
fn answer_line<K: Sink>(
    alloc: Global,
    sim: &mut LiveSim,
    number: u64,
    line: &[u8],
    writer: &mut Watched<K>,
    manner: Manner,
) -> Result<Turn, WriteFault>
    requires { writer.old.failed ≡ false }
    ensures text { (lines : List Said)
        → Turns K.takes K.fails result manner sim.old sim.new number
        (line.now, line_of sim.old.cluster line.now) lines writer.old writer.new }
    ensures cluster { OnOk result (sim.new.cluster ≡ sim.old.cluster) }
{
    match line_of(alloc, sim.cluster(), line)? {
        Line::Nothing => Ok(Turn::Goes(false)),
        Line::Asks(call) => {
            let refused = answer_command(alloc, sim, line, call, writer, manner)?;
            Ok(Turn::Goes(refused))
        }
        Line::Bad => {
            answer_bad_line(alloc, number, line, writer, manner)?;
            Ok(Turn::Ends)
        }
    }
}

// Writes a command, where commands are printed, gives its call to the simulation, and writes the answer. Whether it was a step
// that isn't answered by `ok`.
fn answer_command<K: Sink>(
    alloc: Global,
    sim: &mut LiveSim,
    command: &[u8],
    call: Call,
    writer: &mut Watched<K>,
    manner: Manner,
) -> Result<bool, WriteFault>
    requires { writer.old.failed ≡ false }
    ensures sim { OnOk result (sim.new ≡ made_by call sim.old) }
    ensures cluster { OnOk result (sim.new.cluster ≡ sim.old.cluster) }
    ensures refused { IfOk result
        (λ refused. refused ≡ is_refused_step (reply_to call sim.old)) }
    ensures text { WroteCall K.takes K.fails result
        (answered_text manner command.now sim.old call) writer.old writer.new }
{
    write_echo(alloc, command, writer, manner)?;
    answer_call(alloc, sim, call, writer)
}

/// Gives a call to the simulation, and writes the answer. Whether it was a step that isn't answered by `ok`.
#[tactic(auto, using(crate::proofs::Keeping::call_keeps_cluster))]
pub fn answer_call<K: Sink>(
    alloc: Global,
    sim: &mut LiveSim,
    call: Call,
    writer: &mut Watched<K>,
) -> Result<bool, WriteFault>
    requires { writer.old.failed ≡ false }
    ensures sim { OnOk result (sim.new ≡ made_by call sim.old) }
    ensures cluster { OnOk result (sim.new.cluster ≡ sim.old.cluster) }
    ensures refused { IfOk result
        (λ refused. refused ≡ is_refused_step (reply_to call sim.old)) }
    ensures text { WroteCall K.takes K.fails result
        (reply_text (made_by call sim.old) (reply_to call sim.old)) writer.old writer.new }
{
    let reply = sim.answer(alloc, call)?;
    write_answer(alloc, sim, &reply, writer)?;
    Ok(is_refused_step(&reply))
}

// Was this a step that isn't answered by `ok`?
fn is_refused_step(reply: &LiveReply) -> bool
    ensures { result ≡ is_refused_step reply.now }
{
    match reply {
        LiveReply::Step(outcome) => is_refused_outcome(outcome),
        _ => false,
    }
}

// Does a step come to this that isn't answered by `ok`?
fn is_refused_outcome(outcome: &Outcome) -> bool
    ensures { result ≡ is_refused_outcome outcome.now }
{
    match outcome {
        Outcome::Refused(_) | Outcome::Endless => true,
        Outcome::Done(happened) => !is_ok(happened.answer),
    }
}

// Is it `ok`?
fn is_ok(answer: Answer) -> bool
    ensures { result ≡ is_ok answer }
{
    matches!(answer, Answer::Told(Verdict::Done))
}

// Writes the text of an answer, where the simulation is this behind the call.
fn write_answer<K: Sink>(
    alloc: Global,
    sim: &LiveSim,
    reply: &LiveReply,
    writer: &mut Watched<K>,
) -> Result<(), WriteFault>
    requires { writer.old.failed ≡ false }
    ensures { Broke K.takes K.fails result (reply_text sim.now reply.now) writer.old writer.new }
{
    let text = reply_text(alloc, sim, reply)?;
    write_text(writer, text.as_bytes())
}
