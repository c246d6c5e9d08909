//! The program `run --rules otp25`, as JSON.

ghost use Rattle.std.specs.Prelude.{List, ℕ, ◌≡◌, ◌++◌, map, false, OnOk};
ghost use Rattle.rh_json_lines.specs.ClusterLines.{cluster_line};
ghost use Rattle.rh_otp_file.specs.Files.{own_files};
ghost use Rattle.rh_otp_json_lines.specs.Replies.{reply_line};
ghost use Rattle.rh_otp_sim.specs.Calls.{made_by};
ghost use Rattle.rh_otp_sim.specs.Sim.{opened};
ghost use Rattle.rh_run.specs.Programs.{ProgramGives, NoThreads};
ghost use Rattle.rh_run.specs.RunText.{bad_line, lines_asked, run_end, Wrote, Broke};
ghost use Rattle.rh_script.specs.Lines.{raw_lines, content};
ghost use Rattle.rh_otp_json.specs.LiveJson.{answer_line, script_json, live_json, OwesLiveJson, Turns};

use rh_calls::Call;
use rh_cluster::{Cluster, read_cluster};
use rh_devices::{Sink, Source, Watched, WriteFault, read_input, write_text};
use rh_json::{write_bad, write_cluster, write_fault};
use rh_otp_file::own_files;
use rh_otp_json_lines::reply_line;
use rh_otp_model::OwnFile;
use rh_otp_net::Order;
use rh_otp_sim::{LiveReply, LiveSim};
use rh_run::{RunFault, Told, ended};
use rh_script::{Line, content, cut, line_of, split_line};
use std::alloc::Global;

/// Reads all of the input, a cluster file, a line `===` and a script, and then writes lines of JSON: the cluster, and each command with
/// the answer of live nodes, with messages taken in this order.
///
/// It ends at the first line that is no command. The input has at most 16,777,216 bytes. Neither device is flushed.
///
/// # Errors
/// Those of [`rh_otp_run::run_live`], for the same inputs: `Cluster` and `BadLine` are what the last line tells.
pub fn live_json<S: Source, K: Sink>(
    alloc: Global,
    reader: &mut Watched<S>,
    writer: &mut Watched<K>,
    order: Order,
) -> Result<(), RunFault>
    requires reader { reader.old.failed ≡ false }
    requires writer { writer.old.failed ≡ false }
    ensures { ProgramGives S.gives S.fails K.takes K.fails
        (OwesLiveJson order) NoThreads result reader.old reader.new writer.old writer.new }
{
    let input = read_input(alloc, reader)?;
    let told = answer_input(alloc, input.as_slice(), writer, order)?;
    ended(told)
}

// Writes the answers to an input.
#[tactic(auto, unfolding(crate::specs::LiveJson::live_json, rh_run::specs::RunText::run_end))]
fn answer_input<K: Sink>(
    alloc: Global,
    input: &[u8],
    writer: &mut Watched<K>,
    order: Order,
) -> Result<Option<Told>, WriteFault>
    requires { writer.old.failed ≡ false }
    ensures { Wrote K.takes K.fails result (live_json order input.now)
        (run_end input.now) writer.old writer.new }
{
    let (text, script) = cut(input);
    match read_cluster(alloc, text) {
        Err(fault) => {
            if fault.is_memory() {
                return Err(WriteFault::OutOfMemory);
            }
            write_fault(alloc, &fault, writer)?;
            Ok(Some(Told::Cluster(fault)))
        }
        Ok(cluster) => {
            let files = own_files(alloc, &cluster, text)?;
            let bad = answer_script(alloc, cluster, files, order, script, writer)?;
            Ok(bad.map(Told::BadLine))
        }
    }
}

// Writes the cluster, and the answers to a script. The answer is the number of the bad line that ended it, if one did.
fn answer_script<K: Sink>(
    alloc: Global,
    cluster: Cluster,
    files: Vec<OwnFile>,
    order: Order,
    script: &[u8],
    writer: &mut Watched<K>,
) -> Result<Option<u64>, WriteFault>
    requires { writer.old.failed ≡ false }
    ensures { Wrote K.takes K.fails result (cluster_line cluster ++ script_json cluster
        (opened cluster files.items order) 1 (map content (raw_lines script.now))) (bad_line 1
        (lines_asked cluster (map content (raw_lines script.now)))) writer.old writer.new }
{
    write_cluster(alloc, &cluster, writer)?;
    answer_opened(alloc, cluster, files, order, script, writer)
}

// Writes the answers to a script.
fn answer_opened<K: Sink>(
    alloc: Global,
    cluster: Cluster,
    files: Vec<OwnFile>,
    order: Order,
    script: &[u8],
    writer: &mut Watched<K>,
) -> Result<Option<u64>, WriteFault>
    requires { writer.old.failed ≡ false }
    ensures { Wrote K.takes K.fails result (script_json cluster
        (opened cluster files.items order) 1 (map content (raw_lines script.now))) (bad_line 1
        (lines_asked cluster (map content (raw_lines script.now)))) writer.old writer.new }
{
    let mut sim = LiveSim::open(alloc, cluster, files, order)?;
    answer_lines(alloc, &mut sim, script, writer)
}

// Writes the answers to lines, the first of which has number 1, up to the first bad line, and answers its number.
fn answer_lines<K: Sink>(
    alloc: Global,
    sim: &mut LiveSim,
    script: &[u8],
    writer: &mut Watched<K>,
) -> Result<Option<u64>, WriteFault>
    requires { writer.old.failed ≡ false }
    ensures { Wrote K.takes K.fails result
        (script_json sim.old.cluster sim.old 1 (map content (raw_lines script.now)))
        (bad_line 1 (lines_asked sim.old.cluster (map content (raw_lines script.now))))
        writer.old writer.new }
{
    let mut rest = script;
    let mut number: u64 = 1;
    'lines: while !rest.is_empty() {
        let (line, after) = split_line(rest);
        match answer_line(alloc, sim, number, content(line), writer)? {
            Some(bad) => return Ok(Some(bad)),
            None => {
                rest = after;
                number += 1;
            }
        }
    }
    Ok(None)
}

// Writes the answer to a line, if it gets one. The answer is the number of a bad line.
fn answer_line<K: Sink>(
    alloc: Global,
    sim: &mut LiveSim,
    number: u64,
    line: &[u8],
    writer: &mut Watched<K>,
) -> Result<Option<u64>, WriteFault>
    requires { writer.old.failed ≡ false }
    ensures text { (lines : List (List ℕ)) → Turns K.takes K.fails result sim.old.cluster
        sim.old sim.new number line.now lines writer.old writer.new }
    ensures cluster { OnOk result (sim.new.cluster ≡ sim.old.cluster) }
{
    match line_of(alloc, sim.cluster(), line)? {
        Line::Nothing => Ok(None),
        Line::Asks(call) => {
            answer_call(alloc, sim, number, line, call, writer)?;
            Ok(None)
        }
        Line::Bad => {
            write_bad(alloc, number, writer)?;
            Ok(Some(number))
        }
    }
}

/// Gives the call of a line, which has this number, to the simulation, and writes the line with the answer.
#[tactic(auto, using(rh_otp_run::proofs::Keeping::call_keeps_cluster))]
pub fn answer_call<K: Sink>(
    alloc: Global,
    sim: &mut LiveSim,
    number: u64,
    line: &[u8],
    call: Call,
    writer: &mut Watched<K>,
) -> Result<(), WriteFault>
    requires { writer.old.failed ≡ false }
    ensures sim { OnOk result (sim.new ≡ made_by call sim.old) }
    ensures cluster { OnOk result (sim.new.cluster ≡ sim.old.cluster) }
    ensures text { Broke K.takes K.fails result
        (answer_line sim.old number line.now call) writer.old writer.new }
{
    let reply = sim.answer(alloc, call)?;
    write_answer(alloc, sim, number, line, &reply, writer)
}

// Writes the line of a command with its answer, where the simulation is this behind it.
fn write_answer<K: Sink>(
    alloc: Global,
    sim: &LiveSim,
    number: u64,
    line: &[u8],
    reply: &LiveReply,
    writer: &mut Watched<K>,
) -> Result<(), WriteFault>
    requires { writer.old.failed ≡ false }
    ensures { Broke K.takes K.fails result
        (reply_line sim.now number line.now reply.now) writer.old writer.new }
{
    let text = reply_line(alloc, sim, number, line, reply)?;
    write_text(writer, text.as_slice())
}
