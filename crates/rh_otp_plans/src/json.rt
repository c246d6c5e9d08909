//! The program `sweep --rules otp25`, as JSON.

ghost use Rattle.std.specs.Prelude.{List, ℕ, ◌≡◌, ◌++◌, false, map, None, OnOk};
ghost use Rattle.std.specs.List.{flat_map};
ghost use Rattle.rh_json_lines.specs.ClusterLines.{cluster_line};
ghost use Rattle.rh_json_lines.specs.OutcomeLines.{sweep_fault_line};
ghost use Rattle.rh_json.specs.RunJson.{asked_in};
ghost use Rattle.rh_otp_json.specs.LiveJson.{answer_line};
ghost use Rattle.rh_otp_json_lines.specs.Replies.{reply_line};
ghost use Rattle.rh_otp_sim.specs.Calls.{made_by};
ghost use Rattle.rh_otp_sim.specs.Laws.{behind};
ghost use Rattle.rh_otp_sim.specs.Sim.{opened};
ghost use Rattle.rh_otp_sweep.specs.Outcomes.{outcome_of};
ghost use Rattle.rh_plans.specs.Workers.{AreWorkers};
ghost use Rattle.rh_run.specs.Programs.{ProgramGives, NoThreads};
ghost use Rattle.rh_run.specs.RunText.{Wrote, Broke};
ghost use Rattle.rh_script.specs.Lines.{raw_lines, content};
ghost use Rattle.rh_script.specs.SweepLines.{sweep_lines_asked, bad_sweep_line, plan_text};
ghost use Rattle.rh_otp_plans.specs.LiveSweep.{why_not_swept, plans_end, lines_end, live_sweep_end, base_sim};
ghost use Rattle.rh_otp_plans.specs.OutcomeJson.{outcome_line};
ghost use Rattle.rh_otp_plans.specs.LiveSweepJson.{plan_line, plans_json, calls_in, base_json, lines_json, live_sweep_json, OwesLiveSweepJson, Turns};

use crate::outcome_line::outcome_line;
use rh_base::Str;
use rh_calls::Call;
use rh_cluster::{Cluster, read_cluster};
use rh_devices::{Sink, Source, Watched, WriteFault, read_input, write_text};
use rh_json::{base_is_answered, write_bad, write_cluster, write_fault};
use rh_json_lines::sweep_fault_line;
use rh_otp_file::own_files;
use rh_otp_json_lines::reply_line;
use rh_otp_model::OwnFile;
use rh_otp_net::Order;
use rh_otp_sim::{LiveReply, LiveSim};
use rh_otp_sweep::{Crew, LiveOutcome};
use rh_plans::{Plan, SweepFault};
use rh_run::{RunFault, Told, ended};
use rh_script::{Line, SweepScript, content, cut, line_of, split_line, sweep_in};
use std::alloc::Global;

/// Reads all of the input, a cluster file, a line `===` and a script of a base and plans, and then writes lines of JSON: the cluster, each
/// command of the base with the answer of live nodes, as [`rh_otp_json::live_json`] does, and each plan with what comes of its events
/// on live nodes behind the base, with messages taken in this order.
///
/// The plans are tried by these workers. What is written depends neither on them nor on their number. The input has at most
/// 16,777,216 bytes. Neither device is flushed.
///
/// # Errors
/// Those of [`crate::sweep_live`], for the same inputs: `Cluster`, `BadLine` and `Sweep` are what the last line tells.
pub fn sweep_live_json<C: Crew, S: Source, K: Sink>(
    crew: &C,
    alloc: Global,
    reader: &mut Watched<S>,
    writer: &mut Watched<K>,
    order: Order,
) -> Result<(), RunFault>
    requires reader { reader.old.failed ≡ false }
    requires writer { writer.old.failed ≡ false }
    requires ready { C.ready crew.now }
    requires workers { AreWorkers (C.workers crew.now) }
    ensures { ProgramGives S.gives S.fails K.takes K.fails
        (OwesLiveSweepJson order) NoThreads result reader.old reader.new writer.old writer.new }
{
    let input = read_input(alloc, reader)?;
    let told = sweep_input(crew, alloc, input.as_slice(), writer, order)?;
    ended(told)
}

// Writes what comes of an input.
#[tactic(auto, unfolding(crate::specs::LiveSweepJson::live_sweep_json, crate::specs::LiveSweep::live_sweep_end))]
fn sweep_input<C: Crew, K: Sink>(
    crew: &C,
    alloc: Global,
    input: &[u8],
    writer: &mut Watched<K>,
    order: Order,
) -> Result<Option<Told>, WriteFault>
    requires writer { writer.old.failed ≡ false }
    requires ready { C.ready crew.now }
    requires workers { AreWorkers (C.workers crew.now) }
    ensures { Wrote K.takes K.fails result (live_sweep_json order input.now)
        (live_sweep_end order input.now) writer.old writer.new }
{
    let (text, script) = cut(input);
    match read_cluster(alloc, text) {
        Err(fault) => {
            if fault.is_memory() {
                return Err(WriteFault::OutOfMemory);
            }
            write_fault(alloc, &fault, writer)?;
            Ok(Some(Told::Cluster(fault)))
        }
        Ok(cluster) => {
            let files = own_files(alloc, &cluster, text)?;
            sweep_script(crew, alloc, cluster, files, order, script, writer)
        }
    }
}

// Writes the cluster, and what comes of a script.
fn sweep_script<C: Crew, K: Sink>(
    crew: &C,
    alloc: Global,
    cluster: Cluster,
    files: Vec<OwnFile>,
    order: Order,
    script: &[u8],
    writer: &mut Watched<K>,
) -> Result<Option<Told>, WriteFault>
    requires writer { writer.old.failed ≡ false }
    requires ready { C.ready crew.now }
    requires workers { AreWorkers (C.workers crew.now) }
    ensures { Wrote K.takes K.fails result (cluster_line cluster
        ++ lines_json (opened cluster files.items order) (map content (raw_lines script.now))
        (bad_sweep_line (sweep_lines_asked cluster (map content (raw_lines script.now)))))
        (lines_end (opened cluster files.items order)
        (sweep_lines_asked cluster (map content (raw_lines script.now)))
        (bad_sweep_line (sweep_lines_asked cluster (map content (raw_lines script.now)))))
        writer.old writer.new }
{
    write_cluster(alloc, &cluster, writer)?;
    let sim = LiveSim::open(alloc, cluster, files, order)?;
    sweep_lines(crew, alloc, sim, script, writer)
}

// Writes what comes of the lines of a script that is given to this simulation.
fn sweep_lines<C: Crew, K: Sink>(
    crew: &C,
    alloc: Global,
    sim: LiveSim,
    script: &[u8],
    writer: &mut Watched<K>,
) -> Result<Option<Told>, WriteFault>
    requires writer { writer.old.failed ≡ false }
    requires ready { C.ready crew.now }
    requires workers { AreWorkers (C.workers crew.now) }
    ensures { Wrote K.takes K.fails result (lines_json sim (map content (raw_lines script.now))
        (bad_sweep_line (sweep_lines_asked sim.cluster (map content (raw_lines script.now)))))
        (lines_end sim (sweep_lines_asked sim.cluster (map content (raw_lines script.now)))
        (bad_sweep_line (sweep_lines_asked sim.cluster (map content (raw_lines script.now)))))
        writer.old writer.new }
{
    match sweep_in(alloc, sim.cluster(), script)? {
        SweepScript::BadLine(number) => {
            write_bad(alloc, number, writer)?;
            Ok(Some(Told::BadLine(number)))
        }
        SweepScript::Sweep { base: _, plans } => {
            let mut sim = sim;
            answer_base(alloc, &mut sim, script, writer)?;
            sweep_plans(crew, alloc, &sim, plans.as_slice(), writer)
        }
    }
}

// Writes the answers to the commands of the base: those before the first line that a run takes for no command.
fn answer_base<K: Sink>(
    alloc: Global,
    sim: &mut LiveSim,
    script: &[u8],
    writer: &mut Watched<K>,
) -> Result<(), WriteFault>
    requires writer { writer.old.failed ≡ false }
    requires fits { bad_sweep_line
        (sweep_lines_asked sim.old.cluster (map content (raw_lines script.now))) ≡ None }
    ensures sim { OnOk result (sim.new ≡ base_sim sim.old
        (sweep_lines_asked sim.old.cluster (map content (raw_lines script.now)))) }
    ensures text { Broke K.takes K.fails result
        (base_json sim.old (map content (raw_lines script.now))) writer.old writer.new }
{
    base_is_answered();
    answer_lines(alloc, sim, script, writer)
}

// Writes the answers to the commands of lines, the first of which has number 1, up to the first line that is no command.
fn answer_lines<K: Sink>(
    alloc: Global,
    sim: &mut LiveSim,
    script: &[u8],
    writer: &mut Watched<K>,
) -> Result<(), WriteFault>
    requires { writer.old.failed ≡ false }
    ensures sim { OnOk result (sim.new ≡ behind (calls_in
        (asked_in sim.old.cluster 1 (map content (raw_lines script.now)))) sim.old) }
    ensures text { Broke K.takes K.fails result
        (base_json sim.old (map content (raw_lines script.now))) writer.old writer.new }
{
    let mut rest = script;
    let mut number: u64 = 1;
    'lines: while !rest.is_empty() {
        let (line, after) = split_line(rest);
        if !answer_line(alloc, sim, number, content(line), writer)? {
            return Ok(());
        }
        rest = after;
        number += 1;
    }
    Ok(())
}

// Writes the answer to a line, if it gets one. Is it one that a run takes?
fn answer_line<K: Sink>(
    alloc: Global,
    sim: &mut LiveSim,
    number: u64,
    line: &[u8],
    writer: &mut Watched<K>,
) -> Result<bool, WriteFault>
    requires { writer.old.failed ≡ false }
    ensures text { (lines : List (List ℕ)) → Turns K.takes K.fails result sim.old.cluster
        sim.old sim.new number line.now lines writer.old writer.new }
    ensures cluster { OnOk result (sim.new.cluster ≡ sim.old.cluster) }
{
    match line_of(alloc, sim.cluster(), line)? {
        Line::Nothing => Ok(true),
        Line::Asks(call) => {
            answer_call(alloc, sim, number, line, call, writer)?;
            Ok(true)
        }
        Line::Bad => Ok(false),
    }
}

// Gives the call of a line, which has this number, to the simulation, and writes the line with the answer.
#[tactic(auto, using(rh_otp_run::proofs::Keeping::call_keeps_cluster))]
fn answer_call<K: Sink>(
    alloc: Global,
    sim: &mut LiveSim,
    number: u64,
    line: &[u8],
    call: Call,
    writer: &mut Watched<K>,
) -> Result<(), WriteFault>
    requires { writer.old.failed ≡ false }
    ensures sim { OnOk result (sim.new ≡ made_by call sim.old) }
    ensures cluster { OnOk result (sim.new.cluster ≡ sim.old.cluster) }
    ensures text { Broke K.takes K.fails result
        (answer_line sim.old number line.now call) writer.old writer.new }
{
    let reply = sim.answer(alloc, call)?;
    write_reply(alloc, sim, number, line, &reply, writer)
}

// Writes the line of a command with its answer, where the simulation is this behind it.
fn write_reply<K: Sink>(
    alloc: Global,
    sim: &LiveSim,
    number: u64,
    line: &[u8],
    reply: &LiveReply,
    writer: &mut Watched<K>,
) -> Result<(), WriteFault>
    requires { writer.old.failed ≡ false }
    ensures { Broke K.takes K.fails result
        (reply_line sim.now number line.now reply.now) writer.old writer.new }
{
    let text = reply_line(alloc, sim, number, line, reply)?;
    write_text(writer, text.as_slice())
}

// Writes what comes of plans from a base.
fn sweep_plans<C: Crew, K: Sink>(
    crew: &C,
    alloc: Global,
    base: &LiveSim,
    plans: &[Plan],
    writer: &mut Watched<K>,
) -> Result<Option<Told>, WriteFault>
    requires writer { writer.old.failed ≡ false }
    requires ready { C.ready crew.now }
    requires workers { AreWorkers (C.workers crew.now) }
    ensures { Wrote K.takes K.fails result (plans_json base.now
        (map plan_text plans.now) (why_not_swept base.now (map plan_text plans.now)))
        (plans_end base.now (map plan_text plans.now)) writer.old writer.new }
{
    match crew.sweep(alloc, base, plans) {
        Ok(outcomes) => {
            write_outcomes(alloc, base, plans, outcomes.as_slice(), writer)?;
            Ok(None)
        }
        Err(fault) => match fault {
            SweepFault::OutOfMemory => Err(WriteFault::OutOfMemory),
            _ => {
                write_sweep_fault(alloc, fault, writer)?;
                Ok(Some(Told::Sweep(fault)))
            }
        },
    }
}

// Writes the outcomes of plans that were tried from a base.
fn write_outcomes<K: Sink>(
    alloc: Global,
    base: &LiveSim,
    plans: &[Plan],
    outcomes: &[LiveOutcome],
    writer: &mut Watched<K>,
) -> Result<(), WriteFault>
    requires writer { writer.old.failed ≡ false }
    requires outcomes { outcomes.now ≡ map (outcome_of base.now) plans.now }
    ensures { Broke K.takes K.fails result (flat_map (plan_line base.now)
        (map plan_text plans.now)) writer.old writer.new }
{
    for place in 0..plans.len() {
        let (name, outcome) = (&plans[place].name, &outcomes[place]);
        write_outcome(alloc, base.cluster(), name, outcome, writer)?;
    }
    Ok(())
}

// Writes the outcome of the plan of this name.
fn write_outcome<K: Sink>(
    alloc: Global,
    cluster: &Cluster,
    name: &Str,
    outcome: &LiveOutcome,
    writer: &mut Watched<K>,
) -> Result<(), WriteFault>
    requires { writer.old.failed ≡ false }
    ensures { Broke K.takes K.fails result
        (outcome_line cluster.now name.now outcome.now) writer.old writer.new }
{
    let line = outcome_line(alloc, cluster, name, outcome)?;
    write_text(writer, line.as_slice())
}

// Writes why there is no sweep.
fn write_sweep_fault<K: Sink>(
    alloc: Global,
    fault: SweepFault,
    writer: &mut Watched<K>,
) -> Result<(), WriteFault>
    requires { writer.old.failed ≡ false }
    ensures { Broke K.takes K.fails result (sweep_fault_line fault) writer.old writer.new }
{
    let line = sweep_fault_line(alloc, fault)?;
    write_text(writer, line.as_slice())
}
