//! The program `sweep --rules otp25`.

ghost use Rattle.std.specs.Prelude.{◌≡◌, false, map, OnOk};
ghost use Rattle.std.specs.List.{flat_map};
ghost use Rattle.rh_otp_run.specs.Laws.{answers_text};
ghost use Rattle.rh_otp_sim.specs.Calls.{made_by, reply_to};
ghost use Rattle.rh_otp_sim.specs.Laws.{behind};
ghost use Rattle.rh_otp_sim.specs.Sim.{opened};
ghost use Rattle.rh_otp_sweep.specs.Outcomes.{outcome_of};
ghost use Rattle.rh_otp_text.specs.Replies.{reply_text};
ghost use Rattle.rh_plans.specs.Workers.{AreWorkers};
ghost use Rattle.rh_run.specs.Programs.{ProgramGives, NoThreads};
ghost use Rattle.rh_run.specs.RunText.{Wrote, Broke};
ghost use Rattle.rh_script.specs.Lines.{raw_lines, content};
ghost use Rattle.rh_script.specs.SweepAnswers.{sweep_fault_text};
ghost use Rattle.rh_script.specs.SweepLines.{sweep_lines_asked, bad_sweep_line, plan_text};
ghost use Rattle.rh_otp_plans.specs.OutcomeText.{outcome_text};
ghost use Rattle.rh_otp_plans.specs.LiveSweep.{why_not_swept, plan_outcome, plans_text, plans_end, lines_text, lines_end, live_sweep_text, live_sweep_end, OwesLiveSweep};

use crate::outcome_text::outcome_text;
use rh_base::Str;
use rh_calls::Call;
use rh_cluster::{Cluster, read_cluster};
use rh_devices::{Sink, Source, Watched, WriteFault, read_input, write_text};
use rh_otp_file::own_files;
use rh_otp_model::OwnFile;
use rh_otp_net::Order;
use rh_otp_sim::LiveSim;
use rh_otp_sweep::{Crew, LiveOutcome};
use rh_otp_text::reply_text;
use rh_plans::{Plan, SweepFault};
use rh_run::{RunFault, Told, answer_bad, ended, write_fault};
use rh_script::{SweepScript, cut, sweep_fault_text, sweep_in};
use std::alloc::Global;

/// Reads all of the input, a cluster file, a line `===` and a script of a base and plans, and then writes the answers of live nodes to the
/// base's commands, as [`rh_otp_run::run_live`] does in a plain manner, and for each plan what comes of its events on live nodes behind
/// the base, with messages taken in this order.
///
/// The plans are tried by these workers. What is written depends neither on them nor on their number. The input has at most
/// 16,777,216 bytes. Neither device is flushed.
///
/// # Errors
/// `Cluster` and `BadLine` (a line that is no command, or a line of a plan that is no event) are told alone. `Sweep` is the end of the
/// text that was written: the base has steps that could be made again, or a plan's events and the base's steps are more than 65,535.
/// `Read` comes where the reader has failed or the input is too long: nothing was written. `Write` comes where the writer has failed,
/// and `OutOfMemory` where a growth was refused: a front of the text was written.
pub fn sweep_live<C: Crew, S: Source, K: Sink>(
    crew: &C,
    alloc: Global,
    reader: &mut Watched<S>,
    writer: &mut Watched<K>,
    order: Order,
) -> Result<(), RunFault>
    requires reader { reader.old.failed ≡ false }
    requires writer { writer.old.failed ≡ false }
    requires ready { C.ready crew.now }
    requires workers { AreWorkers (C.workers crew.now) }
    ensures { ProgramGives S.gives S.fails K.takes K.fails
        (OwesLiveSweep order) NoThreads result reader.old reader.new writer.old writer.new }
{
    let input = read_input(alloc, reader)?;
    let told = sweep_input(crew, alloc, input.as_slice(), writer, order)?;
    ended(told)
}

// Writes what comes of an input.
#[tactic(auto, unfolding(crate::specs::LiveSweep::live_sweep_text, crate::specs::LiveSweep::live_sweep_end))]
fn sweep_input<C: Crew, K: Sink>(
    crew: &C,
    alloc: Global,
    input: &[u8],
    writer: &mut Watched<K>,
    order: Order,
) -> Result<Option<Told>, WriteFault>
    requires writer { writer.old.failed ≡ false }
    requires ready { C.ready crew.now }
    requires workers { AreWorkers (C.workers crew.now) }
    ensures { Wrote K.takes K.fails result (live_sweep_text order input.now)
        (live_sweep_end order input.now) writer.old writer.new }
{
    let (text, script) = cut(input);
    match read_cluster(alloc, text) {
        Err(fault) => {
            if fault.is_memory() {
                return Err(WriteFault::OutOfMemory);
            }
            write_fault(alloc, &fault, writer)?;
            Ok(Some(Told::Cluster(fault)))
        }
        Ok(cluster) => {
            let files = own_files(alloc, &cluster, text)?;
            sweep_script(crew, alloc, cluster, files, order, script, writer)
        }
    }
}

// Writes what comes of a script.
fn sweep_script<C: Crew, K: Sink>(
    crew: &C,
    alloc: Global,
    cluster: Cluster,
    files: Vec<OwnFile>,
    order: Order,
    script: &[u8],
    writer: &mut Watched<K>,
) -> Result<Option<Told>, WriteFault>
    requires writer { writer.old.failed ≡ false }
    requires ready { C.ready crew.now }
    requires workers { AreWorkers (C.workers crew.now) }
    ensures { Wrote K.takes K.fails result (lines_text (opened cluster files.items order)
        (sweep_lines_asked cluster (map content (raw_lines script.now)))
        (bad_sweep_line (sweep_lines_asked cluster (map content (raw_lines script.now)))))
        (lines_end (opened cluster files.items order)
        (sweep_lines_asked cluster (map content (raw_lines script.now)))
        (bad_sweep_line (sweep_lines_asked cluster (map content (raw_lines script.now)))))
        writer.old writer.new }
{
    match sweep_in(alloc, &cluster, script)? {
        SweepScript::BadLine(number) => {
            answer_bad(alloc, number, writer)?;
            Ok(Some(Told::BadLine(number)))
        }
        SweepScript::Sweep { base, plans } => {
            let mut sim = LiveSim::open(alloc, cluster, files, order)?;
            answer_calls(alloc, &mut sim, base.as_slice(), writer)?;
            sweep_plans(crew, alloc, &sim, plans.as_slice(), writer)
        }
    }
}

// Writes the answers to calls that are made one after the other.
fn answer_calls<K: Sink>(
    alloc: Global,
    sim: &mut LiveSim,
    calls: &[Call],
    writer: &mut Watched<K>,
) -> Result<(), WriteFault>
    requires { writer.old.failed ≡ false }
    ensures sim { OnOk result (sim.new ≡ behind calls.now sim.old) }
    ensures text { Broke K.takes K.fails result (answers_text sim.old calls.now)
        writer.old writer.new }
{
    for call in calls {
        answer_call(alloc, sim, *call, writer)?;
    }
    Ok(())
}

// Gives a call to the simulation, and writes the answer.
fn answer_call<K: Sink>(
    alloc: Global,
    sim: &mut LiveSim,
    call: Call,
    writer: &mut Watched<K>,
) -> Result<(), WriteFault>
    requires { writer.old.failed ≡ false }
    ensures sim { OnOk result (sim.new ≡ made_by call sim.old) }
    ensures text { Broke K.takes K.fails result
        (reply_text (made_by call sim.old) (reply_to call sim.old)) writer.old writer.new }
{
    let reply = sim.answer(alloc, call)?;
    let text = reply_text(alloc, sim, &reply)?;
    write_text(writer, text.as_bytes())
}

// Writes what comes of plans from a base.
fn sweep_plans<C: Crew, K: Sink>(
    crew: &C,
    alloc: Global,
    base: &LiveSim,
    plans: &[Plan],
    writer: &mut Watched<K>,
) -> Result<Option<Told>, WriteFault>
    requires writer { writer.old.failed ≡ false }
    requires ready { C.ready crew.now }
    requires workers { AreWorkers (C.workers crew.now) }
    ensures { Wrote K.takes K.fails result (plans_text base.now
        (map plan_text plans.now) (why_not_swept base.now (map plan_text plans.now)))
        (plans_end base.now (map plan_text plans.now)) writer.old writer.new }
{
    match crew.sweep(alloc, base, plans) {
        Ok(outcomes) => {
            write_outcomes(alloc, base, plans, outcomes.as_slice(), writer)?;
            Ok(None)
        }
        Err(fault) => match fault {
            SweepFault::OutOfMemory => Err(WriteFault::OutOfMemory),
            _ => {
                write_sweep_fault(alloc, fault, writer)?;
                Ok(Some(Told::Sweep(fault)))
            }
        },
    }
}

// Writes the outcomes of plans that were tried from a base.
fn write_outcomes<K: Sink>(
    alloc: Global,
    base: &LiveSim,
    plans: &[Plan],
    outcomes: &[LiveOutcome],
    writer: &mut Watched<K>,
) -> Result<(), WriteFault>
    requires writer { writer.old.failed ≡ false }
    requires outcomes { outcomes.now ≡ map (outcome_of base.now) plans.now }
    ensures { Broke K.takes K.fails result (flat_map (plan_outcome base.now)
        (map plan_text plans.now)) writer.old writer.new }
{
    for place in 0..plans.len() {
        let (name, outcome) = (&plans[place].name, &outcomes[place]);
        write_outcome(alloc, base.cluster(), name, outcome, writer)?;
    }
    Ok(())
}

// Writes the outcome of the plan of this name.
fn write_outcome<K: Sink>(
    alloc: Global,
    cluster: &Cluster,
    name: &Str,
    outcome: &LiveOutcome,
    writer: &mut Watched<K>,
) -> Result<(), WriteFault>
    requires { writer.old.failed ≡ false }
    ensures { Broke K.takes K.fails result
        (outcome_text cluster.now name.now outcome.now) writer.old writer.new }
{
    let text = outcome_text(alloc, cluster, name, outcome)?;
    write_text(writer, text.as_bytes())
}

// Writes why there is no sweep.
fn write_sweep_fault<K: Sink>(
    alloc: Global,
    fault: SweepFault,
    writer: &mut Watched<K>,
) -> Result<(), WriteFault>
    requires { writer.old.failed ≡ false }
    ensures { Broke K.takes K.fails result (sweep_fault_text fault) writer.old writer.new }
{
    let text = sweep_fault_text(alloc, fault)?;
    write_text(writer, text.as_bytes())
}
