//! The program `sweep`, as JSON.

ghost use Rattle.std.specs.Prelude.{◌≡◌, ◌≤◌, length, false, map, Ok, OnOk};
ghost use Rattle.std.specs.List.{flat_map};
ghost use Rattle.rh_cluster.specs.ClusterOf.{cluster_of};
ghost use Rattle.rh_devices.specs.Devices.{input_limit};
ghost use Rattle.rh_trail.specs.Lone.{served, sim_after};
ghost use Rattle.rh_outcomes.specs.Outcomes.{outcome_of};
ghost use Rattle.rh_plans.specs.Workers.{AreWorkers};
ghost use Rattle.rh_script.specs.Lines.{cluster_text, script_lines};
ghost use Rattle.rh_script.specs.SweepLines.{sweep_lines_asked, bad_sweep_line, plan_text};
ghost use Rattle.rh_run.specs.Programs.{ProgramGives, NoThreads};
ghost use Rattle.rh_run.specs.RunText.{Wrote, Broke};
ghost use Rattle.rh_run.specs.SweepText.{why_not_swept, plans_end, lines_end, sweep_end};
ghost use Rattle.rh_json_lines.specs.OutcomeLines.{outcome_line, sweep_fault_line};
ghost use Rattle.rh_json.specs.SweepJson.{plan_line, plans_json, base_json, lines_json, sweep_json, OwesSweepJson};

use crate::base::base_text;
use crate::parts::{write_check, write_run};
use crate::running::write_bad;
use rh_base::{OutOfMemory, Str};
use rh_calls::Call;
use rh_cluster::{Cluster, read_cluster};
use rh_devices::{Sink, Source, Watched, WriteFault, read_input, write_text};
use rh_json_lines::{outcome_line, sweep_fault_line};
use rh_outcomes::Crew;
use rh_plans::{Outcome, Plan, SweepFault};
use rh_rules::Pick;
use rh_run::{RunFault, Told, ended};
use rh_script::{SweepScript, cut, sweep_in};
use rh_trail::Sim;
use std::alloc::Global;

/// Reads all of the input, a cluster file, a line `===` and a script of a base and plans, and then writes lines of JSON: the cluster,
/// each command of the base with its answer, as [`crate::run_json`] does, and each plan with what comes of its events behind the
/// base.
///
/// The plans are tried by these workers. What is written depends neither on them nor on their number. The input has at most
/// 16,777,216 bytes. Neither device is flushed.
///
/// # Errors
/// Those of [`rh_run::run_sweep_by`], for the same inputs: `Cluster`, `BadLine` and `Sweep` are what the last line tells.
pub fn sweep_json_by<C: Crew, S: Source, K: Sink>(
    crew: &C,
    alloc: Global,
    reader: &mut Watched<S>,
    writer: &mut Watched<K>,
    pick: Pick,
) -> Result<(), RunFault>
    requires reader { reader.old.failed ≡ false }
    requires writer { writer.old.failed ≡ false }
    requires ready { C.ready crew.now }
    requires workers { AreWorkers (C.workers crew.now) }
    ensures { ProgramGives S.gives S.fails K.takes K.fails
        (OwesSweepJson pick) NoThreads result reader.old reader.new writer.old writer.new }
{
    let input = read_input(alloc, reader)?;
    let told = sweep_input(crew, alloc, input.as_slice(), writer, pick)?;
    ended(told)
}

// Writes what comes of an input.
#[tactic(auto, unfolding(crate::specs::SweepJson::sweep_json, rh_run::specs::SweepText::sweep_end, crate::specs::CheckJson::check_json))]
fn sweep_input<C: Crew, K: Sink>(
    crew: &C,
    alloc: Global,
    input: &[u8],
    writer: &mut Watched<K>,
    pick: Pick,
) -> Result<Option<Told>, WriteFault>
    requires writer { writer.old.failed ≡ false }
    requires ready { C.ready crew.now }
    requires workers { AreWorkers (C.workers crew.now) }
    requires limit { length input.now ≤ input_limit }
    ensures { Wrote K.takes K.fails result (sweep_json input.now pick)
        (sweep_end input.now pick) writer.old writer.new }
{
    let (text, _) = cut(input);
    match read_cluster(alloc, text) {
        Err(fault) => {
            if fault.is_memory() {
                return Err(WriteFault::OutOfMemory);
            }
            write_check(alloc, input, writer)?;
            Ok(Some(Told::Cluster(fault)))
        }
        Ok(cluster) => sweep_lines(crew, alloc, cluster, input, writer, pick),
    }
}

// Writes what comes of an input that has this cluster.
fn sweep_lines<C: Crew, K: Sink>(
    crew: &C,
    alloc: Global,
    cluster: Cluster,
    input: &[u8],
    writer: &mut Watched<K>,
    pick: Pick,
) -> Result<Option<Told>, WriteFault>
    requires writer { writer.old.failed ≡ false }
    requires ready { C.ready crew.now }
    requires workers { AreWorkers (C.workers crew.now) }
    requires limit { length input.now ≤ input_limit }
    requires cluster { cluster_of (cluster_text input.now) ≡ Ok cluster }
    ensures { Wrote K.takes K.fails result (lines_json cluster pick (script_lines input.now)
        (bad_sweep_line (sweep_lines_asked cluster (script_lines input.now))))
        (lines_end cluster pick (sweep_lines_asked cluster (script_lines input.now)) (bad_sweep_line
        (sweep_lines_asked cluster (script_lines input.now)))) writer.old writer.new }
{
    let (_, script) = cut(input);
    match sweep_in(alloc, &cluster, script)? {
        SweepScript::BadLine(number) => {
            write_check(alloc, input, writer)?;
            write_bad(alloc, number, writer)?;
            Ok(Some(Told::BadLine(number)))
        }
        SweepScript::Sweep { base, plans } => {
            write_base(alloc, &cluster, input, writer, pick)?;
            let mut sim = Sim::open(alloc, cluster, pick)?;
            make_calls(alloc, &mut sim, base.as_slice())?;
            sweep_plans(crew, alloc, &sim, plans.as_slice(), writer)
        }
    }
}

/// Writes the cluster of an input, and the answers to the commands of its base.
pub fn write_base<K: Sink>(
    alloc: Global,
    cluster: &Cluster,
    input: &[u8],
    writer: &mut Watched<K>,
    pick: Pick,
) -> Result<(), WriteFault>
    requires writer { writer.old.failed ≡ false }
    requires limit { length input.now ≤ input_limit }
    requires cluster { cluster_of (cluster_text input.now) ≡ Ok cluster.now }
    ensures { Broke K.takes K.fails result
        (base_json cluster.now pick (script_lines input.now)) writer.old writer.new }
{
    let base = base_text(alloc, cluster, input)?;
    write_run(alloc, base, writer, pick)
}

/// Makes calls one after the other.
pub fn make_calls(alloc: Global, sim: &mut Sim, calls: &[Call]) -> Result<(), OutOfMemory>
    ensures sim { OnOk result (sim.new.seen ≡ sim_after sim.old.seen calls.now) }
    ensures cluster { OnOk result (sim.new.seen.cluster ≡ sim.old.seen.cluster) }
{
    for call in calls {
        make_call(alloc, sim, *call)?;
    }
    Ok(())
}

// Makes a call.
#[tactic(auto, using(rh_run::proofs::Keeping::served_keeps_cluster))]
fn make_call(alloc: Global, sim: &mut Sim, call: Call) -> Result<(), OutOfMemory>
    ensures sim { OnOk result (sim.new.seen ≡ (served sim.old.seen call).sim) }
    ensures cluster { OnOk result (sim.new.seen.cluster ≡ sim.old.seen.cluster) }
{
    sim.answer(alloc, call)?;
    Ok(())
}

// Writes what comes of plans from a base.
fn sweep_plans<C: Crew, K: Sink>(
    crew: &C,
    alloc: Global,
    base: &Sim,
    plans: &[Plan],
    writer: &mut Watched<K>,
) -> Result<Option<Told>, WriteFault>
    requires writer { writer.old.failed ≡ false }
    requires ready { C.ready crew.now }
    requires workers { AreWorkers (C.workers crew.now) }
    ensures { Wrote K.takes K.fails result (plans_json base.now.seen.cluster base.now.seen
        (map plan_text plans.now) (why_not_swept base.now.seen (map plan_text plans.now)))
        (plans_end base.now.seen (map plan_text plans.now)) writer.old writer.new }
{
    match crew.sweep(alloc, base, plans) {
        Ok(outcomes) => {
            write_outcomes(alloc, base, plans, outcomes.as_slice(), writer)?;
            Ok(None)
        }
        Err(fault) => match fault {
            SweepFault::OutOfMemory => Err(WriteFault::OutOfMemory),
            _ => {
                write_sweep_fault(alloc, fault, writer)?;
                Ok(Some(Told::Sweep(fault)))
            }
        },
    }
}

// Writes the outcomes of plans that were tried from a base.
fn write_outcomes<K: Sink>(
    alloc: Global,
    base: &Sim,
    plans: &[Plan],
    outcomes: &[Outcome],
    writer: &mut Watched<K>,
) -> Result<(), WriteFault>
    requires writer { writer.old.failed ≡ false }
    requires outcomes { outcomes.now ≡ map (outcome_of base.now.seen) plans.now }
    ensures { Broke K.takes K.fails result (flat_map (plan_line base.now.seen.cluster base.now.seen)
        (map plan_text plans.now)) writer.old writer.new }
{
    for place in 0..plans.len() {
        let (name, outcome) = (&plans[place].name, &outcomes[place]);
        write_outcome(alloc, base.cluster(), name, outcome, writer)?;
    }
    Ok(())
}

// Writes the outcome of the plan of this name.
fn write_outcome<K: Sink>(
    alloc: Global,
    cluster: &Cluster,
    name: &Str,
    outcome: &Outcome,
    writer: &mut Watched<K>,
) -> Result<(), WriteFault>
    requires { writer.old.failed ≡ false }
    ensures { Broke K.takes K.fails result
        (outcome_line cluster.now name.now outcome.now) writer.old writer.new }
{
    let line = outcome_line(alloc, cluster, name, outcome)?;
    write_text(writer, line.as_slice())
}

// Writes why there is no sweep.
fn write_sweep_fault<K: Sink>(
    alloc: Global,
    fault: SweepFault,
    writer: &mut Watched<K>,
) -> Result<(), WriteFault>
    requires { writer.old.failed ≡ false }
    ensures { Broke K.takes K.fails result (sweep_fault_line fault) writer.old writer.new }
{
    let line = sweep_fault_line(alloc, fault)?;
    write_text(writer, line.as_slice())
}
