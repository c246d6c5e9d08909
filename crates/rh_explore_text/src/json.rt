//! The program `explore`, as JSON.

ghost use Rattle.std.specs.Prelude.{◌≡◌, ◌≤◌, ◌++◌, length, false, All};
ghost use Rattle.rh_state.specs.Stored.{read};
ghost use Rattle.rh_trace.specs.Validity.{IsValid};
ghost use Rattle.rh_trail.specs.SimView.{state_of};
ghost use Rattle.rh_devices.specs.Devices.{input_limit};
ghost use Rattle.rh_script.specs.Lines.{script_lines};
ghost use Rattle.rh_run.specs.Programs.{ProgramGives, NoThreads};
ghost use Rattle.rh_run.specs.RunText.{Wrote, Broke};
ghost use Rattle.rh_json.specs.SweepJson.{base_json};
ghost use Rattle.rh_explore_text.specs.FoundText.{CanCome};
ghost use Rattle.rh_explore_text.specs.FoundLines.{search_line, verdict_line, verdict_lines};
ghost use Rattle.rh_explore_text.specs.ExploreJson.{OwesExploreJson};
ghost use Rattle.rh_explore_text.specs.Findings.{searched_json, finding_json, finding_end, IsOf, CanBeTold};

use crate::found_lines::{search_line, verdict_line};
use crate::searching::{Finding, Searched, finding_of};
use crate::telling::found_end;
use rh_asked::SearchRoom;
use rh_cluster::Cluster;
use rh_devices::{Sink, Source, Watched, WriteFault, read_input, write_text};
use rh_explore::{Crew, Verdict, Watch};
use rh_json::{write_bad, write_base, write_check};
use rh_run::{RunFault, Told, ended};
use rh_state::State;
use rh_step::Pick;
use std::alloc::Global;

/// Reads all of the input, a cluster file, a line `===` and a script of a base and a search, and then writes lines of JSON: the
/// cluster, each command of the base with its answer, as [`rh_json::run_json`] does, what the search finds from there, and each ask
/// with the verdict on it.
///
/// The search is made before anything is written. Its states are expanded by this crew, and somebody may watch. What is written depends
/// on neither. No more states are kept than there is room for. The input has at most 16,777,216 bytes. Neither device is flushed.
///
/// # Errors
/// Those of [`crate::run_explore`], for the same inputs: `Cluster` and `BadLine` are what the last line tells.
pub fn explore_json<C: Crew, W: Watch, S: Source, K: Sink>(
    crew: &C,
    watch: &mut W,
    alloc: Global,
    reader: &mut Watched<S>,
    writer: &mut Watched<K>,
    pick: Pick,
    room: SearchRoom,
) -> Result<(), RunFault>
    requires reader { reader.old.failed ≡ false }
    requires writer { writer.old.failed ≡ false }
    requires ready { C.ready crew.now }
    ensures { ProgramGives S.gives S.fails K.takes K.fails
        (OwesExploreJson pick room) NoThreads result reader.old reader.new writer.old writer.new }
{
    let input = read_input(alloc, reader)?;
    let bytes = input.as_slice();
    let Ok(finding) = finding_of(crew, watch, alloc, bytes, pick, room) else {
        return Err(RunFault::OutOfMemory);
    };
    let told = write_finding(alloc, bytes, finding, writer, pick)?;
    ended(told)
}

// Writes what is known of an input.
fn write_finding<K: Sink>(
    alloc: Global,
    input: &[u8],
    finding: Finding,
    writer: &mut Watched<K>,
    pick: Pick,
) -> Result<Option<Told>, WriteFault>
    requires writer { writer.old.failed ≡ false }
    requires limit { length input.now ≤ input_limit }
    requires told { CanBeTold pick input.now finding }
    ensures { Wrote K.takes K.fails result (finding_json pick input.now finding)
        (finding_end finding) writer.old writer.new }
{
    match finding {
        Finding::NoCluster(fault) => {
            write_check(alloc, input, writer)?;
            Ok(Some(Told::Cluster(fault)))
        }
        Finding::BadLine(number) => {
            write_check(alloc, input, writer)?;
            write_bad(alloc, number, writer)?;
            Ok(Some(Told::BadLine(number)))
        }
        Finding::Search(it) => {
            write_all(alloc, input, &it, writer, pick)?;
            Ok(found_end(it.search.steps, &it.found))
        }
    }
}

// Writes the cluster of an input, the answers to the commands of its base, and what a search found behind them.
fn write_all<K: Sink>(
    alloc: Global,
    input: &[u8],
    it: &Searched,
    writer: &mut Watched<K>,
    pick: Pick,
) -> Result<(), WriteFault>
    requires writer { writer.old.failed ≡ false }
    requires limit { length input.now ≤ input_limit }
    requires told { IsOf it.now pick input.now }
    ensures { Broke K.takes K.fails result (base_json it.now.sim.seen.cluster pick
        (script_lines input.now) ++ searched_json it.now pick) writer.old writer.new }
{
    write_base(alloc, it.sim.cluster(), input, writer, pick)?;
    write_searched(alloc, it, writer, pick)
}

// Writes what a search found.
fn write_searched<K: Sink>(
    alloc: Global,
    it: &Searched,
    writer: &mut Watched<K>,
    pick: Pick,
) -> Result<(), WriteFault>
    requires writer { writer.old.failed ≡ false }
    requires come { All (CanCome pick (state_of it.now.sim.seen)) it.now.found.verdicts.items }
    ensures { Broke K.takes K.fails result (searched_json it.now pick) writer.old writer.new }
{
    write_search(alloc, it, writer)?;
    let verdicts = it.found.verdicts.as_slice();
    write_verdicts(
        alloc,
        it.sim.cluster(),
        it.sim.state(),
        pick,
        verdicts,
        writer,
    )
}

// Writes the line of a search.
fn write_search<K: Sink>(
    alloc: Global,
    it: &Searched,
    writer: &mut Watched<K>,
) -> Result<(), WriteFault>
    requires { writer.old.failed ≡ false }
    ensures { Broke K.takes K.fails result (search_line it.now.sim.seen.cluster it.now.search.down
        it.now.search.steps it.now.found) writer.old writer.new }
{
    let line = search_line(alloc, it.sim.cluster(), &it.search, &it.found)?;
    write_text(writer, line.as_slice())
}

// Writes the lines of all asks, with the verdicts on them.
fn write_verdicts<K: Sink>(
    alloc: Global,
    cluster: &Cluster,
    base: &State,
    pick: Pick,
    verdicts: &[Verdict],
    writer: &mut Watched<K>,
) -> Result<(), WriteFault>
    requires writer { writer.old.failed ≡ false }
    requires come { All (CanCome pick (read base.now)) verdicts.now }
    requires valid { IsValid (read base.now) }
    ensures { Broke K.takes K.fails result
        (verdict_lines cluster.now pick (read base.now) 1 verdicts.now) writer.old writer.new }
{
    for place in 0..verdicts.len() {
        let verdict = &verdicts[place];
        write_verdict(alloc, cluster, base, pick, place + 1, verdict, writer)?;
    }
    Ok(())
}

// Writes the line of the ask of this number, with the verdict on it.
fn write_verdict<K: Sink>(
    alloc: Global,
    cluster: &Cluster,
    base: &State,
    pick: Pick,
    number: usize,
    verdict: &Verdict,
    writer: &mut Watched<K>,
) -> Result<(), WriteFault>
    requires writer { writer.old.failed ≡ false }
    requires come { CanCome pick (read base.now) verdict.now }
    requires valid { IsValid (read base.now) }
    ensures { Broke K.takes K.fails result
        (verdict_line cluster.now pick (read base.now) number verdict.now) writer.old writer.new }
{
    let line = verdict_line(alloc, cluster, base, pick, number, verdict)?;
    write_text(writer, line.as_slice())
}
