//! The program `explore`: all states that events reach from a base, and what holds in each.

ghost use Rattle.std.specs.Prelude.{◌≡◌, ◌++◌, map, false, IfOk, OnOk};
ghost use Rattle.rh_trail.specs.Lone.{sim_after, served};
ghost use Rattle.rh_script.specs.Lines.{raw_lines, content};
ghost use Rattle.rh_script.specs.Answers.{answer_text};
ghost use Rattle.rh_run.specs.Programs.{ProgramGives, NoThreads};
ghost use Rattle.rh_run.specs.RunText.{answers_text};
ghost use Rattle.rh_explore_text.specs.SearchLines.{search_lines_asked, bad_search_line, search_of};
ghost use Rattle.rh_explore_text.specs.SearchReading.{search_view};
ghost use Rattle.rh_explore_text.specs.ExploreText.{explored_text, MayFind, MayTellLines, MayExplore, OwesExplore};

use crate::reading::{Search, SearchScript, search_in};
use crate::searching::found_from;
use crate::telling::{found_end, push_found};
use rh_asked::SearchRoom;
use rh_base::OutOfMemory;
use rh_calls::Call;
use rh_cluster::{Cluster, read_cluster};
use rh_devices::{Sink, Source, Watched, read_input, write_text};
use rh_explore::{Crew, Watch};
use rh_run::{RunFault, Told, ended};
use rh_script::{answer_text, bad_text, cut, fault_text};
use rh_step::Pick;
use rh_trail::Sim;
use std::alloc::Global;

/// Reads all of the input, a cluster file, a line `===` and a script of a base and a search, and then writes the answers to the
/// base's commands, as [`rh_run::run`] does, and what the search finds from there: how many states its events reach, and of each
/// ask that it holds, or a shortest list of events behind which it doesn't.
///
/// The states are expanded by this crew, and somebody may watch. What is written depends on neither. No more states are kept than there
/// is room for. The input has at most 16,777,216 bytes. Neither device is flushed.
///
/// # Errors
/// `Cluster` and `BadLine` (a line that is no command of the base and none of a search) are told alone. `Differs` is the end of the
/// text that was written, where what is asked fails, and `Unfinished`, where none does and there are more states than room, or
/// a limit of starts or of time was. `Read` comes where the reader has failed or the input is too long, and `OutOfMemory` where a growth was
/// refused: nothing was written. `Write` comes where the writer has failed: a front of the text was written.
pub fn run_explore<C: Crew, W: Watch, S: Source, K: Sink>(
    crew: &C,
    watch: &mut W,
    alloc: Global,
    reader: &mut Watched<S>,
    writer: &mut Watched<K>,
    pick: Pick,
    room: SearchRoom,
) -> Result<(), RunFault>
    requires reader { reader.old.failed ≡ false }
    requires writer { writer.old.failed ≡ false }
    requires ready { C.ready crew.now }
    ensures { ProgramGives S.gives S.fails K.takes K.fails
        (OwesExplore pick room) NoThreads result reader.old reader.new writer.old writer.new }
{
    let input = read_input(alloc, reader)?;
    let Ok(answer) = answer_of(crew, watch, alloc, input.as_slice(), pick, room) else {
        return Err(RunFault::OutOfMemory);
    };
    write_text(writer, answer.text.as_slice())?;
    ended(answer.end)
}

// What is answered to an input.
#[derive(Drop)]
struct Answer {
    // The whole text.
    text: Vec<u8>,
    // The fault that it tells, if it does.
    end: Option<Told>,
}

// What is answered to an input.
#[tactic(auto, unfolding(crate::specs::ExploreText::MayExplore))]
fn answer_of<C: Crew, W: Watch>(
    crew: &C,
    watch: &mut W,
    alloc: Global,
    input: &[u8],
    pick: Pick,
    room: SearchRoom,
) -> Result<Answer, OutOfMemory>
    requires { C.ready crew.now }
    ensures { IfOk result (λ answer. MayExplore pick room input.now answer.text.items answer.end) }
{
    let (text, script) = cut(input);
    match read_cluster(alloc, text) {
        Err(fault) => {
            if fault.is_memory() {
                return Err(OutOfMemory);
            }
            let text = fault_text(alloc, &fault)?.into_bytes();
            let end = Some(Told::Cluster(fault));
            Ok(Answer { text, end })
        }
        Ok(cluster) => answer_script(crew, watch, alloc, cluster, script, pick, room),
    }
}

// What is answered to a script.
fn answer_script<C: Crew, W: Watch>(
    crew: &C,
    watch: &mut W,
    alloc: Global,
    cluster: Cluster,
    script: &[u8],
    pick: Pick,
    room: SearchRoom,
) -> Result<Answer, OutOfMemory>
    requires { C.ready crew.now }
    ensures { IfOk result
        (λ answer. let lines = search_lines_asked cluster (map content (raw_lines script.now)) in
        MayTellLines cluster pick room lines (bad_search_line lines) answer.text.items answer.end) }
{
    match search_in(alloc, &cluster, script)? {
        SearchScript::BadLine(number) => {
            let text = bad_text(alloc, number)?.into_bytes();
            let end = Some(Told::BadLine(number));
            Ok(Answer { text, end })
        }
        SearchScript::Search(search) => answer_search(
            crew, watch, alloc, cluster, &search, pick, room,
        ),
    }
}

// What is answered to what is asked of a search.
fn answer_search<C: Crew, W: Watch>(
    crew: &C,
    watch: &mut W,
    alloc: Global,
    cluster: Cluster,
    search: &Search,
    pick: Pick,
    room: SearchRoom,
) -> Result<Answer, OutOfMemory>
    requires { C.ready crew.now }
    ensures { IfOk result (λ answer. MayFind cluster pick room (search_view search.now)
        (explored_text cluster pick (search_view search.now)) answer.text.items answer.end) }
{
    let mut sim = Sim::open(alloc, cluster, pick)?;
    let mut text = answers_to(alloc, &mut sim, search.base.as_slice())?;
    let found = found_from(crew, watch, alloc, &sim, search, pick, room)?;
    push_found(
        alloc,
        &mut text,
        sim.cluster(),
        sim.state(),
        pick,
        search,
        &found,
    )?;
    let end = found_end(search.steps, &found);
    Ok(Answer { text, end })
}

// The answers to calls that are made one after the other.
fn answers_to(alloc: Global, sim: &mut Sim, calls: &[Call]) -> Result<Vec<u8>, OutOfMemory>
    ensures sim { OnOk result (sim.new.seen ≡ sim_after sim.old.seen calls.now) }
    ensures cluster { OnOk result (sim.new.seen.cluster ≡ sim.old.seen.cluster) }
    ensures text { IfOk result
        (λ text. text.items ≡ answers_text sim.old.seen.cluster sim.old.seen calls.now) }
{
    let mut text = Vec::new(alloc);
    'calls: for call in calls {
        push_answer(alloc, &mut text, sim, *call)?;
    }
    Ok(text)
}

// Gives a call to the simulation, and adds the answer.
#[tactic(auto, using(rh_run::proofs::Keeping::served_keeps_cluster))]
fn push_answer(
    alloc: Global,
    text: &mut Vec<u8>,
    sim: &mut Sim,
    call: Call,
) -> Result<(), OutOfMemory>
    ensures sim { OnOk result (sim.new.seen ≡ (served sim.old.seen call).sim) }
    ensures cluster { OnOk result (sim.new.seen.cluster ≡ sim.old.seen.cluster) }
    ensures text { OnOk result (text.new.items
        ≡ text.old.items ++ answer_text sim.old.seen.cluster (served sim.old.seen call).reply) }
{
    let reply = sim.answer(alloc, call)?.into_one();
    let answer = answer_text(alloc, sim.cluster(), &reply)?;
    text.extend_from_slice(answer.as_slice())?;
    Ok(())
}
