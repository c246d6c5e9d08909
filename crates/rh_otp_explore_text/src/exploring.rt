//! The program `explore --rules otp25`.

ghost use Rattle.std.specs.Prelude.{◌≡◌, ◌++◌, map, false, None, IfOk, OnOk};
ghost use Rattle.rh_script.specs.Lines.{raw_lines, content};
ghost use Rattle.rh_run.specs.Programs.{ProgramGives, NoThreads};
ghost use Rattle.rh_otp_sim.specs.Laws.{behind};
ghost use Rattle.rh_otp_sim.specs.Sim.{opened};
ghost use Rattle.rh_explore_text.specs.SearchLines.{search_lines_asked, bad_search_line, search_of};
ghost use Rattle.rh_explore_text.specs.SearchReading.{search_view};
ghost use Rattle.rh_otp_explore_text.specs.LiveExplore.{cluster_told, fault_told, bad_told, base_told, found_told, IsFound, MayFind, MayTellLines, MayExploreLive, OwesLiveExplore};

use crate::bases::{push_answers, push_base};
use crate::found_lines;
use crate::telling::{self, found_end};
use rh_base::OutOfMemory;
use rh_cluster::{Cluster, ClusterFault, read_cluster};
use rh_devices::{Sink, Source, Watched, read_input, write_text};
use rh_explore_text::{Search, SearchScript, search_in};
use rh_json_lines::{bad_line, cluster_line, fault_line};
use rh_otp_explore::{LiveExplored, LiveSearch, MOST_EVENTS, explore_live};
use rh_otp_file::own_files;
use rh_otp_model::OwnFile;
use rh_otp_net::Order;
use rh_otp_sim::LiveSim;
use rh_run::{RunFault, Told, ended};
use rh_script::{bad_text, cut, fault_text};
use std::alloc::Global;

/// Reads all of the input, a cluster file, a line `===` and a script of a base and a search, and then writes the answers of live nodes to the
/// base's commands, as [`rh_otp_run::run_live`] does in a plain manner, and what the search finds from there, with messages taken in this
/// order: how many lists of its events were tried, and of each ask that it held behind them, or the first list behind which it didn't. With
/// `json` it writes lines of JSON, of the base as [`rh_otp_json::live_json`] does.
///
/// At most so many lists are tried, and at least the one without events; none has more than 255 events. The input has at most
/// 16,777,216 bytes. Neither device is flushed.
///
/// # Errors
/// `Cluster` and `BadLine` (a line that is no command of the base and none of a search) are told alone, as JSON a bad line behind the
/// cluster. `Differs` is the end of the text that was written, where what is asked fails, and `Unfinished`, where none does and as many
/// lists were tried as may be, even if there are no others, or lists of 255 events and the script allows longer ones. `Read` comes where
/// the reader has failed or the input is too long, and `OutOfMemory` where a growth was refused: nothing was written. `Write` comes where
/// the writer has failed: a front of the text was written.
pub fn run_explore_live<S: Source, K: Sink>(
    alloc: Global,
    reader: &mut Watched<S>,
    writer: &mut Watched<K>,
    order: Order,
    lists: usize,
    json: bool,
) -> Result<(), RunFault>
    requires reader { reader.old.failed ≡ false }
    requires writer { writer.old.failed ≡ false }
    ensures { ProgramGives S.gives S.fails K.takes K.fails (OwesLiveExplore order lists json)
        NoThreads result reader.old reader.new writer.old writer.new }
{
    let input = read_input(alloc, reader)?;
    let Ok(answer) = answer_of(alloc, input.as_slice(), order, lists, json) else {
        return Err(RunFault::OutOfMemory);
    };
    write_text(writer, answer.text.as_slice())?;
    ended(answer.end)
}

// What is answered to an input.
#[derive(Drop)]
struct Answer {
    // The whole text.
    text: Vec<u8>,
    // The fault that it tells, if it does.
    end: Option<Told>,
}

// What is answered to an input.
#[tactic(auto, unfolding(crate::specs::LiveExplore::MayExploreLive))]
fn answer_of(
    alloc: Global,
    input: &[u8],
    order: Order,
    lists: usize,
    json: bool,
) -> Result<Answer, OutOfMemory>
    ensures { IfOk result
        (λ answer. MayExploreLive order lists json input.now answer.text.items answer.end) }
{
    let (text, script) = cut(input);
    match read_cluster(alloc, text) {
        Err(fault) => {
            if fault.is_memory() {
                return Err(OutOfMemory);
            }
            let text = fault_told(alloc, &fault, json)?;
            let end = Some(Told::Cluster(fault));
            Ok(Answer { text, end })
        }
        Ok(cluster) => {
            let files = own_files(alloc, &cluster, text)?;
            answer_script(alloc, cluster, files, script, order, lists, json)
        }
    }
}

// What is told of a text that is no cluster.
fn fault_told(alloc: Global, fault: &ClusterFault, json: bool) -> Result<Vec<u8>, OutOfMemory>
    ensures { IfOk result (λ text. text.items ≡ fault_told json fault.now) }
{
    if json {
        fault_line(alloc, fault)
    } else {
        Ok(fault_text(alloc, fault)?.into_bytes())
    }
}

// What is told of a cluster, before anything else.
fn cluster_told(alloc: Global, cluster: &Cluster, json: bool) -> Result<Vec<u8>, OutOfMemory>
    ensures { IfOk result (λ text. text.items ≡ cluster_told json cluster.now) }
{
    if json {
        cluster_line(alloc, cluster)
    } else {
        Ok(Vec::new(alloc))
    }
}

// What is told of a bad line of this number.
fn bad_told(alloc: Global, number: u64, json: bool) -> Result<Vec<u8>, OutOfMemory>
    ensures { IfOk result (λ text. text.items ≡ bad_told json number) }
{
    if json {
        bad_line(alloc, number)
    } else {
        Ok(bad_text(alloc, number)?.into_bytes())
    }
}

// What is answered to a script.
fn answer_script(
    alloc: Global,
    cluster: Cluster,
    files: Vec<OwnFile>,
    script: &[u8],
    order: Order,
    lists: usize,
    json: bool,
) -> Result<Answer, OutOfMemory>
    ensures { IfOk result (λ answer. MayTellLines json lists (opened cluster files.items order)
        (map content (raw_lines script.now))
        (bad_search_line (search_lines_asked cluster (map content (raw_lines script.now))))
        answer.text.items answer.end) }
{
    let mut text = cluster_told(alloc, &cluster, json)?;
    let mut sim = LiveSim::open(alloc, cluster, files, order)?;
    match search_in(alloc, sim.cluster(), script)? {
        SearchScript::BadLine(number) => {
            let line = bad_told(alloc, number, json)?;
            text.extend_from_slice(line.as_slice())?;
            let end = Some(Told::BadLine(number));
            Ok(Answer { text, end })
        }
        SearchScript::Search(search) => {
            answer_base(alloc, &mut text, &mut sim, script, &search, json)?;
            answer_search(alloc, text, &sim, search, lists, json)
        }
    }
}

// Gives the commands of the base to live nodes, and adds what they are answered.
fn answer_base(
    alloc: Global,
    text: &mut Vec<u8>,
    sim: &mut LiveSim,
    script: &[u8],
    search: &Search,
    json: bool,
) -> Result<(), OutOfMemory>
    requires fits { bad_search_line
        (search_lines_asked sim.old.cluster (map content (raw_lines script.now))) ≡ None }
    requires search { search_view search.now ≡ search_of sim.old.cluster
        (search_lines_asked sim.old.cluster (map content (raw_lines script.now))) }
    ensures sim { OnOk result (sim.new ≡ behind search.now.base.items sim.old) }
    ensures text { OnOk result (text.new.items ≡ text.old.items
        ++ base_told json sim.old (map content (raw_lines script.now)) search.now.base.items) }
{
    if json {
        push_base(alloc, text, sim, script)
    } else {
        push_answers(alloc, text, sim, search.base.as_slice())
    }
}

// What is answered, where this is told before what is found, and the search begins at these live nodes.
fn answer_search(
    alloc: Global,
    text: Vec<u8>,
    sim: &LiveSim,
    search: Search,
    lists: usize,
    json: bool,
) -> Result<Answer, OutOfMemory>
    ensures { IfOk result (λ answer. MayFind json lists sim.now (search_view search) text.items
        answer.text.items answer.end) }
{
    let (down, steps) = (search.down, search.steps);
    let found = found_from(alloc, sim, search, lists)?;
    let mut text = text;
    push_found(alloc, &mut text, sim.cluster(), down, steps, &found, json)?;
    let end = found_end(steps, &found);
    Ok(Answer { text, end })
}

// What a search finds that begins at these live nodes.
fn found_from(
    alloc: Global,
    sim: &LiveSim,
    search: Search,
    lists: usize,
) -> Result<LiveExplored, OutOfMemory>
    ensures { IfOk result (IsFound lists sim.now (search_view search)) }
{
    let Search {
        base: _,
        begun: _,
        moves,
        down,
        steps,
        asks,
    } = search;
    let whole = LiveSearch {
        moves,
        down: down as usize,
        steps: steps.min(MOST_EVENTS as u32) as u8,
        lists,
        asks,
    };
    explore_live(alloc, sim, whole)
}

// Adds what a search found.
fn push_found(
    alloc: Global,
    text: &mut Vec<u8>,
    cluster: &Cluster,
    down: u64,
    steps: u32,
    found: &LiveExplored,
    json: bool,
) -> Result<(), OutOfMemory>
    ensures { OnOk result (text.new.items
        ≡ text.old.items ++ found_told json cluster.now down steps found.now) }
{
    if json {
        found_lines::push_found(alloc, text, cluster, down, steps, found)
    } else {
        telling::push_found(alloc, text, cluster, down, steps, found)
    }
}
