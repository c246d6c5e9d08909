//! What is known of an input before anything is written of it: that it has no cluster, or a bad line, or what a search finds in it.
//! So nothing is written where memory is wanting for a search.

ghost use Rattle.std.specs.Prelude.{◌≡◌, All, IfOk, Ok};
ghost use Rattle.rh_cluster.specs.ClusterOf.{cluster_of};
ghost use Rattle.rh_trail.specs.SimView.{state_of};
ghost use Rattle.rh_script.specs.Lines.{cluster_text, script_lines};
ghost use Rattle.rh_explore_text.specs.SearchLines.{search_lines_asked, bad_search_line};
ghost use Rattle.rh_explore_text.specs.SearchReading.{search_view};
ghost use Rattle.rh_explore_text.specs.FoundText.{CanCome};
ghost use Rattle.rh_explore_text.specs.ExploreText.{IsFound, base_of, scope_from, scope_in};
ghost use Rattle.rh_explore_text.specs.ExploreJson.{MayTellJson, MayExploreJson};
ghost use Rattle.rh_explore_text.specs.Findings.{finding_json, finding_end, CanBeTold};

use crate::reading::{Search, SearchScript, search_in};
use rh_asked::SearchRoom;
use rh_base::OutOfMemory;
use rh_cluster::{Cluster, ClusterFault, read_cluster};
use rh_explore::{Bounds, Crew, Explored, Search as StateSearch, Watch, explore};
use rh_json::make_calls;
use rh_script::cut;
use rh_step::Pick;
use rh_trail::Sim;
use std::alloc::Global;

/// A search that was made.
#[derive(Drop)]
pub struct Searched {
    /// The simulation behind the base.
    pub sim: Sim,
    /// What was asked.
    pub search: Search,
    /// What was found.
    pub found: Explored,
}

/// What is known of an input.
#[derive(Drop)]
pub enum Finding {
    /// It describes no cluster.
    NoCluster(ClusterFault),
    /// The line of this number, counted from 1, is neither a command of the base nor a line of the search.
    BadLine(u64),
    /// This search was made.
    Search(Searched),
}

/// What a search by this crew finds from where a simulation stands.
pub fn found_from<C: Crew, W: Watch>(
    crew: &C,
    watch: &mut W,
    alloc: Global,
    sim: &Sim,
    search: &Search,
    pick: Pick,
    room: SearchRoom,
) -> Result<Explored, OutOfMemory>
    requires ready { C.ready crew.now }
    ensures found { IfOk result (IsFound (scope_from (state_of sim.now.seen) pick
        (search_view search.now)) search.now.steps room search.now.asks.items) }
    ensures come { IfOk result (λ x. All (CanCome pick (state_of sim.now.seen)) x.verdicts.items) }
{
    let bounds = Bounds {
        down: search.down as usize,
        steps: search.steps,
        states: room.states,
        mebibytes: room.mebibytes,
    };
    let moves = search.moves.as_slice();
    let asks = search.asks.as_slice();
    let whole = StateSearch {
        base: sim.state(),
        pick,
        moves,
        bounds,
        asks,
    };
    let found = explore(crew, watch, alloc, &whole)?;
    Ok(found)
}

/// What is known of an input, by this crew.
#[tactic(auto, unfolding(crate::specs::ExploreJson::MayExploreJson, rh_json::specs::CheckJson::check_json))]
pub fn finding_of<C: Crew, W: Watch>(
    crew: &C,
    watch: &mut W,
    alloc: Global,
    input: &[u8],
    pick: Pick,
    room: SearchRoom,
) -> Result<Finding, OutOfMemory>
    requires ready { C.ready crew.now }
    ensures may { IfOk result (λ it.
        MayExploreJson pick room input.now (finding_json pick input.now it) (finding_end it)) }
    ensures told { IfOk result (CanBeTold pick input.now) }
{
    let (text, _) = cut(input);
    match read_cluster(alloc, text) {
        Err(fault) => {
            if fault.is_memory() {
                return Err(OutOfMemory);
            }
            Ok(Finding::NoCluster(fault))
        }
        Ok(cluster) => finding_in(crew, watch, alloc, cluster, input, pick, room),
    }
}

// What is known of an input that has this cluster.
fn finding_in<C: Crew, W: Watch>(
    crew: &C,
    watch: &mut W,
    alloc: Global,
    cluster: Cluster,
    input: &[u8],
    pick: Pick,
    room: SearchRoom,
) -> Result<Finding, OutOfMemory>
    requires ready { C.ready crew.now }
    requires cluster { cluster_of (cluster_text input.now) ≡ Ok cluster }
    ensures may { IfOk result (λ it. MayTellJson cluster pick room (script_lines input.now)
        (bad_search_line (search_lines_asked cluster (script_lines input.now)))
        (finding_json pick input.now it) (finding_end it)) }
    ensures told { IfOk result (CanBeTold pick input.now) }
{
    let (_, script) = cut(input);
    match search_in(alloc, &cluster, script)? {
        SearchScript::BadLine(number) => Ok(Finding::BadLine(number)),
        SearchScript::Search(search) => {
            let searched = search_from(crew, watch, alloc, cluster, search, pick, room)?;
            Ok(Finding::Search(searched))
        }
    }
}

// Makes a search in a cluster, by this crew.
fn search_from<C: Crew, W: Watch>(
    crew: &C,
    watch: &mut W,
    alloc: Global,
    cluster: Cluster,
    search: Search,
    pick: Pick,
    room: SearchRoom,
) -> Result<Searched, OutOfMemory>
    requires ready { C.ready crew.now }
    ensures search { IfOk result (λ it. it.search ≡ search) }
    ensures base { IfOk result (λ it. it.sim.seen ≡ base_of cluster pick (search_view it.search)) }
    ensures cluster { IfOk result (λ it. it.sim.seen.cluster ≡ cluster) }
    ensures found { IfOk result (λ it. IsFound (scope_in cluster pick (search_view it.search))
        it.search.steps room it.search.asks.items it.found) }
    ensures come { IfOk result
        (λ it. All (CanCome pick (state_of it.sim.seen)) it.found.verdicts.items) }
{
    let mut sim = Sim::open(alloc, cluster, pick)?;
    make_calls(alloc, &mut sim, search.base.as_slice())?;
    let found = found_from(crew, watch, alloc, &sim, &search, pick, room)?;
    Ok(Searched { sim, search, found })
}
