//! How a key is made.

ghost use Rattle.std.specs.Prelude.{◌≡◌, ◌≤◌, ◌+◌, ◌*◌, ◌++◌, [], length, take, OnOk, IfOk};
ghost use Rattle.std.specs.List.{flat_map};
ghost use Rattle.rh_model.specs.ClusterView.{node_count, app_count};
ghost use Rattle.rh_state.specs.Numbers.{nodes_of, apps_of};
ghost use Rattle.rh_state.specs.Stored.{read};
ghost use Rattle.rh_trace.specs.Validity.{IsValid};
ghost use Rattle.rh_keys.specs.Keys.{timer_numbers, app_numbers};
ghost use Rattle.rh_keys.specs.Packed.{packed_node, packed_key};
ghost use Rattle.rh_keys.specs.Codes.{code, node_room};

use crate::key::Key;
use crate::parts::{push_timer, put_node, put_standing};
use rh_base::OutOfMemory;
use rh_model::{App, Cluster, Node};
use rh_state::{Edit, State, go_back};
use std::alloc::Global;

/// Makes keys, each in the memory of the one before it.
#[derive(Drop)]
pub struct KeyMaker {
    // The timers that were taken off to be counted in their order.
    taken: Vec<Edit>,
    /// The key that was made last.
    pub key: Key,
}

impl KeyMaker {
    /// A maker that made none yet.
    pub fn new(alloc: Global) -> KeyMaker {
        KeyMaker {
            taken: Vec::new(alloc),
            key: Key::new(alloc),
        }
    }

    /// Makes the key of a state, which is again as it was. Two states of a cluster are alike, as they are read, exactly if their keys
    /// are equal: the clock, the starts of nodes and the start kinds have no part in it, and timers are counted from now.
    #[tactic(auto, unfolding(crate::specs::Packed::packed_key))]
    pub fn make(&mut self, state: &mut State) -> Result<(), OutOfMemory>
        requires { IsValid (read state.old) }
        ensures key { OnOk result (self.new.key.bytes.items ≡ code (packed_key (read state.old))) }
        ensures state { OnOk result (state.new ≡ state.old) }
    {
        let key = &mut self.key.bytes;
        write_parts(key, state)?;
        push_timers(key, state, &mut self.taken)
    }
}

// Writes all that isn't a timer, in place of what was there. There is room for the longest such parts before they are written, so that
// their bytes are written without a question each whether they have any; timers are added behind them.
fn write_parts(key: &mut Vec<u8>, state: &State) -> Result<(), OutOfMemory>
    ensures { OnOk result (key.new.items
        ≡ code (flat_map (packed_node (read state.now)) (nodes_of (read state.now).cluster))
        ++ code (flat_map (app_numbers (read state.now)) (apps_of (read state.now).cluster))) }
{
    key.resize(room_of(state.cluster()), 0)?;
    let nodes = put_nodes(key.as_mut_slice(), state);
    let apps = put_apps(key.as_mut_slice(), nodes, state);
    key.truncate(apps);
    Ok(())
}

// How long they are at most: each application stands in one list of a node, and has a byte as a pair of it.
fn room_of(cluster: &Cluster) -> usize
    ensures { result ≡ node_count cluster.now * node_room cluster.now + 2 * app_count cluster.now }
{
    let nodes = cluster.node_count();
    let apps = cluster.app_count();
    nodes * (2 * apps + 3) + 2 * apps
}

// Writes what is said of each node, and says where that ends.
#[tactic(auto, unfolding(rh_state::specs::Numbers::nodes_of))]
fn put_nodes(cells: &mut [u8], state: &State) -> usize
    requires { node_count (read state.now).cluster * node_room (read state.now).cluster
        ≤ length cells.old }
    ensures length { length cells.new ≡ length cells.old }
    ensures end { result
        ≤ node_count (read state.now).cluster * node_room (read state.now).cluster }
    ensures bytes { take result cells.new
        ≡ code (flat_map (packed_node (read state.now)) (nodes_of (read state.now).cluster)) }
{
    let count = state.cluster().node_count();
    let mut end = 0;
    for number in 0..count {
        end = put_node(cells, end, state, Node(number as u8));
    }
    end
}

// Writes where each application stands, and says where that ends.
#[tactic(auto, unfolding(rh_state::specs::Numbers::apps_of))]
fn put_apps(cells: &mut [u8], at: usize, state: &State) -> usize
    requires { at + 2 * app_count (read state.now).cluster ≤ length cells.old }
    ensures length { length cells.new ≡ length cells.old }
    ensures end { result ≡ at + 2 * app_count (read state.now).cluster }
    ensures bytes { take result cells.new ≡ take at cells.old
        ++ code (flat_map (app_numbers (read state.now)) (apps_of (read state.now).cluster)) }
{
    let count = state.cluster().app_count();
    for number in 0..count {
        put_standing(cells, at + 2 * number, state, App(number as u8));
    }
    at + 2 * count
}

// Adds each timer, with how long it has to go. The first one is taken off the state until none is left, and then all are put back:
// so their order is known without a copy of them.
fn push_timers(
    key: &mut Vec<u8>,
    state: &mut State,
    taken: &mut Vec<Edit>,
) -> Result<(), OutOfMemory>
    requires { IsValid (read state.old) }
    ensures key { OnOk result (key.new.items ≡ key.old.items
        ++ code (flat_map (timer_numbers (read state.old).time) (read state.old).timers)) }
    ensures state { OnOk result (state.new ≡ state.old) }
{
    taken.clear();
    let now = state.now();
    state.formed();
    'timers: while let Some((due, timer)) = state.earliest() {
        push_timer(key, now, (due, timer))?;
        let edit = state.cancel_timer(timer);
        state.formed();
        taken.push(edit)?;
    }
    go_back(taken.as_mut_slice(), state);
    Ok(())
}
