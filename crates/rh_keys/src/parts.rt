//! The parts of a key.

ghost use Rattle.std.specs.Prelude.{◌≡◌, ◌<◌, ◌≤◌, ◌+◌, ◌*◌, ◌∷◌, [], ◌++◌, length, take, OnOk};
ghost use Rattle.std.specs.List.{flat_map};
ghost use Rattle.rh_model.specs.ClusterView.{node_count, app_count};
ghost use Rattle.rh_state.specs.Numbers.{apps_of};
ghost use Rattle.rh_state.specs.StateView.{running_at, waiting_at};
ghost use Rattle.rh_state.specs.Stored.{read};
ghost use Rattle.rh_keys.specs.Codes.{code, node_room};
ghost use Rattle.rh_keys.specs.Keys.{mode_number, restart_number, permission_number, standing_numbers, timer_numbers, app_number, app_numbers};
ghost use Rattle.rh_keys.specs.Packed.{pair_number, packed_pair, packed_node};

use crate::key::push_number;
use rh_base::OutOfMemory;
use rh_model::{App, Node, Restart};
use rh_state::{Mode, Standing, State, Timer};

// Writes what is said of a node from a place on, and says where that ends.
#[tactic(auto, unfolding(crate::specs::Packed::packed_node))]
pub(crate) fn put_node(cells: &mut [u8], at: usize, state: &State, node: Node) -> usize
    requires node { node.0 < node_count (read state.now).cluster }
    requires room { at + node_room (read state.now).cluster ≤ length cells.old }
    ensures length { length cells.new ≡ length cells.old }
    ensures end { result ≤ at + node_room (read state.now).cluster }
    ensures bytes { take result cells.new
        ≡ take at cells.old ++ code (packed_node (read state.now) node) }
{
    state.formed();
    cells[at] = mode_byte(state.mode(node));
    let running = put_running(cells, at + 1, state, node);
    cells[running] = 0;
    let waiting = put_waiting(cells, running + 1, state, node);
    cells[waiting] = 0;
    put_pairs(cells, waiting + 1, state, node)
}

// Writes each application that runs at a node.
fn put_running(cells: &mut [u8], at: usize, state: &State, node: Node) -> usize
    requires node { node.0 < node_count (read state.now).cluster }
    requires room { at + length (running_at (read state.now) node) ≤ length cells.old }
    ensures length { length cells.new ≡ length cells.old }
    ensures end { result ≡ at + length (running_at (read state.now) node) }
    ensures bytes { take result cells.new
        ≡ take at cells.old ++ code (flat_map app_number (running_at (read state.now) node)) }
{
    state.formed();
    let _apps = state.cluster().app_count();
    let before = state.pairs_before(node);
    let mut next = state.first_running_pair(node);
    let mut end = at;
    'running: while let Some(pair) = next {
        cells[end] = (pair - before) as u8 + 1;
        end += 1;
        next = state.next_pair(node, pair);
    }
    end
}

// Writes each application that waits at a node.
fn put_waiting(cells: &mut [u8], at: usize, state: &State, node: Node) -> usize
    requires node { node.0 < node_count (read state.now).cluster }
    requires room { at + length (waiting_at (read state.now) node) ≤ length cells.old }
    ensures length { length cells.new ≡ length cells.old }
    ensures end { result ≡ at + length (waiting_at (read state.now) node) }
    ensures bytes { take result cells.new
        ≡ take at cells.old ++ code (flat_map app_number (waiting_at (read state.now) node)) }
{
    state.formed();
    let _apps = state.cluster().app_count();
    let before = state.pairs_before(node);
    let mut next = state.first_waiting_pair(node);
    let mut end = at;
    'waiting: while let Some(pair) = next {
        cells[end] = (pair - before) as u8 + 1;
        end += 1;
        next = state.next_pair(node, pair);
    }
    end
}

// Writes what is said of each pair of a node, pair by pair.
#[tactic(auto, unfolding(rh_state::specs::Numbers::apps_of))]
fn put_each_pair(cells: &mut [u8], at: usize, state: &State, node: Node) -> usize
    requires node { node.0 < node_count (read state.now).cluster }
    requires room { at + app_count (read state.now).cluster ≤ length cells.old }
    ensures length { length cells.new ≡ length cells.old }
    ensures end { result ≡ at + app_count (read state.now).cluster }
    ensures bytes { take result cells.new ≡ take at cells.old
        ++ code (flat_map (packed_pair (read state.now) node) (apps_of (read state.now).cluster)) }
{
    let count = state.cluster().app_count();
    for number in 0..count {
        let app = App(number as u8);
        cells[at + number] = pair_byte(state.restart_of(node, app), state.allowed(node, app));
    }
    at + count
}

// The same, by way of a row of its own, which many pairs fill several at a time, and which is copied as a whole.
#[tactic(auto, unfolding(rh_state::specs::Numbers::apps_of))]
fn put_row(cells: &mut [u8], at: usize, state: &State, node: Node) -> usize
    requires node { node.0 < node_count (read state.now).cluster }
    requires room { at + app_count (read state.now).cluster ≤ length cells.old }
    ensures length { length cells.new ≡ length cells.old }
    ensures end { result ≡ at + app_count (read state.now).cluster }
    ensures bytes { take result cells.new ≡ take at cells.old
        ++ code (flat_map (packed_pair (read state.now) node) (apps_of (read state.now).cluster)) }
{
    let count = state.cluster().app_count();
    // They are gathered in a row of its own, which has room for all applications that a cluster may have.
    let mut row = [0; 128];
    for number in 0..count as u8 {
        let app = App(number);
        row[number as usize] = pair_byte(state.restart_of(node, app), state.allowed(node, app));
    }
    let end = at + count;
    cells[at..end].copy_from_slice(&row[..count]);
    end
}

// So many applications are few: their pairs are written one by one. In a row they would be so too, and the copy of it as a whole would
// have to wait until these bytes can be read again. A node of 3 applications takes 4 ns so and 9 by a row, one of 8 takes 10 both ways,
// one of 16 takes 20 and 11, and one of 128 takes 160 and 13.
const FEW: usize = 8;

// Writes what is said of each pair of a node: a byte each, in the cluster's order of applications.
fn put_pairs(cells: &mut [u8], at: usize, state: &State, node: Node) -> usize
    requires node { node.0 < node_count (read state.now).cluster }
    requires room { at + app_count (read state.now).cluster ≤ length cells.old }
    ensures length { length cells.new ≡ length cells.old }
    ensures end { result ≡ at + app_count (read state.now).cluster }
    ensures bytes { take result cells.new ≡ take at cells.old
        ++ code (flat_map (packed_pair (read state.now) node) (apps_of (read state.now).cluster)) }
{
    if state.cluster().app_count() <= FEW {
        put_each_pair(cells, at, state, node)
    } else {
        put_row(cells, at, state, node)
    }
}

// Writes where an application stands.
#[tactic(auto, unfolding(crate::specs::Keys::app_numbers))]
pub(crate) fn put_standing(cells: &mut [u8], at: usize, state: &State, app: App)
    requires app { app.0 < app_count (read state.now).cluster }
    requires room { at + 2 ≤ length cells.old }
    ensures length { length cells.new ≡ length cells.old }
    ensures bytes { take (at + 2) cells.new
        ≡ take at cells.old ++ code (app_numbers (read state.now) app) }
{
    let _nodes = state.cluster().node_count();
    let (tag, node) = standing_bytes(state.standing(app));
    cells[at] = tag;
    cells[at + 1] = node;
}

// Which standing it is, and which node it names, if it names one.
fn standing_bytes(standing: Standing) -> (u8, u8)
    ensures { result.0 ∷ result.1 ∷ [] ≡ standing_numbers standing }
{
    match standing {
        Standing::Quiet => (0, 0),
        Standing::Wanted(None) => (1, 0),
        Standing::Wanted(Some(node)) => (2, node.0),
        Standing::Running(node) => (3, node.0),
        Standing::Lost(node) => (4, node.0),
    }
}

// Adds a timer, with how long it has to go.
pub(crate) fn push_timer(
    key: &mut Vec<u8>,
    now: u64,
    entry: (u64, Timer),
) -> Result<(), OutOfMemory>
    ensures { OnOk result (key.new.items ≡ key.old.items ++ code (timer_numbers now entry)) }
{
    let (tag, number) = match entry.1 {
        Timer::Sync(node) => (0, node.0),
        Timer::Failover(app) => (1, app.0),
    };
    push_number(key, entry.0.saturating_sub(now))?;
    push_number(key, tag)?;
    push_number(key, u64::from(number))?;
    Ok(())
}

// Each mode has its number.
fn mode_byte(mode: Mode) -> u8
    ensures { result ≡ mode_number mode }
{
    match mode {
        Mode::Down => 0,
        Mode::Waiting => 1,
        Mode::Up => 2,
    }
}

// A restart type and a permission, in a byte.
fn pair_byte(restart: Restart, allowed: bool) -> u8
    ensures { result ≡ pair_number restart allowed }
{
    restart_byte(restart) + 4 * permission_byte(allowed)
}

// Each restart type has its number.
fn restart_byte(restart: Restart) -> u8
    ensures number { result ≡ restart_number restart }
    ensures small { result ≤ 2 }
{
    match restart {
        Restart::Permanent => 0,
        Restart::Transient => 1,
        Restart::Temporary => 2,
    }
}

// And so has a permission.
fn permission_byte(allowed: bool) -> u8
    ensures number { result ≡ permission_number allowed }
    ensures small { result ≤ 1 }
{
    u8::from(allowed)
}
