//! For whom a node waits.

ghost use Rattle.std.specs.Prelude.{◌≡◌, ◌<◌, ◌++◌, ◌∷◌, [], if◌then◌else◌, OnOk, IfOk};
ghost use Rattle.std.specs.List.{filter};
ghost use Rattle.rh_model.specs.ClusterView.{node_count, is_in};
ghost use Rattle.rh_state.specs.Numbers.{nodes_of};
ghost use Rattle.rh_state.specs.StateView.{due_of};
ghost use Rattle.rh_state.specs.Stored.{read};
ghost use Rattle.rh_state.specs.declared.status.Timer.TheVariants.{Sync};
ghost use Rattle.rh_why.specs.Reasons.{sync_nodes, waits_for_others, is_awaited, awaited};

use crate::reason::Awaited;
use rh_base::OutOfMemory;
use rh_model::{Node, SyncWait};
use rh_state::{Mode, State, Timer};
use std::alloc::Global;

/// For whom a node that boots waits, and until when: for nobody exactly if it doesn't wait, or is ready.
pub fn why_node_waits(alloc: Global, state: &State, node: Node) -> Result<Awaited, OutOfMemory>
    requires { node.0 < node_count (read state.now).cluster }
    ensures nodes { IfOk result (λ found. found.nodes.items ≡ awaited (read state.now) node) }
    ensures until { IfOk result (λ found. found.until ≡ due_of (read state.now) (Sync node)) }
{
    let nodes = awaited_nodes(alloc, state, node)?;
    let until = state.due_of(Timer::Sync(node));
    Ok(Awaited { nodes, until })
}

// The nodes for which a node waits.
#[tactic(auto, unfolding(crate::specs::Reasons::awaited))]
fn awaited_nodes(alloc: Global, state: &State, node: Node) -> Result<Vec<Node>, OutOfMemory>
    requires { node.0 < node_count (read state.now).cluster }
    ensures { IfOk result (λ nodes. nodes.items ≡ awaited (read state.now) node) }
{
    if waits_for_others(state, node) {
        missing_nodes(alloc, state, node)
    } else {
        Ok(Vec::new(alloc))
    }
}

// Does a node wait, and for others?
fn waits_for_others(state: &State, node: Node) -> bool
    requires { node.0 < node_count (read state.now).cluster }
    ensures { result ≡ waits_for_others (read state.now) node }
{
    state.mode(node) == Mode::Waiting && state.cluster().sync_wait(node) != SyncWait::Unset
}

// The nodes of its lists that aren't alive.
#[tactic(auto, unfolding(rh_state::specs::Numbers::nodes_of))]
fn missing_nodes(alloc: Global, state: &State, node: Node) -> Result<Vec<Node>, OutOfMemory>
    requires { node.0 < node_count (read state.now).cluster }
    ensures { IfOk result (λ nodes. nodes.items
        ≡ filter (is_awaited (read state.now) node) (nodes_of (read state.now).cluster)) }
{
    let mut nodes = Vec::new(alloc);
    for number in 0..state.cluster().node_count() {
        let other = Node(number as u8);
        push_if_awaited(&mut nodes, state, node, other)?;
    }
    Ok(nodes)
}

// Adds another node, if a node waits for it.
fn push_if_awaited(
    nodes: &mut Vec<Node>,
    state: &State,
    node: Node,
    other: Node,
) -> Result<(), OutOfMemory>
    requires node { node.0 < node_count (read state.now).cluster }
    requires other { other.0 < node_count (read state.now).cluster }
    ensures { OnOk result (nodes.new.items
        ≡ nodes.old.items ++ (if is_awaited (read state.now) node other then other ∷ [] else [])) }
{
    if is_awaited(state, node, other) {
        nodes.push(other)?;
    }
    Ok(())
}

// Is another node in the lists of a node, and not alive?
fn is_awaited(state: &State, node: Node, other: Node) -> bool
    requires node { node.0 < node_count (read state.now).cluster }
    requires other { other.0 < node_count (read state.now).cluster }
    ensures { result ≡ is_awaited (read state.now) node other }
{
    is_listed(state, node, other) && state.mode(other) == Mode::Down
}

// Is another node in the lists of a node?
fn is_listed(state: &State, node: Node, other: Node) -> bool
    requires { node.0 < node_count (read state.now).cluster }
    ensures { result ≡ is_in other (sync_nodes (read state.now).cluster node) }
{
    let cluster = state.cluster();
    has(cluster.mandatory(node), other) || has(cluster.optional(node), other)
}

// Is a node in the list?
fn has(nodes: &[Node], node: Node) -> bool
    ensures { result ≡ is_in node nodes.now }
{
    nodes.iter().any(|other| node.0 == other.0)
}
