//! What a dist_ac reads in its lists.

ghost use Rattle.std.specs.Prelude.{◌≡◌, ◌++◌, IfOk, filter, reverse};
ghost use Rattle.rh_otp_dist.specs.State.{permitted, may_run, is_among};
ghost use Rattle.rh_otp_dist.specs.Choosing.{places_of, backwards, runs_at, group_at};

use crate::state::{Dist, Standing};
use rh_base::OutOfMemory;
use rh_model::{App, Node, is_in};
use rh_otp_model::{Own, Written};
use std::alloc::Global;

/// Where an application runs, by its standing.
pub fn runs_at(standing: Standing) -> Option<Node>
    ensures { result ≡ runs_at standing }
{
    match standing {
        Standing::Distributed(node) => Some(node),
        _ => None,
    }
}

/// The places of the application's list.
pub fn places_of(own: &Own, app: App) -> &[Written]
    ensures { result.now ≡ places_of own.now app }
{
    for entry in own.entries() {
        if entry.app().0 == app.0 {
            return entry.places();
        }
    }
    &[]
}

/// The nodes of the place of this number.
pub fn group_at(own: &Own, app: App, place: usize) -> &[Node]
    ensures { result.now ≡ group_at own.now app place }
{
    match places_of(own, app).get(place) {
        Some(written) => written.nodes(),
        None => &[],
    }
}

/// These nodes, from the last one.
pub fn reversed(alloc: Global, nodes: &[Node]) -> Result<Vec<Node>, OutOfMemory>
    ensures { IfOk result (λ found. found.items ≡ reverse nodes.now) }
{
    Ok(nodes.iter().rev().copied().collect(alloc)?)
}

// These nodes, and then those.
fn joined(alloc: Global, these: &[Node], those: &[Node]) -> Result<Vec<Node>, OutOfMemory>
    ensures { IfOk result (λ nodes. nodes.items ≡ these.now ++ those.now) }
{
    let mut nodes = Vec::from_slice(alloc, these)?;
    nodes.extend_from_slice(those)?;
    Ok(nodes)
}

/// flat_nodes/1: all nodes of the list, the places from the last one, each tuple as it is written.
pub fn backwards(alloc: Global, own: &Own, app: App) -> Result<Vec<Node>, OutOfMemory>
    ensures { IfOk result (λ nodes. nodes.items ≡ backwards own.now app) }
{
    let mut nodes = Vec::new(alloc);
    for written in places_of(own, app) {
        nodes = joined(alloc, written.nodes(), nodes.as_slice())?;
    }
    Ok(nodes)
}

/// Those of these nodes that are among the others, in their order.
pub fn among(alloc: Global, nodes: &[Node], others: &[Node]) -> Result<Vec<Node>, OutOfMemory>
    ensures { IfOk result (λ found. found.items ≡ filter (λ n. is_among n others.now) nodes.now) }
{
    let mut found = Vec::new(alloc);
    for node in nodes {
        if is_in(*node, others) {
            found.push(*node)?;
        }
    }
    Ok(found)
}

/// May the node run the application, as far as it is known?
pub fn may_run(state: &Dist, node: Node, app: App) -> bool
    ensures { result ≡ may_run state.now node app }
{
    match state.may.get(node.0 as usize) {
        Some(flags) => flags.has(app),
        None => false,
    }
}

/// The nodes that may run the application, in the order of their numbers.
pub fn permitted(alloc: Global, state: &Dist, app: App) -> Result<Vec<Node>, OutOfMemory>
    ensures { IfOk result (λ nodes. nodes.items ≡ permitted state.now app) }
{
    let mut nodes = Vec::new(alloc);
    for number in 0..state.may.len() {
        let node = Node(number as u8);
        if may_run(state, node, app) {
            nodes.push(node)?;
        }
    }
    Ok(nodes)
}
