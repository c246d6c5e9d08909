//! What the programs are given: cluster files with scripts.

use crate::chance::Chance;
use crate::clusters::{Made, Shape, cluster_of};
use crate::episodes::{push_changes, push_episode_plans, push_episodes};
use crate::scripts::{
    push_boots, push_looks, push_plans, push_rounds, push_search, push_steps, push_turns,
};
use rh_base::OutOfMemory;
use std::alloc::Global;

/// Five applications at six nodes, each of which waits for the next one. Time passes before any fails over, so that they are in more
/// than 100,000 states.
pub static WAITING: Shape = Shape {
    nodes: 6,
    apps: 5,
    locals: 0,
    groups: &[1, 2, 1],
    second: false,
    waits: true,
    delays: true,
};

/// Three applications, some of which may fail over at once: how many states they are in goes by the seed, from 5,000 on.
pub static FEW: Shape = Shape {
    nodes: 6,
    apps: 3,
    locals: 0,
    groups: &[1, 2, 1],
    second: false,
    waits: true,
    delays: false,
};

/// Twelve nodes, and sixteen applications.
pub static MIDDLE: Shape = Shape {
    nodes: 12,
    apps: 16,
    locals: 0,
    groups: &[1, 2, 1],
    second: false,
    waits: false,
    delays: false,
};

/// As many nodes and distributed applications as the first profile allows.
pub static PLAIN: Shape = Shape {
    nodes: 32,
    apps: 64,
    locals: 0,
    groups: &[2, 2, 2, 2],
    second: false,
    waits: false,
    delays: false,
};

/// The same, and four of the applications are local.
pub static MIXED: Shape = Shape {
    nodes: 32,
    apps: 60,
    locals: 4,
    groups: &[2, 2, 2, 2],
    second: false,
    waits: false,
    delays: false,
};

/// Five nodes as real ones are: most of their applications are local, and most of these need others.
pub static FIVE: Shape = Shape {
    nodes: 5,
    apps: 5,
    locals: 40,
    groups: &[1, 2, 2],
    second: false,
    waits: false,
    delays: false,
};

/// Sixteen such nodes.
pub static SIXTEEN: Shape = Shape {
    nodes: 16,
    apps: 5,
    locals: 40,
    groups: &[1, 2, 2],
    second: false,
    waits: false,
    delays: false,
};

/// As many as the second profile allows, and each application may run at 32 of 64 nodes.
pub static LARGEST: Shape = Shape {
    nodes: 64,
    apps: 128,
    locals: 0,
    groups: &[4, 4, 4, 4, 4, 4, 4, 4],
    second: true,
    waits: false,
    delays: false,
};

// A cluster at whose end all nodes have booted.
fn booted_cluster(
    alloc: Global,
    chance: &mut Chance,
    shape: &Shape,
) -> Result<(Made, String), OutOfMemory> {
    let made = cluster_of(alloc, chance, shape)?;
    let mut text = made.text.clone()?;
    push_boots(&mut text, &made)?;
    Ok((made, text))
}

/// A search from a state in which all nodes are up.
pub fn search_text(
    alloc: Global,
    chance: &mut Chance,
    shape: &Shape,
    down: usize,
) -> Result<String, OutOfMemory> {
    let (made, mut text) = booted_cluster(alloc, chance, shape)?;
    push_search(&mut text, &made, down)?;
    Ok(text)
}

/// A cluster of this kind; the second of two has local applications.
pub fn large(number: u64) -> &'static Shape {
    if number % 2 == 0 { &PLAIN } else { &MIXED }
}

/// A cluster whose applications are mostly local; the second of two has sixteen nodes.
pub fn real(number: u64) -> &'static Shape {
    if number % 2 == 0 { &FIVE } else { &SIXTEEN }
}

/// So many steps.
pub fn steps_text(
    alloc: Global,
    chance: &mut Chance,
    shape: &Shape,
    count: usize,
) -> Result<String, OutOfMemory> {
    let (made, mut text) = booted_cluster(alloc, chance, shape)?;
    push_steps(alloc, &mut text, chance, &made, count)?;
    Ok(text)
}

/// So many steps, which are undone and redone so often.
pub fn turns_text(
    alloc: Global,
    chance: &mut Chance,
    shape: &Shape,
    count: usize,
    turns: usize,
) -> Result<String, OutOfMemory> {
    let mut text = steps_text(alloc, chance, shape, count)?;
    push_turns(&mut text, turns)?;
    Ok(text)
}

/// So many steps, with a look at the state now and then.
pub fn looks_text(
    alloc: Global,
    chance: &mut Chance,
    shape: &Shape,
    count: usize,
) -> Result<String, OutOfMemory> {
    let (made, mut text) = booted_cluster(alloc, chance, shape)?;
    push_looks(alloc, &mut text, chance, &made, count)?;
    Ok(text)
}

/// So many plans.
pub fn plans_text(
    alloc: Global,
    chance: &mut Chance,
    shape: &Shape,
    count: usize,
) -> Result<String, OutOfMemory> {
    let (made, mut text) = booted_cluster(alloc, chance, shape)?;
    push_plans(alloc, &mut text, chance, &made, count)?;
    Ok(text)
}

/// So many steps, each of which moves half of the applications of a node.
pub fn rounds_text(
    alloc: Global,
    chance: &mut Chance,
    shape: &Shape,
    count: usize,
) -> Result<String, OutOfMemory> {
    let (made, mut text) = booted_cluster(alloc, chance, shape)?;
    push_rounds(&mut text, &made, count)?;
    Ok(text)
}

/// So many plans of episodes.
pub fn episode_plans_text(
    alloc: Global,
    chance: &mut Chance,
    shape: &Shape,
    count: usize,
) -> Result<String, OutOfMemory> {
    let (made, mut text) = booted_cluster(alloc, chance, shape)?;
    push_episode_plans(&mut text, chance, &made, count)?;
    Ok(text)
}

/// So many changes by hand.
pub fn changes_text(
    alloc: Global,
    chance: &mut Chance,
    shape: &Shape,
    count: usize,
) -> Result<String, OutOfMemory> {
    let (made, mut text) = booted_cluster(alloc, chance, shape)?;
    push_changes(&mut text, chance, &made, count)?;
    Ok(text)
}

/// So many episodes.
pub fn episodes_text(
    alloc: Global,
    chance: &mut Chance,
    shape: &Shape,
    count: usize,
) -> Result<String, OutOfMemory> {
    let (made, mut text) = booted_cluster(alloc, chance, shape)?;
    push_episodes(&mut text, chance, &made, count)?;
    Ok(text)
}
