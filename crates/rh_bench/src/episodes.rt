//! Episodes: what befalls a cluster whose nodes are all up, and is over when all is as it was.

use crate::chance::Chance;
use crate::clusters::Made;
use crate::names::{any_of, name_at};
use crate::scripts::{push_at, push_line};
use itoa::Buffer;
use rh_base::OutOfMemory;

// A distributed application, and the nodes of its list.
fn any_listed_app<'a>(chance: &mut Chance, made: &'a Made) -> (&'a str, &'a [usize]) {
    let count = made.lists.len();
    if count == 0 {
        return ("", &[]);
    }
    let app = chance.below(count);
    let nodes = match made.lists.get(app) {
        Some(list) => list.as_slice(),
        None => &[],
    };
    (name_at(made.names.apps.as_slice(), app), nodes)
}

// The name of the node at this place of a list.
fn node_at<'a>(made: &'a Made, nodes: &[usize], place: usize) -> &'a str {
    match nodes.get(place) {
        Some(node) => name_at(made.names.nodes.as_slice(), *node),
        None => "",
    }
}

// Adds a command with each of these nodes.
fn push_each(
    text: &mut String,
    command: &str,
    made: &Made,
    nodes: &[usize],
) -> Result<(), OutOfMemory> {
    for node in nodes {
        push_line(text, command, name_at(made.names.nodes.as_slice(), *node))?;
    }
    Ok(())
}

// Adds that the first node of a list crashes and boots, or the first two do, with some time between.
fn push_failover(text: &mut String, chance: &mut Chance, made: &Made) -> Result<(), OutOfMemory> {
    let (_, nodes) = any_listed_app(chance, made);
    let count = 1 + chance.below(2);
    let (gone, _) = nodes.split_at(count.min(nodes.len()));
    push_each(text, "crash ", made, gone)?;
    let ms = 1 + chance.below(4000);
    let mut buffer = Buffer::new();
    push_line(text, "tick ", buffer.format(ms as u64))?;
    push_each(text, "boot ", made, gone)
}

// Adds that a local application is forbidden at a node, and permitted there and at the next one.
fn push_local(text: &mut String, chance: &mut Chance, made: &Made) -> Result<(), OutOfMemory> {
    let nodes = made.names.nodes.as_slice();
    let count = nodes.len();
    if count == 0 {
        return Ok(());
    }
    let number = chance.below(count);
    let app = any_of(made.names.locals.as_slice(), chance);
    let node = name_at(nodes, number);
    push_at(text, "permit ", node, app, " false")?;
    push_at(text, "permit ", node, app, " true")?;
    let next = name_at(nodes, (number + 1) % count);
    push_at(text, "permit ", next, app, " true")
}

// Adds that an application has to leave the first node of its list, and is taken back.
fn push_leave(text: &mut String, chance: &mut Chance, made: &Made) -> Result<(), OutOfMemory> {
    let (app, nodes) = any_listed_app(chance, made);
    let first = node_at(made, nodes, 0);
    push_at(text, "permit ", first, app, " false")?;
    push_at(text, "permit ", first, app, " true")?;
    push_at(text, "takeover ", first, app, " temporary")
}

// Adds that another node of its list takes an application over, and then the first one.
fn push_takeovers(text: &mut String, chance: &mut Chance, made: &Made) -> Result<(), OutOfMemory> {
    let (app, nodes) = any_listed_app(chance, made);
    let others = nodes.len().saturating_sub(1);
    if others == 0 {
        return Ok(());
    }
    let other = node_at(made, nodes, 1 + chance.below(others));
    push_at(text, "takeover ", other, app, " temporary")?;
    let first = node_at(made, nodes, 0);
    push_at(text, "takeover ", first, app, " temporary")
}

// Adds what an operator changes, until it is as it was.
fn push_change(text: &mut String, chance: &mut Chance, made: &Made) -> Result<(), OutOfMemory> {
    match chance.below(4) {
        0 => push_local(text, chance, made),
        1 => push_leave(text, chance, made),
        _ => push_takeovers(text, chance, made),
    }
}

/// Adds so many changes by hand.
pub fn push_changes(
    text: &mut String,
    chance: &mut Chance,
    made: &Made,
    count: usize,
) -> Result<(), OutOfMemory> {
    for _ in 0..count {
        push_change(text, chance, made)?;
    }
    Ok(())
}

/// Adds so many episodes: changes by hand, and now and then nodes that crash and boot.
pub fn push_episodes(
    text: &mut String,
    chance: &mut Chance,
    made: &Made,
    count: usize,
) -> Result<(), OutOfMemory> {
    for _ in 0..count {
        if chance.comes(6) {
            push_failover(text, chance, made)?;
        } else {
            push_change(text, chance, made)?;
        }
    }
    Ok(())
}

/// Adds so many plans of 4 to 8 episodes each.
pub fn push_episode_plans(
    text: &mut String,
    chance: &mut Chance,
    made: &Made,
    count: usize,
) -> Result<(), OutOfMemory> {
    let mut buffer = Buffer::new();
    for number in 0..count {
        push_line(text, "plan p", buffer.format(number as u64))?;
        let episodes = 4 + chance.below(5);
        push_episodes(text, chance, made, episodes)?;
    }
    Ok(())
}
