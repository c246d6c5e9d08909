//! Scripts.

use crate::chance::Chance;
use crate::clusters::Made;
use crate::names::name_at;
use itoa::Buffer;
use rh_base::OutOfMemory;
use std::alloc::Global;

/// So many nodes are down at once, at most.
const MOST_DOWN: usize = 8;

/// Which nodes are up, and which are down.
#[derive(Drop)]
pub struct Stage {
    up: Vec<usize>,
    down: Vec<usize>,
}

impl Stage {
    /// All of so many nodes are up.
    pub fn all_up(alloc: Global, nodes: usize) -> Result<Stage, OutOfMemory> {
        let mut up = Vec::new(alloc);
        for number in 0..nodes {
            up.push(number)?;
        }
        Ok(Stage {
            up,
            down: Vec::new(alloc),
        })
    }

    // A node that crashes, if one may.
    fn crash(&mut self, chance: &mut Chance) -> Result<Option<usize>, OutOfMemory> {
        let count = self.up.len();
        if count == 0 || self.down.len() >= MOST_DOWN {
            return Ok(None);
        }
        let node = self.up.swap_remove(chance.below(count));
        self.down.push(node)?;
        Ok(Some(node))
    }

    // A node that boots, if one is down.
    fn boot(&mut self, chance: &mut Chance) -> Result<Option<usize>, OutOfMemory> {
        let count = self.down.len();
        if count == 0 {
            return Ok(None);
        }
        let node = self.down.swap_remove(chance.below(count));
        self.up.push(node)?;
        Ok(Some(node))
    }
}

/// Adds a command with one word.
pub fn push_line(text: &mut String, command: &str, word: &str) -> Result<(), OutOfMemory> {
    text.push_str(command)?;
    text.push_str(word)?;
    text.push_str("\n")?;
    Ok(())
}

/// Adds a command for an application at a node, and a word behind it.
pub fn push_at(
    text: &mut String,
    command: &str,
    node: &str,
    app: &str,
    back: &str,
) -> Result<(), OutOfMemory> {
    text.push_str(command)?;
    text.push_str(node)?;
    text.push_str(" ")?;
    push_line(text, app, back)
}

/// Adds the boots of all nodes.
pub fn push_boots(text: &mut String, made: &Made) -> Result<(), OutOfMemory> {
    for name in made.names.nodes.iter() {
        push_line(text, "boot ", name.as_str())?;
    }
    Ok(())
}

// Adds a tick of at most so many milliseconds.
fn push_tick(text: &mut String, chance: &mut Chance, most: usize) -> Result<(), OutOfMemory> {
    let ms = if most == 0 { 0 } else { chance.below(most) };
    let mut buffer = Buffer::new();
    push_line(text, "tick ", buffer.format(ms as u64))
}

// Adds a command with a node of an application's list, the application and a word.
fn push_pair(
    text: &mut String,
    chance: &mut Chance,
    made: &Made,
    command: &str,
    back: &str,
) -> Result<(), OutOfMemory> {
    let count = made.lists.len();
    if count == 0 {
        return Ok(());
    }
    let app = chance.below(count);
    let node = match made.lists.get(app) {
        Some(list) if !list.is_empty() => {
            let place = chance.below(list.len());
            list.get(place).copied().unwrap_or(0)
        }
        _ => 0,
    };
    let node = name_at(made.names.nodes.as_slice(), node);
    let app = name_at(made.names.apps.as_slice(), app);
    push_at(text, command, node, app, back)
}

// Adds a command for an application at all nodes.
fn push_everywhere(
    text: &mut String,
    chance: &mut Chance,
    made: &Made,
    command: &str,
    back: &str,
) -> Result<(), OutOfMemory> {
    let count = made.names.apps.len();
    let app = if count == 0 { 0 } else { chance.below(count) };
    text.push_str(command)?;
    push_line(text, name_at(made.names.apps.as_slice(), app), back)
}

/// Adds a crash, a boot or a tick.
pub fn push_failure(
    text: &mut String,
    chance: &mut Chance,
    made: &Made,
    stage: &mut Stage,
) -> Result<(), OutOfMemory> {
    let nodes = made.names.nodes.as_slice();
    match chance.below(3) {
        0 => {
            if let Some(node) = stage.crash(chance)? {
                return push_line(text, "crash ", name_at(nodes, node));
            }
        }
        1 => {
            if let Some(node) = stage.boot(chance)? {
                return push_line(text, "boot ", name_at(nodes, node));
            }
        }
        _ => {}
    }
    push_tick(text, chance, 700)
}

// Adds what an operator does by hand.
fn push_by_hand(text: &mut String, chance: &mut Chance, made: &Made) -> Result<(), OutOfMemory> {
    match chance.below(8) {
        0 | 1 => push_pair(text, chance, made, "permit ", " false"),
        2 | 3 | 4 => push_pair(text, chance, made, "permit ", " true"),
        5 => push_pair(text, chance, made, "takeover ", " temporary"),
        6 => push_everywhere(text, chance, made, "stop_all ", ""),
        _ => push_everywhere(text, chance, made, "start_all ", " temporary"),
    }
}

/// Adds so many steps behind those that let all nodes boot: nodes crash and boot, time passes, and each eighth is done by hand.
pub fn push_steps(
    alloc: Global,
    text: &mut String,
    chance: &mut Chance,
    made: &Made,
    count: usize,
) -> Result<(), OutOfMemory> {
    let mut stage = Stage::all_up(alloc, made.names.nodes.len())?;
    for _ in 0..count {
        if chance.comes(12) {
            push_by_hand(text, chance, made)?;
        } else {
            push_failure(text, chance, made, &mut stage)?;
        }
    }
    Ok(())
}

/// Adds so many steps, and a look at the state behind each fiftieth.
pub fn push_looks(
    alloc: Global,
    text: &mut String,
    chance: &mut Chance,
    made: &Made,
    count: usize,
) -> Result<(), OutOfMemory> {
    let mut stage = Stage::all_up(alloc, made.names.nodes.len())?;
    for number in 0..count {
        push_failure(text, chance, made, &mut stage)?;
        if number % 50 == 49 {
            text.push_str("show\n")?;
        }
    }
    Ok(())
}

/// Adds that all is undone and redone, so often.
pub fn push_turns(text: &mut String, count: usize) -> Result<(), OutOfMemory> {
    for _ in 0..count {
        text.push_str("undo_all\nredo_all\n")?;
    }
    Ok(())
}

/// Adds so many plans of 10 to 30 events each, in which nodes crash and boot and time passes.
pub fn push_plans(
    alloc: Global,
    text: &mut String,
    chance: &mut Chance,
    made: &Made,
    count: usize,
) -> Result<(), OutOfMemory> {
    let mut buffer = Buffer::new();
    for number in 0..count {
        push_line(text, "plan p", buffer.format(number as u64))?;
        push_plan(alloc, text, chance, made)?;
    }
    Ok(())
}

fn push_plan(
    alloc: Global,
    text: &mut String,
    chance: &mut Chance,
    made: &Made,
) -> Result<(), OutOfMemory> {
    let mut stage = Stage::all_up(alloc, made.names.nodes.len())?;
    let events = 10 + chance.below(21);
    for _ in 0..events {
        push_failure(text, chance, made, &mut stage)?;
    }
    Ok(())
}

/// Adds crashes and boots of one node after the other, so many in all.
pub fn push_rounds(text: &mut String, made: &Made, count: usize) -> Result<(), OutOfMemory> {
    let nodes = made.names.nodes.len();
    for number in 0..count {
        let node = if nodes == 0 { 0 } else { number / 2 % nodes };
        let command = if number % 2 == 0 { "crash " } else { "boot " };
        push_line(text, command, name_at(made.names.nodes.as_slice(), node))?;
    }
    Ok(())
}

/// Adds a search: nodes crash and boot, at most so many are down at once, and time passes. It is asked whether the first application
/// runs wherever the first node is up.
pub fn push_search(text: &mut String, made: &Made, down: usize) -> Result<(), OutOfMemory> {
    let mut buffer = Buffer::new();
    text.push_str("may crash *\nmay boot *\nmay tick 1000\n")?;
    push_line(text, "down ", buffer.format(down as u64))?;
    text.push_str("ask app ")?;
    text.push_str(name_at(made.names.apps.as_slice(), 0))?;
    push_line(
        text,
        " running or down ",
        name_at(made.names.nodes.as_slice(), 0),
    )?;
    text.push_str("ask always app ")?;
    text.push_str(name_at(made.names.apps.as_slice(), 0))?;
    push_line(text, " running", "")
}
