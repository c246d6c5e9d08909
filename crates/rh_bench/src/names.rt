//! The names of nodes and applications.

use crate::chance::Chance;
use rh_base::OutOfMemory;
use std::alloc::Global;

/// The names of a cluster's nodes and applications, in their order: those that are distributed, and local ones.
#[derive(Drop)]
pub struct Names {
    pub nodes: Vec<String>,
    pub apps: Vec<String>,
    pub locals: Vec<String>,
}

/// The names of so many.
pub fn names_of(
    alloc: Global,
    nodes: usize,
    apps: usize,
    locals: usize,
) -> Result<Names, OutOfMemory> {
    Ok(Names {
        nodes: numbered_names(alloc, "n", "@lab", nodes)?,
        apps: numbered_names(alloc, "a", "", apps)?,
        locals: numbered_names(alloc, "l", "", locals)?,
    })
}

// So many names, each with its number between these two.
fn numbered_names(
    alloc: Global,
    front: &str,
    back: &str,
    count: usize,
) -> Result<Vec<String>, OutOfMemory> {
    let mut names = Vec::new(alloc);
    for number in 0..count {
        names.push(format!(in alloc; "{front}{number}{back}")?)?;
    }
    Ok(names)
}

/// The name of this number; none where there is no such name.
pub fn name_at(names: &[String], number: usize) -> &str {
    match names.get(number) {
        Some(name) => name.as_str(),
        None => "",
    }
}

/// Any of these names; none where there are none.
pub fn any_of<'a>(names: &'a [String], chance: &mut Chance) -> &'a str {
    let count = names.len();
    if count == 0 {
        return "";
    }
    name_at(names, chance.below(count))
}
