//! Where the parts of a depth stand.

ghost use Rattle.std.specs.Prelude.{◌≡◌, ◌+◌, ◌<◌, ◌^◌, ◌++◌, IfOk, OnOk, None};
ghost use Rattle.rh_findings.specs.Parts.{closes, opens, depth_behind, separates, ends_here, grown, open_behind, ended_here, parts_at};

use crate::scan::Standing;
use crate::starts::line_behind;
use rh_base::OutOfMemory;
use std::alloc::Global;

/// Where a part stands: a whole term, an element of a list, or one of a tuple.
#[derive(Clone, Copy, Debug, PartialEq, Eq)]
pub struct Part {
    /// The number of the line on which it begins, counted from 1.
    pub line: u64,
    /// How many bytes stand before it.
    pub from: usize,
    /// How many bytes stand before what comes behind it.
    pub to: usize,
    /// How many lists and tuples it stands in.
    pub depth: u64,
}

/// Does it begin a list or a tuple?
pub fn opens(byte: u8) -> bool
    ensures { result ≡ opens byte }
{
    byte == b'[' || byte == b'{'
}

/// Does it end a list or a tuple?
pub fn closes(byte: u8) -> bool
    ensures { result ≡ closes byte }
{
    byte == b']' || byte == b'}'
}

/// How many lists and tuples are open behind a byte.
pub fn depth_behind(standing: Standing, depth: u64, byte: u8) -> u64
    requires { depth + 1 < 2 ^ 64 }
    ensures { result ≡ depth_behind standing depth byte }
{
    if !standing.is_bare() {
        depth
    } else if opens(byte) {
        depth + 1
    } else if closes(byte) {
        depth.saturating_sub(1)
    } else {
        depth
    }
}

// Does a part end before it: at a comma, a bracket or a dot?
fn separates(byte: u8) -> bool
    ensures { result ≡ separates byte }
{
    byte == b',' || closes(byte) || byte == b'.'
}

// Does a part of the depth end before a byte?
fn ends_here(wanted: u64, standing: Standing, depth: u64, byte: u8) -> bool
    ensures { result ≡ ends_here wanted standing depth byte }
{
    standing.is_bare() && depth == wanted && separates(byte)
}

// The part that has this byte too.
fn grown(wanted: u64, part: Option<Part>, line: u64, at: usize) -> Part
    requires { at + 1 < 2 ^ 64 }
    ensures { result ≡ grown wanted part line at }
{
    match part {
        None => Part {
            line,
            from: at,
            to: at + 1,
            depth: wanted,
        },
        Some(begun) => Part {
            line: begun.line,
            from: begun.from,
            to: at + 1,
            depth: begun.depth,
        },
    }
}

// What a byte leaves of the part of the depth that is begun.
#[tactic(auto, unfolding(crate::specs::Parts::open_behind))]
fn open_behind(
    wanted: u64,
    standing: Standing,
    depth: u64,
    part: Option<Part>,
    line: u64,
    at: usize,
    byte: u8,
) -> Option<Part>
    requires { at + 1 < 2 ^ 64 }
    ensures { result ≡ open_behind wanted standing depth part line at byte }
{
    if ends_here(wanted, standing, depth, byte) {
        None
    } else if wanted <= depth && standing.is_solid(byte) {
        Some(grown(wanted, part, line, at))
    } else {
        part
    }
}

// Adds the part of the depth that ends before a byte, if one does.
#[tactic(auto, unfolding(crate::specs::Parts::ended_here))]
fn push_ended(
    parts: &mut Vec<Part>,
    wanted: u64,
    standing: Standing,
    depth: u64,
    part: Option<Part>,
    byte: u8,
) -> Result<(), OutOfMemory>
    ensures { OnOk result
        (parts.new.items ≡ parts.old.items ++ ended_here wanted standing depth part byte) }
{
    if ends_here(wanted, standing, depth, byte) {
        if let Some(ended) = part {
            parts.push(ended)?;
        }
    }
    Ok(())
}

/// The parts that stand in so many lists and tuples, in their order: with 0 the terms, without their dots. A part has no blank and
/// no comment before it or behind it; one that never ends isn't told.
pub fn parts_at(alloc: Global, text: &[u8], wanted: u64) -> Result<Vec<Part>, OutOfMemory>
    ensures { IfOk result (λ parts. parts.items ≡ parts_at wanted text.now) }
{
    let mut parts = Vec::new(alloc);
    let mut standing = Standing::Between;
    let mut line: u64 = 1;
    let mut depth: u64 = 0;
    let mut part: Option<Part> = None;
    for at in 0..text.len() {
        let byte = text[at];
        push_ended(&mut parts, wanted, standing, depth, part, byte)?;
        part = open_behind(wanted, standing, depth, part, line, at, byte);
        depth = depth_behind(standing, depth, byte);
        standing = standing.behind(byte);
        line = line_behind(line, byte);
    }
    Ok(parts)
}
