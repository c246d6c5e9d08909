//! The bytes of a part, and the parts in it.

ghost use Rattle.std.specs.Prelude.{◌≡◌, IfOk, filter, take, drop};
ghost use Rattle.rh_cluster_lint.specs.Spans.{span, holds, parts_in};

use rh_base::OutOfMemory;
use rh_findings::{Part, parts_at};
use std::alloc::Global;

// The text up to a place.
pub fn before(text: &[u8], at: usize) -> &[u8]
    ensures { result.now ≡ take at text.now }
{
    if at < text.len() { &text[..at] } else { text }
}

// The text from a place on.
pub fn behind(text: &[u8], at: usize) -> &[u8]
    ensures { result.now ≡ drop at text.now }
{
    if at < text.len() { &text[at..] } else { &[] }
}

/// The bytes of a part.
pub fn span(text: &[u8], part: Part) -> &[u8]
    ensures { result.now ≡ span text.now part }
{
    behind(before(text, part.to), part.from)
}

// Does a part stand in another one, or is it that?
fn holds(outer: Part, part: Part) -> bool
    ensures { result ≡ holds outer part }
{
    outer.from <= part.from && part.to <= outer.to
}

// Those of these parts that stand in another one.
fn held(alloc: Global, outer: Part, parts: &[Part]) -> Result<Vec<Part>, OutOfMemory>
    ensures { IfOk result (λ held. held.items ≡ filter (holds outer) parts.now) }
{
    let mut held = Vec::new(alloc);
    for number in 0..parts.len() {
        if holds(outer, parts[number]) {
            held.push(parts[number])?;
        }
    }
    Ok(held)
}

/// The parts of a depth that stand in a part.
pub fn parts_in(
    alloc: Global,
    text: &[u8],
    depth: u64,
    outer: Part,
) -> Result<Vec<Part>, OutOfMemory>
    ensures { IfOk result (λ parts. parts.items ≡ parts_in text.now depth outer) }
{
    let parts = parts_at(alloc, text, depth)?;
    held(alloc, outer, parts.as_slice())
}
