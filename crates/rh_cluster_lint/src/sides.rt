//! In what two nodes differ that have to agree.

ghost use Rattle.std.specs.Prelude.{◌≡◌, ◌++◌, IfOk, OnOk};
ghost use Rattle.std.specs.List.{find};
ghost use Rattle.std.specs.String.{string_bytes};
ghost use Rattle.rh_cluster_lint.specs.Sides.{named_in, parameter, has, with_own, with_first, sided_by, with_sides};
ghost use Rattle.rh_cluster_lint.specs.Spans.{span};
ghost use Rattle.rh_cluster_lint.specs.Words.{is_headed};

use crate::blame::Step;
use crate::spans::{parts_in, span};
use crate::taking_part::{Sides, sides_in};
use crate::telling::excerpt;
use crate::ways::push_term;
use crate::words::{is_headed, second_word};
use rh_base::{OutOfMemory, Str};
use rh_findings::{Finding, Part, parts_at};
use std::alloc::Global;

// The first of these parts that has this name.
fn named_among(text: &[u8], name: &str, parts: &[Part]) -> Option<Part>
    ensures { result ≡ find (λ p. is_headed name.now (span text.now p)) parts.now }
{
    for number in 0..parts.len() {
        if is_headed(name, span(text, parts[number])) {
            return Some(parts[number]);
        }
    }
    None
}

// The first part of this name that stands so deep in a part.
fn named_in(
    alloc: Global,
    text: &[u8],
    depth: u64,
    name: &str,
    outer: Part,
) -> Result<Option<Part>, OutOfMemory>
    ensures { IfOk result (λ found. found ≡ named_in text.now depth name.now outer) }
{
    let parts = parts_in(alloc, text, depth, outer)?;
    Ok(named_among(text, name, parts.as_slice()))
}

// A parameter of the section `kernel` of a node's term.
#[tactic(auto, unfolding(crate::specs::Sides::parameter))]
fn parameter(alloc: Global, text: &[u8], key: &str, term: Part) -> Result<Option<Part>, OutOfMemory>
    ensures { IfOk result (λ found. found ≡ parameter text.now key.now term) }
{
    match named_in(alloc, text, 2, "kernel", term)? {
        None => Ok(None),
        Some(kernel) => named_in(alloc, text, 4, key, kernel),
    }
}

// A finding with a parameter that a node has, or with its term where it has none.
#[tactic(auto, unfolding(crate::specs::Sides::with_own))]
fn with_own(
    alloc: Global,
    text: &[u8],
    key: &str,
    step: Step,
    own: Option<Part>,
    finding: Finding,
) -> Result<Finding, OutOfMemory>
    ensures { IfOk result (λ told. told ≡ with_own text.now key.now step own finding) }
{
    let part = own.unwrap_or(step.part);
    let words = finding.text.as_str();
    let (front, dots) = excerpt(span(text, part));
    let told = format!(in alloc; "{words}: {front}{dots}")?;
    let mut way = String::new(alloc);
    push_term(&mut way, text, step)?;
    if own.is_some() {
        write!(way, ", kernel, {key}")?;
    }
    Ok(Finding {
        line: Some(part.line),
        kind: finding.kind,
        text: Str::of(told),
        path: Some(Str::of(way)),
    })
}

// Adds what a node has.
fn push_has(told: &mut String, text: &[u8], part: Option<Part>) -> Result<(), OutOfMemory>
    ensures { OnOk result (string_bytes told.new ≡ string_bytes told.old ++ has text.now part) }
{
    match part {
        None => write!(told, "none")?,
        Some(part) => {
            let (front, dots) = excerpt(span(text, part));
            write!(told, "{front}{dots}")?;
        }
    }
    Ok(())
}

// A finding with what the first node that takes part has.
#[tactic(auto, unfolding(crate::specs::Sides::with_first))]
fn with_first(
    alloc: Global,
    text: &[u8],
    term: Part,
    part: Option<Part>,
    finding: Finding,
) -> Result<Finding, OutOfMemory>
    ensures { IfOk result (λ told. told ≡ with_first text.now term part finding) }
{
    let Finding {
        line,
        kind,
        text: words,
        path,
    } = finding;
    let words = words.as_str();
    let name = second_word(span(text, term));
    let mut told = format!(in alloc; "{words}; {name} has ")?;
    push_has(&mut told, text, part)?;
    Ok(Finding {
        line,
        kind,
        text: Str::of(told),
        path,
    })
}

// A finding with where two nodes differ.
fn with_both(
    alloc: Global,
    text: &[u8],
    finding: Finding,
    sides: Sides,
) -> Result<Finding, OutOfMemory>
    ensures { IfOk result (λ told. told ≡ sided_by text.now finding (Some sides)) }
{
    let terms = parts_at(alloc, text, 0)?;
    let terms = terms.as_slice();
    let (Some(own), Some(first)) = (terms.get(sides.own), terms.get(sides.first)) else {
        return Ok(finding);
    };
    let key = sides.parameter.word();
    let step = Step {
        part: *own,
        number: sides.own.saturating_add(1),
    };
    let of_own = parameter(alloc, text, key, *own)?;
    let of_first = parameter(alloc, text, key, *first)?;
    let finding = with_own(alloc, text, key, step, of_own, finding)?;
    with_first(alloc, text, *first, of_first, finding)
}

/// A finding that the node of this name differs from the first one that takes part in distribution, with the parameter in which it
/// does, or with its term where it has none, and with what the first one has.
#[tactic(auto, unfolding(crate::specs::Sides::with_sides))]
pub fn with_sides(
    alloc: Global,
    text: &[u8],
    name: &str,
    finding: Finding,
) -> Result<Finding, OutOfMemory>
    ensures { IfOk result (λ told. told ≡ with_sides text.now name.now finding) }
{
    match sides_in(alloc, text, name)? {
        None => Ok(finding),
        Some(sides) => with_both(alloc, text, finding, sides),
    }
}
