//! A fault with its place.

ghost use Rattle.std.specs.Prelude.{◌≡◌, ◌++◌, [], IfOk, fold};
ghost use Rattle.rh_cluster_lint.specs.Words.{words_of};
ghost use Rattle.rh_cluster_lint.specs.Telling.{front, dots, colon, on_line, expected_in, or_before, expected_on, takes, hinted, placed};

use crate::blame::Step;
use crate::expected::expected_words;
use crate::hints::{hint_words, line_at};
use crate::spans::{before, span};
use crate::ways::{is_named, way};
use crate::words::{first_word, words_of};
use rh_base::{OutOfMemory, Str};
use rh_cluster::ClusterFault;
use rh_findings::Finding;
use rh_json_text::before_first;
use std::alloc::Global;

/// So many bytes of a part are shown at most.
pub const MOST_SHOWN: usize = 40;

// What is shown of the bytes of a part: the first line of them, cut where it is long, and then dots.
pub fn excerpt(bytes: &[u8]) -> (&str, &'static str)
    ensures front { result.0.now ≡ words_of (front bytes.now) }
    ensures rest { result.1.now ≡ dots bytes.now }
{
    let front = before(before_first(bytes, b'\n'), MOST_SHOWN);
    let dots = if front.len() < bytes.len() { ".." } else { "" };
    (words_of(front), dots)
}

// What stands before what is shown, if anything is.
fn colon(words: &str, dots: &str) -> &'static str
    ensures { result.now ≡ colon words.now dots.now }
{
    if words.is_empty() && dots.is_empty() {
        ""
    } else {
        ": "
    }
}

// What stands on the line of a fault, where it has one, without the blanks round it.
fn on_line(text: &[u8], line: Option<u64>) -> &[u8]
    ensures { result.now ≡ on_line text.now line }
{
    match line {
        Some(number) => words_of(line_at(text, number)).trim().as_bytes(),
        None => b"",
    }
}

// What is said of what stands in a section, a key or a parameter.
fn expected_in(text: &[u8], step: Step) -> &'static str
    ensures { result.now ≡ expected_in text.now step }
{
    if 0 < step.part.depth && is_named(text, step) {
        expected_words(first_word(span(text, step.part)))
    } else {
        ""
    }
}

// What is said last, if anything is.
fn or_before(told: &'static str, more: &'static str) -> &'static str
    ensures { result.now ≡ or_before told.now more.now }
{
    if more.is_empty() { told } else { more }
}

// What is said of the last of these of which something is.
fn expected_on(text: &[u8], steps: &[Step]) -> &'static str
    ensures { result.now ≡ expected_on text.now steps.now }
{
    let mut told = "";
    for step in steps {
        told = or_before(told, expected_in(text, *step));
    }
    told
}

// What is said of what stands there, where something else does.
fn takes(text: &[u8], fault: &ClusterFault, steps: &[Step]) -> &'static str
    ensures { result.now ≡ takes text.now fault.now steps.now }
{
    match fault {
        ClusterFault::BadValue => expected_on(text, steps),
        _ => "",
    }
}

// A finding with what may have been meant, and what stands on its line.
#[tactic(auto, unfolding(crate::specs::Telling::hinted))]
pub fn with_hint(
    alloc: Global,
    text: &[u8],
    fault: &ClusterFault,
    finding: Finding,
) -> Result<Finding, OutOfMemory>
    ensures { IfOk result (λ told. told ≡ hinted text.now fault.now finding) }
{
    let words = finding.text.as_str();
    let hint = hint_words(text, fault, finding.line);
    let (front, dots) = excerpt(on_line(text, finding.line));
    let colon = colon(front, dots);
    let told = format!(in alloc; "{words}{hint}{colon}{front}{dots}")?;
    Ok(Finding {
        line: finding.line,
        kind: finding.kind,
        text: Str::of(told),
        path: None,
    })
}

// A finding with the place of the part at the end of a way, and the way there.
#[tactic(auto, unfolding(crate::specs::Telling::placed))]
pub fn with_place(
    alloc: Global,
    text: &[u8],
    fault: &ClusterFault,
    finding: Finding,
    steps: &[Step],
) -> Result<Finding, OutOfMemory>
    ensures { IfOk result (λ told. told ≡ placed text.now fault.now finding steps.now) }
{
    match steps.last() {
        None => Ok(finding),
        Some(step) => {
            let words = finding.text.as_str();
            let (front, dots) = excerpt(span(text, step.part));
            let wanted = takes(text, fault, steps);
            let colon = colon(front, dots);
            let told = format!(in alloc; "{words}{colon}{front}{dots}{wanted}")?;
            Ok(Finding {
                line: Some(step.part.line),
                kind: finding.kind,
                text: Str::of(told),
                path: Some(way(alloc, text, steps)?),
            })
        }
    }
}
