//! What is found in the terms of a file.

ghost use Rattle.std.specs.Prelude.{◌≡◌, ◌++◌, [], ◌∷◌, IfOk, OnOk};
ghost use Rattle.std.specs.List.{flat_map};
ghost use Rattle.std.specs.Option.{option_to_list};
ghost use Rattle.std.specs.String.{string_bytes};
ghost use Rattle.rh_cluster_lint.specs.Lines.{lines_seen};
ghost use Rattle.rh_cluster_lint.specs.Terms.{near_words, near_found, term_found};

use crate::file_words::names;
use crate::lines::Lines;
use rh_base::{OutOfMemory, Str};
use rh_findings::{Finding, Kind, Words, sentence};
use rh_term_lint::{ReadName, TermFinding};
use std::alloc::Global;

// This text as it is.
fn plain(alloc: Global, text: &str) -> Result<Str, OutOfMemory>
    ensures { IfOk result (λ copy. copy ≡ text.now) }
{
    Ok(Str::of(format!(in alloc; "{text}")?))
}

// A skipped name, and the one that is near.
#[tactic(auto, unfolding(crate::specs::Terms::near_words))]
fn near_words(alloc: Global, written: &Str, meant: ReadName) -> Result<Str, OutOfMemory>
    ensures { IfOk result (λ text. text ≡ near_words written.now meant) }
{
    sentence(alloc, NEAR_NAME, names(written.as_str(), meant.word(), ""))
}

// A skipped name in the term at a place.
#[tactic(auto, unfolding(crate::specs::Terms::near_found))]
fn near_found(
    alloc: Global,
    lines: &Lines<'_>,
    term: usize,
    written: &Str,
    meant: ReadName,
) -> Result<Finding, OutOfMemory>
    ensures { IfOk result
        (λ finding. finding ≡ near_found (lines_seen lines.now) term written.now meant) }
{
    Ok(Finding {
        line: lines.word_line(term, written.as_str()),
        kind: Kind::Warning,
        text: near_words(alloc, written, meant)?,
        path: None,
    })
}

// A finding of the terms, with its line and its words.
#[tactic(auto, unfolding(crate::specs::Terms::term_found))]
fn term_found(alloc: Global, lines: &Lines<'_>, found: &TermFinding) -> Result<Finding, OutOfMemory>
    ensures { IfOk result (λ finding. finding ≡ term_found (lines_seen lines.now) found.now) }
{
    match found {
        TermFinding::NoProfile => Ok(Finding {
            line: None,
            kind: Kind::Hint,
            text: plain(alloc, NO_PROFILE)?,
            path: None,
        }),
        TermFinding::UndefinedWritten { term } => Ok(Finding {
            line: lines.line_at(*term),
            kind: Kind::Warning,
            text: plain(alloc, UNDEFINED_WRITTEN)?,
            path: None,
        }),
        TermFinding::NearSection {
            term,
            written,
            meant,
        } => near_found(alloc, lines, *term, written, *meant),
        TermFinding::NearParameter {
            term,
            written,
            meant,
        } => near_found(alloc, lines, *term, written, *meant),
        TermFinding::NearKey {
            term,
            written,
            meant,
        } => near_found(alloc, lines, *term, written, *meant),
    }
}

const NEAR_NAME: Words = Words {
    begin: "near_name: ",
    first: " is skipped; ",
    second: " is near",
    third: "",
};

const NO_PROFILE: &str =
    "no_profile: no term is {profile, N}: in profile 1 a permission that is given back moves nothing, as in no live OTP";

const UNDEFINED_WRITTEN: &str =
    "undefined_written: {sync_nodes_timeout, undefined} ends a live node; leave the parameter out";

/// Adds the findings of the terms.
pub fn push_term_findings(
    alloc: Global,
    found: &mut Vec<Finding>,
    lines: &Lines<'_>,
    findings: &[TermFinding],
) -> Result<(), OutOfMemory>
    ensures { OnOk result (found.new.items ≡ found.old.items
        ++ flat_map (λ f. term_found (lines_seen lines.now) f ∷ []) findings.now) }
{
    for finding in findings {
        found.push(term_found(alloc, lines, finding)?)?;
    }
    Ok(())
}
