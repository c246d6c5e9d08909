//! The part that is at fault.

ghost use Rattle.std.specs.Prelude.{◌≡◌, IfOk, filter, not};
ghost use Rattle.rh_terms.specs.declared.fault.TermFault.{TermFault};
ghost use Rattle.rh_cluster_lint.specs.Blame.{term_number, number, is_refused, up_to, before, first_from, unless_before, tries, fault_among, narrowed, depths, way_among, is_application, way_in_terms, way_in_lists, blamed};
ghost use Rattle.rh_cluster_lint.specs.Spans.{parts_in};

use crate::cuts::{Cut, cut_at, with_empty_lists};
use crate::spans::{parts_in, span};
use crate::words::is_headed;
use rh_base::OutOfMemory;
use rh_cluster::{ClusterFault, read_cluster};
use rh_findings::{Part, parts_at};
use rh_terms::TermFault;
use std::alloc::Global;

/// So many parts of one list are tried at most.
pub const MOST_TRIED: usize = 1_000;

/// So many bytes are read at most to try those of one list: so none is tried of a file of 8 MiB or more.
pub const MOST_READ: usize = 8_388_608;

/// A part on the way to what is at fault.
#[derive(Clone, Copy, Debug, PartialEq, Eq)]
pub struct Step {
    /// Where it stands.
    pub part: Part,
    /// Its number among the terms of the file or the elements of its list, counted from 1.
    pub number: usize,
}

// The number of a fault of terms.
fn term_number(fault: &TermFault) -> u8
    ensures { result ≡ term_number fault.now }
{
    match fault {
        TermFault::Syntax { .. } => 21,
        TermFault::Unsupported { .. } => 22,
        TermFault::NotUtf8 => 23,
        TermFault::TooDeep => 24,
        TermFault::IntRange => 25,
        TermFault::OutOfMemory => 26,
    }
}

// The number of a fault's code.
fn number(fault: &ClusterFault) -> u8
    ensures { result ≡ number fault.now }
{
    match fault {
        ClusterFault::Term(fault) => term_number(fault),
        ClusterFault::NoNodes => 2,
        ClusterFault::TooMany => 3,
        ClusterFault::DuplicateName => 4,
        ClusterFault::UnknownName => 5,
        ClusterFault::DuplicateInList => 6,
        ClusterFault::DuplicateParameter => 7,
        ClusterFault::Mismatch { .. } => 8,
        ClusterFault::BootNotListed => 9,
        ClusterFault::BadValue => 10,
        ClusterFault::BadName => 11,
        ClusterFault::OutOfMemory => 12,
    }
}

// Is a text refused with the fault of this number?
fn is_refused(alloc: Global, code: u8, text: &[u8]) -> Result<bool, OutOfMemory>
    ensures { IfOk result (λ refused. refused ≡ is_refused code text.now) }
{
    match read_cluster(alloc, text) {
        Ok(_) => Ok(false),
        Err(fault) => {
            if fault.is_memory() {
                Err(OutOfMemory)
            } else {
                Ok(number(&fault) == code)
            }
        }
    }
}

// The file up to the end of a part.
#[tactic(auto, unfolding(crate::specs::Blame::up_to))]
fn up_to(alloc: Global, cut: Cut, text: &[u8], part: Part) -> Result<Vec<u8>, OutOfMemory>
    ensures { IfOk result (λ file. file.items ≡ up_to cut text.now part) }
{
    let mut file = cut_at(alloc, cut, part.to, text)?;
    match cut {
        Cut::Headers => file.push(b'.')?,
        _ => {}
    }
    Ok(file)
}

// Is the file refused so up to the end of a part?
fn is_refused_with(
    alloc: Global,
    cut: Cut,
    text: &[u8],
    code: u8,
    part: Part,
) -> Result<bool, OutOfMemory>
    ensures { IfOk result (λ refused. refused ≡ is_refused code (up_to cut text.now part)) }
{
    let file = up_to(alloc, cut, text, part)?;
    is_refused(alloc, code, file.as_slice())
}

// Is the file refused so up to where a part begins?
fn is_refused_before(
    alloc: Global,
    cut: Cut,
    text: &[u8],
    code: u8,
    part: Part,
) -> Result<bool, OutOfMemory>
    ensures { IfOk result (λ refused. refused ≡ is_refused code (before cut text.now part)) }
{
    let file = cut_at(alloc, cut, part.from, text)?;
    is_refused(alloc, code, file.as_slice())
}

// The first of these parts up to which the file is refused so.
fn first_of(
    alloc: Global,
    cut: Cut,
    text: &[u8],
    code: u8,
    parts: &[Part],
) -> Result<Option<Step>, OutOfMemory>
    ensures { IfOk result (λ found. found ≡ first_from cut text.now code 1 parts.now) }
{
    for index in 0..parts.len() {
        let part = parts[index];
        if is_refused_with(alloc, cut, text, code, part)? {
            return Ok(Some(Step {
                part,
                number: index + 1,
            }));
        }
    }
    Ok(None)
}

// The same, unless the file is refused so up to where it begins.
fn unless_before(
    alloc: Global,
    cut: Cut,
    text: &[u8],
    code: u8,
    found: Option<Step>,
) -> Result<Option<Step>, OutOfMemory>
    ensures { IfOk result (λ kept. kept ≡ unless_before cut text.now code found) }
{
    match found {
        None => Ok(None),
        Some(step) => {
            if is_refused_before(alloc, cut, text, code, step.part)? {
                Ok(None)
            } else {
                Ok(Some(step))
            }
        }
    }
}

// How many parts of a list are tried.
fn tries(text: &[u8]) -> usize
    ensures { result ≡ tries text.now }
{
    MOST_TRIED.min(MOST_READ / text.len().saturating_add(1))
}

// The one of these parts at which the fault is.
#[tactic(auto, unfolding(crate::specs::Blame::fault_among))]
fn fault_among(
    alloc: Global,
    cut: Cut,
    text: &[u8],
    code: u8,
    mut parts: Vec<Part>,
) -> Result<Option<Step>, OutOfMemory>
    ensures { IfOk result (λ found. found ≡ fault_among cut text.now code parts.items) }
{
    parts.truncate(tries(text));
    let found = first_of(alloc, cut, text, code, parts.as_slice())?;
    unless_before(alloc, cut, text, code, found)
}

// The part of so many lists and tuples in a part at which the fault is.
fn fault_in(
    alloc: Global,
    cut: Cut,
    text: &[u8],
    code: u8,
    depth: u64,
    outer: Part,
) -> Result<Option<Step>, OutOfMemory>
    ensures { IfOk result
        (λ found. found ≡ fault_among cut text.now code (parts_in text.now depth outer)) }
{
    let parts = parts_in(alloc, text, depth, outer)?;
    fault_among(alloc, cut, text, code, parts)
}

// From a term on: it, the part of its list at which the fault is, and so on.
fn way_from(
    alloc: Global,
    cut: Cut,
    text: &[u8],
    code: u8,
    found: Option<Step>,
    depths: &[u64],
) -> Result<Vec<Step>, OutOfMemory>
    ensures { IfOk result (λ steps. steps.items ≡ narrowed cut text.now code found depths.now) }
{
    let mut steps = Vec::new(alloc);
    let mut next = found;
    for index in 0..depths.len() {
        let Some(step) = next else {
            return Ok(steps);
        };
        steps.push(step)?;
        next = fault_in(alloc, cut, text, code, depths[index], step.part)?;
    }
    if let Some(step) = next {
        steps.push(step)?;
    }
    Ok(steps)
}

// A section or a key, a parameter, an element of its list, an element of the list of that.
static DEPTHS: [u64; 4] = [2, 4, 6, 8];

// The way to the fault from one of these terms on.
#[tactic(auto, unfolding(crate::specs::Blame::way_among))]
fn way_among(
    alloc: Global,
    cut: Cut,
    text: &[u8],
    code: u8,
    terms: Vec<Part>,
) -> Result<Vec<Step>, OutOfMemory>
    ensures { IfOk result (λ steps. steps.items ≡ way_among cut text.now code terms.items) }
{
    let found = fault_among(alloc, cut, text, code, terms)?;
    way_from(alloc, cut, text, code, found, DEPTHS.as_slice())
}

// Is a term an application's?
fn is_application(text: &[u8], term: Part) -> bool
    ensures { result ≡ is_application text.now term }
{
    is_headed("application", span(text, term))
}

// Those of these terms that are applications'.
fn applications(alloc: Global, text: &[u8], terms: &[Part]) -> Result<Vec<Part>, OutOfMemory>
    ensures { IfOk result (λ found. found.items ≡ filter (is_application text.now) terms.now) }
{
    let mut found = Vec::new(alloc);
    for number in 0..terms.len() {
        if is_application(text, terms[number]) {
            found.push(terms[number])?;
        }
    }
    Ok(found)
}

// Those that aren't.
fn others(alloc: Global, text: &[u8], terms: &[Part]) -> Result<Vec<Part>, OutOfMemory>
    ensures { IfOk result
        (λ found. found.items ≡ filter (λ p. not (is_application text.now p)) terms.now) }
{
    let mut found = Vec::new(alloc);
    for number in 0..terms.len() {
        if !is_application(text, terms[number]) {
            found.push(terms[number])?;
        }
    }
    Ok(found)
}

// The way to a fault that is in the lists of nodes, or else of applications.
#[tactic(auto, unfolding(crate::specs::Blame::way_in_terms))]
fn way_in_terms(
    alloc: Global,
    text: &[u8],
    code: u8,
    terms: &[Part],
) -> Result<Vec<Step>, OutOfMemory>
    ensures { IfOk result (λ steps. steps.items ≡ way_in_terms text.now code terms.now) }
{
    let nodes = others(alloc, text, terms)?;
    let way = way_among(alloc, Cut::Lists, text, code, nodes)?;
    if !way.is_empty() {
        return Ok(way);
    }
    let apps = applications(alloc, text, terms)?;
    way_among(alloc, Cut::Applications, text, code, apps)
}

// The way to a fault that is in the lists of terms.
#[tactic(auto, unfolding(crate::specs::Blame::way_in_lists))]
fn way_in_lists(
    alloc: Global,
    text: &[u8],
    fault: &ClusterFault,
    terms: Vec<Part>,
) -> Result<Vec<Step>, OutOfMemory>
    ensures { IfOk result (λ steps. steps.items ≡ way_in_lists text.now fault.now terms.items) }
{
    match fault {
        ClusterFault::BootNotListed => way_among(alloc, Cut::Boots, text, number(fault), terms),
        _ => way_in_terms(alloc, text, number(fault), terms.as_slice()),
    }
}

/// The way to what is at fault in a file that was refused with this fault, from a term on; nothing where it isn't found. At each step
/// it is the first part up to whose end the file is refused with this fault, and up to whose beginning it isn't, where what stands
/// behind is taken out and all terms keep their names ([`Cut`]). At most [`MOST_TRIED`] parts are tried at each step, fewer of a long
/// file, and none of one of 8 MiB or more ([`MOST_READ`]).
#[tactic(auto, unfolding(crate::specs::Blame::blamed))]
pub fn way_to_fault(
    alloc: Global,
    text: &[u8],
    fault: &ClusterFault,
) -> Result<Vec<Step>, OutOfMemory>
    ensures { IfOk result (λ steps. steps.items ≡ blamed text.now fault.now) }
{
    if tries(text) == 0 {
        return Ok(Vec::new(alloc));
    }
    let terms = parts_at(alloc, text, 0)?;
    let code = number(fault);
    let headers = with_empty_lists(alloc, text)?;
    if !is_refused(alloc, code, headers.as_slice())? {
        return way_in_lists(alloc, text, fault, terms);
    }
    let mut steps = Vec::new(alloc);
    if let Some(step) = fault_among(alloc, Cut::Headers, text, code, terms)? {
        steps.push(step)?;
    }
    Ok(steps)
}
