//! A file in which what stands behind a place is taken out, and which can still be read.

ghost use Rattle.std.specs.Prelude.{◌≡◌, ◌++◌, ◌∷◌, [], IfOk, OnOk, if◌then◌else◌};
ghost use Rattle.rh_cluster_lint.specs.Cuts.{begins, limit_in, limit_behind, kept_depth, is_kept, left, emptied, cut_at};
ghost use Rattle.rh_findings.specs.declared.scan.Standing.TheVariants.{Between};

use crate::spans::before;
use crate::words::{is_headed, is_tuple};
use rh_base::OutOfMemory;
use rh_findings::{Standing, closes, depth_behind, opens};
use std::alloc::Global;

// Deeper nothing stands in a text that can be read.
const DEEPEST: u64 = 64;

/// What is taken out behind a place.
#[derive(Clone, Copy, Debug, PartialEq, Eq)]
pub enum Cut {
    /// The terms there, and all lists.
    Headers,
    /// The rest of the lists there, and all lists of applications.
    Lists,
    /// The rest of the lists of applications there.
    Applications,
    /// The rest of the lists of parameters `boot` there.
    Boots,
}

// Does a list or a tuple begin here, in so many others?
fn begins(wanted: u64, standing: Standing, depth: u64, byte: u8) -> bool
    ensures { result ≡ begins wanted standing depth byte }
{
    standing.is_bare() && opens(byte) && depth == wanted
}

// How deep a list or tuple is kept of which nothing is taken out but the list of this one.
fn limit_in(name: &str, depth: u64, bytes: &[u8]) -> u64
    ensures { result ≡ limit_in name.now depth bytes.now }
{
    if is_tuple(bytes) && is_headed(name, bytes) {
        depth
    } else {
        DEEPEST
    }
}

// The same behind a byte that is the first of these.
fn limit_behind(cut: Cut, standing: Standing, depth: u64, limit: u64, bytes: &[u8], byte: u8) -> u64
    ensures { result ≡ limit_behind cut standing depth limit bytes.now byte }
{
    match cut {
        Cut::Boots => {
            if begins(4, standing, depth, byte) {
                limit_in("boot", 5, bytes)
            } else {
                limit
            }
        }
        _ => {
            if begins(0, standing, depth, byte) {
                limit_in("application", 1, bytes)
            } else {
                limit
            }
        }
    }
}

// How deep a byte may lie that is kept, before the place and behind it.
fn kept_depth(cut: Cut, is_before: bool, limit: u64) -> u64
    ensures { result ≡ kept_depth cut is_before limit }
{
    match cut {
        Cut::Applications | Cut::Boots => { if is_before { DEEPEST } else { limit } }
        _ => { if is_before { limit } else { 1 } }
    }
}

// Is a byte kept?
fn is_kept(most: u64, standing: Standing, depth: u64, begun: u64, byte: u8) -> bool
    ensures { result ≡ is_kept most standing depth begun byte }
{
    depth <= most || (standing.is_bare() && closes(byte) && depth == begun)
}

// Adds a byte, if it is kept.
fn push_if(left: &mut Vec<u8>, kept: bool, byte: u8) -> Result<(), OutOfMemory>
    ensures { OnOk result (left.new.items ≡ left.old.items ++ (if kept then byte ∷ [] else [])) }
{
    if kept {
        left.push(byte)?;
    }
    Ok(())
}

// What is left of a text that is cut at a place.
#[tactic(auto, unfolding(crate::specs::Cuts::left))]
fn left(alloc: Global, cut: Cut, place: usize, text: &[u8]) -> Result<Vec<u8>, OutOfMemory>
    ensures { IfOk result (λ file. file.items ≡ left cut place text.now) }
{
    let mut kept = Vec::with_capacity(alloc, text.len())?;
    let mut standing = Standing::Between;
    let mut depth: u64 = 0;
    let mut begun: u64 = 0;
    let mut limit = DEEPEST;
    for at in 0..text.len() {
        let byte = text[at];
        let most = kept_depth(cut, at < place, limit);
        let is_here = is_kept(most, standing, depth, begun, byte);
        push_if(&mut kept, is_here, byte)?;
        limit = limit_behind(cut, standing, depth, limit, &text[at..], byte);
        depth = depth_behind(standing, depth, byte);
        if is_here {
            begun = depth;
        }
        standing = standing.behind(byte);
    }
    Ok(kept)
}

/// A file of which all lists in terms are empty, so that the terms are there with their names.
pub fn with_empty_lists(alloc: Global, text: &[u8]) -> Result<Vec<u8>, OutOfMemory>
    ensures { IfOk result (λ file. file.items ≡ emptied text.now) }
{
    left(alloc, Cut::Lists, 0, text)
}

/// A file that is cut at a place.
#[tactic(auto, unfolding(crate::specs::Cuts::cut_at))]
pub fn cut_at(alloc: Global, cut: Cut, place: usize, text: &[u8]) -> Result<Vec<u8>, OutOfMemory>
    ensures { IfOk result (λ file. file.items ≡ cut_at cut place text.now) }
{
    match cut {
        Cut::Headers => with_empty_lists(alloc, before(text, place)),
        _ => left(alloc, cut, place, text),
    }
}
