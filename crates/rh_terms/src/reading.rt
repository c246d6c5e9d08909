//! Reading a whole text.

ghost use Rattle.std.specs.Prelude.{◌≡◌, ℕ, List, ◌==◌, ◌≤◌, length, Ok, Err, count_by, IfOk, IsTrue};
ghost use Rattle.std.specs.Str.{is_utf8, IsUtf8};
ghost use Rattle.rh_terms.specs.Constructs.{HasConstruct};
ghost use Rattle.rh_terms.specs.Faults.{ReadsAs};
ghost use Rattle.rh_terms.specs.Fronts.{StopsAt};
ghost use Rattle.rh_terms.specs.Grammar.{line_at, terms_of, Tells, fault_told};
ghost use Rattle.rh_terms.specs.Kept.{kept_from, kept_of};
ghost use Rattle.rh_terms.specs.Spelling.{AreDotted};
ghost use Rattle.rh_base.specs.Tree.{Trees, trees_of, items_of};

use crate::bytes::skip_blank;
use crate::fault::{Fault, ReadError, TermFault};
use crate::keep::{Keep, KeepAll};
use crate::marks::dot_of;
use crate::nest::{MAX_DEPTH, term_of};
use crate::repeats::Again;
use rh_base::{Term, Terms};
use std::alloc::Global;

// The terms from the first one on, as they are kept.
fn terms_of_text<K: Keep>(alloc: Global, keep: K, bytes: &[u8]) -> Result<Vec<Term>, ReadError>
    requires { IsUtf8 bytes.now }
    ensures { ReadsAs (λ x. trees_of x.items) result (kept_from K.behind_key keep bytes.now) }
{
    let mut terms = Vec::new(alloc);
    let mut stack = Vec::new(alloc);
    let mut again = Again::new(bytes);
    let mut rest = bytes;
    'bytes: while !rest.is_empty() {
        let (term, after_term) = term_of(alloc, &mut stack, &mut again, keep, MAX_DEPTH, rest)?;
        terms.push(term)?;
        let after = dot_of(skip_blank(after_term))?;
        rest = skip_blank(after);
    }
    Ok(terms)
}

// The line of the place from which on so many bytes are left.
fn line_of(bytes: &[u8], left: usize) -> usize
    ensures { result ≡ line_at bytes.now left }
{
    let front = &bytes[..bytes.len().saturating_sub(left)];
    line_feeds(front) + 1
}

// The number of LF bytes.
fn line_feeds(bytes: &[u8]) -> usize
    ensures count { result ≡ count_by (λ b. b == 10) bytes.now }
    ensures most { result ≤ length bytes.now }
{
    bytes.iter().filter(|b| **b == b'\n').count()
}

// Is it UTF-8?
fn is_text(bytes: &[u8]) -> bool
    ensures { result ≡ is_utf8 bytes.now }
{
    match str::from_utf8(bytes) {
        Ok(_) => true,
        Err(_) => false,
    }
}

// The fault that is answered for an error, with its line where it has one.
fn fault_of(bytes: &[u8], error: ReadError) -> TermFault
    ensures { result ≡ fault_told bytes.now error }
{
    match error {
        ReadError::Memory => TermFault::OutOfMemory,
        ReadError::Fault(Fault::Syntax(left)) => TermFault::Syntax {
            line: line_of(bytes, left),
        },
        ReadError::Fault(Fault::Unsupported(left)) => TermFault::Unsupported {
            line: line_of(bytes, left),
        },
        ReadError::Fault(Fault::TooDeep) => TermFault::TooDeep,
        ReadError::Fault(Fault::IntRange) => TermFault::IntRange,
    }
}

/// The terms of a text, as they are kept: as [`read_terms`] reads them, but of those that are skipped is kept only whether they
/// are lists, `[]` or else `{}`. A fault is answered wherever it stands. Lists that are written alike may lie in memory once.
pub fn read_kept<K: Keep>(alloc: Global, keep: K, bytes: &[u8]) -> Result<Terms, TermFault>
    // Want of memory aside, the answer is the definition's: the terms as they are kept, or the first fault and its line.
    ensures { Tells result (kept_of K.behind_key keep (terms_of bytes.now)) }
{
    if !is_text(bytes) {
        return Err(TermFault::NotUtf8);
    }
    match terms_of_text(alloc, keep, skip_blank(bytes)) {
        Ok(items) => Ok(Terms::of(items)),
        Err(error) => Err(fault_of(bytes, error)),
    }
}

/// The terms of a text: each is followed by a dot, as in a file that Erlang's `file:consult/1` reads.
///
/// A text that holds no such terms is answered by its first fault from left to right. Lists that are written alike may lie in
/// memory once.
/// `OutOfMemory` is answered only where a growth was refused.
pub fn read_terms(alloc: Global, bytes: &[u8]) -> Result<Terms, TermFault>
    // Want of memory aside, the answer is the definition's: the terms, or the first fault and its line.
    ensures exact { Tells result (terms_of bytes.now) }
    // The text spells what is read.
    ensures spelled { IfOk result (λ ts. AreDotted (trees_of (items_of ts)) bytes.now) }
    // What a text in UTF-8 spells is read, want of memory aside.
    ensures read { (ts : Trees) → AreDotted ts bytes.now → IsTrue (is_utf8 bytes.now)
        → Tells result (Ok ts) }
    // Where a text is refused by a syntax fault, the longest front that a text of terms can begin with ends on that line.
    ensures syntax { (line : ℕ) → result ≡ Err (TermFault.Syntax line) → StopsAt line bytes.now }
    // Where a text is refused as unsupported, one of the constructs stands on that line, where reading comes to it.
    ensures unsupported { (line : ℕ) → result ≡ Err (TermFault.Unsupported line)
        → HasConstruct line bytes.now }
{
    read_kept(alloc, KeepAll, bytes)
}
