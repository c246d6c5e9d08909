//! Terms that are checked and not kept.

ghost use Rattle.std.specs.Prelude.{◌≡◌, ◌<◌, length, IfOk, OnOk};
ghost use Rattle.rh_terms.specs.Faults.{ReadsAs, under};
ghost use Rattle.rh_terms.specs.Grammar.{term_at, inside};
ghost use Rattle.rh_terms.specs.Kept.{behind, elements_at, hollow};
ghost use Rattle.rh_terms.specs.Repeated.{IsRead};
ghost use Rattle.rh_base.specs.Tree.{tree_of};

use crate::bytes::{begins_with, skip_blank};
use crate::fault::{Fault, ReadError};
use crate::marks::next_of;
use crate::repeats::Again;
use crate::tokens::behind_word;
use rh_base::{Term, Terms};
use std::alloc::Global;

// What stands behind a term, with room for so many lists and tuples inside each other.
#[cycle(skim)]
fn behind_term(room: usize, bytes: &[u8]) -> Result<&[u8], ReadError>
    ensures { ReadsAs (λ rest. rest.now) result (behind (term_at room bytes.now)) }
{
    if begins_with(bytes, b'[') {
        behind_inside(room, b']', &bytes[1..])
    } else if begins_with(bytes, b'{') {
        behind_inside(room, b'}', &bytes[1..])
    } else {
        behind_word(bytes)
    }
}

// What stands behind the closing byte of a list or a tuple, of which the opening one was read.
#[cycle(skim)]
fn behind_inside(room: usize, close: u8, bytes: &[u8]) -> Result<&[u8], ReadError>
    ensures { ReadsAs (λ rest. rest.now) result (behind (inside room close bytes.now)) }
{
    if room == 0 {
        return Err(ReadError::Fault(Fault::TooDeep));
    }
    let first = skip_blank(bytes);
    if begins_with(first, close) {
        return Ok(&first[1..]);
    }
    behind_elements(room - 1, close, first)
}

// The same from an element on.
#[cycle(skim)]
fn behind_elements(room: usize, close: u8, bytes: &[u8]) -> Result<&[u8], ReadError>
    ensures { ReadsAs (λ rest. rest.now) result (behind (elements_at room close bytes.now)) }
{
    let mut rest = bytes;
    'elements: loop {
        let after_term = behind_term(room, rest)?;
        let (goes_on, after) = next_of(close, skip_blank(after_term))?;
        if !goes_on {
            return Ok(after);
        }
        rest = after;
    }
}

// What stands behind a skipped term. The longest list that was skipped so far is passed over where it is written again, as deep.
fn behind_again<'a>(
    again: &mut Again<'a>,
    room: usize,
    bytes: &'a [u8],
) -> Result<&'a [u8], ReadError>
    requires { IsRead again.old }
    ensures read { ReadsAs (λ rest. rest.now) result (behind (term_at room bytes.now)) }
    ensures known { OnOk result (IsRead again.new) }
{
    if !begins_with(bytes, b'[') {
        return behind_term(room, bytes);
    }
    if let Some(rest) = again.behind_skipped(room, bytes) {
        return Ok(rest);
    }
    let rest = behind_term(room, bytes)?;
    again.remember_skipped(room, bytes, rest);
    Ok(rest)
}

/// A term that is skipped, and what is behind it.
pub fn skipped_term<'a>(
    alloc: Global,
    again: &mut Again<'a>,
    room: usize,
    bytes: &'a [u8],
) -> Result<(Term, &'a [u8]), ReadError>
    requires { IsRead again.old }
    ensures read { ReadsAs (λ x. (tree_of x.0, x.1.now)) result
        (under hollow (term_at room bytes.now)) }
    ensures known { OnOk result (IsRead again.new) }
{
    let rest = behind_again(again, room, bytes)?;
    let nothing = Terms::of(Vec::new(alloc));
    if begins_with(bytes, b'[') {
        Ok((Term::List(nothing), rest))
    } else {
        Ok((Term::Tuple(nothing), rest))
    }
}
