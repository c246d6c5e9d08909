//! Terms, with the lists and tuples inside each other.

ghost use Rattle.std.specs.Prelude.{◌≡◌, ◌==◌, ◌<◌, ℕ, List, Some, true, length, OnOk};
ghost use Rattle.std.specs.Str.{IsUtf8};
ghost use Rattle.rh_terms.specs.Faults.{ReadsAs, under};
ghost use Rattle.rh_terms.specs.Grammar.{term_at, inside};
ghost use Rattle.rh_terms.specs.Kept.{kept_tree, kept_trees, kept_next, elements_at, with_trees};
ghost use Rattle.rh_terms.specs.Bytes.{begins};
ghost use Rattle.rh_terms.specs.Repeated.{IsRead};
ghost use Rattle.rh_base.specs.Tree.{list, tree_of, trees_of, items_of};

use crate::bytes::{begins_with, skip_blank};
use crate::fault::{Fault, ReadError};
use crate::keep::{Keep, Next, next_behind};
use crate::marks::next_of;
use crate::repeats::Again;
use crate::skim::skipped_term;
use crate::tokens::word_of;
use rh_base::{Term, Terms};
use std::alloc::Global;

/// How many lists and tuples may stand inside each other (ours).
pub const MAX_DEPTH: usize = 64;

// So many elements of one list or tuple lie on the stack at most: 40 KiB. A longer one has memory of its own from there on.
const MOST_ON_STACK: usize = 1024;

/// A term as it is kept, with room for so many lists and tuples inside each other, and what is behind it.
/// The elements of all lists and tuples that stand open lie on one stack, but for the first ones of long lists.
// This, `next_term` and `word_of` stand where they are called, so that a term is made where it is pushed: to hand it up from one
// to the next, eight words each time, took as long as to read it.
#[cycle(nest)]
#[inline(always)]
pub fn term_of<'a, K: Keep>(
    alloc: Global,
    stack: &mut Vec<Term>,
    again: &mut Again<'a>,
    keep: K,
    room: usize,
    bytes: &'a [u8],
) -> Result<(Term, &'a [u8]), ReadError>
    requires text { IsUtf8 bytes.now }
    requires known { IsRead again.old }
    ensures read { ReadsAs (λ x. (tree_of x.0, x.1.now)) result
        (under (kept_tree K.behind_key keep) (term_at room bytes.now)) }
    ensures stack { OnOk result (stack.new.items ≡ stack.old.items) }
    ensures known { OnOk result (IsRead again.new) }
{
    if begins_with(bytes, b'[') {
        let (terms, rest) = list_of(alloc, stack, again, keep, room, bytes)?;
        Ok((Term::List(terms), rest))
    } else if begins_with(bytes, b'{') {
        let (terms, rest) = terms_inside(
            alloc,
            stack,
            again,
            Next::First(keep),
            room,
            b'}',
            &bytes[1..],
        )?;
        Ok((Term::Tuple(terms), rest))
    } else {
        word_of(alloc, bytes)
    }
}

// The elements of a list, and what is behind it.
#[cycle(nest)]
#[inline(always)]
fn list_of<'a, K: Keep>(
    alloc: Global,
    stack: &mut Vec<Term>,
    again: &mut Again<'a>,
    keep: K,
    room: usize,
    bytes: &'a [u8],
) -> Result<(Terms, &'a [u8]), ReadError>
    requires text { IsUtf8 bytes.now }
    requires opens { begins (λ b. b == 91) bytes.now ≡ true }
    requires known { IsRead again.old }
    ensures read { ReadsAs (λ x. (list (trees_of (items_of x.0)), x.1.now)) result
        (under (kept_tree K.behind_key keep) (term_at room bytes.now)) }
    ensures stack { OnOk result (stack.new.items ≡ stack.old.items) }
    ensures known { OnOk result (IsRead again.new) }
{
    if again.is_outside && keep.is_whole() {
        outermost_list_of(alloc, stack, again, keep, room, bytes)
    } else {
        terms_inside(
            alloc,
            stack,
            again,
            Next::Each(keep),
            room,
            b']',
            &bytes[1..],
        )
    }
}

// The same of an outermost list that is kept whole. The longest one so far is shared where it is written again, as deep. An empty
// one takes no memory, so it isn't compared.
#[cycle(nest)]
fn outermost_list_of<'a, K: Keep>(
    alloc: Global,
    stack: &mut Vec<Term>,
    again: &mut Again<'a>,
    keep: K,
    room: usize,
    bytes: &'a [u8],
) -> Result<(Terms, &'a [u8]), ReadError>
    requires text { IsUtf8 bytes.now }
    requires opens { begins (λ b. b == 91) bytes.now ≡ true }
    requires whole { (key : List ℕ) → K.behind_key keep key ≡ Some keep }
    requires known { IsRead again.old }
    ensures read { ReadsAs (λ x. (list (trees_of (items_of x.0)), x.1.now)) result
        (under (kept_tree K.behind_key keep) (term_at room bytes.now)) }
    ensures stack { OnOk result (stack.new.items ≡ stack.old.items) }
    ensures known { OnOk result (IsRead again.new) }
{
    let inner = skip_blank(&bytes[1..]);
    if begins_with(inner, b']') {
        return terms_inside(alloc, stack, again, Next::Each(keep), room, b']', inner);
    }
    if let Some(found) = again.share_at(alloc, room, bytes) {
        return Ok(found);
    }
    again.is_outside = false;
    let (terms, rest) = terms_inside(alloc, stack, again, Next::Each(keep), room, b']', inner)?;
    again.is_outside = true;
    Ok((again.remember(alloc, room, bytes, terms, rest), rest))
}

// What stands in a list or a tuple, of which the opening byte was read, and what is behind the closing one.
#[cycle(nest)]
fn terms_inside<'a, K: Keep>(
    alloc: Global,
    stack: &mut Vec<Term>,
    again: &mut Again<'a>,
    next: Next<K>,
    room: usize,
    close: u8,
    bytes: &'a [u8],
) -> Result<(Terms, &'a [u8]), ReadError>
    requires text { IsUtf8 bytes.now }
    requires ascii { close < 128 }
    requires known { IsRead again.old }
    ensures read { ReadsAs (λ x. (trees_of (items_of x.0), x.1.now)) result
        (under (kept_trees K.behind_key next) (inside room close bytes.now)) }
    ensures stack { OnOk result (stack.new.items ≡ stack.old.items) }
    ensures known { OnOk result (IsRead again.new) }
{
    if room == 0 {
        return Err(ReadError::Fault(Fault::TooDeep));
    }
    let first = skip_blank(bytes);
    if begins_with(first, close) {
        return Ok((Terms::of(Vec::new(alloc)), &first[1..]));
    }
    elements_of(alloc, stack, again, next, room - 1, close, first)
}

// The elements from the first one on, and what is behind the closing byte. They are read onto the stack, so that how many they
// are is known before they get memory of their own: one block of just their size, and none that grows. A long list would stand in
// memory twice when it closes, on the stack and in its block, so its elements are taken off before.
#[cycle(nest)]
fn elements_of<'a, K: Keep>(
    alloc: Global,
    stack: &mut Vec<Term>,
    again: &mut Again<'a>,
    next: Next<K>,
    room: usize,
    close: u8,
    bytes: &'a [u8],
) -> Result<(Terms, &'a [u8]), ReadError>
    requires text { IsUtf8 bytes.now }
    requires ascii { close < 128 }
    requires known { IsRead again.old }
    ensures read { ReadsAs (λ x. (trees_of (items_of x.0), x.1.now)) result
        (under (kept_trees K.behind_key next) (elements_at room close bytes.now)) }
    ensures stack { OnOk result (stack.new.items ≡ stack.old.items) }
    ensures known { OnOk result (IsRead again.new) }
{
    let below = stack.len();
    let mut next = next;
    let mut rest = bytes;
    'elements: loop {
        let (term, after_term) = next_term(alloc, stack, again, next, room, rest)?;
        next = next_behind(next, &term);
        stack.push(term)?;
        let (goes_on, after) = next_of(close, skip_blank(after_term))?;
        if !goes_on {
            let items = stack.split_off(below)?;
            return Ok((Terms::of(items), after));
        }
        if stack.len() - below >= MOST_ON_STACK {
            let many = stack.split_off(below)?;
            return further_elements_of(alloc, stack, again, many, next, room, close, after);
        }
        rest = after;
    }
}

// The elements from here on, behind many of the same list or tuple, and what is behind the closing byte. All lie in memory that is
// theirs alone: it grows with them, and where the list closes, what it has too much is given back.
#[cycle(nest)]
fn further_elements_of<'a, K: Keep>(
    alloc: Global,
    stack: &mut Vec<Term>,
    again: &mut Again<'a>,
    items: Vec<Term>,
    next: Next<K>,
    room: usize,
    close: u8,
    bytes: &'a [u8],
) -> Result<(Terms, &'a [u8]), ReadError>
    requires text { IsUtf8 bytes.now }
    requires ascii { close < 128 }
    requires known { IsRead again.old }
    ensures read { ReadsAs (λ x. (trees_of (items_of x.0), x.1.now)) result
        (with_trees (trees_of items.items)
        (under (kept_trees K.behind_key next) (elements_at room close bytes.now))) }
    ensures stack { OnOk result (stack.new.items ≡ stack.old.items) }
    ensures known { OnOk result (IsRead again.new) }
{
    let mut items = items;
    let mut next = next;
    let mut rest = bytes;
    'elements: loop {
        let (term, after_term) = next_term(alloc, stack, again, next, room, rest)?;
        next = next_behind(next, &term);
        items.push(term)?;
        let (goes_on, after) = next_of(close, skip_blank(after_term))?;
        if !goes_on {
            items.shrink_to_fit();
            return Ok((Terms::of(items), after));
        }
        rest = after;
    }
}

// The next one of them, and what is behind it.
#[cycle(nest)]
#[inline(always)]
fn next_term<'a, K: Keep>(
    alloc: Global,
    stack: &mut Vec<Term>,
    again: &mut Again<'a>,
    next: Next<K>,
    room: usize,
    bytes: &'a [u8],
) -> Result<(Term, &'a [u8]), ReadError>
    requires text { IsUtf8 bytes.now }
    requires known { IsRead again.old }
    ensures read { ReadsAs (λ x. (tree_of x.0, x.1.now)) result
        (under (kept_next K.behind_key next) (term_at room bytes.now)) }
    ensures stack { OnOk result (stack.new.items ≡ stack.old.items) }
    ensures known { OnOk result (IsRead again.new) }
{
    match next {
        Next::Each(keep) | Next::First(keep) => term_of(alloc, stack, again, keep, room, bytes),
        Next::Skipped => skipped_term(alloc, again, room, bytes),
    }
}
