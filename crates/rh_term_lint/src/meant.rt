//! What a skipped name was meant to be.

ghost use Rattle.std.specs.Prelude.{◌≡◌, IfOk, find};
ghost use Rattle.std.specs.Option.{option_map};
ghost use Rattle.rh_term_lint.specs.Meant.{word_of, is_read, meant};
ghost use Rattle.rh_term_lint.specs.Near.{is_near};

use crate::names::ReadName;
use crate::near::is_near;
use rh_base::{OutOfMemory, Str};
use std::alloc::Global;

// Is it one of these names?
fn is_read(names: &[ReadName], word: &str) -> bool
    ensures { result ≡ is_read names.now word.now }
{
    for name in names {
        if word == name.word() {
            return true;
        }
    }
    false
}

// The first of these names that a word is near.
fn near_name(alloc: Global, names: &[ReadName], word: &str) -> Result<Option<ReadName>, OutOfMemory>
    ensures { IfOk result
        (λ found. found ≡ find (λ name. is_near word.now (word_of name)) names.now) }
{
    for name in names {
        if is_near(alloc, word, name.word())? {
            return Ok(Some(*name));
        }
    }
    Ok(None)
}

// What a name was meant to be, if it isn't one of these itself.
#[tactic(auto, unfolding(crate::specs::Meant::meant))]
fn meant(alloc: Global, names: &[ReadName], word: &str) -> Result<Option<ReadName>, OutOfMemory>
    ensures { IfOk result (λ found. found ≡ meant names.now word.now) }
{
    if is_read(names, word) {
        return Ok(None);
    }
    near_name(alloc, names, word)
}

/// What a name was meant to be, behind the name as it is written.
pub fn mistaken_name(
    alloc: Global,
    names: &[ReadName],
    word: &Str,
) -> Result<Option<(Str, ReadName)>, OutOfMemory>
    ensures { IfOk result
        (λ found. found ≡ option_map (λ name. (word.now, name)) (meant names.now word.now)) }
{
    match meant(alloc, names, word.as_str())? {
        Some(name) => Ok(Some((word.copy(alloc)?, name))),
        None => Ok(None),
    }
}
