//! How near a word is to a name.

ghost use Rattle.std.specs.Prelude.{◌≡◌, [], ◌∷◌, ◌++◌, IfOk, map};
ghost use Rattle.std.specs.Option.{option_map};
ghost use Rattle.rh_term_lint.specs.Near.{edits, is_near, nearest};

use rh_base::OutOfMemory;
use std::alloc::Global;
use strsim::levenshtein;

// How many edits lead from a word to a name.
#[tactic(auto, unfolding(crate::specs::Near::edits))]
fn edits(alloc: Global, word: &str, name: &str) -> Result<usize, OutOfMemory>
    ensures { IfOk result (λ count. count ≡ edits word.now name.now) }
{
    Ok(levenshtein(alloc, word, name)?)
}

/// Is a word near a name? It is at most two edits away, and at most half as many as the name has bytes; an edit inserts, deletes or
/// replaces a character. Their lengths in bytes differ by two at most.
#[tactic(auto, unfolding(crate::specs::Near::is_near))]
pub fn is_near(alloc: Global, word: &str, name: &str) -> Result<bool, OutOfMemory>
    ensures { IfOk result (λ near. near ≡ is_near word.now name.now) }
{
    let length = name.len();
    if word.len().saturating_sub(length) > 2 || length.saturating_sub(word.len()) > 2 {
        return Ok(false);
    }
    let count = edits(alloc, word, name)?;
    Ok(count <= 2 && count <= length / 2)
}

// The nearer one of the nearest name so far and another name.
fn nearer<'a>(
    alloc: Global,
    word: &str,
    best: Option<&'a str>,
    name: &'a str,
) -> Result<Option<&'a str>, OutOfMemory>
    // Behind any names of which that is the nearest, it is the nearest with this name among them.
    ensures { IfOk result
        (λ found. (names : _) → option_map (λ other. other.now) best.entry ≡ nearest word.now names
        → option_map (λ other. other.now) found ≡ nearest word.now (names ++ name.now ∷ [])) }
{
    if !is_near(alloc, word, name)? {
        return Ok(best);
    }
    match best {
        None => Ok(Some(name)),
        Some(other) => {
            if edits(alloc, word, name)? < edits(alloc, word, other)? {
                Ok(Some(name))
            } else {
                Ok(Some(other))
            }
        }
    }
}

/// The known name that a word was meant to be: of those that it is near the one with the fewest edits, and of several the first. It
/// is near a name if at most two edits lead from one to the other, and at most half as many as the name has bytes; an edit inserts,
/// deletes or replaces a character. So the word itself is found, if it is known.
pub fn nearest<'a>(
    alloc: Global,
    word: &str,
    known: &[&'a str],
) -> Result<Option<&'a str>, OutOfMemory>
    ensures { IfOk result (λ found.
        option_map (λ name. name.now) found ≡ nearest word.now (map (λ name. name.now) known.now)) }
{
    let mut best = None;
    for name in known {
        best = nearer(alloc, word, best, name)?;
    }
    Ok(best)
}
