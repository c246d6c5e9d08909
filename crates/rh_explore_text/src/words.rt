//! Words of a line.

ghost use Rattle.std.specs.Prelude.{◌≡◌, ◌==◌, ◌++◌, if◌then◌else◌, Some, None, IfOk, OnOk, map};
ghost use Rattle.std.specs.List.{slice_split};
ghost use Rattle.std.specs.Option.{option_map};
ghost use Rattle.std.specs.Str.{is_utf8};
ghost use Rattle.rh_script.specs.Commands.{words_of, begins_with, milliseconds};
ghost use Rattle.rh_explore_text.specs.Words.{is_star, is_star_at, line_of_words, spaced_word};

use rh_base::OutOfMemory;
use std::alloc::{AllocError, Global};

// The line as a text, if it is one.
pub fn text_of(line: &[u8]) -> Option<&str>
    ensures { option_map (λ text. text.now) result
        ≡ (if is_utf8 line.now then Some line.now else None) }
{
    str::from_utf8(line).ok()
}

// The parts round each space.
fn parts_of(alloc: Global, line: &str) -> Result<Vec<&str>, AllocError>
    ensures { IfOk result
        (λ parts. map (λ part. part.now) parts.items ≡ slice_split (λ b. b == 32) line.now) }
{
    line.split(' ').collect(alloc)
}

// The words between runs of spaces.
pub fn words_of(alloc: Global, line: &str) -> Result<Vec<&str>, OutOfMemory>
    ensures { IfOk result (λ words. map (λ word. word.now) words.items ≡ words_of line.now) }
{
    let parts = parts_of(alloc, line)?;
    let mut words = Vec::new(alloc);
    for part in parts.as_slice() {
        if !part.is_empty() {
            words.push(*part)?;
        }
    }
    Ok(words)
}

// Words as a line again, with a space behind each.
pub fn line_of_words(alloc: Global, words: &[&str]) -> Result<Vec<u8>, OutOfMemory>
    ensures { IfOk result (λ line. line.items ≡ line_of_words (map (λ word. word.now) words.now)) }
{
    let mut line = Vec::new(alloc);
    for word in words {
        push_word(&mut line, *word)?;
    }
    Ok(line)
}

// Adds a word, and a space behind it.
fn push_word(line: &mut Vec<u8>, word: &str) -> Result<(), OutOfMemory>
    ensures { OnOk result (line.new.items ≡ line.old.items ++ spaced_word word.now) }
{
    line.extend_from_slice(word.as_bytes())?;
    line.push(b' ')?;
    Ok(())
}

// Does the word begin with this byte?
fn begins_with(byte: u8, word: &[u8]) -> bool
    ensures { result ≡ begins_with byte word.now }
{
    !word.is_empty() && word[0] == byte
}

// The number that a word is, written as the milliseconds of a tick are.
pub fn number_of(word: &str) -> Option<u64>
    ensures { result ≡ milliseconds word.now }
{
    // A plus may stand before a number that is parsed, but not in a script.
    if begins_with(b'+', word.as_bytes()) {
        return None;
    }
    word.parse::<u64>().ok()
}

// Is the word that which stands for each name?
fn is_star(word: &str) -> bool
    ensures { result ≡ is_star word.now }
{
    word == "*"
}

// Is that the word at this place?
pub fn is_star_at(words: &[&str], place: usize) -> bool
    ensures { result ≡ is_star_at (map (λ word. word.now) words.now) place }
{
    match words.get(place) {
        Some(word) => is_star(*word),
        None => false,
    }
}
