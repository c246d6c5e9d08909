//! Sentences in which names stand.

ghost use Rattle.std.specs.Prelude.{◌≡◌, IfOk};
ghost use Rattle.rh_findings.specs.Sentences.{sentence, words_seen, names_seen};

use rh_base::{OutOfMemory, Str};
use std::alloc::Global;

/// A sentence: the code and the first words, and what stands behind each of three names. What isn't needed is empty.
#[derive(Clone, Copy)]
pub struct Words {
    pub begin: &'static str,
    pub first: &'static str,
    pub second: &'static str,
    pub third: &'static str,
}

/// The three names of a sentence.
#[derive(Clone, Copy)]
pub struct Names<'a> {
    pub first: &'a str,
    pub second: &'a str,
    pub third: &'a str,
}

/// A sentence with its names.
#[tactic(auto, unfolding(crate::specs::Sentences::sentence))]
pub fn sentence(alloc: Global, words: Words, names: Names<'_>) -> Result<Str, OutOfMemory>
    ensures { IfOk result (λ text. text ≡ sentence (words_seen words) (names_seen names.entry)) }
{
    let begin = words.begin;
    let first = names.first;
    let behind_first = words.first;
    let second = names.second;
    let behind_second = words.second;
    let third = names.third;
    let end = words.third;
    let text = format!(in alloc;
        "{begin}{first}{behind_first}{second}{behind_second}{third}{end}"
    )?;
    Ok(Str::of(text))
}
