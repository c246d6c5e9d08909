//! What is wrong with the words behind a command.

ghost use Rattle.std.specs.Prelude.{◌≡◌, ◌++◌, OnOk, map};
ghost use Rattle.std.specs.Option.{option_map};
ghost use Rattle.std.specs.String.{string_bytes};
ghost use Rattle.rh_line_lint.specs.Lines.{near_words, first_mistaken, mistaken_words, comment_words, surplus_words, missing_words, blame};

use crate::arguments::{choices, mismatch, takes};
use rh_base::OutOfMemory;
use rh_script::Argument;
use rh_term_lint::nearest;
use std::alloc::Global;

/// Adds a near name, if there is one.
#[tactic(auto, unfolding(crate::specs::Lines::near_words))]
pub fn push_near(text: &mut String, near: Option<&str>) -> Result<(), OutOfMemory>
    ensures { OnOk result (string_bytes text.new
        ≡ string_bytes text.old ++ near_words (option_map (λ name. name.now) near.entry)) }
{
    if let Some(name) = near {
        write!(text, "; {name} is near")?;
    }
    Ok(())
}

// The first word that isn't what its argument takes, with that argument.
fn first_mistaken<'a>(arguments: &[Argument], words: &[&'a str]) -> Option<(Argument, &'a str)>
    ensures { option_map (λ p. (p.0, p.1.now)) result
        ≡ first_mistaken arguments.now (map (λ word. word.now) words.now) }
{
    arguments
        .iter()
        .zip(words)
        .find(|(argument, word)| !takes(**argument, word))
        .map(|(argument, word)| (*argument, *word))
}

// Adds a word that isn't what its argument takes, and one that is taken there and near.
#[tactic(auto, unfolding(crate::specs::Lines::mistaken_words))]
fn push_mistaken(
    alloc: Global,
    text: &mut String,
    argument: Argument,
    word: &str,
) -> Result<(), OutOfMemory>
    ensures { OnOk result
        (string_bytes text.new ≡ string_bytes text.old ++ mistaken_words argument word.now) }
{
    let near = nearest(alloc, word, choices(argument))?;
    let mismatched = mismatch(argument, word);
    write!(text, "; {word}{mismatched}")?;
    push_near(text, near)
}

// What may have been meant by a word too many.
#[tactic(auto, unfolding(crate::specs::Lines::comment_words))]
fn comment_words(word: &str) -> &'static str
    ensures { result.now ≡ comment_words word.now }
{
    let bytes = word.as_bytes();
    if bytes.starts_with(b"#") || bytes.starts_with(b"%") {
        "; a comment has a line of its own, which begins with #"
    } else {
        ""
    }
}

// Adds a word too many.
#[tactic(auto, unfolding(crate::specs::Lines::surplus_words))]
fn push_surplus(text: &mut String, word: &str) -> Result<(), OutOfMemory>
    ensures { OnOk result
        (string_bytes text.new ≡ string_bytes text.old ++ surplus_words word.now) }
{
    write!(text, "; {word} is a word too many")?;
    text.push_str(comment_words(word))?;
    Ok(())
}

// Adds how many words are missing, if any are.
#[tactic(auto, unfolding(crate::specs::Lines::missing_words))]
fn push_missing(text: &mut String, count: usize) -> Result<(), OutOfMemory>
    ensures { OnOk result (string_bytes text.new ≡ string_bytes text.old ++ missing_words count) }
{
    match count {
        0 => {}
        1 => write!(text, "; a word is missing")?,
        _ => write!(text, "; {count} words are missing")?,
    }
    Ok(())
}

/// Adds what is wrong with the words behind a command that takes these arguments: the first that isn't what its argument takes; else
/// the first that is too many, or how many are missing.
#[tactic(auto, unfolding(crate::specs::Lines::blame))]
pub fn push_blame(
    alloc: Global,
    text: &mut String,
    arguments: &[Argument],
    words: &[&str],
) -> Result<(), OutOfMemory>
    ensures { OnOk result (string_bytes text.new
        ≡ string_bytes text.old ++ blame arguments.now (map (λ word. word.now) words.now)) }
{
    if let Some((argument, word)) = first_mistaken(arguments, words) {
        return push_mistaken(alloc, text, argument, word);
    }
    match words.get(arguments.len()) {
        Some(word) => push_surplus(text, word),
        None => push_missing(text, arguments.len().saturating_sub(words.len())),
    }
}
