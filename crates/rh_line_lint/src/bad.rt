//! A line that is no command.

ghost use Rattle.std.specs.Prelude.{◌≡◌, IfOk, map};
ghost use Rattle.std.specs.String.{string_bytes};
ghost use Rattle.rh_line_lint.specs.Lines.{meant_words, unknown_command, bad_arguments, unread, tab_words, bad_words, error_at};

use crate::blame::{push_blame, push_near};
use crate::commands::{command_words, push_usage};
use crate::words::words_of;
use rh_base::{OutOfMemory, Str};
use rh_findings::{Finding, Kind};
use rh_script::{Verb, text_of, verb_named};
use rh_term_lint::nearest;
use std::alloc::Global;

/// An error in a line.
pub fn error_at(number: u64, text: String) -> Finding
    ensures { result ≡ error_at number (string_bytes text) }
{
    Finding {
        line: Some(number),
        kind: Kind::Error,
        text: Str::of(text),
        path: None,
    }
}

// What may have been meant by a word that is no command.
fn meant_words(word: &str) -> &'static str
    ensures { result.now ≡ meant_words word.now }
{
    if word.as_bytes().starts_with(b"%") {
        "; a comment in a script begins with #"
    } else if word.as_bytes().starts_with(b"#") {
        "; the # of a comment is the first byte of its line"
    } else if word == "===" {
        "; one line === stands before the script"
    } else if word == "plan" {
        "; plans are for sweep"
    } else {
        ""
    }
}

// What is told of a word that is no command.
#[tactic(auto, unfolding(crate::specs::Lines::unknown_command))]
fn unknown_command(alloc: Global, word: &str) -> Result<String, OutOfMemory>
    ensures { IfOk result (λ text. string_bytes text ≡ unknown_command word.now) }
{
    let words = command_words(alloc)?;
    let near = nearest(alloc, word, words.as_slice())?;
    let meant = meant_words(word);
    let mut text = format!(in alloc; "unknown_command: {word} is no command{meant}")?;
    push_near(&mut text, near)?;
    Ok(text)
}

// What is told of a command with words that aren't what it takes.
#[tactic(auto, unfolding(crate::specs::Lines::bad_arguments))]
fn bad_arguments(alloc: Global, verb: Verb, words: &[&str]) -> Result<String, OutOfMemory>
    ensures { IfOk result (λ text.
        string_bytes text ≡ bad_arguments verb (map (λ word. word.now) words.now)) }
{
    let mut text = format!(in alloc; "bad_arguments: the command is ")?;
    push_usage(&mut text, verb)?;
    push_blame(alloc, &mut text, verb.form().arguments, words)?;
    Ok(text)
}

// What is told of words that are no command.
#[tactic(auto, unfolding(crate::specs::Lines::unread))]
fn unread(alloc: Global, words: &[&str]) -> Result<String, OutOfMemory>
    ensures { IfOk result (λ text. string_bytes text ≡ unread (map (λ word. word.now) words.now)) }
{
    match words {
        [] => Ok(String::new(alloc)),
        [word, words @ ..] => match verb_named(word) {
            None => unknown_command(alloc, word),
            Some(verb) => bad_arguments(alloc, verb, words),
        },
    }
}

// What is told of a line with a tab.
#[tactic(auto, unfolding(crate::specs::Lines::tab_words))]
fn tab_words(line: &[u8]) -> &'static str
    ensures { result.now ≡ tab_words line.now }
{
    if line.contains(&b'\t') {
        "; a tab parts no words"
    } else {
        ""
    }
}

/// What is told of a line that is no command.
#[tactic(auto, unfolding(crate::specs::Lines::bad_words))]
pub fn bad_words(alloc: Global, line: &[u8]) -> Result<String, OutOfMemory>
    ensures { IfOk result (λ text. string_bytes text ≡ bad_words line.now) }
{
    let Some(text) = text_of(line) else {
        return Ok(format!(in alloc; "not_utf8: the line isn't UTF-8")?);
    };
    let words = words_of(alloc, text)?;
    let mut told = unread(alloc, words.as_slice())?;
    told.push_str(tab_words(line))?;
    Ok(told)
}
