//! What a command takes behind its word.

ghost use Rattle.std.specs.Prelude.{◌≡◌, map, nat_lt};
ghost use Rattle.std.specs.Char.{digit_value};
ghost use Rattle.std.specs.List.{list_all, list_any};
ghost use Rattle.std.specs.Str.{bytes_eq};
ghost use Rattle.rh_script.specs.Commands.{is_numeral};
ghost use Rattle.rh_line_lint.specs.Arguments.{takes, choices, mismatch};

use rh_script::{Argument, milliseconds};

static ANY: [&str; 0] = [];

static RESTARTS: [&str; 3] = ["permanent", "transient", "temporary"];

static TRUTHS: [&str; 2] = ["true", "false"];

static ENDINGS: [&str; 2] = ["normal", "abnormal"];

// Is a word one of these?
fn is_among(word: &str, words: &[&str]) -> bool
    ensures { result ≡ list_any (bytes_eq word.now) (map (λ other. other.now) words.now) }
{
    words.iter().any(|other| word == *other)
}

// Are they decimal digits?
fn are_digits(bytes: &[u8]) -> bool
    ensures { result ≡ list_all (λ byte. nat_lt (digit_value byte) 10) bytes.now }
{
    bytes.iter().all(|byte| (*byte as char).is_digit(10))
}

// Is it one decimal digit or more, and nothing else?
fn is_numeral(word: &str) -> bool
    ensures { result ≡ is_numeral word.now }
{
    !word.is_empty() && are_digits(word.as_bytes())
}

/// The words that an argument takes, where they are few.
pub fn choices(argument: Argument) -> &'static [&'static str]
    ensures { map (λ word. word.now) result.now ≡ choices argument }
{
    match argument {
        Argument::Restart => RESTARTS.as_slice(),
        Argument::Truth => TRUTHS.as_slice(),
        Argument::Ending => ENDINGS.as_slice(),
        _ => ANY.as_slice(),
    }
}

/// Does an argument take this word? As a name it takes any word.
pub fn takes(argument: Argument, word: &str) -> bool
    ensures { result ≡ takes argument word.now }
{
    match argument {
        Argument::Node | Argument::App => true,
        Argument::Milliseconds => milliseconds(word).is_some(),
        _ => is_among(word, choices(argument)),
    }
}

/// What a word isn't that an argument doesn't take.
pub fn mismatch(argument: Argument, word: &str) -> &'static str
    ensures { result.now ≡ mismatch argument word.now }
{
    match argument {
        Argument::Restart => " is none of permanent, transient and temporary",
        Argument::Truth => " is neither true nor false",
        Argument::Ending => " is neither normal nor abnormal",
        Argument::Milliseconds => {
            if is_numeral(word) {
                " is too large: the clock ends at 1000000000000"
            } else {
                " is no number of milliseconds, as 5000"
            }
        }
        _ => "",
    }
}
