//! Words of a text.

ghost use Rattle.std.specs.Prelude.{◌≡◌};
ghost use Rattle.rh_cluster_lint.specs.Words.{words_of, word, first_word, second_word, is_tuple, is_headed};

use crate::constructs::byte_at;
use crate::spans::behind;
use rh_json_text::{after_first, before_first};

// These bytes as words; none where they are no text.
pub fn words_of(bytes: &[u8]) -> &str
    ensures { result.now ≡ words_of bytes.now }
{
    match std::str::from_utf8(bytes) {
        Ok(words) => words,
        Err(_) => "",
    }
}

// What stands before a comma and before a brace, as words without the blanks round them.
fn word(bytes: &[u8]) -> &str
    ensures { result.now ≡ word bytes.now }
{
    words_of(before_first(before_first(bytes, b','), b'}')).trim()
}

// The first word of a tuple.
pub fn first_word(tuple: &[u8]) -> &str
    ensures { result.now ≡ first_word tuple.now }
{
    word(behind(tuple, 1))
}

// The second word of a tuple.
pub fn second_word(tuple: &[u8]) -> &str
    ensures { result.now ≡ second_word tuple.now }
{
    word(after_first(behind(tuple, 1), b','))
}

// Does a tuple begin here?
pub fn is_tuple(bytes: &[u8]) -> bool
    ensures { result ≡ is_tuple bytes.now }
{
    byte_at(bytes, 0) == b'{'
}

// Is this its first word?
pub fn is_headed(name: &str, tuple: &[u8]) -> bool
    ensures { result ≡ is_headed name.now tuple.now }
{
    first_word(tuple) == name
}
