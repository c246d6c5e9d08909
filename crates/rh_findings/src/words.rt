//! The line of a word.

ghost use Rattle.std.specs.Prelude.{◌≡◌, ◌+◌, ◌<◌, ◌≤◌, ◌^◌, length, drop};
ghost use Rattle.rh_findings.specs.Words.{begins_atom_byte, stands_here, line_of_word};

use crate::scan::is_atom_byte;
use crate::starts::line_behind;

// Does it begin with a byte that an atom without quotes has?
fn begins_atom_byte(bytes: &[u8]) -> bool
    ensures { result ≡ begins_atom_byte bytes.now }
{
    !bytes.is_empty() && is_atom_byte(bytes[0])
}

// Does the word stand here, and doesn't go on behind?
fn stands_here(word: &[u8], bytes: &[u8]) -> bool
    ensures { result ≡ stands_here word.now bytes.now }
{
    bytes.starts_with(word) && !begins_atom_byte(&bytes[word.len()..])
}

/// The first line on which the word stands as a word: no letter, digit, `_` or `@` stands before it or behind it. The text begins on
/// this line.
pub fn line_of_word(first: u32, word: &[u8], text: &[u8]) -> Option<u64>
    ensures { result ≡ line_of_word first word.now text.now }
{
    let mut line = first as u64;
    let mut goes_on = false;
    for at in 0..text.len() {
        let byte = text[at];
        if !goes_on && stands_here(word, &text[at..]) {
            return Some(line);
        }
        goes_on = is_atom_byte(byte);
        line = line_behind(line, byte);
    }
    None
}
