//! What may have been meant where a text can't be read.

ghost use Rattle.std.specs.Prelude.{◌≡◌};
ghost use Rattle.std.specs.List.{list_all};
ghost use Rattle.rh_cluster_lint.specs.Hints.{skip_lines, line_at, is_mark_byte, is_mark, line_words, line_hint, is_not_utf8, start_hint, hint_words};

use crate::constructs::{byte_at, construct_told};
use rh_cluster::ClusterFault;
use rh_json_text::before_first;
use rh_terms::TermFault;

// The text behind so many lines.
fn skip_lines(count: u64, text: &[u8]) -> &[u8]
    ensures { result.now ≡ skip_lines count text.now }
{
    let mut left = count;
    for at in 0..text.len() {
        if left == 0 {
            return &text[at..];
        }
        if text[at] == b'\n' {
            left -= 1;
        }
    }
    &[]
}

/// The line of this number, counted from 1, without its line end.
pub fn line_at(text: &[u8], number: u64) -> &[u8]
    ensures { result.now ≡ line_at text.now number }
{
    before_first(skip_lines(number.saturating_sub(1), text), b'\n')
}

// Is it a byte of a line that parts something?
fn is_mark_byte(byte: u8) -> bool
    ensures { result ≡ is_mark_byte byte }
{
    byte == b'=' || byte == b'-' || byte == b' ' || byte == b'\r'
}

// Are they all?
fn has_mark_bytes(line: &[u8]) -> bool
    ensures { result ≡ list_all is_mark_byte line.now }
{
    for at in 0..line.len() {
        if !is_mark_byte(line[at]) {
            return false;
        }
    }
    true
}

// Was the line meant as `===`?
fn is_mark(line: &[u8]) -> bool
    ensures { result ≡ is_mark line.now }
{
    has_mark_bytes(line) && (line.contains(&b'=') || line.contains(&b'-'))
}

// What is told of a line that can't be read.
fn line_words(line: &[u8]) -> &'static str
    ensures { result.now ≡ line_words line.now }
{
    if is_mark(line) {
        "; a line === with nothing else on it ends the cluster file"
    } else if byte_at(line, 0) == b'#' && byte_at(line, 1) != b'{' {
        "; a comment in the cluster file begins with %"
    } else {
        construct_told(line)
    }
}

// What is told of the line of a fault, where it has one.
fn line_hint(text: &[u8], number: Option<u64>) -> &'static str
    ensures { result.now ≡ line_hint text.now number }
{
    match number {
        Some(number) => line_words(line_at(text, number)),
        None => "",
    }
}

// Is it told that the text isn't UTF-8?
fn is_not_utf8(fault: &ClusterFault) -> bool
    ensures { result ≡ is_not_utf8 fault.now }
{
    matches!(fault, ClusterFault::Term(TermFault::NotUtf8))
}

// What is told of a text by its first bytes; nothing where they are as usual.
fn start_hint(text: &[u8]) -> &'static str
    ensures { result.now ≡ start_hint text.now }
{
    if text.is_empty() {
        "; the file is empty"
    } else if text.starts_with(b"\xef\xbb\xbf") {
        "; the file begins with a byte order mark, which has to go"
    } else if text.starts_with(b"\xff\xfe") || text.starts_with(b"\xfe\xff") {
        "; the file is in UTF-16: iconv -f UTF-16 -t UTF-8 makes it UTF-8"
    } else {
        ""
    }
}

/// What a person needs to know of a text that is refused with this fault on this line, as words behind `; `: what the file begins
/// with, else that it may be in Latin-1, else what stands on the line. Nothing where none of it is met.
pub fn hint_words(text: &[u8], fault: &ClusterFault, line: Option<u64>) -> &'static str
    ensures { result.now ≡ hint_words text.now fault.now line }
{
    let start = start_hint(text);
    if !start.is_empty() {
        start
    } else if is_not_utf8(fault) {
        "; it may be in Latin-1: iconv -f LATIN1 -t UTF-8 makes it UTF-8"
    } else {
        line_hint(text, line)
    }
}
