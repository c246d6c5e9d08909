//! The lines of a text.

ghost use Rattle.std.specs.Prelude.{take, drop, ◌≡◌, ◌<◌, ◌≤◌, ◌++◌, ◌∷◌, [], length, map, IfSome, None, Some};
ghost use Rattle.rh_script.specs.Lines.{raw_lines, ends_with, without_last, content, is_separator, cluster_text, script_lines};

use memchr::memchr;

// How many bytes the first line has, with its LF.
fn line_len(bytes: &[u8]) -> usize
    ensures line { 0 < length bytes.now
        → raw_lines bytes.now ≡ take result bytes.now ∷ raw_lines (drop result bytes.now) }
    ensures within { result ≤ length bytes.now }
    ensures filled { 0 < length bytes.now → 0 < result }
{
    match memchr(b'\n', bytes) {
        Some(at) => at + 1,
        None => bytes.len(),
    }
}

/// The first line, and what stands behind it.
pub fn split_line(bytes: &[u8]) -> (&[u8], &[u8])
    requires { 0 < length bytes.now }
    ensures line { raw_lines bytes.now ≡ result.0.now ∷ raw_lines result.1.now }
    ensures whole { bytes.now ≡ result.0.now ++ result.1.now }
    ensures shorter { length result.1.now < length bytes.now }
{
    bytes.split_at(line_len(bytes))
}

// The bytes without this byte at their end.
fn without_last(bytes: &[u8], byte: u8) -> &[u8]
    ensures { result.now ≡ without_last byte bytes.now }
{
    if !bytes.is_empty() && bytes[bytes.len() - 1] == byte {
        &bytes[..bytes.len() - 1]
    } else {
        bytes
    }
}

// Whether a line ends with its LF.
fn has_end(line: &[u8]) -> bool
    ensures { result ≡ ends_with 10 line.now }
{
    !line.is_empty() && line[line.len() - 1] == b'\n'
}

/// A line without its LF, and without one CR before that.
#[tactic(auto, unfolding(crate::specs::Lines::content))]
pub fn content(line: &[u8]) -> &[u8]
    ensures { result.now ≡ content line.now }
{
    if has_end(line) {
        without_last(without_last(line, b'\n'), b'\r')
    } else {
        line
    }
}

// Whether a line ends the cluster's text.
fn is_separator(line: &[u8]) -> bool
    ensures { result ≡ is_separator line.now }
{
    content(line) == b"===".as_slice()
}

/// The text before the line `===`, and the script behind it.
pub fn cut(bytes: &[u8]) -> (&[u8], &[u8])
    ensures cluster { result.0.now ≡ cluster_text bytes.now }
    ensures script { map content (raw_lines result.1.now) ≡ script_lines bytes.now }
{
    let mut rest = bytes;
    while !rest.is_empty() {
        let (line, after) = split_line(rest);
        if is_separator(line) {
            return (&bytes[..bytes.len() - rest.len()], after);
        }
        rest = after;
    }
    (bytes, rest)
}
