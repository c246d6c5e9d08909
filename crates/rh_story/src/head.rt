//! The two parts of an input: the cluster's text with the line `===`, and the script behind it.

ghost use Rattle.std.specs.Prelude.{◌≡◌, ◌++◌, OnOk, IfOk};
ghost use Rattle.rh_script.specs.Lines.{raw_lines, ends_with, is_separator, lines_behind};
ghost use Rattle.rh_story.specs.HeadText.{missing_end, closed, head_text};

use rh_base::OutOfMemory;
use rh_script::{content, split_line};
use std::alloc::Global;

// Whether a line ends in this byte.
fn ends_with(byte: u8, line: &[u8]) -> bool
    ensures { result ≡ ends_with byte line.now }
{
    !line.is_empty() && line[line.len() - 1] == byte
}

/// What a line lacks of its end.
pub fn missing_end(line: &[u8]) -> &'static str
    ensures { result.now ≡ missing_end line.now }
{
    if ends_with(b'\n', line) {
        ""
    } else if ends_with(b'\r', line) {
        "\r\n"
    } else {
        "\n"
    }
}

/// Adds a line with its end.
pub fn push_closed(text: &mut Vec<u8>, line: &[u8]) -> Result<(), OutOfMemory>
    ensures { OnOk result (text.new.items ≡ text.old.items ++ closed line.now) }
{
    text.extend_from_slice(line)?;
    text.extend_from_slice(missing_end(line).as_bytes())?;
    Ok(())
}

// Whether a line ends the cluster's text.
fn is_separator(line: &[u8]) -> bool
    ensures { result ≡ is_separator line.now }
{
    content(line) == b"===".as_slice()
}

/// The script behind the line `===`.
pub fn script_of(bytes: &[u8]) -> &[u8]
    ensures { raw_lines result.now ≡ lines_behind (raw_lines bytes.now) }
{
    let mut rest = bytes;
    'lines: while !rest.is_empty() {
        let (line, after) = split_line(rest);
        if is_separator(line) {
            return after;
        }
        rest = after;
    }
    rest
}

/// The cluster's text with the line `===` behind it.
pub fn head_text(alloc: Global, bytes: &[u8]) -> Result<Vec<u8>, OutOfMemory>
    ensures { IfOk result (λ text. text.items ≡ head_text (raw_lines bytes.now)) }
{
    let mut text = Vec::new(alloc);
    let mut rest = bytes;
    'lines: while !rest.is_empty() {
        let (line, after) = split_line(rest);
        if is_separator(line) {
            text.extend_from_slice(line)?;
            return Ok(text);
        }
        push_closed(&mut text, line)?;
        rest = after;
    }
    text.extend_from_slice(b"===\n".as_slice())?;
    Ok(text)
}
