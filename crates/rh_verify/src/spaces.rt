//! Lines of a text, and the spaces round them.

ghost use Rattle.std.specs.Prelude.{◌≡◌, ◌≤◌, ◌++◌, [], ◌∷◌, length, map, codes, IfOk, OnOk};
ghost use Rattle.std.specs.List.{flat_map};
ghost use Rattle.rh_script.specs.Lines.{raw_lines};
ghost use Rattle.rh_verify.specs.Spaces.{lines_of, without_front, without_back, without_spaces, below};

use rh_base::OutOfMemory;
use rh_script::{content, split_line};
use std::alloc::Global;

// Adds a line. With the first comes room for as many as most commands have behind them.
pub fn push_line<'a>(lines: &mut Vec<&'a [u8]>, line: &'a [u8]) -> Result<(), OutOfMemory>
    ensures { OnOk result (lines.new.items ≡ lines.old.items ++ line.entry ∷ []) }
{
    if lines.is_empty() {
        lines.reserve(32)?;
    }
    lines.push(line)?;
    Ok(())
}

// The lines of a text, without their ends.
pub fn lines_of(alloc: Global, text: &[u8]) -> Result<Vec<&[u8]>, OutOfMemory>
    ensures { IfOk result (λ lines. map (λ line. line.now) lines.items ≡ lines_of text.now) }
{
    let mut lines = Vec::new(alloc);
    let mut rest = text;
    'lines: while !rest.is_empty() {
        let (line, after) = split_line(rest);
        push_line(&mut lines, content(line))?;
        rest = after;
    }
    Ok(lines)
}

// How many lines a text has.
pub fn line_count(text: &[u8]) -> u64
    ensures count { result ≡ length (raw_lines text.now) }
    ensures within { result ≤ length text.now }
{
    let mut rest = text;
    let mut count: u64 = 0;
    'lines: while !rest.is_empty() {
        let (_, after) = split_line(rest);
        rest = after;
        count += 1;
    }
    count
}

// A line without the spaces at its front.
pub fn without_front(line: &[u8]) -> &[u8]
    ensures { result.now ≡ without_front line.now }
{
    let mut rest = line;
    while !rest.is_empty() && rest[0] == b' ' {
        rest = &rest[1..];
    }
    rest
}

// A line without the spaces at its end.
fn without_back(line: &[u8]) -> &[u8]
    ensures { result.now ≡ without_back line.now }
{
    let mut end = line.len();
    while end > 0 && line[end - 1] == b' ' {
        end -= 1;
    }
    &line[..end]
}

// A line without the spaces at its front and at its end.
pub fn without_spaces(line: &[u8]) -> &[u8]
    ensures { result.now ≡ without_spaces line.now }
{
    without_back(without_front(line))
}

// Adds a line below the first one of a block.
fn push_below(block: &mut Vec<u8>, words: &str, text: &[u8]) -> Result<(), OutOfMemory>
    ensures { OnOk result (block.new.items ≡ block.old.items ++ below words.now text.now) }
{
    block.extend_from_slice(b"  ".as_slice())?;
    block.extend_from_slice(words.as_bytes())?;
    block.extend_from_slice(text)?;
    block.extend_from_slice(b"\n".as_slice())?;
    Ok(())
}

// Adds such a line for each of these texts.
pub fn push_each(block: &mut Vec<u8>, words: &str, texts: &[&[u8]]) -> Result<(), OutOfMemory>
    ensures { OnOk result (block.new.items
        ≡ block.old.items ++ flat_map (below words.now) (map (λ text. text.now) texts.now)) }
{
    for text in texts {
        push_below(block, words, *text)?;
    }
    Ok(())
}
