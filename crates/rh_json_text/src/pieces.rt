//! The pieces of a JSON text, each pushed behind a text. Where memory is refused, a front of the piece may stand there already.
//! An array's values are pushed first, each behind a comma, and [`close_array`] makes the array of them in place.

ghost use Rattle.std.specs.Prelude.{◌≡◌, ◌<◌, ◌≤◌, ◌++◌, length, take, drop, codes, IsTrue, OnOk};
ghost use Rattle.std.specs.List.{flat_map};
ghost use Rattle.std.specs.Fmt.{decimal};
ghost use Rattle.rh_json_text.specs.Json.{hex_digit, escaped, json_string, bracketed};

use crate::plain::is_plain;
use itoa::Buffer;
use rh_base::OutOfMemory;
use std::alloc::Global;

/// Adds bytes as they are.
pub fn push_bytes(out: &mut Vec<u8>, bytes: &[u8]) -> Result<(), OutOfMemory>
    ensures { OnOk result (out.new.items ≡ out.old.items ++ bytes.now) }
{
    out.extend_from_slice(bytes)?;
    Ok(())
}

/// Adds a text as it is.
pub fn push_text(out: &mut Vec<u8>, text: &str) -> Result<(), OutOfMemory>
    ensures { OnOk result (out.new.items ≡ out.old.items ++ text.now) }
{
    push_bytes(out, text.as_bytes())
}

/// Adds a number, in decimal. Its digits stand on the stack first, and `alloc` is asked for nothing.
pub fn push_number(alloc: Global, out: &mut Vec<u8>, number: u128) -> Result<(), OutOfMemory>
    ensures { OnOk result (out.new.items ≡ out.old.items ++ decimal number) }
{
    let mut buffer = Buffer::new();
    push_text(out, buffer.format(number))
}

// The digit of a number below 16.
fn hex_digit(digit: u8) -> u8
    requires { digit < 16 }
    ensures { result ≡ hex_digit digit }
{
    if digit < 10 {
        b'0' + digit
    } else {
        b'a' - 10 + digit
    }
}

// Adds a byte of a string.
#[tactic(auto, unfolding(crate::specs::Json::escaped))]
fn push_escaped(out: &mut Vec<u8>, byte: u8) -> Result<(), OutOfMemory>
    ensures { OnOk result (out.new.items ≡ out.old.items ++ escaped byte) }
{
    if byte < 32 {
        push_text(out, "\\u00")?;
        return push_bytes(out, &[hex_digit(byte / 16), hex_digit(byte % 16)]);
    }
    if byte == b'"' || byte == b'\\' {
        out.push(b'\\')?;
    }
    out.push(byte)?;
    Ok(())
}

// Adds the bytes of a string, one by one.
fn push_each_escaped(out: &mut Vec<u8>, text: &[u8]) -> Result<(), OutOfMemory>
    ensures { OnOk result (out.new.items ≡ out.old.items ++ flat_map escaped text.now) }
{
    for byte in text {
        push_escaped(out, *byte)?;
    }
    Ok(())
}

// Adds the bytes of a string. Most strings have none that is escaped, and are added as they are. Fewer than 4 bytes are added one by one
// sooner than looked at.
fn push_inside(out: &mut Vec<u8>, text: &[u8]) -> Result<(), OutOfMemory>
    ensures { OnOk result (out.new.items ≡ out.old.items ++ flat_map escaped text.now) }
{
    if text.len() >= 4 && is_plain(text) {
        return push_bytes(out, text);
    }
    push_each_escaped(out, text)
}

/// Adds a string: between quotes, with what JSON asks to be escaped (RFC 8259, section 7). All other bytes stay as they are, so the
/// string is JSON where the text is UTF-8.
#[tactic(auto, unfolding(crate::specs::Json::json_string))]
pub fn push_string(out: &mut Vec<u8>, text: &[u8]) -> Result<(), OutOfMemory>
    ensures { OnOk result (out.new.items ≡ out.old.items ++ json_string text.now) }
{
    push_text(out, "\"")?;
    push_inside(out, text)?;
    push_text(out, "\"")
}

// Opens the array of the values that stand behind the first `start` bytes, each behind a comma: the bracket takes the first comma's place.
#[tactic(auto, using(crate::proofs::Arrays::bracket_for_comma, crate::proofs::Arrays::bracket_behind))]
fn open_array(out: &mut Vec<u8>, start: usize) -> Result<(), OutOfMemory>
    requires { start ≤ length out.old.items }
    ensures { OnOk result (out.new.items
        ≡ take start out.old.items ++ (codes "[" ++ drop 1 (drop start out.old.items))) }
{
    if start < out.len() {
        out[start] = b'[';
        return Ok(());
    }
    push_text(out, "[")
}

/// Makes an array of the values that stand behind the first `start` bytes, each behind a comma, as a loop writes them. Where memory is
/// refused, they may stand there still.
pub fn close_array(out: &mut Vec<u8>, start: usize) -> Result<(), OutOfMemory>
    requires { start ≤ length out.old.items }
    ensures { OnOk result
        (out.new.items ≡ take start out.old.items ++ bracketed (drop start out.old.items)) }
{
    open_array(out, start)?;
    push_text(out, "]")
}

/// Adds an array of values, each of which stands behind a comma, as a loop writes them.
pub fn push_array(out: &mut Vec<u8>, values: &[u8]) -> Result<(), OutOfMemory>
    ensures { OnOk result (out.new.items ≡ out.old.items ++ bracketed values.now) }
{
    push_text(out, "[")?;
    if !values.is_empty() {
        push_bytes(out, &values[1..])?;
    }
    push_text(out, "]")
}
