//! Whether a text of 4 bytes or more can stand in a string as it is. Several bytes are looked at in one step, and two looks that overlap
//! cover a short text: a name has mostly 4 to 16 bytes.

ghost use Rattle.std.specs.Prelude.{◌≡◌, ◌+◌, ◌≤◌, length};
ghost use Rattle.std.specs.Bool.{OnTrue};
ghost use Rattle.std.specs.List.{flat_map};
ghost use Rattle.rh_json_text.specs.Json.{escaped};
ghost use Rattle.rh_json_text.specs.Plain.{PlainBetween};

use std::simd::prelude::*;

// Whether the 4 bytes from a place on can stand in a string. What passes does; the other answer says nothing.
#[inline(always)]
fn plain_4(text: &[u8], at: usize) -> bool
    requires { at + 4 ≤ length text.now }
    ensures { OnTrue result (PlainBetween text.now at (at + 4)) }
{
    let bytes = u8x4::from_slice(&text[at..]);
    (bytes.simd_lt(u8x4::splat(32))
        | (bytes.simd_eq(u8x4::splat(b'"')) | bytes.simd_eq(u8x4::splat(b'\\')))).to_bitmask()
        == 0
}

// The same of 8 bytes.
#[inline(always)]
fn plain_8(text: &[u8], at: usize) -> bool
    requires { at + 8 ≤ length text.now }
    ensures { OnTrue result (PlainBetween text.now at (at + 8)) }
{
    let bytes = u8x8::from_slice(&text[at..]);
    (bytes.simd_lt(u8x8::splat(32))
        | (bytes.simd_eq(u8x8::splat(b'"')) | bytes.simd_eq(u8x8::splat(b'\\')))).to_bitmask()
        == 0
}

// The same of 16 bytes.
#[inline(always)]
fn plain_16(text: &[u8], at: usize) -> bool
    requires { at + 16 ≤ length text.now }
    ensures { OnTrue result (PlainBetween text.now at (at + 16)) }
{
    let bytes = u8x16::from_slice(&text[at..]);
    (bytes.simd_lt(u8x16::splat(32))
        | (bytes.simd_eq(u8x16::splat(b'"')) | bytes.simd_eq(u8x16::splat(b'\\')))).to_bitmask()
        == 0
}

// The same of a text of 16 bytes or more.
#[inline(always)]
fn plain_long(text: &[u8]) -> bool
    requires { 16 ≤ length text.now }
    ensures { OnTrue result (PlainBetween text.now 0 (length text.now)) }
{
    let mut at = 0;
    'looks: while text.len() - at > 16 {
        if !plain_16(text, at) {
            return false;
        }
        at += 16;
    }
    plain_16(text, text.len() - 16)
}

// The same of a text of 4 bytes or more.
#[inline(always)]
fn plain_bytes(text: &[u8]) -> bool
    requires { 4 ≤ length text.now }
    ensures { OnTrue result (PlainBetween text.now 0 (length text.now)) }
{
    let len = text.len();
    if len >= 16 {
        plain_long(text)
    } else if len >= 8 {
        plain_8(text, 0) && plain_8(text, len - 8)
    } else {
        plain_4(text, 0) && plain_4(text, len - 4)
    }
}

// Whether such a text can stand in a string as it is. What this passes does; nothing is said of what it doesn't pass.
#[inline(always)]
pub fn is_plain(text: &[u8]) -> bool
    requires { 4 ≤ length text.now }
    ensures { OnTrue result (flat_map escaped text.now ≡ text.now) }
{
    plain_bytes(text)
}
