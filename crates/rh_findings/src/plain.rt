//! Bytes of a term that change nothing.

ghost use Rattle.std.specs.Prelude.{◌≡◌, ◌+◌, ◌≤◌, ◌<◌, ◌^◌, length, take, drop, false};
ghost use Rattle.std.specs.List.{list_any};
ghost use Rattle.rh_findings.specs.Scan.{is_marked};

use std::simd::prelude::*;

// How many bytes are compared at once.
const BLOCK: usize = 32;

// Is a byte a mark: does it, within a term, change what stands behind it or the line?
fn is_marked(byte: u8) -> bool
    ensures { result ≡ is_marked byte }
{
    (byte == b'.') | (byte == b'%') | (byte == b'"') | (byte == b'\'') | (byte == b'\n')
}

// The marks (bytes that, within a term, change what stands behind them or the line), in a table that is read at a byte's low four bits.
// It gives the byte itself where that is a mark, and another byte where it is none: a mark with the same low bits, or a byte with other
// low bits. The second half repeats the first.
const MARKS: [u8; 32] = [
    1, 0, b'"', 0, 0, b'%', 0, b'\'', 0, 0, b'\n', 0, 0, 0, b'.', 0, 1, 0, b'"', 0, 0, b'%', 0,
    b'\'', 0, 0, b'\n', 0, 0, 0, b'.', 0,
];

// How many of the 32 bytes from a place on stand before the first mark: all 32 where none is a mark. `MARKS` is read at the low four bits
// of each byte, and a bit is set where that gives the byte itself, so where the byte is a mark.
#[inline(always)]
fn plain_of_block(bytes: &[u8], at: usize) -> usize
    requires { at + 32 ≤ length bytes.now }
    ensures within { result ≤ 32 }
    ensures plain { list_any is_marked (take result (drop at bytes.now)) ≡ false }
{
    let block = u8x32::from_slice(&bytes[at..]);
    let alike = u8x32::from_array(MARKS).swizzle_dyn_within::<16>(block & u8x32::splat(15));
    let marks = alike.simd_eq(block).to_bitmask();
    if marks == 0 {
        BLOCK
    } else {
        marks.trailing_zeros() as usize
    }
}

// How many bytes stand before the first for which `is_marked` is true.
fn before_marked(bytes: &[u8]) -> usize
    ensures within { result ≤ length bytes.now }
    ensures plain { list_any is_marked (take result bytes.now) ≡ false }
{
    for at in 0..bytes.len() {
        if is_marked(bytes[at]) {
            return at;
        }
    }
    bytes.len()
}

// How many bytes stand before the first for which `is_marked` is true, as far as whole blocks of `BLOCK` bytes reach.
#[tactic(auto, using(crate::proofs::Passed::plain_more))]
fn plain_blocks(bytes: &[u8]) -> usize
    ensures within { result ≤ length bytes.now }
    ensures plain { list_any is_marked (take result bytes.now) ≡ false }
{
    let mut len = 0;
    'front: while bytes.len() - len >= BLOCK {
        let plain = plain_of_block(bytes, len);
        len += plain;
        if plain < BLOCK {
            return len;
        }
    }
    len
}

/// How many bytes stand before the first one that, in a term, changes what stands behind it, or the line.
#[tactic(auto, using(crate::proofs::Passed::plain_more))]
pub fn plain_len(bytes: &[u8]) -> usize
    ensures within { result ≤ length bytes.now }
    ensures plain { list_any is_marked (take result bytes.now) ≡ false }
{
    let len = plain_blocks(bytes);
    let (_, rest) = bytes.split_at(len);
    len + before_marked(rest)
}
