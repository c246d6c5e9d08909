//! Kinds of bytes, and what stands between terms and marks.

ghost use Rattle.std.specs.Prelude.{◌≡◌, ℕ, List, ◌==◌, ◌≤◌, length, IsTrue, ◌<◌};
ghost use Rattle.rh_terms.specs.Bytes.{is_white, is_digit, is_atom_byte, is_lower, is_unsupported, past_blank, begins};
ghost use Rattle.rh_terms.specs.Faults.{stuck};

use crate::fault::{Fault, ReadError};

/// Is it a space, a tab, LF, VT, FF or CR?
pub fn is_white_byte(b: u8) -> bool
    ensures { result ≡ is_white b }
{
    b == b' ' || (b'\t' <= b && b <= b'\r')
}

/// Is it a decimal digit?
pub fn is_digit_byte(b: u8) -> bool
    ensures { result ≡ is_digit b }
{
    b'0' <= b && b <= b'9'
}

/// Is it a small letter of ASCII, with which an atom without quotes begins?
pub fn is_lower_byte(b: u8) -> bool
    ensures { result ≡ is_lower b }
{
    b'a' <= b && b <= b'z'
}

// 1 at each letter of ASCII, digit, `_` and `@`. The bytes of an atom are of several of these kinds in no order, so tests one
// after the other would be guessed wrong by the processor again and again.
#[rattlefmt::skip]
static ATOM_BYTES: [u8; 256] = [
    0, 0, 0, 0, 0, 0, 0, 0, 0, 0, 0, 0, 0, 0, 0, 0,
    0, 0, 0, 0, 0, 0, 0, 0, 0, 0, 0, 0, 0, 0, 0, 0,
    0, 0, 0, 0, 0, 0, 0, 0, 0, 0, 0, 0, 0, 0, 0, 0,
    1, 1, 1, 1, 1, 1, 1, 1, 1, 1, 0, 0, 0, 0, 0, 0,
    1, 1, 1, 1, 1, 1, 1, 1, 1, 1, 1, 1, 1, 1, 1, 1,
    1, 1, 1, 1, 1, 1, 1, 1, 1, 1, 1, 0, 0, 0, 0, 1,
    0, 1, 1, 1, 1, 1, 1, 1, 1, 1, 1, 1, 1, 1, 1, 1,
    1, 1, 1, 1, 1, 1, 1, 1, 1, 1, 1, 0, 0, 0, 0, 0,
    0, 0, 0, 0, 0, 0, 0, 0, 0, 0, 0, 0, 0, 0, 0, 0,
    0, 0, 0, 0, 0, 0, 0, 0, 0, 0, 0, 0, 0, 0, 0, 0,
    0, 0, 0, 0, 0, 0, 0, 0, 0, 0, 0, 0, 0, 0, 0, 0,
    0, 0, 0, 0, 0, 0, 0, 0, 0, 0, 0, 0, 0, 0, 0, 0,
    0, 0, 0, 0, 0, 0, 0, 0, 0, 0, 0, 0, 0, 0, 0, 0,
    0, 0, 0, 0, 0, 0, 0, 0, 0, 0, 0, 0, 0, 0, 0, 0,
    0, 0, 0, 0, 0, 0, 0, 0, 0, 0, 0, 0, 0, 0, 0, 0,
    0, 0, 0, 0, 0, 0, 0, 0, 0, 0, 0, 0, 0, 0, 0, 0,
];

/// Is it a letter of ASCII, a digit, `_` or `@`, with which an atom without quotes goes on?
pub fn is_atom_byte(b: u8) -> bool
    ensures { result ≡ is_atom_byte b }
{
    ATOM_BYTES[usize::from(b)] == 1
}

/// Is it `$`, `#`, `<`, `~`, `+` or a byte past ASCII, with which begins what is left out of Erlang?
pub fn is_unsupported_byte(b: u8) -> bool
    ensures { result ≡ is_unsupported b }
{
    b == b'$' || b == b'#' || b == b'<' || b == b'~' || b == b'+' || !b.is_ascii()
}

/// Whether the bytes begin with this one.
pub fn begins_with(bytes: &[u8], b: u8) -> bool
    ensures begins { result ≡ begins (λ x. x == b) bytes.now }
    ensures some { IsTrue result → 0 < length bytes.now }
{
    match bytes {
        [] => false,
        [first, ..] => *first == b,
    }
}

/// The fault at a place where nothing can continue.
pub fn stuck_at(bytes: &[u8]) -> ReadError
    ensures { let errors = stuck bytes.now in result ≡ ReadError.Fault errors }
{
    match bytes {
        [] => ReadError::Fault(Fault::Syntax(0)),
        [b, ..] => {
            if is_unsupported_byte(*b) {
                ReadError::Fault(Fault::Unsupported(bytes.len()))
            } else {
                ReadError::Fault(Fault::Syntax(bytes.len()))
            }
        }
    }
}

/// What stands behind white space and comments.
#[tactic(auto, unfolding(crate::specs::Bytes::past))]
pub fn skip_blank(bytes: &[u8]) -> &[u8]
    ensures behind { result.now ≡ past_blank bytes.now }
    ensures shorter { length result.now ≤ length bytes.now }
{
    let mut rest = bytes;
    let mut in_comment = false;
    'bytes: while let [b, after @ ..] = rest {
        if in_comment {
            in_comment = *b != b'\n';
        } else if *b == b'%' {
            in_comment = true;
        } else if !is_white_byte(*b) {
            return rest;
        }
        rest = after;
    }
    rest
}
