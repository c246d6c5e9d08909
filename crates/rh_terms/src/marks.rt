//! The marks behind a term: a comma, a closing byte or a dot.

ghost use Rattle.std.specs.Prelude.{◌≡◌};
ghost use Rattle.rh_terms.specs.Faults.{ReadsAs};
ghost use Rattle.rh_terms.specs.Grammar.{next_at, dot_at};

use crate::bytes::{begins_with, is_white_byte, skip_blank, stuck_at};
use crate::fault::{Fault, ReadError};

/// Whether another term comes, and the bytes from there on.
#[tactic(auto, unfolding(crate::specs::Grammar::next_at))]
pub fn next_of(close: u8, bytes: &[u8]) -> Result<(bool, &[u8]), ReadError>
    ensures { ReadsAs (λ x. (x.0, x.1.now)) result (next_at close bytes.now) }
{
    if begins_with(bytes, b',') {
        Ok((true, skip_blank(&bytes[1..])))
    } else if begins_with(bytes, close) {
        Ok((false, &bytes[1..]))
    } else if close == b']' && begins_with(bytes, b'|') {
        Err(ReadError::Fault(Fault::Unsupported(bytes.len())))
    } else {
        Err(stuck_at(bytes))
    }
}

/// The bytes behind a dot.
#[tactic(auto, unfolding(crate::specs::Grammar::dot_at))]
pub fn dot_of(bytes: &[u8]) -> Result<&[u8], ReadError>
    ensures { ReadsAs (λ x. x.now) result (dot_at bytes.now) }
{
    match bytes {
        [b'.'] => Ok(&bytes[1..]),
        [b'.', b, ..] => {
            if is_white_byte(*b) || *b == b'%' {
                Ok(&bytes[1..])
            } else {
                Err(stuck_at(&bytes[1..]))
            }
        }
        _ => Err(stuck_at(bytes)),
    }
}
