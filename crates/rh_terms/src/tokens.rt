//! Atoms, texts and integers: the terms that hold no others.

ghost use Rattle.std.specs.Prelude.{◌≡◌, ℕ, List, ◌==◌, ◌≤◌, ◌<◌, ◌^◌, ◌-◌, ◌+◌, ◌*◌, pos, length, IfOk, IfSome, IfNone, take, drop, true, false};
ghost use Rattle.std.specs.List.{prefix_len};
ghost use Rattle.std.specs.Str.{IsUtf8};
ghost use Rattle.rh_terms.specs.Bytes.{is_digit, is_atom_byte};
ghost use Rattle.rh_terms.specs.Faults.{ReadsAs};
ghost use Rattle.rh_terms.specs.Tokens.{escape, is_plain, quoted, number, digits_at, integer_at, name_at};
ghost use Rattle.rh_terms.specs.Tokens.{quoted_atom_at, text_at, is_other_number, signed, fits, IsAtMost};
ghost use Rattle.rh_terms.specs.Grammar.{word_at};
ghost use Rattle.rh_terms.specs.Kept.{behind};
ghost use Rattle.rh_base.specs.Tree.{tree_of};

use crate::bytes::{begins_with, is_atom_byte, is_digit_byte, is_lower_byte, skip_blank, stuck_at};
use crate::fault::{Fault, ReadError};
use rh_base::{Str, Term, text_of_bytes, text_of_vec};
use std::alloc::Global;

// What a `\` and this byte stand for, where they are an escape that is read.
fn escaped_byte(b: u8) -> Option<u8>
    ensures { result ≡ escape b }
{
    match b {
        b'\\' | b'\'' | b'"' => Some(b),
        b'n' => Some(b'\n'),
        b't' => Some(b'\t'),
        b'r' => Some(b'\r'),
        b's' => Some(b' '),
        _ => None,
    }
}

// What the bytes up to the closing quote stand for, and what is behind the quote.
#[tactic(auto, unfolding(crate::specs::Tokens::quoted))]
fn quoted_of(alloc: Global, quote: u8, bytes: &[u8]) -> Result<(Vec<u8>, &[u8]), ReadError>
    ensures { ReadsAs (λ x. (x.0.items, x.1.now)) result (quoted false quote bytes.now) }
{
    let mut content = Vec::new(alloc);
    let mut rest = bytes;
    'bytes: while let [b, after @ ..] = rest {
        if *b == quote {
            return Ok((content, after));
        }
        if *b == b'\\' {
            match after {
                [] => return Err(ReadError::Fault(Fault::Syntax(0))),
                [c, behind @ ..] => match escaped_byte(*c) {
                    None => return Err(ReadError::Fault(Fault::Unsupported(rest.len()))),
                    Some(x) => {
                        content.push(x)?;
                        rest = behind;
                    }
                },
            }
        } else {
            content.push(*b)?;
            rest = after;
        }
    }
    Err(ReadError::Fault(Fault::Syntax(0)))
}

// How many bytes stand for themselves: those before the first quote or `\\`.
fn plain_len(quote: u8, bytes: &[u8]) -> usize
    ensures { result ≡ prefix_len (is_plain quote) bytes.now }
{
    let mut rest = bytes;
    let mut count = 0;
    'bytes: while let [b, after @ ..] = rest {
        if *b == quote || *b == b'\\' {
            return count;
        }
        count += 1;
        rest = after;
    }
    count
}

// What `quoted_of` reads, copied in one step where it has no escapes.
fn quoted_text_of(alloc: Global, quote: u8, bytes: &[u8]) -> Result<(Str, &[u8]), ReadError>
    requires quote { quote < 128 }
    requires text { IsUtf8 bytes.now }
    ensures { ReadsAs (λ x. (x.0, x.1.now)) result (quoted false quote bytes.now) }
{
    let count = plain_len(quote, bytes);
    let (plain, rest) = bytes.split_at(count);
    if begins_with(rest, quote) {
        return Ok((text_of_bytes(alloc, plain)?, &rest[1..]));
    }
    let (content, after) = quoted_of(alloc, quote, bytes)?;
    Ok((text_of_vec(content), after))
}

// How many bytes an atom without quotes goes on for.
fn name_len(bytes: &[u8]) -> usize
    ensures { result ≡ prefix_len is_atom_byte bytes.now }
{
    let mut rest = bytes;
    let mut count = 0;
    'bytes: while let [b, after @ ..] = rest {
        if !is_atom_byte(*b) {
            return count;
        }
        count += 1;
        rest = after;
    }
    count
}

// How many digits stand at the front.
fn digits_len(bytes: &[u8]) -> usize
    ensures { result ≡ prefix_len is_digit bytes.now }
{
    let mut rest = bytes;
    let mut count = 0;
    'bytes: while let [b, after @ ..] = rest {
        if !is_digit_byte(*b) {
            return count;
        }
        count += 1;
        rest = after;
    }
    count
}

// The number with one digit more, where it is at most 2 ^ 63.
fn with_digit(so_far: Option<u64>, d: u8) -> Option<u64>
    ensures { (n : ℕ) → IsAtMost so_far n → IsAtMost result (n * 10 + (d - 48)) }
{
    let value = so_far?;
    let next = value as u128 * 10 + d.saturating_sub(b'0') as u128;
    if next <= 1 << 63 {
        Some(next as u64)
    } else {
        None
    }
}

// The number that digits spell, where it is at most 2 ^ 63.
fn number_of(digits: &[u8]) -> Option<u64>
    ensures { IsAtMost result (number digits.now) }
{
    let mut value = Some(0u64);
    for d in digits {
        value = with_digit(value, *d);
    }
    value
}

// Does what stands behind digits make them a number that is left out: `#`, or `_` or `.` and a digit?
fn begins_other_number(bytes: &[u8]) -> bool
    ensures { result ≡ is_other_number bytes.now }
{
    match bytes {
        [b'#', ..] => true,
        [b'_' | b'.', d, ..] => is_digit_byte(*d),
        _ => false,
    }
}

// The number with its sign, where it fits.
fn signed_of(minus: bool, n: u64) -> Option<i64>
    requires { n ≤ 2 ^ 63 }
    ensures some { IfSome result (λ z. (z ≡ signed minus n) × (fits minus n ≡ true)) }
    ensures none { IfNone result (fits minus n ≡ false) }
{
    if minus {
        if n == 1 << 63 {
            Some(i64::MIN)
        } else {
            Some(-(n as i64))
        }
    } else if n < 1 << 63 {
        Some(n as i64)
    } else {
        None
    }
}

// An integer whose sign was read, and what is behind it.
#[tactic(auto, unfolding(crate::specs::Tokens::digits_at))]
fn digits_of(minus: bool, bytes: &[u8]) -> Result<(Term, &[u8]), ReadError>
    ensures { ReadsAs (λ x. (tree_of x.0, x.1.now)) result (digits_at minus bytes.now) }
{
    let count = digits_len(bytes);
    let (digits, rest) = bytes.split_at(count);
    if count == 0 {
        return Err(stuck_at(bytes));
    }
    match number_of(digits) {
        None => Err(ReadError::Fault(Fault::IntRange)),
        Some(n) => match signed_of(minus, n) {
            None => Err(ReadError::Fault(Fault::IntRange)),
            Some(z) => {
                if begins_other_number(rest) {
                    Err(ReadError::Fault(Fault::Unsupported(rest.len())))
                } else {
                    Ok((Term::Int(z), rest))
                }
            }
        },
    }
}

// An integer, and what is behind it.
#[tactic(auto, unfolding(crate::specs::Tokens::integer_at))]
fn integer_of(bytes: &[u8]) -> Result<(Term, &[u8]), ReadError>
    ensures { ReadsAs (λ x. (tree_of x.0, x.1.now)) result (integer_at bytes.now) }
{
    match bytes {
        [b'-', after @ ..] => digits_of(true, after),
        _ => digits_of(false, bytes),
    }
}

// An atom without quotes, and what is behind it.
#[tactic(auto, unfolding(crate::specs::Tokens::name_at))]
fn name_of(alloc: Global, bytes: &[u8]) -> Result<(Term, &[u8]), ReadError>
    ensures { ReadsAs (λ x. (tree_of x.0, x.1.now)) result (name_at bytes.now) }
{
    let count = name_len(bytes);
    let (name, rest) = bytes.split_at(count);
    Ok((Term::Atom(text_of_bytes(alloc, name)?), rest))
}

// An atom in quotes, of which the opening one was read, and what is behind it.
#[tactic(auto, unfolding(crate::specs::Tokens::quoted_atom_at))]
fn quoted_atom_of(alloc: Global, bytes: &[u8]) -> Result<(Term, &[u8]), ReadError>
    requires { IsUtf8 bytes.now }
    ensures { ReadsAs (λ x. (tree_of x.0, x.1.now)) result (quoted_atom_at bytes.now) }
{
    let (name, rest) = quoted_text_of(alloc, b'\'', bytes)?;
    Ok((Term::Atom(name), rest))
}

// A text, of which the opening quote was read, and what is behind it.
#[tactic(auto, unfolding(crate::specs::Tokens::text_at))]
fn text_of(alloc: Global, bytes: &[u8]) -> Result<(Term, &[u8]), ReadError>
    requires { IsUtf8 bytes.now }
    ensures { ReadsAs (λ x. (tree_of x.0, x.1.now)) result (text_at bytes.now) }
{
    let (text, rest) = quoted_text_of(alloc, b'"', bytes)?;
    let behind = skip_blank(rest);
    if let [b'"', ..] = behind {
        return Err(ReadError::Fault(Fault::Unsupported(behind.len())));
    }
    Ok((Term::Text(text), rest))
}

/// An atom, a text or an integer, and what is behind it.
#[tactic(auto, unfolding(crate::specs::Grammar::word_at))]
#[inline(always)]
pub fn word_of(alloc: Global, bytes: &[u8]) -> Result<(Term, &[u8]), ReadError>
    requires { IsUtf8 bytes.now }
    ensures { ReadsAs (λ x. (tree_of x.0, x.1.now)) result (word_at bytes.now) }
{
    match bytes {
        [] => Err(ReadError::Fault(Fault::Syntax(0))),
        [b, after @ ..] => {
            let b = *b;
            if is_lower_byte(b) {
                name_of(alloc, bytes)
            } else if b == b'\'' {
                quoted_atom_of(alloc, after)
            } else if b == b'"' {
                text_of(alloc, after)
            } else if b == b'-' || is_digit_byte(b) {
                integer_of(bytes)
            } else {
                Err(stuck_at(bytes))
            }
        }
    }
}

// What is behind the closing quote.
#[tactic(auto, unfolding(crate::specs::Tokens::quoted))]
fn behind_quoted(quote: u8, bytes: &[u8]) -> Result<&[u8], ReadError>
    ensures { ReadsAs (λ rest. rest.now) result (behind (quoted false quote bytes.now)) }
{
    let mut rest = bytes;
    'bytes: while let [b, after @ ..] = rest {
        if *b == quote {
            return Ok(after);
        }
        if *b == b'\\' {
            match after {
                [] => return Err(ReadError::Fault(Fault::Syntax(0))),
                [c, others @ ..] => match escaped_byte(*c) {
                    None => return Err(ReadError::Fault(Fault::Unsupported(rest.len()))),
                    Some(_) => rest = others,
                },
            }
        } else {
            rest = after;
        }
    }
    Err(ReadError::Fault(Fault::Syntax(0)))
}

// What is behind an atom in quotes, of which the opening one was read.
#[tactic(auto, unfolding(crate::specs::Tokens::quoted_atom_at))]
fn behind_quoted_atom(bytes: &[u8]) -> Result<&[u8], ReadError>
    ensures { ReadsAs (λ rest. rest.now) result (behind (quoted_atom_at bytes.now)) }
{
    behind_quoted(b'\'', bytes)
}

// What is behind a text, of which the opening quote was read.
#[tactic(auto, unfolding(crate::specs::Tokens::text_at))]
fn behind_text(bytes: &[u8]) -> Result<&[u8], ReadError>
    ensures { ReadsAs (λ rest. rest.now) result (behind (text_at bytes.now)) }
{
    let rest = behind_quoted(b'"', bytes)?;
    let after = skip_blank(rest);
    if let [b'"', ..] = after {
        return Err(ReadError::Fault(Fault::Unsupported(after.len())));
    }
    Ok(rest)
}

// What is behind an atom without quotes.
#[tactic(auto, unfolding(crate::specs::Tokens::name_at))]
fn behind_name(bytes: &[u8]) -> Result<&[u8], ReadError>
    ensures { ReadsAs (λ rest. rest.now) result (behind (name_at bytes.now)) }
{
    let (_, rest) = bytes.split_at(name_len(bytes));
    Ok(rest)
}

// What is behind an integer.
fn behind_integer(bytes: &[u8]) -> Result<&[u8], ReadError>
    ensures { ReadsAs (λ rest. rest.now) result (behind (integer_at bytes.now)) }
{
    let (_, rest) = integer_of(bytes)?;
    Ok(rest)
}

/// What is behind an atom, a text or an integer.
#[tactic(auto, unfolding(crate::specs::Grammar::word_at))]
pub fn behind_word(bytes: &[u8]) -> Result<&[u8], ReadError>
    ensures { ReadsAs (λ rest. rest.now) result (behind (word_at bytes.now)) }
{
    match bytes {
        [] => Err(ReadError::Fault(Fault::Syntax(0))),
        [b, after @ ..] => {
            let b = *b;
            if is_lower_byte(b) {
                behind_name(bytes)
            } else if b == b'\'' {
                behind_quoted_atom(after)
            } else if b == b'"' {
                behind_text(after)
            } else if b == b'-' || is_digit_byte(b) {
                behind_integer(bytes)
            } else {
                Err(stuck_at(bytes))
            }
        }
    }
}
