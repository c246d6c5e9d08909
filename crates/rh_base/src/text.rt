//! Texts in UTF-8.

ghost use Rattle.std.specs.Prelude.{◌≡◌, ◌↔◌, IfOk, IsTrue};
ghost use Rattle.std.specs.Str.{IsUtf8};
ghost use Rattle.std.specs.String.{string_bytes};

use crate::memory::OutOfMemory;
use arrayvec::ArrayString;
use std::alloc::{AllocError, Global};
use std::marker::Model;

// Where a text lies: in the value itself if it has at most 16 bytes, which most atoms have, or in a `String`.
#[derive(Debug, Drop)]
enum Letters {
    Short(ArrayString<16>),
    Long(String),
}

/// A text in UTF-8: the name of an atom, or what stands between double quotes.
#[derive(Debug, Drop)]
pub struct Str {
    letters: Letters,
}

/// Contracts see a `Str` as its bytes.
impl Model for Str {
    ghost use Rattle.std.specs.Prelude.{List, ℕ};
    ghost use Rattle.rh_base.specs.Letters.{bytes_of};

    ghost Value = { List ℕ };

    ghost view = { λ s. bytes_of s.letters };
}

impl Str {
    /// The `Str` that holds this text.
    pub fn of(text: String) -> Str
        ensures { result ≡ string_bytes text }
    {
        let letters = Letters::Long(text);
        Str { letters }
    }

    // A copy of this text.
    fn from_str(alloc: Global, text: &str) -> Result<Str, AllocError>
        ensures { IfOk result (λ s. s ≡ text.now) }
    {
        let letters = match ArrayString::from(text) {
            Ok(short) => Letters::Short(short),
            Err(_) => Letters::Long(String::from_str(alloc, text)?),
        };
        Ok(Str { letters })
    }

    /// The text.
    pub fn as_str(&self) -> &str
        ensures { result.now ≡ self.now }
    {
        match &self.letters {
            Letters::Short(short) => short.as_str(),
            Letters::Long(long) => long.as_str(),
        }
    }

    /// An equal text in memory of its own.
    pub fn copy(&self, alloc: Global) -> Result<Str, OutOfMemory>
        ensures { IfOk result (λ s. s ≡ self.now) }
    {
        Ok(Str::from_str(alloc, self.as_str())?)
    }

    /// Are the texts equal?
    pub fn same(&self, other: &Str) -> bool
        ensures { IsTrue result ↔ (self.now ≡ other.now) }
    {
        self.as_str() == other.as_str()
    }
}

/// The text that these bytes are.
pub fn text_of_bytes(alloc: Global, bytes: &[u8]) -> Result<Str, AllocError>
    requires { IsUtf8 bytes.now }
    ensures { IfOk result (λ s. s ≡ bytes.now) }
{
    // SAFETY: each call proves that the bytes are UTF-8, so they aren't tested again.
    let text = unsafe { str::from_utf8_unchecked(bytes) };
    Str::from_str(alloc, text)
}

/// The text that these bytes are, in the memory that they have.
pub fn text_of_vec(bytes: Vec<u8>) -> Str
    requires { IsUtf8 bytes.items }
    ensures { result ≡ bytes.items }
{
    match String::from_utf8(bytes) {
        Ok(text) => Str::of(text),
        Err(_) => unreachable!(),
    }
}
