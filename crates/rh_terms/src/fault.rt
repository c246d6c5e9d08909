//! What is wrong with a text, and want of memory.

ghost use Rattle.std.specs.Prelude.{◌≡◌};
ghost use Rattle.rh_terms.specs.declared.fault.ReadError.TheVariants.{Memory};
ghost use Rattle.rh_terms.specs.declared.fault.TermFault.TheVariants as faults;

use rh_base::OutOfMemory;
use std::alloc::{AllocError, AllocFailed};

/// Why a text is no list of terms: its first fault from left to right. Lines count from 1.
#[derive(Clone, Copy, Debug, PartialEq, Eq)]
pub enum TermFault {
    /// The first byte that can't continue the text stands on this line, or the text ends there too early.
    Syntax { line: usize },
    /// On this line stands what Erlang reads and this project doesn't, as a float, a map or a string's
    /// concatenation.
    Unsupported { line: usize },
    /// The text isn't UTF-8. This is answered before any other fault.
    NotUtf8,
    /// More than [`MAX_DEPTH`](crate::MAX_DEPTH) lists and tuples stand inside each other.
    TooDeep,
    /// An integer is below -2^63 or above 2^63 - 1.
    IntRange,
    /// A growth was refused.
    OutOfMemory,
}

impl From<OutOfMemory> for TermFault {
    ghost from_gives = { λ _ fault. fault ≡ faults.OutOfMemory };

    // Want of memory is a fault of its own.
    fn from(_error: OutOfMemory) -> TermFault {
        TermFault::OutOfMemory
    }
}

/// A fault, and how many bytes are left from its place on.
#[derive(Clone, Copy)]
pub enum Fault {
    Syntax(usize),
    Unsupported(usize),
    TooDeep,
    IntRange,
}

/// Why a part of a text wasn't read.
#[derive(Clone, Copy)]
pub enum ReadError {
    Memory,
    Fault(Fault),
}

impl From<AllocError> for ReadError {
    ghost from_gives = { λ _ e. e ≡ Memory };

    // A refused growth is want of memory.
    fn from(_error: AllocError) -> ReadError {
        ReadError::Memory
    }
}

impl<T: Drop> From<AllocFailed<T>> for ReadError {
    ghost from_gives = { λ _ e. e ≡ Memory };

    // So it is where a value is given back.
    fn from(_error: AllocFailed<T>) -> ReadError {
        ReadError::Memory
    }
}
