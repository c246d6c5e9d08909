//! Reads Erlang terms: what stands in an application's `.app` file, in `sys.config`, and in each file that
//! `file:consult/1` of Erlang's kernel reads.
//!
//! [`read_terms`] reads a whole text: terms, a dot behind each. It reads atoms, with quotes or without,
//! integers of 64 bits, texts between double quotes, lists and tuples, at most [`MAX_DEPTH`] of them inside
//! each other, white space and comments (Erlang Reference Manual, Data Types). The text is UTF-8.
//! All else of Erlang is refused as [`TermFault::Unsupported`]: floats, maps, records, binaries, characters
//! after `$`, integers with a base or with underscores, improper lists, texts that are joined, sigils, other
//! escapes, and characters past ASCII without quotes.
//!
//! Each call that allocates takes the allocator, and answers a refused growth as an error.
#![tactic(auto)]

mod bytes;
mod fault;
mod keep;
mod laws;
mod marks;
mod nest;
mod reading;
mod repeats;
mod shown;
mod skim;
mod tokens;

pub use fault::TermFault;
pub use keep::{Keep, KeepAll};
pub use laws::{bounds_are_never_met, one_reading, stops_at_one_line};
pub use nest::MAX_DEPTH;
pub use reading::{read_kept, read_terms};
