//! The pieces of a JSON text: strings, numbers and arrays, pushed behind the bytes that are there.
//!
//! What a crate writes of them stands in its own definitions, over those of `specs/Json`. [`before_first`] and [`after_first`] cut a
//! line of the plain answers into the parts that become fields.
#![tactic(auto)]

mod pieces;
mod plain;
mod words;

pub use pieces::{close_array, push_array, push_bytes, push_number, push_string, push_text};
pub use words::{after_first, before_first};
