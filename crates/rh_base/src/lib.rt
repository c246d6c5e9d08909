//! What the other crates stand on: want of memory, texts and terms of Erlang, and what is said of lists.
//!
//! A term is seen as a tree. Each call that allocates takes the allocator, and answers a refused growth as an error.
#![tactic(auto)]

mod alike;
mod held;
mod memory;
mod term;
mod text;

pub use alike::{Duplicate, Same, are_same, copies_of};
pub use memory::OutOfMemory;
pub use term::{Term, Terms};
pub use text::{Str, text_of_bytes, text_of_vec};
