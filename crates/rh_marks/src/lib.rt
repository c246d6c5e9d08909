//! What the programs share that make one call with growths refused, which tests/growths.py does from outside: such a program
//! marks the call's beginning and its end (`marks`), and writes what came of it (`telling`).
#![tactic(auto)]

mod answer;
mod marks;
mod telling;

pub use answer::Answer;
pub use marks::{begin, end};
pub use telling::tell;
