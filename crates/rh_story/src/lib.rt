//! A script printed again with its answers: what came of each command stands behind it, in comment lines.
//!
//! [`run_story`] is the program. What it writes is a rehearsal again, with the same commands. At its end stands
//! where each distributed application ran. [`tell_story`] does so over any [`Teller`], by whatever rules it answers; `run_story` is
//! that over a simulation by the rules of the manual.
#![tactic(auto)]

mod calls;
mod head;
mod lines;
mod reasons;
mod story;
mod table;
mod teller;
mod ticks;
mod writing;

pub use story::run_story;
pub use teller::Teller;
pub use ticks::push_answer;
pub use writing::tell_story;
