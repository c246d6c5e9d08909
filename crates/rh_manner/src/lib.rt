//! Runs in a manner of their own: commands are printed, a refused step is a fault, or each line is answered before more is read.
//!
//! [`run_in`] does what `run` of `rh_run` does, in a [`Manner`]: it may print each command before its answer, and may end with a
//! fault of its own where a step was refused. With neither it is `run`, which is a law ([`plain_manner_is_run`]). [`run_dialogue`] does
//! what `run` does, or `run_json` of `rh_json`, as its [`Voice`] says, over one device with both directions, which it asks for more only
//! when all that is due was written and flushed. A run by other rules takes what a manner means from here ([`write_echo`],
//! [`answer_bad_line`], [`end_of`]), and a dialogue by other rules is [`run_dialogue_by`] with a [`Speaker`] of its own.
#![tactic(auto)]

mod dialogue;
mod ear;
mod fault;
mod laws;
mod pair;
mod running;
mod speaker;
mod stage;
mod voice;

pub use dialogue::{run_dialogue, run_dialogue_by};
pub use laws::plain_manner_is_run;
pub use pair::Pair;
pub use rh_asked::Manner;
pub use running::{Turn, answer_bad_line, end_of, run_in, write_echo};
pub use speaker::Speaker;
pub use voice::{Form, Voice};
