//! What programs read: the programs of `rh_run`, which write JSON in place of lines.
//!
//! [`run_json`] answers the commands of a script, a line for each, [`check_json`] reads the cluster file alone, and [`sweep_json_by`]
//! has a crew try plans. What they ask of their input, what a command is answered, what comes of a plan and how they end is as it is
//! there; each field has the text that they write. Laws say that the lines are those of the same commands
//! ([`commands_are_answered`]), for the base of a sweep too ([`base_is_answered`]), and tell the same notices
//! ([`notices_are_replied`]).
//!
//! What a sweep writes before its plans is what any script has that begins with a base: [`write_check`], [`write_base`] and
//! [`write_bad`] write that for another program, and [`make_calls`] leads to where the base ends. Who answers a script line by line
//! writes the same pieces by [`write_cluster`] or [`write_fault`], [`answer_call`] and [`write_bad`].
#![tactic(auto)]

mod base;
mod checking;
mod laws;
mod parts;
mod running;
mod sweep_laws;
mod sweeping;

pub use checking::{check_json, write_cluster, write_fault};
pub use laws::{commands_are_answered, notices_are_replied};
pub use parts::write_check;
pub use running::{answer_call, run_json, write_bad};
pub use sweep_laws::base_is_answered;
pub use sweeping::{make_calls, sweep_json_by, write_base};
