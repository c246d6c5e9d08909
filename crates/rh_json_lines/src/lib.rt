//! What programs read: the lines of JSON that tell of a cluster, of a command and its answer, and of a plan and what came of it.
//!
//! Each is the whole line, with its end. What its fields say is what the plain answers of `rh_script` say: their words, the report's
//! parts, and each notice with its time. [`fired_by`] gives the timers of a tick, whose notices are told with their times, and
//! [`push_bare_report`] tells a state that stands on no trail. Lines of other rules are made of the same parts: [`push_command`],
//! [`push_ok`], [`push_place`], [`push_node`], [`push_app`], [`push_pair`] and [`push_start`].
#![tactic(auto)]

mod answers;
mod clusters;
mod notices;
mod outcomes;
mod reports;
mod standings;
mod starts;
mod states;

pub use answers::{bad_line, push_command, push_ok, reply_line, seen_line};
pub use clusters::{cluster_line, fault_line, push_app, push_node};
pub use notices::{fired_by, push_pair};
pub use outcomes::{outcome_line, sweep_fault_line};
pub use reports::{push_bare_report, push_place};
pub use starts::{push_app_at, push_node_at, push_start};
