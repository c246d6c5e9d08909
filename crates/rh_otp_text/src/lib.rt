//! What a rehearsal on live nodes prints: the answers to its commands, and the state.
//!
//! [`reply_text`] is the text of an answer of `rh_otp_sim`, with the report of `rh_otp_report` where the state is to be told. The words
//! are those of the manual's rules where the same is meant (`rh_calls`, `rh_script`); what only live nodes do is told in the words of a
//! rehearsal on real ones: a call that hasn't returned, a start that has failed, an error as Erlang writes it. [`push_answer`],
//! [`push_block`], [`push_apps`] and [`push_calls`] are parts of these texts, for who tells them elsewhere.
#![tactic(auto)]

mod asks;
mod faults;
mod lines;
mod nodes;
mod replies;
mod report;

pub use asks::push_ask;
pub use faults::push_fault;
pub use lines::{kind_of, push_line, push_verdict};
pub use nodes::{push_block, push_node_lines};
pub use replies::{push_answer, reply_text};
pub use report::{push_apps, push_calls, report_text};
