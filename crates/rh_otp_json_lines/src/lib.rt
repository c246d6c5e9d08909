//! What programs read of live nodes of OTP 25.2.3: the lines of JSON that tell of a command and its answer.
//!
//! [`reply_line`] is the line of an answer of `rh_otp_sim`, with the report of `rh_otp_report` where the state is to be told. Its fields
//! are those of the manual's rules where the same is meant (`rh_json_lines`); what only live nodes do has fields of its own, with the
//! words of `rh_otp_text`. An application, a node and an error of Erlang each stand in a field of their own. [`push_notices`],
//! [`push_report`] and [`push_node_report`] are parts of the line; [`push_verdict`], [`push_block`], [`push_boot`], [`push_apps_at`] and
//! [`push_open_at`] add single fields, for who tells them elsewhere.
#![tactic(auto)]

mod calls;
mod hangs;
mod nodes;
mod notices;
mod replies;
mod reports;
mod rows;

pub use calls::push_verdict;
pub use hangs::{push_block, push_boot};
pub use nodes::push_node_report;
pub use notices::push_notices;
pub use replies::reply_line;
pub use reports::{push_apps_at, push_open_at, push_report};
