//! What a caller asks of a simulation, and what it is answered, with the report of a state.
//!
//! A [`Call`] is a step, undo, redo, or a look at the state; a [`Reply`] is its answer, with the [`Notices`] of a step or the report.
//! What is long in a reply lies in memory once for all who keep it ([`Replies`]).
//!
//! [`report`] is the state as text; [`node_word`], [`app_word`], [`dep_word`], [`restart_word`], [`push_decimal`], [`push_kind`] and
//! [`push_standing_line`] are parts of it that other texts have too, and [`forbids_any`] tells which nodes have nothing to tell of
//! what may not run.
#![tactic(auto)]

mod call;
mod notices;
mod replies;
mod text;

pub use call::{Bytes, Call, LAST_SESSION, Reply};
pub use notices::Notices;
pub use replies::Replies;
pub use text::{
    NO_NAME, app_word, dep_word, forbids_any, node_word, push_decimal, push_kind,
    push_standing_line, report, restart_word,
};
