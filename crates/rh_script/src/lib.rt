//! The texts of rehearsals: the lines of a script, what they ask, and what is answered.
//!
//! [`cut`] parts an input at its line `===`, [`line_of`] says what a line of a script asks, and [`session_line_of`] what one
//! asks that names its session; [`sweep_in`] reads the base and the plans of a sweep. [`answer_text`] is the text of a reply,
//! [`command_text`] that of a call, and [`outcome_text`] that of a plan. A law says that the text of a call asks for it again
//! ([`words_ask_again`]). [`said`] is the command that asks a call, with what is given to it, and [`call_of`] the way back.
//!
//! [`VERBS`] are the commands, each a [`Verb`] of the table in `forms`, with its word and the kinds of its [`Argument`]s: who reads, writes
//! or tells of commands goes by it.
//!
//! A rehearsal writes comment lines into scripts and reads them there: answers, times, reasons, tables, and what is wanted in a
//! report. [`note_of`] says of which kind such a line is, and what stands behind its mark; [`is_told`] says whether a story writes it.
#![tactic(auto)]

mod answers;
mod command_words;
mod forms;
mod laws;
mod lines;
mod note_laws;
mod notes;
mod script;
mod session_lines;
mod sweep_answers;
mod sweep_lines;

pub use answers::{answer_text, bad_text, fault_text, push_notice, push_reason};
pub use command_words::command_text;
pub use forms::{Argument, Given, VERBS, Verb, call_of, said, verb_named};
pub use laws::words_ask_again;
pub use lines::{content, cut, split_line};
pub use note_laws::notes_are_marked;
pub use notes::{Kind, is_told, mark, note_of};
pub use script::{Line, line_of, milliseconds, text_of};
pub use session_lines::{Command, SessionLine, session_line_of};
pub use sweep_answers::{outcome_text, sweep_fault_text};
pub use sweep_lines::{SweepScript, sweep_in};
