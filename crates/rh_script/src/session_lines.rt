//! What the lines of a script ask that name their sessions.

ghost use Rattle.std.specs.Prelude.{◌≡◌, IfOk, map};
ghost use Rattle.rh_script.specs.Commands.{words_of};
ghost use Rattle.rh_script.specs.SessionLines.{session_named, asked_by, session_command, session_line_of};

use crate::script::{Line, begins_with, command_of, first_words, text_of};
use rh_base::{OutOfMemory, Same};
use rh_calls::{Call, LAST_SESSION};
use rh_cluster::Cluster;
use std::alloc::Global;

/// A call, and the session that makes it.
#[derive(Clone, Copy, Debug, PartialEq, Eq)]
pub struct Command {
    /// The number of the session, 1 to [`LAST_SESSION`].
    pub session: u8,
    /// The call.
    pub call: Call,
}

impl Same for Command {
    ghost use Rattle.std.specs.Prelude.{◌↔◌, IsTrue};

    fn same(&self, other: &Command) -> bool
        ensures { IsTrue result ↔ (self.now ≡ other.now) }
    {
        *self == *other
    }
}

/// What a line of a script asks that names its session.
#[derive(Clone, Copy, Debug, PartialEq, Eq)]
pub enum SessionLine {
    /// It asks nothing.
    Nothing,
    /// It is a command of a session.
    Asks(Command),
    /// It is no command.
    Bad,
}

// The session that a word names: one digit, from 1 to the last one.
fn session_named(word: &str) -> Option<u8>
    ensures { result ≡ session_named word.now }
{
    match word.as_bytes() {
        [digit] if *digit >= b'1' && *digit <= b'0' + LAST_SESSION => Some(*digit - b'0'),
        _ => None,
    }
}

// A command of a session, where both are there.
fn asked_by(session: Option<u8>, line: Line) -> SessionLine
    ensures { result ≡ asked_by session line }
{
    match (session, line) {
        (Some(session), Line::Asks(call)) => SessionLine::Asks(Command { session, call }),
        _ => SessionLine::Bad,
    }
}

// The command that the words make.
fn session_command(cluster: &Cluster, words: &[&str]) -> SessionLine
    ensures { result ≡ session_command cluster.now (map (λ word. word.now) words.now) }
{
    match words {
        [] => SessionLine::Nothing,
        [word, words @ ..] => asked_by(session_named(word), command_of(cluster, words)),
    }
}

// The command that a line's words make.
fn session_command_in(cluster: &Cluster, line: &str) -> SessionLine
    ensures { result ≡ session_command cluster.now (words_of line.now) }
{
    session_command(cluster, first_words(line).as_slice())
}

/// What a line asks: its first word is the session, one digit 1 to [`LAST_SESSION`], and behind it stands a command. It
/// takes no memory.
#[tactic(auto, unfolding(crate::specs::SessionLines::session_line_of))]
pub fn session_line_of(
    _alloc: Global,
    cluster: &Cluster,
    line: &[u8],
) -> Result<SessionLine, OutOfMemory>
    ensures { IfOk result (λ asked. asked ≡ session_line_of cluster.now line.now) }
{
    // A comment.
    if begins_with(b'#', line) {
        return Ok(SessionLine::Nothing);
    }
    let Some(text) = text_of(line) else {
        return Ok(SessionLine::Bad);
    };
    Ok(session_command_in(cluster, text))
}
