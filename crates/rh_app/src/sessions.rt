//! The program `sessions`: several sessions share one cluster, each in a thread of its own.

ghost use Rattle.std.specs.Prelude.{⊤, List, ◌≡◌, ◌++◌, false, map, All, OnOk, IfOk, IfErr, None};
ghost use Rattle.std.specs.List.{flat_map};
ghost use Rattle.std.specs.String.{string_bytes};
ghost use Rattle.rh_state.specs.Stored.{read};
ghost use Rattle.rh_trail.specs.SimView.{state_of};
ghost use Rattle.rh_trail.specs.Lone.{opened};
ghost use Rattle.rh_room.specs.Legal.{IsSession, session_limit};
ghost use Rattle.rh_script.specs.Lines.{raw_lines, content};
ghost use Rattle.rh_app.specs.Histories.{session_lines_asked, commands_of, bad_session_line, IsHistory, history_text, last_state};
ghost use Rattle.rh_run.specs.Programs.{ProgramGives};
ghost use Rattle.rh_app.specs.Sessions.{ScriptMayGive, MayGive, AskHistory, WroteOne};

mod commands;
mod history;
mod threads;

use crate::fault::SessionsFault;
use crate::sessions::commands::{Script, commands_in};
use crate::sessions::history::write_history;
use crate::sessions::threads::history_of;
use rh_cluster::{Cluster, read_cluster};
use rh_devices::{Sink, Source, Watched, WriteFault, read_input};
use rh_rules::Pick;
use rh_run::{RunFault, Told, answer_bad, ended, write_fault};
use rh_script::{Command, cut};
use std::alloc::Global;
use std::sync::Wait;
use std::thread::Threads;

/// Reads all of the input, a cluster file, a line `===` and a script whose lines name their sessions, has each session make
/// its commands in a thread of its own, and then writes the log of all commands with their answers, and the last state.
///
/// The log is a history that a single caller could have had, in which each session's commands stand, all and in their
/// order. Which one it is, the threads decide. The input has at most 16,777,216 bytes. Neither device is flushed.
///
/// # Errors
/// `Cluster` and `BadLine` (a line that is no command, or the 65,536th command) are told alone. `Read` comes where the
/// reader has failed or the input is too long: nothing was written. `Write` comes where the writer has failed, and
/// `OutOfMemory` where a growth was refused: a front of the text was written. `Room`: nothing was written.
pub fn run_sessions<T: Threads + Wait + Sync, S: Source, K: Sink>(
    rt: &T,
    alloc: Global,
    reader: &mut Watched<S>,
    writer: &mut Watched<K>,
    pick: Pick,
) -> Result<(), RunFault>
    requires reader { reader.old.failed ≡ false }
    requires writer { writer.old.failed ≡ false }
    ensures { ProgramGives S.gives S.fails K.takes K.fails
        (MayGive pick) AskHistory result reader.old reader.new writer.old writer.new }
{
    let input = read_input(alloc, reader)?;
    let told = share_input(rt, alloc, input.as_slice(), writer, pick)?;
    ended(told)
}

// Writes a history of the commands of an input.
#[tactic(auto, unfolding(crate::specs::Sessions::MayGive, crate::specs::Sessions::AskHistory))]
fn share_input<T: Threads + Wait + Sync, K: Sink>(
    rt: &T,
    alloc: Global,
    input: &[u8],
    writer: &mut Watched<K>,
    pick: Pick,
) -> Result<Option<Told>, SessionsFault>
    requires { writer.old.failed ≡ false }
    ensures { WroteOne K.takes K.fails (MayGive pick input.now)
        (AskHistory input.now) result writer.old writer.new }
{
    let (text, script) = cut(input);
    match read_cluster(alloc, text) {
        Err(fault) => {
            if fault.is_memory() {
                return Err(SessionsFault::Write(WriteFault::OutOfMemory));
            }
            write_fault(alloc, &fault, writer)?;
            Ok(Some(Told::Cluster(fault)))
        }
        Ok(cluster) => share_script(rt, alloc, &cluster, script, writer, pick),
    }
}

// Writes a history of the commands of a script.
fn share_script<T: Threads + Wait + Sync, K: Sink>(
    rt: &T,
    alloc: Global,
    cluster: &Cluster,
    script: &[u8],
    writer: &mut Watched<K>,
    pick: Pick,
) -> Result<Option<Told>, SessionsFault>
    requires { writer.old.failed ≡ false }
    ensures { WroteOne K.takes K.fails (ScriptMayGive cluster.now pick (commands_of
        (session_lines_asked cluster.now (map content (raw_lines script.now)))) (bad_session_line 1
        0 (session_lines_asked cluster.now (map content (raw_lines script.now)))))
        (bad_session_line 1 0 (session_lines_asked cluster.now (map content (raw_lines script.now)))
        ≡ None) result writer.old writer.new }
{
    match commands_in(alloc, cluster, script)? {
        Script::BadLine(number) => {
            answer_bad(alloc, number, writer)?;
            Ok(Some(Told::BadLine(number)))
        }
        Script::Commands(commands) => {
            share_commands(rt, alloc, cluster, commands.as_slice(), writer, pick)
        }
    }
}

// Writes a history of commands.
fn share_commands<T: Threads + Wait + Sync, K: Sink>(
    rt: &T,
    alloc: Global,
    cluster: &Cluster,
    commands: &[Command],
    writer: &mut Watched<K>,
    pick: Pick,
) -> Result<Option<Told>, SessionsFault>
    requires writer { writer.old.failed ≡ false }
    requires sessions { All (λ c. IsSession session_limit c.session) commands.now }
    ensures { WroteOne K.takes K.fails (ScriptMayGive cluster.now pick commands.now None) ⊤
        result writer.old writer.new }
{
    let closed = history_of(rt, alloc, cluster, commands, pick)?;
    write_history(alloc, cluster, &closed, writer)?;
    Ok(None)
}
