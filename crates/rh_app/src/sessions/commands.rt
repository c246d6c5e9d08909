//! The commands of a script of sessions.

ghost use Rattle.std.specs.Prelude.{◌≡◌, ◌++◌, length, map, IsTrue, IfOk};
ghost use Rattle.rh_script.specs.Lines.{raw_lines, content};
ghost use Rattle.rh_app.specs.Histories.{session_lines_asked, command_in, fits};
ghost use Rattle.rh_app.specs.Scripts.{IsScriptOf, AreNumbered};

use rh_base::OutOfMemory;
use rh_cluster::Cluster;
use rh_room::Room;
use rh_script::{Command, SessionLine, content, session_line_of, split_line};
use std::alloc::Global;

/// The commands of a script.
#[derive(Drop)]
pub enum Script {
    /// The commands, in the order of their lines.
    Commands(Vec<Command>),
    /// The line of this number, counted from 1, is no command, or one more than a log can hold.
    BadLine(u64),
}

/// The commands of a script, or the number of its first bad line.
pub fn commands_in(alloc: Global, cluster: &Cluster, script: &[u8]) -> Result<Script, OutOfMemory>
    ensures script { IfOk result
        (IsScriptOf (session_lines_asked cluster.now (map content (raw_lines script.now)))) }
    ensures sessions { IfOk result AreNumbered }
{
    let mut commands = Vec::new(alloc);
    let mut rest = script;
    let mut number: u64 = 1;
    'lines: while !rest.is_empty() {
        let (line, after) = split_line(rest);
        let asked = session_line_of(alloc, cluster, content(line))?;
        if !take_line(&mut commands, asked)? {
            return Ok(Script::BadLine(number));
        }
        rest = after;
        number += 1;
    }
    Ok(Script::Commands(commands))
}

// Adds the command of a line, if it is one. The answer is false, and nothing is added, where the line doesn't fit.
fn take_line(commands: &mut Vec<Command>, asked: SessionLine) -> Result<bool, OutOfMemory>
    ensures fits { IfOk result (λ taken. taken ≡ fits (length commands.old.items) asked) }
    ensures taken { IfOk result
        (λ taken. IsTrue taken → commands.new.items ≡ commands.old.items ++ command_in asked) }
{
    match asked {
        SessionLine::Nothing => Ok(true),
        SessionLine::Bad => Ok(false),
        SessionLine::Asks(command) => {
            if commands.len() >= Room::LOG_LIMIT {
                return Ok(false);
            }
            commands.push(command)?;
            Ok(true)
        }
    }
}
