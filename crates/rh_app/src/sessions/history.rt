//! The text of a history.

ghost use Rattle.std.specs.Prelude.{◌≡◌, ◌++◌, false, IfOk, codes};
ghost use Rattle.std.specs.List.{flat_map};
ghost use Rattle.rh_state.specs.Stored.{read};
ghost use Rattle.rh_calls.specs.Report.{report_text};
ghost use Rattle.rh_trail.specs.SimView.{state_of};
ghost use Rattle.rh_app.specs.Histories.{entry_text, history_text};
ghost use Rattle.rh_run.specs.RunText.{Broke};

use rh_base::OutOfMemory;
use rh_calls::report;
use rh_cluster::Cluster;
use rh_devices::{Sink, Watched, WriteFault, write_text};
use rh_room::{Closed, Entry};
use rh_script::{answer_text, command_text};
use rh_state::State;
use std::alloc::Global;

/// Writes the entries of a closed room's log, and at last the report of its state.
pub fn write_history<K: Sink>(
    alloc: Global,
    cluster: &Cluster,
    closed: &Closed,
    writer: &mut Watched<K>,
) -> Result<(), WriteFault>
    requires { writer.old.failed ≡ false }
    ensures { Broke K.takes K.fails result (history_text cluster.now closed.now.log.items
        (state_of closed.now.sim.seen)) writer.old writer.new }
{
    write_entries(alloc, cluster, closed.log.as_slice(), writer)?;
    write_final(alloc, closed.sim.state(), writer)
}

// Writes the entries of a log.
fn write_entries<K: Sink>(
    alloc: Global,
    cluster: &Cluster,
    log: &[Entry],
    writer: &mut Watched<K>,
) -> Result<(), WriteFault>
    requires { writer.old.failed ≡ false }
    ensures { Broke K.takes K.fails result
        (flat_map (entry_text cluster.now) log.now) writer.old writer.new }
{
    for entry in log {
        write_entry(alloc, cluster, entry, writer)?;
    }
    Ok(())
}

// Writes an entry.
fn write_entry<K: Sink>(
    alloc: Global,
    cluster: &Cluster,
    entry: &Entry,
    writer: &mut Watched<K>,
) -> Result<(), WriteFault>
    requires { writer.old.failed ≡ false }
    ensures { Broke K.takes K.fails result
        (entry_text cluster.now entry.now) writer.old writer.new }
{
    let text = entry_text(alloc, cluster, entry)?;
    write_text(writer, text.as_slice())
}

// The text of an entry: the session and its command, and then the answer.
#[tactic(auto, unfolding(crate::specs::Histories::entry_text))]
fn entry_text(alloc: Global, cluster: &Cluster, entry: &Entry) -> Result<Vec<u8>, OutOfMemory>
    ensures { IfOk result (λ text. text.items ≡ entry_text cluster.now entry.now) }
{
    let session = entry.session;
    let command = command_text(alloc, cluster, entry.call)?;
    let answer = answer_text(alloc, cluster, &entry.reply)?;
    let line = format!(in alloc; "entry {session} {command}\n")?;
    let mut text = line.into_bytes();
    text.extend_from_slice(answer.as_slice())?;
    Ok(text)
}

// Writes the last state.
fn write_final<K: Sink>(
    alloc: Global,
    state: &State,
    writer: &mut Watched<K>,
) -> Result<(), WriteFault>
    requires { writer.old.failed ≡ false }
    ensures { Broke K.takes K.fails result
        (codes "final\n" ++ report_text (read state.now)) writer.old writer.new }
{
    let text = final_text(alloc, state)?;
    write_text(writer, text.as_slice())
}

// The text of the last state.
fn final_text(alloc: Global, state: &State) -> Result<Vec<u8>, OutOfMemory>
    ensures { IfOk result (λ text. text.items ≡ codes "final\n" ++ report_text (read state.now)) }
{
    let report = report(alloc, state)?;
    let mut text = Vec::from_slice(alloc, b"final\n".as_slice())?;
    text.extend_from_slice(report.as_slice())?;
    Ok(text)
}
