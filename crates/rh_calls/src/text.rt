//! The report of a state.

ghost use Rattle.std.specs.Prelude.{ℕ, ◌≡◌, ◌++◌, OnOk, IfOk, All};
ghost use Rattle.std.specs.List.{flat_map};
ghost use Rattle.std.specs.String.{string_bytes};
ghost use Rattle.rh_state.specs.Numbers.{nodes_of};
ghost use Rattle.rh_state.specs.Shape.{IsTimerOf};
ghost use Rattle.rh_state.specs.Stored.{read};
ghost use Rattle.rh_state.specs.declared.status.Timer.{Timer};
ghost use Rattle.rh_calls.specs.Report.{time_line, node_lines, timer_line, report_text};

mod apps;
mod nodes;
mod words;

use crate::text::apps::push_apps;
pub use crate::text::apps::push_standing_line;
pub use crate::text::nodes::forbids_any;
use crate::text::nodes::push_node_lines;
pub use crate::text::words::{
    NO_NAME, app_word, dep_word, node_word, push_decimal, push_kind, restart_word,
};
use rh_base::OutOfMemory;
use rh_model::{Cluster, Node};
use rh_state::{State, Timer};
use std::alloc::Global;

/// The report: a line with the time in milliseconds; for each node in node order its line, and below it what runs there,
/// what waits there and what may not run there; a line for each distributed application; and a line for each timer in the
/// order in which they fire.
pub fn report(alloc: Global, state: &State) -> Result<Vec<u8>, OutOfMemory>
    ensures { IfOk result (λ bytes. bytes.items ≡ report_text (read state.now)) }
{
    // As much as the report of a small cluster takes: others grow.
    let mut text = String::with_capacity(alloc, 4_096)?;
    push_time(&mut text, state)?;
    push_nodes(&mut text, state)?;
    push_apps(&mut text, state)?;
    let timers = state.timers(alloc)?;
    push_timers(&mut text, state.cluster(), timers.as_slice())?;
    Ok(text.into_bytes())
}

// Adds the line of the time.
fn push_time(text: &mut String, state: &State) -> Result<(), OutOfMemory>
    ensures { OnOk result
        (string_bytes text.new ≡ string_bytes text.old ++ time_line (read state.now)) }
{
    text.push_str("now ")?;
    push_decimal(text, state.now())?;
    text.push_str("\n")?;
    Ok(())
}

// Adds the lines of each node.
#[tactic(auto, unfolding(rh_state::specs::Numbers::nodes_of))]
fn push_nodes(text: &mut String, state: &State) -> Result<(), OutOfMemory>
    ensures { OnOk result (string_bytes text.new ≡ string_bytes text.old
        ++ flat_map (node_lines (read state.now)) (nodes_of (read state.now).cluster)) }
{
    let count = state.cluster().node_count();
    for number in 0..count {
        push_node_lines(text, state, Node(number as u8))?;
    }
    Ok(())
}

// Adds the line of each timer.
fn push_timers(
    text: &mut String,
    cluster: &Cluster,
    timers: &[(u64, Timer)],
) -> Result<(), OutOfMemory>
    requires { All (λ entry. IsTimerOf cluster.now entry.1) timers.now }
    ensures { OnOk result (string_bytes text.new
        ≡ string_bytes text.old ++ flat_map (timer_line cluster.now) timers.now) }
{
    for entry in timers {
        push_timer_line(text, cluster, entry)?;
    }
    Ok(())
}

// Adds the line of a timer.
#[tactic(auto, unfolding(crate::specs::Report::timer_line))]
fn push_timer_line(
    text: &mut String,
    cluster: &Cluster,
    entry: &(u64, Timer),
) -> Result<(), OutOfMemory>
    requires { IsTimerOf cluster.now entry.now.1 }
    ensures { OnOk result
        (string_bytes text.new ≡ string_bytes text.old ++ timer_line cluster.now entry.now) }
{
    match entry.1 {
        Timer::Sync(node) => {
            text.push_str("timer sync ")?;
            text.push_str(cluster.node_name(node))?;
        }
        Timer::Failover(app) => {
            text.push_str("timer failover ")?;
            text.push_str(cluster.app_name(app))?;
        }
    }
    text.push_str(" ")?;
    push_decimal(text, entry.0)?;
    text.push_str("\n")?;
    Ok(())
}
