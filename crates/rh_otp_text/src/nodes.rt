//! The lines of a node in the report.

ghost use Rattle.std.specs.Prelude.{◌≡◌, ◌++◌, codes, OnOk};
ghost use Rattle.std.specs.List.{flat_map};
ghost use Rattle.std.specs.String.{string_bytes};
ghost use Rattle.rh_calls.specs.Report.{forbidden_line};
ghost use Rattle.rh_otp_text.specs.Nodes.{phase_words, known_words, node_line, running_line, waiting_line, starting_line, block_words, block_line, boot_line, timer_words, timer_line, node_lines};

use crate::lines::kind_of;
use rh_base::OutOfMemory;
use rh_calls::{app_word, node_word, push_decimal, push_kind, restart_word};
use rh_model::{App, Cluster, Restart};
use rh_otp_node::Phase;
use rh_otp_report::{Block, NodeReport, NodeTimer, Runs, Waits};

// How far a node is.
fn phase_word(phase: Phase) -> &'static str
    ensures { result.now ≡ phase_words phase }
{
    match phase {
        Phase::Down => " down ",
        Phase::Waiting => " waiting ",
        Phase::Up => " up ",
    }
}

// A restart type, if it is known.
fn known_word(restart: Option<Restart>) -> &'static str
    ensures { result.now ≡ known_words restart }
{
    match restart {
        Some(restart) => restart_word(restart),
        None => "undefined",
    }
}

// Adds a node's own line.
#[tactic(auto, unfolding(crate::specs::Nodes::node_line))]
fn push_node_line(
    text: &mut String,
    cluster: &Cluster,
    report: &NodeReport,
) -> Result<(), OutOfMemory>
    ensures { OnOk result
        (string_bytes text.new ≡ string_bytes text.old ++ node_line cluster.now report.now) }
{
    text.push_str("node ")?;
    text.push_str(node_word(cluster, report.node))?;
    text.push_str(phase_word(report.phase))?;
    push_decimal(text, report.life as u64)?;
    text.push_str("\n")?;
    Ok(())
}

// Adds the line of an application that runs.
#[tactic(auto, unfolding(crate::specs::Nodes::running_line))]
fn push_running_line(text: &mut String, cluster: &Cluster, runs: Runs) -> Result<(), OutOfMemory>
    ensures { OnOk result
        (string_bytes text.new ≡ string_bytes text.old ++ running_line cluster.now runs) }
{
    text.push_str("  running ")?;
    text.push_str(app_word(cluster, runs.app))?;
    text.push_str(" ")?;
    text.push_str(known_word(runs.restart))?;
    text.push_str(" ")?;
    push_kind(text, cluster, kind_of(runs.kind))?;
    text.push_str("\n")?;
    Ok(())
}

// Adds those of all that run.
fn push_running(text: &mut String, cluster: &Cluster, rows: &[Runs]) -> Result<(), OutOfMemory>
    ensures { OnOk result (string_bytes text.new
        ≡ string_bytes text.old ++ flat_map (running_line cluster.now) rows.now) }
{
    for row in rows {
        push_running_line(text, cluster, *row)?;
    }
    Ok(())
}

// Adds the line of an application that waits.
#[tactic(auto, unfolding(crate::specs::Nodes::waiting_line))]
fn push_waiting_line(text: &mut String, cluster: &Cluster, waits: Waits) -> Result<(), OutOfMemory>
    ensures { OnOk result
        (string_bytes text.new ≡ string_bytes text.old ++ waiting_line cluster.now waits) }
{
    text.push_str("  waiting ")?;
    text.push_str(app_word(cluster, waits.app))?;
    text.push_str(" ")?;
    text.push_str(known_word(waits.restart))?;
    text.push_str("\n")?;
    Ok(())
}

// Adds those of all that wait.
fn push_waiting(text: &mut String, cluster: &Cluster, rows: &[Waits]) -> Result<(), OutOfMemory>
    ensures { OnOk result (string_bytes text.new
        ≡ string_bytes text.old ++ flat_map (waiting_line cluster.now) rows.now) }
{
    for row in rows {
        push_waiting_line(text, cluster, *row)?;
    }
    Ok(())
}

// Adds the line of an application that is forbidden.
fn push_forbidden_line(text: &mut String, cluster: &Cluster, app: App) -> Result<(), OutOfMemory>
    ensures { OnOk result
        (string_bytes text.new ≡ string_bytes text.old ++ forbidden_line cluster.now app) }
{
    text.push_str("  forbidden ")?;
    text.push_str(app_word(cluster, app))?;
    text.push_str("\n")?;
    Ok(())
}

// Adds those of all that are.
fn push_forbidden(text: &mut String, cluster: &Cluster, apps: &[App]) -> Result<(), OutOfMemory>
    ensures { OnOk result (string_bytes text.new
        ≡ string_bytes text.old ++ flat_map (forbidden_line cluster.now) apps.now) }
{
    for app in apps {
        push_forbidden_line(text, cluster, *app)?;
    }
    Ok(())
}

// Adds the line of an application that is being started.
#[tactic(auto, unfolding(crate::specs::Nodes::starting_line))]
fn push_starting_line(text: &mut String, cluster: &Cluster, app: App) -> Result<(), OutOfMemory>
    ensures { OnOk result
        (string_bytes text.new ≡ string_bytes text.old ++ starting_line cluster.now app) }
{
    text.push_str("  starting ")?;
    text.push_str(app_word(cluster, app))?;
    text.push_str("\n")?;
    Ok(())
}

// Adds those of all that are.
fn push_starting(text: &mut String, cluster: &Cluster, apps: &[App]) -> Result<(), OutOfMemory>
    ensures { OnOk result (string_bytes text.new
        ≡ string_bytes text.old ++ flat_map (starting_line cluster.now) apps.now) }
{
    for app in apps {
        push_starting_line(text, cluster, *app)?;
    }
    Ok(())
}

/// Adds for what a dist_ac waits.
pub fn push_block(text: &mut String, cluster: &Cluster, block: Block) -> Result<(), OutOfMemory>
    ensures { OnOk result
        (string_bytes text.new ≡ string_bytes text.old ++ block_words cluster.now block) }
{
    match block {
        Block::Lock => text.push_str("lock")?,
        Block::Introduction(node) => {
            text.push_str("introduction for ")?;
            text.push_str(node_word(cluster, node))?;
        }
        Block::Weight(app, node) => {
            text.push_str("weight ")?;
            text.push_str(app_word(cluster, app))?;
            text.push_str(" for ")?;
            text.push_str(node_word(cluster, node))?;
        }
        Block::Start(app, node) => {
            text.push_str("start ")?;
            text.push_str(app_word(cluster, app))?;
            text.push_str(" for ")?;
            text.push_str(node_word(cluster, node))?;
        }
        Block::AnyStart(app) => {
            text.push_str("start ")?;
            text.push_str(app_word(cluster, app))?;
        }
    }
    Ok(())
}

// Adds the line of a dist_ac that waits.
#[tactic(auto, unfolding(crate::specs::Nodes::block_line))]
fn push_block_line(
    text: &mut String,
    cluster: &Cluster,
    block: Option<Block>,
) -> Result<(), OutOfMemory>
    ensures { OnOk result
        (string_bytes text.new ≡ string_bytes text.old ++ block_line cluster.now block) }
{
    let Some(block) = block else {
        return Ok(());
    };
    text.push_str("  blocked dist_ac ")?;
    push_block(text, cluster, block)?;
    text.push_str("\n")?;
    Ok(())
}

// Adds the line of a boot script that waits.
#[tactic(auto, unfolding(crate::specs::Nodes::boot_line))]
fn push_boot_line(
    text: &mut String,
    cluster: &Cluster,
    boot: Option<App>,
) -> Result<(), OutOfMemory>
    ensures { OnOk result
        (string_bytes text.new ≡ string_bytes text.old ++ boot_line cluster.now boot) }
{
    let Some(app) = boot else {
        return Ok(());
    };
    text.push_str("  blocked boot ")?;
    text.push_str(app_word(cluster, app))?;
    text.push_str("\n")?;
    Ok(())
}

// Adds what a timer is, and when it is due.
fn push_timer(text: &mut String, cluster: &Cluster, timer: NodeTimer) -> Result<(), OutOfMemory>
    ensures { OnOk result
        (string_bytes text.new ≡ string_bytes text.old ++ timer_words cluster.now timer) }
{
    match timer {
        NodeTimer::Sync(due) => {
            text.push_str("sync ")?;
            push_decimal(text, due)?;
        }
        NodeTimer::Failover(app, due) => {
            text.push_str("failover ")?;
            text.push_str(app_word(cluster, app))?;
            text.push_str(" ")?;
            push_decimal(text, due)?;
        }
    }
    Ok(())
}

// Adds the line of a timer.
#[tactic(auto, unfolding(crate::specs::Nodes::timer_line))]
fn push_timer_line(
    text: &mut String,
    cluster: &Cluster,
    timer: NodeTimer,
) -> Result<(), OutOfMemory>
    ensures { OnOk result
        (string_bytes text.new ≡ string_bytes text.old ++ timer_line cluster.now timer) }
{
    text.push_str("  timer ")?;
    push_timer(text, cluster, timer)?;
    text.push_str("\n")?;
    Ok(())
}

// Adds those of all timers.
fn push_timers(
    text: &mut String,
    cluster: &Cluster,
    timers: &[NodeTimer],
) -> Result<(), OutOfMemory>
    ensures { OnOk result (string_bytes text.new
        ≡ string_bytes text.old ++ flat_map (timer_line cluster.now) timers.now) }
{
    for timer in timers {
        push_timer_line(text, cluster, *timer)?;
    }
    Ok(())
}

/// Adds the lines of a node: its own, what runs, waits, is forbidden and is being started there, what hangs, and its timers.
#[tactic(auto, unfolding(crate::specs::Nodes::node_lines))]
pub fn push_node_lines(
    text: &mut String,
    cluster: &Cluster,
    report: &NodeReport,
) -> Result<(), OutOfMemory>
    ensures { OnOk result
        (string_bytes text.new ≡ string_bytes text.old ++ node_lines cluster.now report.now) }
{
    push_node_line(text, cluster, report)?;
    push_running(text, cluster, report.running.as_slice())?;
    push_waiting(text, cluster, report.waiting.as_slice())?;
    push_forbidden(text, cluster, report.forbidden.as_slice())?;
    push_starting(text, cluster, report.starting.as_slice())?;
    push_block_line(text, cluster, report.block)?;
    push_boot_line(text, cluster, report.boot)?;
    push_timers(text, cluster, report.timers.as_slice())
}
