//! Timers that are set at a node.

ghost use Rattle.std.specs.Prelude.{◌≡◌, IfOk};
ghost use Rattle.std.specs.List.{filter_map};
ghost use Rattle.rh_otp_report.specs.NodeTimers.{lives, is_waiting, timer_by, timer_at, timers_at};

use rh_base::OutOfMemory;
use rh_model::{App, Node};
use rh_otp_model::Message;
use rh_otp_net::{Timer, Timers};
use rh_otp_node::{LiveNode, Phase};
use std::alloc::Global;

/// A timer of a node, and the time in milliseconds at which it is due.
#[derive(Clone, Copy, Debug, PartialEq, Eq)]
pub enum NodeTimer {
    /// The end of its wait for other nodes.
    Sync(u64),
    /// The end of the time for which the application may stay lost. It is never cancelled, and starts nothing where the
    /// application isn't lost any more.
    Failover(App, u64),
}

/// Is the node alive, in the life of this number?
pub(crate) fn lives(live: &LiveNode, life: u32) -> bool
    ensures { result ≡ lives live.now life }
{
    live.is_alive() && live.life() == life
}

// Does the node wait for others?
fn is_waiting(phase: Phase) -> bool
    ensures { result ≡ is_waiting phase }
{
    matches!(phase, Phase::Waiting)
}

// What is told of a timer with this message, if it is to be told.
fn timer_by(phase: Phase, message: &Message, due: u64) -> Option<NodeTimer>
    ensures { result ≡ timer_by phase message.now due }
{
    match message {
        Message::RestartAppl(app, _) => Some(NodeTimer::Failover(*app, due)),
        Message::Timeout if is_waiting(phase) => Some(NodeTimer::Sync(due)),
        _ => None,
    }
}

// What is told of a timer at this node, if it is one of its own.
fn timer_at(live: &LiveNode, node: Node, timer: &Timer) -> Option<NodeTimer>
    ensures { result ≡ timer_at live.now node timer.now }
{
    if timer.to.node.0 == node.0 && lives(live, timer.to.life) {
        timer_by(live.phase(), &timer.message, timer.due)
    } else {
        None
    }
}

/// The timers of a node, in the order in which they were set.
pub(crate) fn timers_at(
    alloc: Global,
    live: &LiveNode,
    node: Node,
    timers: &Timers,
) -> Result<Vec<NodeTimer>, OutOfMemory>
    ensures { IfOk result (λ found. found.items ≡ timers_at live.now node timers.now) }
{
    let mut found = Vec::new(alloc);
    for timer in timers.as_slice() {
        if let Some(told) = timer_at(live, node, timer) {
            found.push(told)?;
        }
    }
    Ok(found)
}
