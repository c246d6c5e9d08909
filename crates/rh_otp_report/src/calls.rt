//! Calls that haven't returned.

ghost use Rattle.std.specs.Prelude.{◌≡◌, IfOk};
ghost use Rattle.std.specs.List.{filter_map};
ghost use Rattle.rh_otp_report.specs.OpenCalls.{is_open, open_call, open_calls};

use crate::timers::lives;
use rh_base::OutOfMemory;
use rh_model::{App, Node};
use rh_otp_sim::LiveSim;
use rh_otp_system::{Ask, Call};
use std::alloc::Global;

/// A call that hasn't returned, at a node that is alive.
#[derive(Clone, Copy, Debug, PartialEq, Eq)]
pub struct OpenCall {
    pub ask: Ask,
    pub node: Node,
    pub app: App,
}

// Hasn't it returned, and is its node still alive?
fn is_open(sim: &LiveSim, call: &Call) -> bool
    ensures { result ≡ is_open sim.now call.now }
{
    match sim.live(call.node) {
        Some(live) => !call.is_done() && lives(live, call.life),
        None => false,
    }
}

// What is told of a call, if it is open.
fn open_call(sim: &LiveSim, call: &Call) -> Option<OpenCall>
    ensures { result ≡ open_call sim.now call.now }
{
    if is_open(sim, call) {
        Some(OpenCall {
            ask: call.ask,
            node: call.node,
            app: call.app,
        })
    } else {
        None
    }
}

/// Those of these calls that are open, in their order.
pub(crate) fn open_calls(
    alloc: Global,
    sim: &LiveSim,
    calls: &[Call],
) -> Result<Vec<OpenCall>, OutOfMemory>
    ensures { IfOk result (λ found. found.items ≡ open_calls sim.now calls.now) }
{
    let mut found = Vec::new(alloc);
    for call in calls {
        if let Some(open) = open_call(sim, call) {
            found.push(open)?;
        }
    }
    Ok(found)
}
