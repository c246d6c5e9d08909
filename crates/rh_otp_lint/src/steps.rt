//! What comes of the commands of a script on live nodes.

ghost use Rattle.std.specs.Prelude.{◌≡◌, ◌+◌, ◌≤◌, ◌^◌, ◌++◌, ◌∷◌, IfOk, OnOk, map, length, List};
ghost use Rattle.rh_script.specs.Lines.{raw_lines, content};
ghost use Rattle.rh_otp_sim.specs.Calls.{made_by};
ghost use Rattle.rh_otp_lint.specs.LiveSteps.{of_reports, is_step, of_call, of_rest, of_live_steps};

use crate::answers::push_reply;
use crate::hanging::push_hangs;
use crate::twice::push_all_twice;
use rh_base::OutOfMemory;
use rh_calls::Call;
use rh_cluster::Cluster;
use rh_findings::Finding;
use rh_otp_report::{Report, report_of};
use rh_otp_sim::LiveSim;
use rh_script::{Line, content, line_of, split_line};
use std::alloc::Global;

// Adds what is new in a report.
fn push_reports(
    alloc: Global,
    found: &mut Vec<Finding>,
    cluster: &Cluster,
    number: u64,
    before: &Report,
    after: &Report,
) -> Result<(), OutOfMemory>
    ensures { OnOk result (found.new.items
        ≡ found.old.items ++ of_reports cluster.now number before.now after.now) }
{
    let was = before.nodes.as_slice();
    push_hangs(alloc, found, cluster, number, was, after.nodes.as_slice())?;
    let ran = before.apps.as_slice();
    push_all_twice(alloc, found, cluster, number, ran, after.apps.as_slice())
}

// Is it a step?
fn is_step(call: &Call) -> bool
    ensures { result ≡ is_step call.now }
{
    matches!(call, Call::Step(_))
}

// Gives a call to the simulation, and adds what is found of it.
fn take_call(
    alloc: Global,
    found: &mut Vec<Finding>,
    sim: &mut LiveSim,
    number: u64,
    call: Call,
) -> Result<(), OutOfMemory>
    ensures found { OnOk result
        (found.new.items ≡ found.old.items ++ of_call sim.old number call) }
    ensures sim { OnOk result (sim.new ≡ made_by call sim.old) }
{
    let before = report_of(alloc, sim)?;
    let reply = sim.answer(alloc, call)?;
    push_reply(alloc, found, sim.cluster(), number, call, &reply)?;
    if !is_step(&call) {
        return Ok(());
    }
    let after = report_of(alloc, sim)?;
    push_reports(alloc, found, sim.cluster(), number, &before, &after)
}

// Adds what is found of a line. The answer is whether the commands end there.
fn take_line(
    alloc: Global,
    found: &mut Vec<Finding>,
    sim: &mut LiveSim,
    number: u64,
    line: &[u8],
) -> Result<bool, OutOfMemory>
    ensures { IfOk result (λ ends. (lines : List _)
        → found.new.items ++ of_rest ends sim.new (number + 1) lines
        ≡ found.old.items ++ of_live_steps sim.old number (line.now ∷ lines)) }
{
    match line_of(alloc, sim.cluster(), line)? {
        Line::Nothing => Ok(false),
        Line::Bad => Ok(true),
        Line::Asks(call) => {
            take_call(alloc, found, sim, number, call)?;
            Ok(false)
        }
    }
}

/// What comes of the commands of a script, of which the first line has this number, on these live nodes: of each how it is answered,
/// if it isn't by `ok`, and which starts of boot scripts have failed; of each step what hangs behind it and didn't before, and which
/// applications run at several nodes and didn't before. Nothing is told behind a line that is no command.
pub(crate) fn live_steps(
    alloc: Global,
    sim: &mut LiveSim,
    first: u64,
    script: &[u8],
) -> Result<Vec<Finding>, OutOfMemory>
    requires numbers { first + length script.now ≤ 2 ^ 64 }
    ensures { IfOk result (λ found.
        found.items ≡ of_live_steps sim.old first (map content (raw_lines script.now))) }
{
    let mut found = Vec::new(alloc);
    let mut rest = script;
    let mut passed: u64 = 0;
    'lines: while !rest.is_empty() {
        let (line, after) = split_line(rest);
        if take_line(alloc, &mut found, sim, first + passed, content(line))? {
            return Ok(found);
        }
        rest = after;
        passed += 1;
    }
    Ok(found)
}
