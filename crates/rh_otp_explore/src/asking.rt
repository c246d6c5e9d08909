//! What is asked of live nodes, by what is told of them.

ghost use Rattle.std.specs.Prelude.{◌≡◌, IfOk};
ghost use Rattle.std.specs.List.{list_any, list_all};
ghost use Rattle.rh_explore_text.specs.Asks.{ask_view};
ghost use Rattle.rh_otp_explore.specs.Asking.{is_row_of, runs_in, runs_at, is_up_at, hangs_at, nothing_hangs, runs_somewhere, is_up, places, is_so, is_met, is_met_at, is_met_soon, holds_in};
ghost use Rattle.rh_otp_report.specs.Report.{report_of};

use crate::due::{dues, ms_to, tick_to};
use crate::stand::{Stand, is_not_up};
use rh_base::OutOfMemory;
use rh_explore::{Ask, Condition};
use rh_model::{App, Node};
use rh_otp_report::{NodeReport, Report, Runs};
use std::alloc::Global;

// Is it the row of this application?
fn is_row_of(app: App, row: &Runs) -> bool
    ensures { result ≡ is_row_of app row.now }
{
    row.app.0 == app.0
}

// Does the application run at a node?
fn runs_in(app: App, report: &NodeReport) -> bool
    ensures { result ≡ runs_in app report.now }
{
    report
        .running
        .as_slice()
        .iter()
        .any(|row| is_row_of(app, row))
}

// Does it run at this one?
fn runs_at(app: App, node: Node, report: &NodeReport) -> bool
    ensures { result ≡ runs_at app node report.now }
{
    report.node.0 == node.0 && runs_in(app, report)
}

// Is this node up?
fn is_up_at(node: Node, report: &NodeReport) -> bool
    ensures { result ≡ is_up_at node report.now }
{
    report.node.0 == node.0 && !is_not_up(report)
}

// Does the node's dist_ac or its boot script wait for something?
fn hangs_at(report: &NodeReport) -> bool
    ensures { result ≡ hangs_at report.now }
{
    report.block.is_some() || report.boot.is_some()
}

// Does it at one of these nodes?
fn hangs_somewhere(nodes: &[NodeReport]) -> bool
    ensures { result ≡ list_any hangs_at nodes.now }
{
    nodes.iter().any(|report| hangs_at(report))
}

// Does nothing hang at any node, and has each call returned?
fn nothing_hangs(report: &Report) -> bool
    ensures { result ≡ nothing_hangs report.now }
{
    !hangs_somewhere(report.nodes.as_slice()) && report.calls.is_empty()
}

// Does the application run at one of these nodes?
fn runs_somewhere(app: App, nodes: &[NodeReport]) -> bool
    ensures { result ≡ runs_somewhere app nodes.now }
{
    nodes.iter().any(|report| runs_in(app, report))
}

// Does the application run at this node, by these reports?
fn runs_there(app: App, node: Node, nodes: &[NodeReport]) -> bool
    ensures { result ≡ list_any (runs_at app node) nodes.now }
{
    nodes.iter().any(|report| runs_at(app, node, report))
}

// Is the node up, by these reports?
fn is_up(node: Node, nodes: &[NodeReport]) -> bool
    ensures { result ≡ is_up node nodes.now }
{
    nodes.iter().any(|report| is_up_at(node, report))
}

// At how many nodes does the application run?
fn places(app: App, nodes: &[NodeReport]) -> usize
    ensures { result ≡ places app nodes.now }
{
    nodes.iter().filter(|report| runs_in(app, *report)).count()
}

// Is a condition so?
fn is_so(condition: Condition, report: &Report) -> bool
    ensures { result ≡ is_so report.now condition }
{
    let nodes = report.nodes.as_slice();
    match condition {
        Condition::RunsSomewhere(app) => runs_somewhere(app, nodes),
        Condition::RunsNowhere(app) => !runs_somewhere(app, nodes),
        Condition::RunsAt(app, node) => runs_there(app, node, nodes),
        Condition::IsUp(node) => is_up(node, nodes),
        Condition::IsNotUp(node) => !is_up(node, nodes),
        Condition::RunsAtMostOnce(app) => places(app, nodes) <= 1,
        Condition::NothingHangs => nothing_hangs(report),
    }
}

// Are all of these conditions so?
fn are_so(conditions: &[Condition], report: &Report) -> bool
    ensures { result ≡ list_all (is_so report.now) conditions.now }
{
    conditions.iter().all(|condition| is_so(*condition, report))
}

// Are all conditions of one of these lists so?
fn one_is_so(ways: &[Vec<Condition>], report: &Report) -> bool
    ensures { result ≡ list_any (λ way. list_all (is_so report.now) way.items) ways.now }
{
    ways.iter()
        .any(|conditions| are_so(conditions.as_slice(), report))
}

// Are all conditions of one of its lists so?
fn is_met(ask: &Ask, report: &Report) -> bool
    ensures { result ≡ is_met (ask_view ask.now) report.now }
{
    one_is_so(ask.any_of.as_slice(), report)
}

// Is it met when a timer is due, if that is within so many milliseconds?
fn is_met_at(
    alloc: Global,
    ask: &Ask,
    ms: u64,
    stand: &Stand,
    due: u64,
) -> Result<bool, OutOfMemory>
    ensures { IfOk result
        (λ met. met ≡ is_met_at (ask_view ask.now) ms stand.now (report_of stand.now).time due) }
{
    let now = stand.report.time;
    if ms_to(now, due) > ms {
        return Ok(false);
    }
    let report = stand.told_after(alloc, tick_to(now, due))?;
    Ok(is_met(ask, &report))
}

// Is it met at one of the timers that are told?
fn is_met_soon(alloc: Global, ask: &Ask, ms: u64, stand: &Stand) -> Result<bool, OutOfMemory>
    ensures { IfOk result (λ met. met ≡ is_met_soon (ask_view ask.now) ms stand.now) }
{
    let dues = dues(alloc, &stand.report)?;
    for due in dues.as_slice() {
        if is_met_at(alloc, ask, ms, stand, *due)? {
            return Ok(true);
        }
    }
    Ok(false)
}

/// Does what is asked hold of live nodes?
pub(crate) fn holds_in(alloc: Global, ask: &Ask, stand: &Stand) -> Result<bool, OutOfMemory>
    ensures { IfOk result (λ holds. holds ≡ holds_in (ask_view ask.now) stand.now) }
{
    let report = &stand.report;
    if !ask.always && !dues(alloc, report)?.is_empty() {
        return Ok(true);
    }
    if is_met(ask, report) {
        return Ok(true);
    }
    match ask.within {
        None => Ok(false),
        Some(ms) => is_met_soon(alloc, ask, ms, stand),
    }
}
