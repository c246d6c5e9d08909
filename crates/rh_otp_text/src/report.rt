//! The report of live nodes, as text.

ghost use Rattle.std.specs.Prelude.{◌≡◌, ◌++◌, codes, OnOk, IfOk};
ghost use Rattle.std.specs.List.{flat_map};
ghost use Rattle.std.specs.String.{string_bytes};
ghost use Rattle.rh_otp_text.specs.Nodes.{node_lines};
ghost use Rattle.rh_otp_text.specs.ReportText.{time_line, place_words, app_line, call_line, report_text};

use crate::asks::push_ask;
use crate::nodes::push_node_lines;
use rh_base::OutOfMemory;
use rh_calls::{app_word, node_word, push_decimal};
use rh_model::{Cluster, Node};
use rh_otp_report::{AppReport, NodeReport, OpenCall, Report};
use std::alloc::Global;

// Adds the line of the clock.
fn push_time(text: &mut String, time: u64) -> Result<(), OutOfMemory>
    ensures { OnOk result (string_bytes text.new ≡ string_bytes text.old ++ time_line time) }
{
    text.push_str("now ")?;
    push_decimal(text, time)?;
    text.push_str("\n")?;
    Ok(())
}

// Adds the lines of all nodes.
fn push_nodes(text: &mut String, cluster: &Cluster, nodes: &[NodeReport]) -> Result<(), OutOfMemory>
    ensures { OnOk result (string_bytes text.new
        ≡ string_bytes text.old ++ flat_map (node_lines cluster.now) nodes.now) }
{
    for node in nodes {
        push_node_lines(text, cluster, node)?;
    }
    Ok(())
}

// Adds a node's name, with the space before it.
fn push_place(text: &mut String, cluster: &Cluster, node: Node) -> Result<(), OutOfMemory>
    ensures { OnOk result
        (string_bytes text.new ≡ string_bytes text.old ++ place_words cluster.now node) }
{
    text.push_str(" ")?;
    text.push_str(node_word(cluster, node))?;
    Ok(())
}

// Adds those of all these nodes.
fn push_places(text: &mut String, cluster: &Cluster, nodes: &[Node]) -> Result<(), OutOfMemory>
    ensures { OnOk result (string_bytes text.new
        ≡ string_bytes text.old ++ flat_map (place_words cluster.now) nodes.now) }
{
    for node in nodes {
        push_place(text, cluster, *node)?;
    }
    Ok(())
}

// Adds the line of a distributed application.
fn push_app_line(text: &mut String, cluster: &Cluster, app: &AppReport) -> Result<(), OutOfMemory>
    ensures { OnOk result
        (string_bytes text.new ≡ string_bytes text.old ++ app_line cluster.now app.now) }
{
    text.push_str("app ")?;
    text.push_str(app_word(cluster, app.app))?;
    if app.nodes.is_empty() {
        text.push_str(" nowhere\n")?;
        return Ok(());
    }
    text.push_str(" running")?;
    push_places(text, cluster, app.nodes.as_slice())?;
    text.push_str("\n")?;
    Ok(())
}

/// Adds the lines of distributed applications.
pub fn push_apps(
    text: &mut String,
    cluster: &Cluster,
    apps: &[AppReport],
) -> Result<(), OutOfMemory>
    ensures { OnOk result (string_bytes text.new
        ≡ string_bytes text.old ++ flat_map (app_line cluster.now) apps.now) }
{
    for app in apps {
        push_app_line(text, cluster, app)?;
    }
    Ok(())
}

// Adds the line of a call that hasn't returned.
fn push_call_line(text: &mut String, cluster: &Cluster, call: OpenCall) -> Result<(), OutOfMemory>
    ensures { OnOk result
        (string_bytes text.new ≡ string_bytes text.old ++ call_line cluster.now call) }
{
    text.push_str("open ")?;
    push_ask(text, cluster, call.ask, call.node, call.app)?;
    text.push_str("\n")?;
    Ok(())
}

/// Adds the lines of calls that haven't returned.
pub fn push_calls(
    text: &mut String,
    cluster: &Cluster,
    calls: &[OpenCall],
) -> Result<(), OutOfMemory>
    ensures { OnOk result (string_bytes text.new
        ≡ string_bytes text.old ++ flat_map (call_line cluster.now) calls.now) }
{
    for call in calls {
        push_call_line(text, cluster, *call)?;
    }
    Ok(())
}

/// The text of a report.
#[tactic(auto, unfolding(crate::specs::ReportText::report_text))]
pub fn report_text(alloc: Global, cluster: &Cluster, report: &Report) -> Result<String, OutOfMemory>
    ensures { IfOk result (λ text. string_bytes text ≡ report_text cluster.now report.now) }
{
    // As much as the report of a small cluster takes: others grow.
    let mut text = String::with_capacity(alloc, 4_096)?;
    push_time(&mut text, report.time)?;
    push_nodes(&mut text, cluster, report.nodes.as_slice())?;
    push_apps(&mut text, cluster, report.apps.as_slice())?;
    push_calls(&mut text, cluster, report.calls.as_slice())?;
    Ok(text)
}
