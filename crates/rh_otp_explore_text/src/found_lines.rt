//! What a search found, as lines of JSON.

ghost use Rattle.std.specs.Prelude.{◌≡◌, ◌++◌, OnOk};
ghost use Rattle.std.specs.List.{flat_map};
ghost use Rattle.rh_json_text.specs.Json.{behind_comma, json_array};
ghost use Rattle.rh_otp_json_lines.specs.Nodes.{node_report_json};
ghost use Rattle.rh_otp_explore_text.specs.FoundLines.{lists_json, finished_json, search_line, nodes_json, report_json, events_field, report_field, fails_json, first_json, asked_line, asked_lines, found_json};

use crate::telling::is_left;
use rh_base::OutOfMemory;
use rh_cluster::Cluster;
use rh_explore_text::{push_asked, push_down_field, push_events_array, push_steps_field};
use rh_json_text::{close_array, push_number, push_text};
use rh_otp_explore::{Asked, Failure, LiveExplored};
use rh_otp_json_lines::{push_apps_at, push_node_report, push_open_at};
use rh_otp_report::{NodeReport, Report};
use rh_rules::Event;
use std::alloc::Global;

// Adds how many lists were tried.
#[tactic(auto, unfolding(crate::specs::FoundLines::lists_json))]
fn push_lists(alloc: Global, out: &mut Vec<u8>, lists: usize) -> Result<(), OutOfMemory>
    ensures { OnOk result (out.new.items ≡ out.old.items ++ lists_json lists) }
{
    push_text(out, "{\"lists\":")?;
    push_number(alloc, out, lists as u128)
}

// Adds whether no ask is left, and the end of the line.
fn push_finished(out: &mut Vec<u8>, left: bool) -> Result<(), OutOfMemory>
    ensures { OnOk result (out.new.items ≡ out.old.items ++ finished_json left) }
{
    if left {
        push_text(out, ",\"finished\":false}\n")
    } else {
        push_text(out, ",\"finished\":true}\n")
    }
}

// Adds the line of what a search found within its bounds.
#[tactic(auto, unfolding(crate::specs::FoundLines::search_line))]
fn push_search(
    alloc: Global,
    out: &mut Vec<u8>,
    cluster: &Cluster,
    down: u64,
    steps: u32,
    found: &LiveExplored,
) -> Result<(), OutOfMemory>
    ensures { OnOk result
        (out.new.items ≡ out.old.items ++ search_line cluster.now down steps found.now) }
{
    push_lists(alloc, out, found.lists)?;
    push_steps_field(alloc, out, found.covered)?;
    push_down_field(alloc, out, cluster, down)?;
    push_finished(out, is_left(steps, found))
}

// Adds nodes, each behind a comma.
fn push_each_node(
    alloc: Global,
    out: &mut Vec<u8>,
    cluster: &Cluster,
    nodes: &[NodeReport],
) -> Result<(), OutOfMemory>
    ensures { OnOk result (out.new.items
        ≡ out.old.items ++ flat_map (behind_comma (node_report_json cluster.now)) nodes.now) }
{
    for node in nodes {
        push_text(out, ",")?;
        push_node_report(alloc, out, cluster, node)?;
    }
    Ok(())
}

// Adds the array of the nodes.
#[tactic(auto, using(rh_json_text::proofs::Arrays::array_is_closed))]
fn push_nodes(
    alloc: Global,
    out: &mut Vec<u8>,
    cluster: &Cluster,
    nodes: &[NodeReport],
) -> Result<(), OutOfMemory>
    ensures { OnOk result
        (out.new.items ≡ out.old.items ++ json_array (node_report_json cluster.now) nodes.now) }
{
    let start = out.len();
    push_each_node(alloc, out, cluster, nodes)?;
    close_array(out, start)
}

// Adds the time, and the field of the nodes.
#[tactic(auto, unfolding(crate::specs::FoundLines::nodes_json))]
fn push_nodes_at(
    alloc: Global,
    out: &mut Vec<u8>,
    cluster: &Cluster,
    report: &Report,
) -> Result<(), OutOfMemory>
    ensures { OnOk result (out.new.items ≡ out.old.items ++ nodes_json cluster.now report.now) }
{
    push_text(out, "{\"time\":")?;
    push_number(alloc, out, report.time as u128)?;
    push_text(out, ",\"nodes\":")?;
    push_nodes(alloc, out, cluster, report.nodes.as_slice())
}

// Adds the report of live nodes, without the place in a rehearsal.
#[tactic(auto, unfolding(crate::specs::FoundLines::report_json))]
fn push_report(
    alloc: Global,
    out: &mut Vec<u8>,
    cluster: &Cluster,
    report: &Report,
) -> Result<(), OutOfMemory>
    ensures { OnOk result (out.new.items ≡ out.old.items ++ report_json cluster.now report.now) }
{
    push_nodes_at(alloc, out, cluster, report)?;
    push_apps_at(out, cluster, report.apps.as_slice())?;
    push_open_at(out, cluster, report.calls.as_slice())?;
    push_text(out, "}")
}

// Adds that what is asked doesn't hold, and the field of the events behind which it doesn't.
#[tactic(auto, unfolding(crate::specs::FoundLines::events_field))]
fn push_events_at(
    alloc: Global,
    out: &mut Vec<u8>,
    cluster: &Cluster,
    events: &[Event],
) -> Result<(), OutOfMemory>
    ensures { OnOk result (out.new.items ≡ out.old.items ++ events_field cluster.now events.now) }
{
    push_text(out, ",\"holds\":false,\"events\":")?;
    push_events_array(alloc, out, cluster, events)
}

// Adds the field of the report behind them, and the end of the line.
#[tactic(auto, unfolding(crate::specs::FoundLines::report_field))]
fn push_report_at(
    alloc: Global,
    out: &mut Vec<u8>,
    cluster: &Cluster,
    report: &Report,
) -> Result<(), OutOfMemory>
    ensures { OnOk result (out.new.items ≡ out.old.items ++ report_field cluster.now report.now) }
{
    push_text(out, ",\"report\":")?;
    push_report(alloc, out, cluster, report)?;
    push_text(out, "}\n")
}

// Adds that what is asked doesn't hold behind these events, and the report at their end.
#[tactic(auto, unfolding(crate::specs::FoundLines::fails_json))]
fn push_fails(
    alloc: Global,
    out: &mut Vec<u8>,
    cluster: &Cluster,
    failure: &Failure,
) -> Result<(), OutOfMemory>
    ensures { OnOk result (out.new.items ≡ out.old.items ++ fails_json cluster.now failure.now) }
{
    push_events_at(alloc, out, cluster, failure.events.as_slice())?;
    push_report_at(alloc, out, cluster, &failure.report)
}

// Adds whether what is asked holds.
fn push_first(
    alloc: Global,
    out: &mut Vec<u8>,
    cluster: &Cluster,
    first: &Option<Failure>,
) -> Result<(), OutOfMemory>
    ensures { OnOk result (out.new.items ≡ out.old.items ++ first_json cluster.now first.now) }
{
    match first {
        None => push_text(out, ",\"holds\":true}\n"),
        Some(failure) => push_fails(alloc, out, cluster, failure),
    }
}

// Adds the line of the ask of this number.
#[tactic(auto, unfolding(crate::specs::FoundLines::asked_line))]
fn push_asked_line(
    alloc: Global,
    out: &mut Vec<u8>,
    cluster: &Cluster,
    number: usize,
    asked: &Asked,
) -> Result<(), OutOfMemory>
    ensures { OnOk result
        (out.new.items ≡ out.old.items ++ asked_line cluster.now number asked.now) }
{
    push_asked(alloc, out, number)?;
    push_first(alloc, out, cluster, &asked.first)
}

// Adds the lines of asks, of which the first has number 1.
fn push_all_asked(
    alloc: Global,
    out: &mut Vec<u8>,
    cluster: &Cluster,
    all: &[Asked],
) -> Result<(), OutOfMemory>
    ensures { OnOk result (out.new.items ≡ out.old.items ++ asked_lines cluster.now 1 all.now) }
{
    for place in 0..all.len() {
        push_asked_line(alloc, out, cluster, place + 1, &all[place])?;
    }
    Ok(())
}

/// Adds what a search found.
pub(crate) fn push_found(
    alloc: Global,
    out: &mut Vec<u8>,
    cluster: &Cluster,
    down: u64,
    steps: u32,
    found: &LiveExplored,
) -> Result<(), OutOfMemory>
    ensures { OnOk result
        (out.new.items ≡ out.old.items ++ found_json cluster.now down steps found.now) }
{
    push_search(alloc, out, cluster, down, steps, found)?;
    push_all_asked(alloc, out, cluster, found.asked.as_slice())
}
