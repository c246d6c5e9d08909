//! The report of live nodes.

ghost use Rattle.std.specs.Prelude.{◌≡◌, ◌++◌, OnOk};
ghost use Rattle.std.specs.List.{flat_map};
ghost use Rattle.rh_json_text.specs.Json.{json_array, behind_comma};
ghost use Rattle.rh_otp_json_lines.specs.Nodes.{node_report_json};
ghost use Rattle.rh_otp_json_lines.specs.Reports.{app_report_json, open_json, nodes_list, apps_list, open_list, parts_json, report_json};

use crate::calls::push_call;
use crate::nodes::push_node_report;
use crate::rows::push_nodes;
use rh_base::OutOfMemory;
use rh_json_lines::{push_app, push_place};
use rh_json_text::{close_array, push_text};
use rh_model::Cluster;
use rh_otp_report::{AppReport, NodeReport, OpenCall, Report};
use std::alloc::Global;

// Adds nodes, each behind a comma.
fn push_each_node(
    alloc: Global,
    out: &mut Vec<u8>,
    cluster: &Cluster,
    nodes: &[NodeReport],
) -> Result<(), OutOfMemory>
    ensures { OnOk result (out.new.items
        ≡ out.old.items ++ flat_map (behind_comma (node_report_json cluster.now)) nodes.now) }
{
    for node in nodes {
        push_text(out, ",")?;
        push_node_report(alloc, out, cluster, node)?;
    }
    Ok(())
}

// Adds the array of nodes.
#[tactic(auto, using(rh_json_text::proofs::Arrays::array_is_closed))]
fn push_all_nodes(
    alloc: Global,
    out: &mut Vec<u8>,
    cluster: &Cluster,
    nodes: &[NodeReport],
) -> Result<(), OutOfMemory>
    ensures { OnOk result
        (out.new.items ≡ out.old.items ++ json_array (node_report_json cluster.now) nodes.now) }
{
    let start = out.len();
    push_each_node(alloc, out, cluster, nodes)?;
    close_array(out, start)
}

// Adds a distributed application, and the nodes at which it runs.
#[tactic(auto, unfolding(crate::specs::Reports::app_report_json))]
fn push_app_report(
    out: &mut Vec<u8>,
    cluster: &Cluster,
    report: &AppReport,
) -> Result<(), OutOfMemory>
    ensures { OnOk result
        (out.new.items ≡ out.old.items ++ app_report_json cluster.now report.now) }
{
    push_text(out, "{\"name\":")?;
    push_app(out, cluster, report.app)?;
    push_text(out, ",\"nodes\":")?;
    push_nodes(out, cluster, report.nodes.as_slice())?;
    push_text(out, "}")
}

// Adds distributed applications, each behind a comma.
fn push_each_app(
    out: &mut Vec<u8>,
    cluster: &Cluster,
    apps: &[AppReport],
) -> Result<(), OutOfMemory>
    ensures { OnOk result (out.new.items
        ≡ out.old.items ++ flat_map (behind_comma (app_report_json cluster.now)) apps.now) }
{
    for app in apps {
        push_text(out, ",")?;
        push_app_report(out, cluster, app)?;
    }
    Ok(())
}

// Adds the array of distributed applications.
#[tactic(auto, using(rh_json_text::proofs::Arrays::array_is_closed))]
fn push_all_apps(
    out: &mut Vec<u8>,
    cluster: &Cluster,
    apps: &[AppReport],
) -> Result<(), OutOfMemory>
    ensures { OnOk result
        (out.new.items ≡ out.old.items ++ json_array (app_report_json cluster.now) apps.now) }
{
    let start = out.len();
    push_each_app(out, cluster, apps)?;
    close_array(out, start)
}

// Adds a call that hasn't returned.
#[tactic(auto, unfolding(crate::specs::Reports::open_json))]
fn push_open(out: &mut Vec<u8>, cluster: &Cluster, call: OpenCall) -> Result<(), OutOfMemory>
    ensures { OnOk result (out.new.items ≡ out.old.items ++ open_json cluster.now call) }
{
    push_text(out, "{")?;
    push_call(out, cluster, call.ask, call.node, call.app)?;
    push_text(out, "}")
}

// Adds calls that haven't returned, each behind a comma.
fn push_each_open(
    out: &mut Vec<u8>,
    cluster: &Cluster,
    calls: &[OpenCall],
) -> Result<(), OutOfMemory>
    ensures { OnOk result (out.new.items
        ≡ out.old.items ++ flat_map (behind_comma (open_json cluster.now)) calls.now) }
{
    for call in calls {
        push_text(out, ",")?;
        push_open(out, cluster, *call)?;
    }
    Ok(())
}

// Adds the array of calls that haven't returned.
#[tactic(auto, using(rh_json_text::proofs::Arrays::array_is_closed))]
fn push_all_open(
    out: &mut Vec<u8>,
    cluster: &Cluster,
    calls: &[OpenCall],
) -> Result<(), OutOfMemory>
    ensures { OnOk result
        (out.new.items ≡ out.old.items ++ json_array (open_json cluster.now) calls.now) }
{
    let start = out.len();
    push_each_open(out, cluster, calls)?;
    close_array(out, start)
}

// Adds the nodes.
fn push_nodes_at(
    alloc: Global,
    out: &mut Vec<u8>,
    cluster: &Cluster,
    nodes: &[NodeReport],
) -> Result<(), OutOfMemory>
    ensures { OnOk result (out.new.items ≡ out.old.items ++ nodes_list cluster.now nodes.now) }
{
    push_text(out, ",\"nodes\":")?;
    push_all_nodes(alloc, out, cluster, nodes)
}

/// Adds the field of the distributed applications.
pub fn push_apps_at(
    out: &mut Vec<u8>,
    cluster: &Cluster,
    apps: &[AppReport],
) -> Result<(), OutOfMemory>
    ensures { OnOk result (out.new.items ≡ out.old.items ++ apps_list cluster.now apps.now) }
{
    push_text(out, ",\"applications\":")?;
    push_all_apps(out, cluster, apps)
}

/// Adds the field of the calls that haven't returned.
pub fn push_open_at(
    out: &mut Vec<u8>,
    cluster: &Cluster,
    calls: &[OpenCall],
) -> Result<(), OutOfMemory>
    ensures { OnOk result (out.new.items ≡ out.old.items ++ open_list cluster.now calls.now) }
{
    push_text(out, ",\"open\":")?;
    push_all_open(out, cluster, calls)
}

// Adds the nodes, the distributed applications, and the calls that haven't returned.
#[tactic(auto, unfolding(crate::specs::Reports::parts_json))]
fn push_parts(
    alloc: Global,
    out: &mut Vec<u8>,
    cluster: &Cluster,
    report: &Report,
) -> Result<(), OutOfMemory>
    ensures { OnOk result (out.new.items ≡ out.old.items ++ parts_json cluster.now report.now) }
{
    push_nodes_at(alloc, out, cluster, report.nodes.as_slice())?;
    push_apps_at(out, cluster, report.apps.as_slice())?;
    push_open_at(out, cluster, report.calls.as_slice())
}

/// Adds the report of a state behind so many steps, of so many.
#[tactic(auto, unfolding(crate::specs::Reports::report_json))]
pub fn push_report(
    alloc: Global,
    out: &mut Vec<u8>,
    cursor: usize,
    trail: usize,
    cluster: &Cluster,
    report: &Report,
) -> Result<(), OutOfMemory>
    ensures { OnOk result
        (out.new.items ≡ out.old.items ++ report_json cursor trail cluster.now report.now) }
{
    push_place(alloc, out, report.time, cursor, trail)?;
    push_parts(alloc, out, cluster, report)?;
    push_text(out, "}")
}
