//! A node in the report.

ghost use Rattle.std.specs.Prelude.{◌≡◌, ◌++◌, codes, OnOk};
ghost use Rattle.rh_json_text.specs.Json.{json_string};
ghost use Rattle.rh_otp_json_lines.specs.Nodes.{mode_words, mode_json, running_list, waiting_list, forbidden_list, starting_list, lists_json, node_report_json};

use crate::hangs::push_hanging;
use crate::rows::{push_apps, push_running, push_waiting};
use rh_base::OutOfMemory;
use rh_json_lines::push_node;
use rh_json_text::{push_number, push_text};
use rh_model::{App, Cluster};
use rh_otp_node::Phase;
use rh_otp_report::{NodeReport, Runs, Waits};
use std::alloc::Global;

// The field of how far a node is, and the key of the field behind it: the word needs no escape.
#[tactic(auto, unfolding(rh_json_text::specs::Json::json_string, rh_json_text::specs::Json::escaped))]
fn mode_field(phase: Phase) -> &'static str
    ensures { result.now
        ≡ codes ",\"mode\":" ++ json_string (mode_words phase) ++ codes ",\"starts\":" }
{
    match phase {
        Phase::Down => ",\"mode\":\"down\",\"starts\":",
        Phase::Waiting => ",\"mode\":\"waiting\",\"starts\":",
        Phase::Up => ",\"mode\":\"up\",\"starts\":",
    }
}

// Adds the name of a node, how far it is, and how often it has begun.
#[tactic(auto, unfolding(crate::specs::Nodes::mode_json))]
fn push_mode(
    alloc: Global,
    out: &mut Vec<u8>,
    cluster: &Cluster,
    report: &NodeReport,
) -> Result<(), OutOfMemory>
    ensures { OnOk result (out.new.items ≡ out.old.items ++ mode_json cluster.now report.now) }
{
    push_text(out, "{\"name\":")?;
    push_node(out, cluster, report.node)?;
    push_text(out, mode_field(report.phase))?;
    push_number(alloc, out, report.life as u128)
}

// Adds what runs at a node.
fn push_running_at(out: &mut Vec<u8>, cluster: &Cluster, rows: &[Runs]) -> Result<(), OutOfMemory>
    ensures { OnOk result (out.new.items ≡ out.old.items ++ running_list cluster.now rows.now) }
{
    push_text(out, ",\"running\":")?;
    push_running(out, cluster, rows)
}

// Adds what waits there.
fn push_waiting_at(out: &mut Vec<u8>, cluster: &Cluster, rows: &[Waits]) -> Result<(), OutOfMemory>
    ensures { OnOk result (out.new.items ≡ out.old.items ++ waiting_list cluster.now rows.now) }
{
    push_text(out, ",\"waiting\":")?;
    push_waiting(out, cluster, rows)
}

// Adds what is forbidden there.
fn push_forbidden_at(out: &mut Vec<u8>, cluster: &Cluster, apps: &[App]) -> Result<(), OutOfMemory>
    ensures { OnOk result (out.new.items ≡ out.old.items ++ forbidden_list cluster.now apps.now) }
{
    push_text(out, ",\"forbidden\":")?;
    push_apps(out, cluster, apps)
}

// Adds what is being started there.
fn push_starting_at(out: &mut Vec<u8>, cluster: &Cluster, apps: &[App]) -> Result<(), OutOfMemory>
    ensures { OnOk result (out.new.items ≡ out.old.items ++ starting_list cluster.now apps.now) }
{
    push_text(out, ",\"starting\":")?;
    push_apps(out, cluster, apps)
}

// Adds what runs at a node, waits there, is forbidden there, and is being started there.
#[tactic(auto, unfolding(crate::specs::Nodes::lists_json))]
fn push_lists(out: &mut Vec<u8>, cluster: &Cluster, report: &NodeReport) -> Result<(), OutOfMemory>
    ensures { OnOk result (out.new.items ≡ out.old.items ++ lists_json cluster.now report.now) }
{
    push_running_at(out, cluster, report.running.as_slice())?;
    push_waiting_at(out, cluster, report.waiting.as_slice())?;
    push_forbidden_at(out, cluster, report.forbidden.as_slice())?;
    push_starting_at(out, cluster, report.starting.as_slice())
}

/// Adds a node: how far it is, what runs, waits, is forbidden and is being started there, what hangs, and its timers.
#[tactic(auto, unfolding(crate::specs::Nodes::node_report_json))]
pub fn push_node_report(
    alloc: Global,
    out: &mut Vec<u8>,
    cluster: &Cluster,
    report: &NodeReport,
) -> Result<(), OutOfMemory>
    ensures { OnOk result
        (out.new.items ≡ out.old.items ++ node_report_json cluster.now report.now) }
{
    push_mode(alloc, out, cluster, report)?;
    push_lists(out, cluster, report)?;
    push_hanging(alloc, out, cluster, report)?;
    push_text(out, "}")
}
