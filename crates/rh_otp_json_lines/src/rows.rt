//! What runs at a node, and what waits there.

ghost use Rattle.std.specs.Prelude.{◌≡◌, ◌++◌, OnOk};
ghost use Rattle.std.specs.List.{flat_map};
ghost use Rattle.rh_json_lines.specs.ClusterLines.{app_json, node_json, group_json};
ghost use Rattle.rh_json_text.specs.Json.{json_array, behind_comma};
ghost use Rattle.rh_otp_json_lines.specs.Nodes.{known_json, started_json, running_json, waiting_json};

use rh_base::OutOfMemory;
use rh_json_lines::{push_app, push_app_at, push_node, push_start};
use rh_json_text::{close_array, push_text};
use rh_model::{App, Cluster, Node, Restart};
use rh_otp_report::{Runs, Waits};
use rh_otp_text::kind_of;

// The field of a restart type, if it is known: its word needs no escape.
#[tactic(auto, unfolding(crate::specs::Nodes::known_json, rh_json_text::specs::Json::json_string, rh_json_text::specs::Json::escaped))]
fn known_field(restart: Option<Restart>) -> &'static str
    ensures { result.now ≡ known_json restart }
{
    match restart {
        Some(Restart::Permanent) => ",\"restart\":\"permanent\"",
        Some(Restart::Transient) => ",\"restart\":\"transient\"",
        Some(Restart::Temporary) => ",\"restart\":\"temporary\"",
        None => ",\"restart\":\"undefined\"",
    }
}

// Adds an application that is started at a node, without the end of the object.
#[tactic(auto, unfolding(crate::specs::Nodes::started_json))]
fn push_started(
    out: &mut Vec<u8>,
    cluster: &Cluster,
    app: App,
    restart: Option<Restart>,
) -> Result<(), OutOfMemory>
    ensures { OnOk result
        (out.new.items ≡ out.old.items ++ started_json cluster.now app restart) }
{
    push_app_at(out, "{\"application\":", cluster, app)?;
    push_text(out, known_field(restart))
}

// Adds an application that runs.
#[tactic(auto, unfolding(crate::specs::Nodes::running_json))]
fn push_runs(out: &mut Vec<u8>, cluster: &Cluster, runs: Runs) -> Result<(), OutOfMemory>
    ensures { OnOk result (out.new.items ≡ out.old.items ++ running_json cluster.now runs) }
{
    push_started(out, cluster, runs.app, runs.restart)?;
    push_start(out, cluster, kind_of(runs.kind))?;
    push_text(out, "}")
}

// Adds an application that waits.
#[tactic(auto, unfolding(crate::specs::Nodes::waiting_json))]
fn push_waits(out: &mut Vec<u8>, cluster: &Cluster, waits: Waits) -> Result<(), OutOfMemory>
    ensures { OnOk result (out.new.items ≡ out.old.items ++ waiting_json cluster.now waits) }
{
    push_started(out, cluster, waits.app, waits.restart)?;
    push_text(out, "}")
}

// Adds those that run, each behind a comma.
fn push_each_running(out: &mut Vec<u8>, cluster: &Cluster, rows: &[Runs]) -> Result<(), OutOfMemory>
    ensures { OnOk result (out.new.items
        ≡ out.old.items ++ flat_map (behind_comma (running_json cluster.now)) rows.now) }
{
    for row in rows {
        push_text(out, ",")?;
        push_runs(out, cluster, *row)?;
    }
    Ok(())
}

// Adds the array of those that run.
#[tactic(auto, using(rh_json_text::proofs::Arrays::array_is_closed))]
pub(crate) fn push_running(
    out: &mut Vec<u8>,
    cluster: &Cluster,
    rows: &[Runs],
) -> Result<(), OutOfMemory>
    ensures { OnOk result
        (out.new.items ≡ out.old.items ++ json_array (running_json cluster.now) rows.now) }
{
    let start = out.len();
    push_each_running(out, cluster, rows)?;
    close_array(out, start)
}

// Adds those that wait, each behind a comma.
fn push_each_waiting(
    out: &mut Vec<u8>,
    cluster: &Cluster,
    rows: &[Waits],
) -> Result<(), OutOfMemory>
    ensures { OnOk result (out.new.items
        ≡ out.old.items ++ flat_map (behind_comma (waiting_json cluster.now)) rows.now) }
{
    for row in rows {
        push_text(out, ",")?;
        push_waits(out, cluster, *row)?;
    }
    Ok(())
}

// Adds the array of those that wait.
#[tactic(auto, using(rh_json_text::proofs::Arrays::array_is_closed))]
pub(crate) fn push_waiting(
    out: &mut Vec<u8>,
    cluster: &Cluster,
    rows: &[Waits],
) -> Result<(), OutOfMemory>
    ensures { OnOk result
        (out.new.items ≡ out.old.items ++ json_array (waiting_json cluster.now) rows.now) }
{
    let start = out.len();
    push_each_waiting(out, cluster, rows)?;
    close_array(out, start)
}

// Adds the names of applications, each behind a comma.
fn push_each_app(out: &mut Vec<u8>, cluster: &Cluster, apps: &[App]) -> Result<(), OutOfMemory>
    ensures { OnOk result (out.new.items
        ≡ out.old.items ++ flat_map (behind_comma (app_json cluster.now)) apps.now) }
{
    for app in apps {
        push_text(out, ",")?;
        push_app(out, cluster, *app)?;
    }
    Ok(())
}

// Adds the array of applications.
#[tactic(auto, using(rh_json_text::proofs::Arrays::array_is_closed))]
pub(crate) fn push_apps(
    out: &mut Vec<u8>,
    cluster: &Cluster,
    apps: &[App],
) -> Result<(), OutOfMemory>
    ensures { OnOk result
        (out.new.items ≡ out.old.items ++ json_array (app_json cluster.now) apps.now) }
{
    let start = out.len();
    push_each_app(out, cluster, apps)?;
    close_array(out, start)
}

// Adds the names of nodes, each behind a comma.
fn push_each_node(out: &mut Vec<u8>, cluster: &Cluster, nodes: &[Node]) -> Result<(), OutOfMemory>
    ensures { OnOk result (out.new.items
        ≡ out.old.items ++ flat_map (behind_comma (node_json cluster.now)) nodes.now) }
{
    for node in nodes {
        push_text(out, ",")?;
        push_node(out, cluster, *node)?;
    }
    Ok(())
}

// Adds the array of nodes.
#[tactic(auto, unfolding(rh_json_lines::specs::ClusterLines::group_json), using(rh_json_text::proofs::Arrays::array_is_closed))]
pub(crate) fn push_nodes(
    out: &mut Vec<u8>,
    cluster: &Cluster,
    nodes: &[Node],
) -> Result<(), OutOfMemory>
    ensures { OnOk result (out.new.items ≡ out.old.items ++ group_json cluster.now nodes.now) }
{
    let start = out.len();
    push_each_node(out, cluster, nodes)?;
    close_array(out, start)
}
