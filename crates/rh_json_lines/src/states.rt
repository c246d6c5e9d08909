//! A node in a report.

ghost use Rattle.std.specs.Prelude.{◌≡◌, ◌<◌, ◌++◌, [], not, if◌then◌else◌, codes, OnOk, filter};
ghost use Rattle.std.specs.List.{flat_map};
ghost use Rattle.rh_model.specs.ClusterView.{node_count, app_count};
ghost use Rattle.rh_state.specs.StateView.{running_at, waiting_at, is_allowed};
ghost use Rattle.rh_state.specs.Stored.{read};
ghost use Rattle.rh_calls.specs.Report.{mode_words, restart_words};
ghost use Rattle.rh_json_text.specs.Json.{json_string, json_array, behind_comma};
ghost use Rattle.rh_json_lines.specs.ClusterLines.{app_json};
ghost use Rattle.rh_json_lines.specs.Reports.{started_json, running_json, waiting_json, forbidden_at, mode_json, running_list, waiting_list, forbidden_list, lists_json, state_json};

use crate::clusters::{push_app, push_node};
use crate::starts::push_start;
use rh_base::OutOfMemory;
use rh_calls::forbids_any;
use rh_cluster::{App, Node, Restart};
use rh_json_text::{close_array, push_number, push_text};
use rh_state::{Mode, State};
use std::alloc::Global;

// The field of a mode, and the key of the field behind it. None of the words has a byte that is escaped, so they stand here as they are
// written: nothing is left to look for.
#[tactic(auto, unfolding(rh_json_text::specs::Json::json_string, rh_json_text::specs::Json::escaped))]
fn mode_field(mode: Mode) -> &'static str
    ensures { result.now
        ≡ codes ",\"mode\":" ++ json_string (mode_words mode) ++ codes ",\"starts\":" }
{
    match mode {
        Mode::Down => ",\"mode\":\"down\",\"starts\":",
        Mode::Waiting => ",\"mode\":\"waiting\",\"starts\":",
        Mode::Up => ",\"mode\":\"up\",\"starts\":",
    }
}

// The field of a restart type.
#[tactic(auto, unfolding(rh_json_text::specs::Json::json_string, rh_json_text::specs::Json::escaped))]
fn restart_field(restart: Restart) -> &'static str
    ensures { result.now ≡ codes ",\"restart\":" ++ json_string (restart_words restart) }
{
    match restart {
        Restart::Permanent => ",\"restart\":\"permanent\"",
        Restart::Transient => ",\"restart\":\"transient\"",
        Restart::Temporary => ",\"restart\":\"temporary\"",
    }
}

// Adds, behind a comma, an application that is started at a node, without the end of the object.
#[tactic(auto, unfolding(crate::specs::Reports::started_json))]
fn push_started(out: &mut Vec<u8>, state: &State, node: Node, app: App) -> Result<(), OutOfMemory>
    requires node { node.0 < node_count (read state.now).cluster }
    requires app { app.0 < app_count (read state.now).cluster }
    ensures { OnOk result
        (out.new.items ≡ out.old.items ++ behind_comma (started_json (read state.now) node) app) }
{
    push_text(out, ",{\"application\":")?;
    push_app(out, state.cluster(), app)?;
    push_text(out, restart_field(state.restart_of(node, app)))
}

// Adds, behind a comma, an application that runs at a node.
#[tactic(auto, unfolding(crate::specs::Reports::running_json))]
fn push_running(out: &mut Vec<u8>, state: &State, node: Node, app: App) -> Result<(), OutOfMemory>
    requires node { node.0 < node_count (read state.now).cluster }
    requires app { app.0 < app_count (read state.now).cluster }
    ensures { OnOk result
        (out.new.items ≡ out.old.items ++ behind_comma (running_json (read state.now) node) app) }
{
    push_started(out, state, node, app)?;
    push_start(out, state.cluster(), state.kind_of(node, app))?;
    push_text(out, "}")
}

// Adds, behind a comma, an application that waits at a node.
#[tactic(auto, unfolding(crate::specs::Reports::waiting_json))]
fn push_waiting(out: &mut Vec<u8>, state: &State, node: Node, app: App) -> Result<(), OutOfMemory>
    requires node { node.0 < node_count (read state.now).cluster }
    requires app { app.0 < app_count (read state.now).cluster }
    ensures { OnOk result
        (out.new.items ≡ out.old.items ++ behind_comma (waiting_json (read state.now) node) app) }
{
    push_started(out, state, node, app)?;
    push_text(out, "}")
}

// Adds the applications that run at a node, each behind a comma.
fn push_each_running(out: &mut Vec<u8>, state: &State, node: Node) -> Result<(), OutOfMemory>
    requires { node.0 < node_count (read state.now).cluster }
    ensures { OnOk result (out.new.items ≡ out.old.items ++ flat_map
        (behind_comma (running_json (read state.now) node)) (running_at (read state.now) node)) }
{
    state.formed();
    let mut next = state.first_running(node);
    'running: while let Some(app) = next {
        push_running(out, state, node, app)?;
        next = state.next_in_list(node, app);
    }
    Ok(())
}

// Adds the applications that wait at a node, each behind a comma.
fn push_each_waiting(out: &mut Vec<u8>, state: &State, node: Node) -> Result<(), OutOfMemory>
    requires { node.0 < node_count (read state.now).cluster }
    ensures { OnOk result (out.new.items ≡ out.old.items ++ flat_map
        (behind_comma (waiting_json (read state.now) node)) (waiting_at (read state.now) node)) }
{
    state.formed();
    let mut next = state.first_waiting(node);
    'waiting: while let Some(app) = next {
        push_waiting(out, state, node, app)?;
        next = state.next_in_list(node, app);
    }
    Ok(())
}

// Adds, behind a comma, an application that may not run at a node.
fn push_if_forbidden(
    out: &mut Vec<u8>,
    state: &State,
    node: Node,
    app: App,
) -> Result<(), OutOfMemory>
    requires node { node.0 < node_count (read state.now).cluster }
    requires app { app.0 < app_count (read state.now).cluster }
    ensures { OnOk result
        (out.new.items ≡ out.old.items ++ (if not (is_allowed (read state.now) node app)
        then behind_comma (app_json (read state.now).cluster) app else [])) }
{
    if state.allowed(node, app) {
        return Ok(());
    }
    push_text(out, ",")?;
    push_app(out, state.cluster(), app)
}

// Adds the applications that may not run at a node, each behind a comma.
#[tactic(auto, unfolding(rh_state::specs::Numbers::apps_of))]
fn push_each_forbidden(out: &mut Vec<u8>, state: &State, node: Node) -> Result<(), OutOfMemory>
    requires { node.0 < node_count (read state.now).cluster }
    ensures { OnOk result (out.new.items ≡ out.old.items ++ flat_map
        (behind_comma (app_json (read state.now).cluster)) (forbidden_at (read state.now) node)) }
{
    if !forbids_any(state, node) {
        return Ok(());
    }
    let count = state.cluster().app_count();
    for number in 0..count {
        push_if_forbidden(out, state, node, App(number as u8))?;
    }
    Ok(())
}

// Adds the array of the applications that run at a node.
#[tactic(auto, using(rh_json_text::proofs::Arrays::array_is_closed))]
fn push_all_running(out: &mut Vec<u8>, state: &State, node: Node) -> Result<(), OutOfMemory>
    requires { node.0 < node_count (read state.now).cluster }
    ensures { OnOk result (out.new.items ≡ out.old.items
        ++ json_array (running_json (read state.now) node) (running_at (read state.now) node)) }
{
    let start = out.len();
    push_each_running(out, state, node)?;
    close_array(out, start)
}

// Adds the array of those that wait there.
#[tactic(auto, using(rh_json_text::proofs::Arrays::array_is_closed))]
fn push_all_waiting(out: &mut Vec<u8>, state: &State, node: Node) -> Result<(), OutOfMemory>
    requires { node.0 < node_count (read state.now).cluster }
    ensures { OnOk result (out.new.items ≡ out.old.items
        ++ json_array (waiting_json (read state.now) node) (waiting_at (read state.now) node)) }
{
    let start = out.len();
    push_each_waiting(out, state, node)?;
    close_array(out, start)
}

// Adds the array of those that may not run there.
#[tactic(auto, using(rh_json_text::proofs::Arrays::array_is_closed))]
fn push_all_forbidden(out: &mut Vec<u8>, state: &State, node: Node) -> Result<(), OutOfMemory>
    requires { node.0 < node_count (read state.now).cluster }
    ensures { OnOk result (out.new.items ≡ out.old.items
        ++ json_array (app_json (read state.now).cluster) (forbidden_at (read state.now) node)) }
{
    let start = out.len();
    push_each_forbidden(out, state, node)?;
    close_array(out, start)
}

// Adds the name of a node, what it does, and how often it was booted.
#[tactic(auto, unfolding(crate::specs::Reports::mode_json))]
fn push_mode(alloc: Global, out: &mut Vec<u8>, state: &State, node: Node) -> Result<(), OutOfMemory>
    requires { node.0 < node_count (read state.now).cluster }
    ensures { OnOk result (out.new.items ≡ out.old.items ++ mode_json (read state.now) node) }
{
    push_text(out, "{\"name\":")?;
    push_node(out, state.cluster(), node)?;
    push_text(out, mode_field(state.mode(node)))?;
    push_number(alloc, out, state.incarnation(node) as u128)
}

// Adds what runs at a node.
#[tactic(auto, unfolding(crate::specs::Reports::running_list))]
fn push_running_at(out: &mut Vec<u8>, state: &State, node: Node) -> Result<(), OutOfMemory>
    requires { node.0 < node_count (read state.now).cluster }
    ensures { OnOk result (out.new.items ≡ out.old.items ++ running_list (read state.now) node) }
{
    push_text(out, ",\"running\":")?;
    push_all_running(out, state, node)
}

// Adds what waits there.
#[tactic(auto, unfolding(crate::specs::Reports::waiting_list))]
fn push_waiting_at(out: &mut Vec<u8>, state: &State, node: Node) -> Result<(), OutOfMemory>
    requires { node.0 < node_count (read state.now).cluster }
    ensures { OnOk result (out.new.items ≡ out.old.items ++ waiting_list (read state.now) node) }
{
    push_text(out, ",\"waiting\":")?;
    push_all_waiting(out, state, node)
}

// Adds what may not run there.
#[tactic(auto, unfolding(crate::specs::Reports::forbidden_list))]
fn push_forbidden_at(out: &mut Vec<u8>, state: &State, node: Node) -> Result<(), OutOfMemory>
    requires { node.0 < node_count (read state.now).cluster }
    ensures { OnOk result (out.new.items ≡ out.old.items ++ forbidden_list (read state.now) node) }
{
    push_text(out, ",\"forbidden\":")?;
    push_all_forbidden(out, state, node)
}

// Adds what runs at a node, what waits there, and what may not run there.
#[tactic(auto, unfolding(crate::specs::Reports::lists_json))]
fn push_lists(out: &mut Vec<u8>, state: &State, node: Node) -> Result<(), OutOfMemory>
    requires { node.0 < node_count (read state.now).cluster }
    ensures { OnOk result (out.new.items ≡ out.old.items ++ lists_json (read state.now) node) }
{
    push_running_at(out, state, node)?;
    push_waiting_at(out, state, node)?;
    push_forbidden_at(out, state, node)
}

// Adds a node.
#[tactic(auto, unfolding(crate::specs::Reports::state_json))]
pub fn push_state(
    alloc: Global,
    out: &mut Vec<u8>,
    state: &State,
    node: Node,
) -> Result<(), OutOfMemory>
    requires { node.0 < node_count (read state.now).cluster }
    ensures { OnOk result (out.new.items ≡ out.old.items ++ state_json (read state.now) node) }
{
    push_mode(alloc, out, state, node)?;
    push_lists(out, state, node)?;
    push_text(out, "}")
}
