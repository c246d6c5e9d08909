//! The lines of a node.

ghost use Rattle.std.specs.Prelude.{◌≡◌, ◌++◌, ◌<◌, not, OnOk};
ghost use Rattle.std.specs.List.{flat_map, list_any};
ghost use Rattle.std.specs.String.{string_bytes};
ghost use Rattle.rh_model.specs.ClusterView.{node_count, app_count};
ghost use Rattle.rh_state.specs.Numbers.{apps_of};
ghost use Rattle.rh_state.specs.StateView.{running_at, waiting_at, is_allowed};
ghost use Rattle.rh_state.specs.Stored.{read};
ghost use Rattle.rh_calls.specs.Report.{node_line, running_line, waiting_line, forbidden_line, line_if_forbidden, node_lines};

use crate::text::words::{
    app_word, last_restart, push_decimal, push_kind_end, spaced_mode, spaced_restart,
};
use rh_base::OutOfMemory;
use rh_model::{App, Cluster, Node};
use rh_state::State;

// Adds the lines of a node.
#[tactic(auto, unfolding(crate::specs::Report::node_lines))]
pub(crate) fn push_node_lines(
    text: &mut String,
    state: &State,
    node: Node,
) -> Result<(), OutOfMemory>
    requires { node.0 < node_count (read state.now).cluster }
    ensures { OnOk result
        (string_bytes text.new ≡ string_bytes text.old ++ node_lines (read state.now) node) }
{
    push_node_line(text, state, node)?;
    push_running(text, state, node)?;
    push_waiting(text, state, node)?;
    push_forbidden(text, state, node)
}

// Adds the line of a node alone.
#[tactic(auto, unfolding(crate::specs::Report::node_line))]
fn push_node_line(text: &mut String, state: &State, node: Node) -> Result<(), OutOfMemory>
    requires { node.0 < node_count (read state.now).cluster }
    ensures { OnOk result
        (string_bytes text.new ≡ string_bytes text.old ++ node_line (read state.now) node) }
{
    text.push_str("node ")?;
    text.push_str(state.cluster().node_name(node))?;
    text.push_str(spaced_mode(state.mode(node)))?;
    push_decimal(text, state.incarnation(node) as u64)?;
    text.push_str("\n")?;
    Ok(())
}

// Adds a line for each application that runs at a node.
fn push_running(text: &mut String, state: &State, node: Node) -> Result<(), OutOfMemory>
    requires { node.0 < node_count (read state.now).cluster }
    ensures { OnOk result (string_bytes text.new ≡ string_bytes text.old
        ++ flat_map (running_line (read state.now) node) (running_at (read state.now) node)) }
{
    state.formed();
    let mut next = state.first_running(node);
    'running: while let Some(app) = next {
        push_running_line(text, state, node, app)?;
        next = state.next_in_list(node, app);
    }
    Ok(())
}

// Adds the line of an application that runs.
#[tactic(auto, unfolding(crate::specs::Report::running_line))]
fn push_running_line(
    text: &mut String,
    state: &State,
    node: Node,
    app: App,
) -> Result<(), OutOfMemory>
    requires node { node.0 < node_count (read state.now).cluster }
    requires app { app.0 < app_count (read state.now).cluster }
    ensures { OnOk result
        (string_bytes text.new ≡ string_bytes text.old ++ running_line (read state.now) node app) }
{
    text.push_str("  running ")?;
    text.push_str(state.cluster().app_name(app))?;
    text.push_str(spaced_restart(state.restart_of(node, app)))?;
    push_kind_end(text, state.cluster(), state.kind_of(node, app))
}

// Adds a line for each application that waits at a node.
fn push_waiting(text: &mut String, state: &State, node: Node) -> Result<(), OutOfMemory>
    requires { node.0 < node_count (read state.now).cluster }
    ensures { OnOk result (string_bytes text.new ≡ string_bytes text.old
        ++ flat_map (waiting_line (read state.now) node) (waiting_at (read state.now) node)) }
{
    state.formed();
    let mut next = state.first_waiting(node);
    'waiting: while let Some(app) = next {
        push_waiting_line(text, state, node, app)?;
        next = state.next_in_list(node, app);
    }
    Ok(())
}

// Adds the line of an application that waits.
#[tactic(auto, unfolding(crate::specs::Report::waiting_line))]
fn push_waiting_line(
    text: &mut String,
    state: &State,
    node: Node,
    app: App,
) -> Result<(), OutOfMemory>
    requires node { node.0 < node_count (read state.now).cluster }
    requires app { app.0 < app_count (read state.now).cluster }
    ensures { OnOk result
        (string_bytes text.new ≡ string_bytes text.old ++ waiting_line (read state.now) node app) }
{
    text.push_str("  waiting ")?;
    text.push_str(state.cluster().app_name(app))?;
    text.push_str(last_restart(state.restart_of(node, app)))?;
    Ok(())
}

// Whether there is a no among answers. All are read, without a stop at the first one, so that many are read in one step.
fn has_no(answers: &[bool]) -> bool
    ensures { result ≡ list_any not answers.now }
{
    let mut found = false;
    for answer in answers {
        found |= !*answer;
    }
    found
}

/// Whether there is an application that may not run at a node. At most nodes there is none, and this says so before each is asked for.
pub fn forbids_any(state: &State, node: Node) -> bool
    requires { node.0 < node_count (read state.now).cluster }
    ensures { result ≡ list_any (λ a. not (is_allowed (read state.now) node a))
        (apps_of (read state.now).cluster) }
{
    state.formed();
    has_no(state.permissions(node))
}

// Adds a line for each application that may not run at a node.
#[tactic(auto, unfolding(rh_state::specs::Numbers::apps_of))]
fn push_forbidden(text: &mut String, state: &State, node: Node) -> Result<(), OutOfMemory>
    requires { node.0 < node_count (read state.now).cluster }
    ensures { OnOk result (string_bytes text.new ≡ string_bytes text.old
        ++ flat_map (line_if_forbidden (read state.now) node) (apps_of (read state.now).cluster)) }
{
    if !forbids_any(state, node) {
        return Ok(());
    }
    let count = state.cluster().app_count();
    for number in 0..count {
        push_line_if_forbidden(text, state, node, App(number as u8))?;
    }
    Ok(())
}

// Adds the line of an application, if it may not run at a node.
#[tactic(auto, unfolding(crate::specs::Report::line_if_forbidden))]
fn push_line_if_forbidden(
    text: &mut String,
    state: &State,
    node: Node,
    app: App,
) -> Result<(), OutOfMemory>
    requires node { node.0 < node_count (read state.now).cluster }
    requires app { app.0 < app_count (read state.now).cluster }
    ensures { OnOk result (string_bytes text.new
        ≡ string_bytes text.old ++ line_if_forbidden (read state.now) node app) }
{
    if state.allowed(node, app) {
        return Ok(());
    }
    push_forbidden_line(text, state.cluster(), app)
}

// Adds the line of an application that may not run.
#[tactic(auto, unfolding(crate::specs::Report::forbidden_line))]
fn push_forbidden_line(text: &mut String, cluster: &Cluster, app: App) -> Result<(), OutOfMemory>
    ensures { OnOk result
        (string_bytes text.new ≡ string_bytes text.old ++ forbidden_line cluster.now app) }
{
    text.push_str("  forbidden ")?;
    text.push_str(app_word(cluster, app))?;
    text.push_str("\n")?;
    Ok(())
}
