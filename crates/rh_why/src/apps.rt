//! Why an application waits.

ghost use Rattle.std.specs.Prelude.{◌≡◌, ◌<◌, ◌++◌, [], if◌then◌else◌, OnOk, IfOk};
ghost use Rattle.std.specs.Option.{option_to_list};
ghost use Rattle.rh_model.specs.ClusterView.{node_count, app_count};
ghost use Rattle.rh_state.specs.StateView.{waits_at};
ghost use Rattle.rh_state.specs.Stored.{read};
ghost use Rattle.rh_why.specs.Reasons.{lacking, forbidding, by_standing, reasons};

use crate::reason::{Reason, Reasons};
use rh_base::OutOfMemory;
use rh_model::{App, Node};
use rh_place::missing_dep;
use rh_state::{Place, Standing, State, Timer};
use std::alloc::Global;

/// Why an application that is started at a node waits there: all reasons that hold in this state, in a fixed order. First the first
/// of its dependencies that doesn't run there; then that it may not run there; then, of a distributed one, where it runs, with
/// which node it was lost, or that it is to run nowhere. There are none if it doesn't wait there.
pub fn why_app_waits(
    alloc: Global,
    state: &State,
    app: App,
    node: Node,
) -> Result<Vec<Reason>, OutOfMemory>
    requires node { node.0 < node_count (read state.now).cluster }
    requires app { app.0 < app_count (read state.now).cluster }
    ensures { IfOk result (λ found. found.items ≡ reasons (read state.now) app node) }
{
    let mut found = Vec::new(alloc);
    let reasons = reasons_of(state, app, node);
    push_if_any(&mut found, reasons.lacking)?;
    push_if_any(&mut found, reasons.forbidding)?;
    push_if_any(&mut found, reasons.by_standing)?;
    Ok(found)
}

/// Why an application that is started at a node waits there, as [`why_app_waits`] says it, without a list: so it wants no memory.
#[tactic(auto, unfolding(crate::specs::Reasons::reasons))]
pub fn reasons_of(state: &State, app: App, node: Node) -> Reasons
    requires node { node.0 < node_count (read state.now).cluster }
    requires app { app.0 < app_count (read state.now).cluster }
    ensures all { option_to_list result.lacking ++ option_to_list result.forbidding
        ++ option_to_list result.by_standing ≡ reasons (read state.now) app node }
    ensures lacking { option_to_list result.lacking
        ≡ (if waits_at (read state.now) node app then lacking (read state.now) app node else []) }
    ensures forbidding { option_to_list result.forbidding ≡
        (if waits_at (read state.now) node app then forbidding (read state.now) app node else []) }
    ensures by_standing { option_to_list result.by_standing
        ≡ (if waits_at (read state.now) node app then by_standing (read state.now) app else []) }
{
    if !waits(state, app, node) {
        return Reasons {
            lacking: None,
            forbidding: None,
            by_standing: None,
        };
    }
    Reasons {
        lacking: unmet_dependency(state, app, node),
        forbidding: missing_permission(state, app, node),
        by_standing: by_standing(state, app),
    }
}

// Does an application wait at a node?
fn waits(state: &State, app: App, node: Node) -> bool
    requires node { node.0 < node_count (read state.now).cluster }
    requires app { app.0 < app_count (read state.now).cluster }
    ensures { result ≡ waits_at (read state.now) node app }
{
    state.formed();
    matches!(state.place_of(node, app), Place::InWaiting)
}

// Adds a reason, if there is one.
fn push_if_any(found: &mut Vec<Reason>, reason: Option<Reason>) -> Result<(), OutOfMemory>
    ensures { OnOk result (found.new.items ≡ found.old.items ++ option_to_list reason) }
{
    if let Some(reason) = reason {
        found.push(reason)?;
    }
    Ok(())
}

// The first of its dependencies that doesn't run at the node.
fn unmet_dependency(state: &State, app: App, node: Node) -> Option<Reason>
    requires node { node.0 < node_count (read state.now).cluster }
    requires app { app.0 < app_count (read state.now).cluster }
    ensures { option_to_list result ≡ lacking (read state.now) app node }
{
    match missing_dep(state, node, app) {
        Some(dep) => Some(Reason::Needs { dep }),
        None => None,
    }
}

// Its permission at the node.
fn missing_permission(state: &State, app: App, node: Node) -> Option<Reason>
    requires node { node.0 < node_count (read state.now).cluster }
    requires app { app.0 < app_count (read state.now).cluster }
    ensures { option_to_list result ≡ forbidding (read state.now) app node }
{
    if state.allowed(node, app) {
        None
    } else {
        Some(Reason::Forbidden)
    }
}

// Where it stands, if it is distributed.
fn by_standing(state: &State, app: App) -> Option<Reason>
    requires { app.0 < app_count (read state.now).cluster }
    ensures { option_to_list result ≡ by_standing (read state.now) app }
{
    if state.cluster().spread(app).is_none() {
        return None;
    }
    match state.standing(app) {
        Standing::Wanted(_) => None,
        Standing::Running(node) => Some(Reason::RunsAt { node }),
        Standing::Lost(node) => {
            let due = state.due_of(Timer::Failover(app))?;
            Some(Reason::LostWith { node, due })
        }
        Standing::Quiet => Some(Reason::Quiet),
    }
}
