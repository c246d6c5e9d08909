//! At which nodes a distributed application can be started by hand, and what refuses that it is started or stopped at all nodes.

ghost use Rattle.std.specs.Prelude.{◌≡◌};
ghost use Rattle.rh_state.specs.Shape.{IsNodeOf, IsAppOf};
ghost use Rattle.rh_state.specs.Stored.{read};
ghost use Rattle.rh_rules.specs.declared.event.Event.TheVariants.{StartAll, StopAll};
ghost use Rattle.rh_rules.specs.Everywhere.{is_host, is_target, has_host, has_target, missing_at_targets};
ghost use Rattle.rh_refusals.specs.Targets.{missing_if_target};
ghost use Rattle.rh_rules.specs.Refusals.{refused};

use crate::refusing::is_listed_at;
use crate::starting::{is_started_anywhere, is_started_at};
use rh_model::{App, Dep, Node, Restart};
use rh_place::missing_dep;
use rh_rules::Refusal;
use rh_state::{Mode, State};

// Is a node up, and may it start the application (kernel(6), `distributed`)?
fn is_host(state: &State, app: App, node: Node) -> bool
    requires node { IsNodeOf (read state.now).cluster node }
    requires app { IsAppOf (read state.now).cluster app }
    ensures { result ≡ is_host (read state.now) app node }
{
    state.mode(node) == Mode::Up && is_listed_at(state, app, node)
}

/// And isn't it started there?
pub fn is_target(state: &State, app: App, node: Node) -> bool
    requires node { IsNodeOf (read state.now).cluster node }
    requires app { IsAppOf (read state.now).cluster app }
    ensures { result ≡ is_target (read state.now) app node }
{
    is_host(state, app, node) && !is_started_at(state, node, app)
}

// Is some node up that may start it?
#[tactic(auto, unfolding(rh_rules::specs::Everywhere::has_host, rh_state::specs::Numbers::nodes_of))]
fn has_host(state: &State, app: App) -> bool
    requires { IsAppOf (read state.now).cluster app }
    ensures { result ≡ has_host (read state.now) app }
{
    let count = state.cluster().node_count();
    'nodes: for number in 0..count {
        if is_host(state, app, Node(number as u8)) {
            return true;
        }
    }
    false
}

// Is it still to be started at some node?
#[tactic(auto, unfolding(rh_rules::specs::Everywhere::has_target, rh_state::specs::Numbers::nodes_of))]
fn has_target(state: &State, app: App) -> bool
    requires { IsAppOf (read state.now).cluster app }
    ensures { result ≡ has_target (read state.now) app }
{
    let count = state.cluster().node_count();
    'nodes: for number in 0..count {
        if is_target(state, app, Node(number as u8)) {
            return true;
        }
    }
    false
}

// The first dependency that doesn't run at a node, if it is still to be started there.
fn missing_if_target(state: &State, app: App, node: Node) -> Option<Dep>
    requires node { IsNodeOf (read state.now).cluster node }
    requires app { IsAppOf (read state.now).cluster app }
    ensures { result ≡ missing_if_target (read state.now) app node }
{
    if is_target(state, app, node) {
        missing_dep(state, node, app)
    } else {
        None
    }
}

// The first dependency that doesn't run at the first of those nodes at which one doesn't.
#[tactic(auto, unfolding(rh_rules::specs::Everywhere::missing_at_targets))]
fn missing_at_targets(state: &State, app: App) -> Option<Dep>
    requires { IsAppOf (read state.now).cluster app }
    ensures { result ≡ missing_at_targets (read state.now) app }
{
    let count = state.cluster().node_count();
    'nodes: for number in 0..count {
        let missing = missing_if_target(state, app, Node(number as u8));
        if missing.is_some() {
            return missing;
        }
    }
    None
}

/// Why it can't be started at all its nodes.
#[tactic(auto, unfolding(rh_rules::specs::Refusals::refused))]
pub fn start_all_refusal(state: &State, app: App, restart: Restart) -> Option<Refusal>
    ensures { result ≡ refused (read state.now) (StartAll app restart) }
{
    let _ = restart;
    if app.0 as usize >= state.cluster().app_count() {
        Some(Refusal::UnknownApp)
    } else if state.cluster().spread(app).is_none() {
        Some(Refusal::NotDistributed)
    } else if !has_host(state, app) {
        Some(Refusal::NodeNotUp)
    } else if !has_target(state, app) {
        Some(Refusal::AlreadyStarted)
    } else {
        match missing_at_targets(state, app) {
            Some(dep) => Some(Refusal::DependencyNotStarted { dep }),
            None => None,
        }
    }
}

/// Why it can't be stopped at all its nodes.
#[tactic(auto, unfolding(rh_rules::specs::Refusals::refused))]
pub fn stop_all_refusal(state: &State, app: App) -> Option<Refusal>
    ensures { result ≡ refused (read state.now) (StopAll app) }
{
    if app.0 as usize >= state.cluster().app_count() {
        Some(Refusal::UnknownApp)
    } else if state.cluster().spread(app).is_none() {
        Some(Refusal::NotDistributed)
    } else if !is_started_anywhere(state, app) {
        Some(Refusal::NeverStarted)
    } else {
        None
    }
}
