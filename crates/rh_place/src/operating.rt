//! What an application needs in order to run at a node.

ghost use Rattle.std.specs.Prelude.{◌≡◌, ◌<◌, IsSome};
ghost use Rattle.rh_model.specs.ClusterView.{node_count, app_count, dep_name};
ghost use Rattle.std.specs.List.{list_all};
ghost use Rattle.rh_model.specs.Needs.{needed_apps};
ghost use Rattle.rh_state.specs.StateView.{runs_at};
ghost use Rattle.rh_state.specs.Stored.{read};
ghost use Rattle.rh_rules.specs.Placing.{dep_runs, deps_run, missing_dep, is_operational};

use rh_model::{App, Dep, Node};
use rh_state::{Mode, Place, State};

// Does an application run at a node?
fn runs(state: &State, node: Node, app: App) -> bool
    requires node { node.0 < node_count (read state.now).cluster }
    requires app { app.0 < app_count (read state.now).cluster }
    ensures { result ≡ runs_at (read state.now) node app }
{
    matches!(state.place_of(node, app), Place::InRunning)
}

// Does what an application depends on run at a node?
fn dep_runs(state: &State, node: Node, dep: Dep) -> bool
    requires node { node.0 < node_count (read state.now).cluster }
    requires dep { IsSome (dep_name (read state.now).cluster dep) }
    ensures { result ≡ dep_runs (read state.now) node dep }
{
    match dep {
        Dep::Listed(app) => runs(state, node, app),
        Dep::Platform(name) => state.cluster().is_platform(node, name),
    }
}

/// The first of the dependencies of an application, in written order, that doesn't run at a node (app(4),
/// `applications`): `None` exactly if all run there.
#[tactic(auto, unfolding(rh_rules::specs::Placing::missing_dep))]
pub fn missing_dep(state: &State, node: Node, app: App) -> Option<Dep>
    requires node { node.0 < node_count (read state.now).cluster }
    requires app { app.0 < app_count (read state.now).cluster }
    ensures { result ≡ missing_dep (read state.now) node app }
{
    state.cluster().is_within();
    let deps = state.cluster().deps(app);
    'deps: for dep in deps {
        if !dep_runs(state, node, *dep) {
            return Some(*dep);
        }
    }
    None
}

// Do all applications among the dependencies of an application run at a node?
fn needs_run(state: &State, node: Node, app: App) -> bool
    requires node { node.0 < node_count (read state.now).cluster }
    requires app { app.0 < app_count (read state.now).cluster }
    ensures { result
        ≡ list_all (runs_at (read state.now) node) (needed_apps (read state.now).cluster app) }
{
    state.cluster().is_within();
    let needs = state.cluster().needs(app);
    'needs: for need in needs {
        if !runs(state, node, *need) {
            return false;
        }
    }
    true
}

/// Do all dependencies of an application run at a node (app(4), `applications`)?
pub fn deps_run(state: &State, node: Node, app: App) -> bool
    requires node { node.0 < node_count (read state.now).cluster }
    requires app { app.0 < app_count (read state.now).cluster }
    ensures { result ≡ deps_run (read state.now) node app }
{
    let cluster = state.cluster();
    cluster.is_within();
    cluster.is_home(app, node) && needs_run(state, node, app)
}

/// Can an application run at a node (Distributed Applications)? The node must be up, the application started there and
/// permitted to run there, and all that it depends on must run there.
#[tactic(auto, unfolding(rh_rules::specs::Placing::is_operational))]
pub fn operational(state: &State, app: App, node: Node) -> bool
    requires node { node.0 < node_count (read state.now).cluster }
    requires app { app.0 < app_count (read state.now).cluster }
    ensures { result ≡ is_operational (read state.now) app node }
{
    matches!(state.mode(node), Mode::Up)
        && !matches!(state.place_of(node, app), Place::Off)
        && state.allowed(node, app)
        && deps_run(state, node, app)
}
