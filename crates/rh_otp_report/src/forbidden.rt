//! Which applications are forbidden at a node.

ghost use Rattle.std.specs.Prelude.{◌≡◌, IfOk, filter};
ghost use Rattle.std.specs.Option.{option_map};
ghost use Rattle.rh_state.specs.Numbers.{apps_of};
ghost use Rattle.rh_otp_report.specs.Forbidden.{controls_by, dist_of, is_forbidden_by, is_forbidden_at, forbidden_at};

use rh_base::OutOfMemory;
use rh_model::{App, Cluster, Node};
use rh_otp_dist::Dist;
use rh_otp_model::OwnFile;
use rh_otp_node::LiveNode;
use std::alloc::Global;

// Does a node with this file have a dist_ac that controls the application?
fn controls_by(file: Option<&OwnFile>, app: App) -> bool
    ensures { result ≡ controls_by (option_map (λ f. f.now) file.entry) app }
{
    match file {
        Some(file) => file.own.controls(app),
        None => false,
    }
}

// The node's dist_ac, if that controls the application.
fn dist_of<'a>(file: Option<&OwnFile>, live: &'a LiveNode, app: App) -> Option<&'a Dist>
    ensures { option_map (λ d. d.now) result
        ≡ dist_of (option_map (λ f. f.now) file.entry) live.now app }
{
    if controls_by(file, app) {
        live.dist()
    } else {
        None
    }
}

// Is the application forbidden at the node?
fn is_forbidden_at(file: Option<&OwnFile>, node: Node, live: &LiveNode, app: App) -> bool
    ensures { result ≡ is_forbidden_at (option_map (λ f. f.now) file.entry) node live.now app }
{
    match dist_of(file, live, app) {
        Some(dist) => !dist.may_run(node, app),
        None => live.controller().is_forbidden(app),
    }
}

// What is forbidden there.
#[tactic(auto, unfolding(rh_state::specs::Numbers::apps_of))]
fn forbidden_apps(
    alloc: Global,
    cluster: &Cluster,
    file: Option<&OwnFile>,
    node: Node,
    live: &LiveNode,
) -> Result<Vec<App>, OutOfMemory>
    ensures { IfOk result (λ apps. apps.items
        ≡ filter (is_forbidden_at (option_map (λ f. f.now) file.entry) node live.now)
        (apps_of cluster.now)) }
{
    let mut apps = Vec::new(alloc);
    for number in 0..cluster.app_count() {
        let app = App(number as u8);
        if is_forbidden_at(file, node, live, app) {
            apps.push(app)?;
        }
    }
    Ok(apps)
}

/// What is forbidden at a node that is alive, in the order of the file: of what its dist_ac controls by dist_ac's own permissions, of the
/// rest by its controller's.
pub(crate) fn forbidden_at(
    alloc: Global,
    cluster: &Cluster,
    file: Option<&OwnFile>,
    node: Node,
    live: &LiveNode,
) -> Result<Vec<App>, OutOfMemory>
    ensures { IfOk result (λ apps. apps.items
        ≡ forbidden_at cluster.now (option_map (λ f. f.now) file.entry) node live.now) }
{
    if !live.is_alive() {
        return Ok(Vec::new(alloc));
    }
    forbidden_apps(alloc, cluster, file, node, live)
}
