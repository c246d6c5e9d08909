//! Where distributed applications run.

ghost use Rattle.std.specs.Prelude.{◌≡◌, ◌<◌, IfOk, filter};
ghost use Rattle.std.specs.Option.{option_map};
ghost use Rattle.rh_model.specs.ClusterView.{app_count};
ghost use Rattle.rh_otp_report.specs.Apps.{runs_by, runs_at, nodes_with, app_report, app_reports};

use rh_base::OutOfMemory;
use rh_model::{App, Node};
use rh_otp_model::key_find;
use rh_otp_node::LiveNode;
use rh_otp_sim::{LiveSim, is_here};
use std::alloc::Global;
use std::marker::Model;

/// A distributed application, and the nodes at which it runs, in the order of the file. There can be several.
#[derive(Drop)]
pub struct AppReport {
    pub app: App,
    pub nodes: Vec<Node>,
}

/// Contracts see it as its parts.
impl Model for AppReport {
    ghost use Rattle.rh_otp_report.specs.Views.{AppReportView};

    ghost Value = { AppReportView };

    ghost view = { λ a. record { app = a.app; nodes = a.nodes.items } };
}

// Does the application run at a node?
fn runs_by(live: Option<&LiveNode>, app: App) -> bool
    ensures { result ≡ runs_by (option_map (λ v. v.now) live.entry) app }
{
    match live {
        Some(live) => live.is_up() && is_here(key_find(live.controller().running(), app)),
        None => false,
    }
}

// Does it run at this node?
fn runs_at(sim: &LiveSim, node: Node, app: App) -> bool
    ensures { result ≡ runs_at sim.now app node }
{
    runs_by(sim.live(node), app)
}

// The nodes at which it runs.
#[tactic(auto, unfolding(rh_state::specs::Numbers::nodes_of))]
fn nodes_with(alloc: Global, sim: &LiveSim, app: App) -> Result<Vec<Node>, OutOfMemory>
    ensures { IfOk result (λ nodes. nodes.items ≡ nodes_with sim.now app) }
{
    let mut nodes = Vec::new(alloc);
    for number in 0..sim.cluster().node_count() {
        let node = Node(number as u8);
        if runs_at(sim, node, app) {
            nodes.push(node)?;
        }
    }
    Ok(nodes)
}

// What is told of an application, if it is distributed.
fn app_report(alloc: Global, sim: &LiveSim, app: App) -> Result<Option<AppReport>, OutOfMemory>
    requires { app.0 < app_count sim.now.cluster }
    ensures { IfOk result (λ report. report ≡ app_report sim.now app) }
{
    if sim.cluster().spread(app).is_none() {
        return Ok(None);
    }
    let nodes = nodes_with(alloc, sim, app)?;
    Ok(Some(AppReport { app, nodes }))
}

/// The distributed applications, in the order of the file.
#[tactic(auto, unfolding(rh_state::specs::Numbers::apps_of))]
pub(crate) fn app_reports(alloc: Global, sim: &LiveSim) -> Result<Vec<AppReport>, OutOfMemory>
    ensures { IfOk result (λ reports. reports.items ≡ app_reports sim.now) }
{
    let mut reports = Vec::new(alloc);
    for number in 0..sim.cluster().app_count() {
        if let Some(report) = app_report(alloc, sim, App(number as u8))? {
            reports.push(report)?;
        }
    }
    Ok(reports)
}
