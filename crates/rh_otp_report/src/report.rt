//! What is told of all nodes, and of what is between them.

ghost use Rattle.std.specs.Prelude.{◌≡◌, IfOk};
ghost use Rattle.std.specs.List.{filter_map};
ghost use Rattle.rh_otp_report.specs.Report.{node_told, node_reports, report_of};

use crate::apps::{AppReport, app_reports};
use crate::calls::{OpenCall, open_calls};
use crate::node::{NodeReport, node_report};
use rh_base::OutOfMemory;
use rh_model::Node;
use rh_otp_sim::LiveSim;
use rh_otp_system::Net;
use std::alloc::Global;
use std::marker::Model;

/// The state of live nodes, as it is told.
#[derive(Drop)]
pub struct Report {
    /// The clock, in milliseconds.
    pub time: u64,
    /// The nodes, in the order of the file.
    pub nodes: Vec<NodeReport>,
    /// The distributed applications, in the order of the file.
    pub apps: Vec<AppReport>,
    /// The calls that haven't returned, in the order in which they were made.
    pub calls: Vec<OpenCall>,
}

/// Contracts see it as its parts.
impl Model for Report {
    ghost use Rattle.rh_otp_report.specs.Views.{ReportView};

    ghost Value = { ReportView };

    ghost view = { λ r. record {
      time = r.time;
      nodes = r.nodes.items;
      apps = r.apps.items;
      calls = r.calls.items;
    } };
}

// What is told of the node of this number, if there is one.
fn node_told(
    alloc: Global,
    sim: &LiveSim,
    net: &Net,
    node: Node,
) -> Result<Option<NodeReport>, OutOfMemory>
    ensures { IfOk result (λ report. report ≡ node_told sim.now net.now node) }
{
    match sim.live(node) {
        Some(live) => {
            let file = sim.file(node);
            Ok(Some(node_report(alloc, sim.cluster(), net, file, node, live)?))
        }
        None => Ok(None),
    }
}

// What is told of each node.
#[tactic(auto, unfolding(rh_state::specs::Numbers::nodes_of))]
fn node_reports(alloc: Global, sim: &LiveSim, net: &Net) -> Result<Vec<NodeReport>, OutOfMemory>
    ensures { IfOk result (λ reports. reports.items ≡ node_reports sim.now net.now) }
{
    let mut reports = Vec::new(alloc);
    for number in 0..sim.cluster().node_count() {
        if let Some(report) = node_told(alloc, sim, net, Node(number as u8))? {
            reports.push(report)?;
        }
    }
    Ok(reports)
}

/// The state of live nodes, as it is told.
#[tactic(auto, unfolding(crate::specs::Report::report_of))]
pub fn report_of(alloc: Global, sim: &LiveSim) -> Result<Report, OutOfMemory>
    ensures { IfOk result (λ report. report ≡ report_of sim.now) }
{
    let net = sim.net(alloc)?;
    Ok(Report {
        time: net.clock,
        nodes: node_reports(alloc, sim, &net)?,
        apps: app_reports(alloc, sim)?,
        calls: open_calls(alloc, sim, net.calls.as_slice())?,
    })
}
