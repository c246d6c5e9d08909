//! What is told of a node.

ghost use Rattle.std.specs.Prelude.{◌≡◌, IfOk};
ghost use Rattle.std.specs.Option.{option_map};
ghost use Rattle.rh_otp_report.specs.Report.{node_report};

use crate::block::{Block, block_at, boot_at};
use crate::forbidden::forbidden_at;
use crate::rows::{Runs, Waits, running_at, starting_at, waiting_at};
use crate::timers::{NodeTimer, timers_at};
use rh_base::OutOfMemory;
use rh_model::{App, Cluster, Node};
use rh_otp_model::OwnFile;
use rh_otp_node::{LiveNode, Phase};
use rh_otp_system::Net;
use std::alloc::Global;
use std::marker::Model;

/// A node.
#[derive(Drop)]
pub struct NodeReport {
    pub node: Node,
    /// How far it is.
    pub phase: Phase,
    /// How often it has begun.
    pub life: u32,
    /// What runs there, in the order of the starts.
    pub running: Vec<Runs>,
    /// What is started there and doesn't run there.
    pub waiting: Vec<Waits>,
    /// What is forbidden there, in the order of the file.
    pub forbidden: Vec<App>,
    /// What is being started there.
    pub starting: Vec<App>,
    /// For what its dist_ac waits.
    pub block: Option<Block>,
    /// For which application's start its boot script waits.
    pub boot: Option<App>,
    /// Its timers, in the order in which they were set.
    pub timers: Vec<NodeTimer>,
}

/// Contracts see it as its parts.
impl Model for NodeReport {
    ghost use Rattle.rh_otp_report.specs.Views.{NodeReportView};

    ghost Value = { NodeReportView };

    ghost view = { λ r. record {
      node = r.node;
      phase = r.phase;
      life = r.life;
      running = r.running.items;
      waiting = r.waiting.items;
      forbidden = r.forbidden.items;
      starting = r.starting.items;
      block = r.block;
      boot = r.boot;
      timers = r.timers.items;
    } };
}

/// What is told of a node with this file. Of one that isn't up, only how far it is, what is forbidden there and its timers; of one that
/// isn't alive, only how far it is.
pub(crate) fn node_report(
    alloc: Global,
    cluster: &Cluster,
    net: &Net,
    file: Option<&OwnFile>,
    node: Node,
    live: &LiveNode,
) -> Result<NodeReport, OutOfMemory>
    ensures { IfOk result (λ report. report
        ≡ node_report cluster.now net.now (option_map (λ f. f.now) file.entry) node live.now) }
{
    Ok(NodeReport {
        node,
        phase: live.phase(),
        life: live.life(),
        running: running_at(alloc, live)?,
        waiting: waiting_at(alloc, live)?,
        forbidden: forbidden_at(alloc, cluster, file, node, live)?,
        starting: starting_at(alloc, live)?,
        block: block_at(live, &net.locks),
        boot: boot_at(live, cluster, node),
        timers: timers_at(alloc, live, node, &net.timers)?,
    })
}
