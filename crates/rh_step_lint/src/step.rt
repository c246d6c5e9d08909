//! The state before a step, and the event.

ghost use Rattle.std.specs.Prelude.{◌≡◌, nat_lt, IfOk};
ghost use Rattle.rh_model.specs.ClusterView.{node_count, app_count, IsWithin};
ghost use Rattle.rh_state.specs.Numbers.{nodes_of, apps_of};
ghost use Rattle.rh_state.specs.Stored.{read};
ghost use Rattle.rh_step_findings.specs.After.{StepView};

use rh_base::OutOfMemory;
use rh_model::{App, Cluster, Node};
use rh_rules::Event;
use rh_state::State;
use std::alloc::Global;
use std::marker::Model;

/// The state before a step, and the event, with the nodes and the applications of the cluster in their order.
#[derive(Drop)]
pub(crate) struct Step<'a> {
    pub(crate) state: &'a State,
    pub(crate) event: Event,
    pub(crate) nodes: Vec<Node>,
    pub(crate) apps: Vec<App>,
}

/// Contracts see a `Step` as a state and an event.
impl<'a> Model for Step<'a> {
    ghost use Rattle.std.specs.Prelude.{◌≡◌};
    ghost use Rattle.rh_state.specs.Stored.{read};
    ghost use Rattle.rh_state.specs.Numbers.{nodes_of, apps_of};
    ghost use Rattle.rh_step_findings.specs.After.{StepView};

    ghost Value = { StepView };

    ghost view = { λ s. record { state = read s.state.now; event = s.event } };

    ghost invariant = { λ s. (s.nodes.items ≡ nodes_of (read s.state.now).cluster)
        × (s.apps.items ≡ apps_of (read s.state.now).cluster) };
}

// The nodes of a cluster, in their order.
#[tactic(auto, unfolding(rh_state::specs::Numbers::nodes_of), using(crate::proofs::Beyond::numbered_more))]
fn nodes_of(alloc: Global, cluster: &Cluster) -> Result<Vec<Node>, OutOfMemory>
    ensures { IfOk result (λ nodes. nodes.items ≡ nodes_of cluster.now) }
{
    let mut nodes = Vec::with_capacity(alloc, cluster.node_count())?;
    for number in 0..cluster.node_count() {
        nodes.push(Node(number as u8))?;
    }
    Ok(nodes)
}

// Its applications, likewise.
#[tactic(auto, unfolding(rh_state::specs::Numbers::apps_of), using(crate::proofs::Beyond::numbered_more))]
fn apps_of(alloc: Global, cluster: &Cluster) -> Result<Vec<App>, OutOfMemory>
    ensures { IfOk result (λ apps. apps.items ≡ apps_of cluster.now) }
{
    let mut apps = Vec::with_capacity(alloc, cluster.app_count())?;
    for number in 0..cluster.app_count() {
        apps.push(App(number as u8))?;
    }
    Ok(apps)
}

impl<'a> Step<'a> {
    /// The step that an event makes from a state.
    pub(crate) fn new(
        alloc: Global,
        state: &'a State,
        event: Event,
    ) -> Result<Step<'a>, OutOfMemory>
        ensures { IfOk result (λ step. step ≡ record { state = read state.now; event = event }) }
    {
        let nodes = nodes_of(alloc, state.cluster())?;
        let apps = apps_of(alloc, state.cluster())?;
        Ok(Step {
            state,
            event,
            nodes,
            apps,
        })
    }

    /// What holds of the cluster.
    pub(crate) fn within(&self)
        ensures { IsWithin self.now.state.cluster }
    {
        self.state.cluster().is_within();
    }

    /// Is the node one of the cluster's?
    pub(crate) fn knows(&self, node: Node) -> bool
        ensures { result ≡ nat_lt node.0 (node_count self.now.state.cluster) }
    {
        (node.0 as usize) < self.state.cluster().node_count()
    }

    /// Is the application?
    pub(crate) fn knows_app(&self, app: App) -> bool
        ensures { result ≡ nat_lt app.0 (app_count self.now.state.cluster) }
    {
        (app.0 as usize) < self.state.cluster().app_count()
    }
}
