//! Findings where a node comes up.

ghost use Rattle.std.specs.Prelude.{◌≡◌, ◌&&◌, not, find, is_some};
ghost use Rattle.rh_model.specs.ClusterView.{group_of};
ghost use Rattle.rh_state.specs.Numbers.{nodes_of};
ghost use Rattle.rh_step_findings.specs.After.{boots, fires_within};
ghost use Rattle.rh_step_findings.specs.Candidates.{ranks_before};
ghost use Rattle.rh_step_findings.specs.Nodes.{boots_spread, may_get, waits_meanwhile, is_left_waiting, other_node_waits, boots_beside, is_overlooked, boots_up, not_in_its_lists};

use crate::step::Step;
use rh_model::{App, Node};
use rh_rules::Event;
use rh_state::Timer;
use rh_step_findings::StepFinding;

impl<'a> Step<'a> {
    // Does a node boot a distributed application?
    #[tactic(auto, unfolding(rh_step_findings::specs::Nodes::boots_spread))]
    fn boots_spread(&self, node: Node) -> bool
        ensures { result ≡ boots_spread self.now.state.cluster node }
    {
        self.boot_list(node)
            .iter()
            .any(|entry| !self.is_local(entry.0))
    }

    // Does another node boot an application, and does it stand no later in its list than a node?
    fn may_get_app(&self, node: Node, other: Node, app: App) -> bool
        ensures { result ≡ (boots self.now.state.cluster other app
            && (is_some (group_of self.now.state.cluster app other)
            && not (ranks_before self.now.state.cluster app node other))) }
    {
        self.boots(other, app)
            && self.group(app, other).is_some()
            && !self.ranks_before(app, node, other)
    }

    // May the second node get an application of the first one?
    #[tactic(auto, unfolding(rh_step_findings::specs::Nodes::may_get))]
    fn may_get(&self, node: Node, other: Node) -> bool
        ensures { result ≡ may_get self.now.state.cluster node other }
    {
        self.boot_list(node)
            .iter()
            .any(|entry| self.may_get_app(node, other, entry.0))
    }

    // Does another node wait as one comes up?
    #[tactic(auto, unfolding(rh_step_findings::specs::Nodes::waits_meanwhile), using(crate::proofs::Beyond::is_below, crate::proofs::Beyond::beyond_waits_not))]
    fn waits_meanwhile(&self, node: Node, other: Node) -> bool
        ensures { result ≡ waits_meanwhile self.now.state self.now.event node other }
    {
        self.state.formed();
        match self.event {
            Event::Boot { node: booting } => {
                (booting.0 == other.0 || self.is_waiting(other)) && !self.comes_up(other)
            }
            Event::Tick { ms } => {
                self.knows(other)
                    && self.is_waiting(other)
                    && (!self.fires_within(ms, Timer::Sync(other)) || self.may_get(node, other))
            }
            _ => false,
        }
    }

    // And is it linked to that one, and does it take part?
    #[tactic(auto, unfolding(rh_step_findings::specs::Nodes::is_left_waiting))]
    fn is_left_waiting(&self, node: Node, other: Node) -> bool
        ensures { result ≡ is_left_waiting self.now.state self.now.event node other }
    {
        node.0 != other.0
            && self.waits_meanwhile(node, other)
            && self.are_linked(node, other)
            && self.takes_part(other)
    }

    // The first node that does.
    fn first_left_waiting(&self, node: Node) -> Option<Node>
        ensures { result ≡ find (is_left_waiting self.now.state self.now.event node)
            (nodes_of self.now.state.cluster) }
    {
        let nodes = self.nodes.as_slice();
        'others: for other in nodes {
            if self.is_left_waiting(node, *other) {
                return Some(*other);
            }
        }
        None
    }

    /// A node comes up that boots a distributed application, while another one waits.
    #[tactic(auto, unfolding(rh_step_findings::specs::Nodes::other_node_waits))]
    pub(crate) fn other_node_waits(&self, node: Node) -> Option<StepFinding>
        ensures { result ≡ other_node_waits self.now.state self.now.event node }
    {
        if !(self.comes_up(node) && self.boots_spread(node)) {
            return None;
        }
        let other = self.first_left_waiting(node)?;
        Some(StepFinding::OtherNodeWaits { node, other })
    }

    // Does a node boot an application that may run at another one, too?
    #[tactic(auto, unfolding(rh_step_findings::specs::Nodes::boots_beside))]
    fn boots_beside(&self, node: Node, other: Node) -> bool
        ensures { result ≡ boots_beside self.now.state.cluster node other }
    {
        self.boot_list(node)
            .iter()
            .any(|entry| self.group(entry.0, other).is_some())
    }

    // Is that one alive, and isn't it in the node's lists?
    #[tactic(auto, unfolding(rh_step_findings::specs::Nodes::is_overlooked))]
    fn is_overlooked(&self, node: Node, other: Node) -> bool
        ensures { result ≡ is_overlooked self.now.state node other }
    {
        node.0 != other.0
            && self.is_alive(other)
            && !self.is_in_lists(node, other)
            && self.boots_beside(node, other)
    }

    // The first node of which that is so.
    fn first_overlooked(&self, node: Node) -> Option<Node>
        ensures { result
            ≡ find (is_overlooked self.now.state node) (nodes_of self.now.state.cluster) }
    {
        let nodes = self.nodes.as_slice();
        'others: for other in nodes {
            if self.is_overlooked(node, *other) {
                return Some(*other);
            }
        }
        None
    }

    // Does a node come up as it boots?
    #[tactic(auto, unfolding(rh_step_findings::specs::Nodes::boots_up))]
    fn boots_up(&self, node: Node) -> bool
        ensures { result ≡ boots_up self.now.state self.now.event node }
    {
        match self.event {
            Event::Boot { node: booting } => booting.0 == node.0 && self.comes_up(node),
            _ => false,
        }
    }

    /// A node comes up whose lists lack another one.
    #[tactic(auto, unfolding(rh_step_findings::specs::Nodes::not_in_its_lists))]
    pub(crate) fn not_in_its_lists(&self, node: Node) -> Option<StepFinding>
        ensures { result ≡ not_in_its_lists self.now.state self.now.event node }
    {
        if !self.boots_up(node) {
            return None;
        }
        let other = self.first_overlooked(node)?;
        Some(StepFinding::NotInItsLists { node, other })
    }
}
