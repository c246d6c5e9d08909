//! Which nodes may run a distributed application behind a step, and which of them a live OTP asks.

ghost use Rattle.std.specs.Prelude.{◌≡◌, ◌&&◌, not};
ghost use Rattle.rh_model.specs.ClusterView.{sync_wait_of};
ghost use Rattle.rh_rules.specs.Moves.{comes_before};
ghost use Rattle.rh_step_findings.specs.Candidates.{ranks_before, same_place, share_group, is_in_tuple, takes_part, is_in_lists, are_linked, is_available, is_outranked, is_best, asks_all, is_idle, holds_up};

use crate::step::Step;
use rh_model::{App, Node, SyncWait, is_in};

// Does a place come before another one in a list?
pub(crate) fn comes_before(place: Option<usize>, other: Option<usize>) -> bool
    ensures { result ≡ comes_before place other }
{
    match (place, other) {
        (None, _) => false,
        (Some(_), None) => true,
        (Some(first), Some(second)) => first < second,
    }
}

// Are two places there, and one?
fn same_place(place: Option<usize>, other: Option<usize>) -> bool
    ensures { result ≡ same_place place other }
{
    match (place, other) {
        (Some(first), Some(second)) => first == second,
        _ => false,
    }
}

impl<'a> Step<'a> {
    /// Does a node's group stand before that of another one?
    pub(crate) fn ranks_before(&self, app: App, node: Node, other: Node) -> bool
        ensures { result ≡ ranks_before self.now.state.cluster app node other }
    {
        comes_before(self.group(app, node), self.group(app, other))
    }

    /// Do two nodes stand in one group?
    pub(crate) fn share_group(&self, app: App, node: Node, other: Node) -> bool
        ensures { result ≡ share_group self.now.state.cluster app node other }
    {
        same_place(self.group(app, node), self.group(app, other))
    }

    /// Is a node's group written as a tuple?
    #[tactic(auto, unfolding(rh_step_findings::specs::Candidates::is_in_tuple))]
    pub(crate) fn is_in_tuple(&self, app: App, node: Node) -> bool
        ensures { result ≡ is_in_tuple self.now.state.cluster app node }
    {
        self.nodes.iter().any(|other| node.0 != other.0 && self.share_group(app, node, *other))
    }

    /// Does a node stand in the list of some distributed application?
    #[tactic(auto, unfolding(rh_step_findings::specs::Candidates::takes_part))]
    pub(crate) fn takes_part(&self, node: Node) -> bool
        ensures { result ≡ takes_part self.now.state.cluster node }
    {
        self.apps.iter().any(|app| self.group(*app, node).is_some())
    }

    /// Is a node in the lists of one that waits for others at its start?
    pub(crate) fn is_in_lists(&self, node: Node, other: Node) -> bool
        ensures { result ≡ is_in_lists self.now.state.cluster node other
            (sync_wait_of self.now.state.cluster node) }
    {
        match self.sync_wait(node) {
            SyncWait::Unset => false,
            SyncWait::After(_) | SyncWait::Forever => {
                is_in(other, self.mandatory(node)) || is_in(other, self.optional(node))
            }
        }
    }

    /// Does one of two nodes wait for the other at its start?
    pub(crate) fn are_linked(&self, node: Node, other: Node) -> bool
        ensures { result ≡ are_linked self.now.state.cluster node other }
    {
        self.is_in_lists(node, other) || self.is_in_lists(other, node)
    }

    /// Is a node of the list up and permitted behind the step?
    #[tactic(auto, unfolding(rh_step_findings::specs::Candidates::is_available))]
    pub(crate) fn is_available(&self, app: App, node: Node) -> bool
        ensures { result ≡ is_available self.now.state self.now.event app node }
    {
        self.group(app, node).is_some()
            && self.is_up_after(node)
            && self.is_permitted_after(node, app)
    }

    /// Is one of an earlier group? The place of the best group tells it: to ask all nodes takes many times as long.
    #[tactic(auto, using(crate::proofs::Ranks::outranked_by_place))]
    pub(crate) fn is_outranked(&self, app: App, node: Node) -> bool
        ensures { result ≡ is_outranked self.now.state self.now.event app node }
    {
        self.within();
        comes_before(self.best_place(app), self.group(app, node))
    }

    /// Is a node available, and of the best group that has an available one?
    #[tactic(auto, unfolding(rh_step_findings::specs::Candidates::is_best))]
    pub(crate) fn is_best(&self, app: App, node: Node) -> bool
        ensures { result ≡ is_best self.now.state self.now.event app node }
    {
        self.is_available(app, node) && !self.is_outranked(app, node)
    }

    // Is a node's group a tuple, and isn't it outranked? One walk through the groups tells its rank: that is asked first.
    fn asks_as_tuple(&self, app: App, node: Node) -> bool
        ensures { result ≡ (is_in_tuple self.now.state.cluster app node
            && not (is_outranked self.now.state self.now.event app node)) }
    {
        !self.is_outranked(app, node) && self.is_in_tuple(app, node)
    }

    // Do all available nodes of the list tell their weight?
    #[tactic(auto, unfolding(rh_step_findings::specs::Candidates::asks_all))]
    fn asks_all(&self, app: App) -> bool
        ensures { result ≡ asks_all self.now.state self.now.event app }
    {
        self.nodes.iter().any(|node| self.asks_as_tuple(app, *node))
    }

    /// Is another node available, hasn't it started the application behind the step, and is it linked to this one?
    #[tactic(auto, unfolding(rh_step_findings::specs::Candidates::is_idle))]
    pub(crate) fn is_idle(&self, node: Node, app: App, other: Node) -> bool
        ensures { result ≡ is_idle self.now.state self.now.event node app other }
    {
        node.0 != other.0
            && self.is_available(app, other)
            && !self.is_started_after(other, app)
            && self.are_linked(node, other)
    }

    /// And is it waited for?
    #[tactic(auto, unfolding(rh_step_findings::specs::Candidates::holds_up))]
    pub(crate) fn holds_up(&self, node: Node, app: App, other: Node) -> bool
        ensures { result ≡ holds_up self.now.state self.now.event node app other }
    {
        self.is_idle(node, app, other) && (self.is_best(app, other) || self.asks_all(app))
    }
}
