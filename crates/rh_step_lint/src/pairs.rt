//! What a live OTP does otherwise at a node with an application.

ghost use Rattle.std.specs.Prelude.{◌≡◌, ◌&&◌};
ghost use Rattle.rh_step_findings.specs.After.{starts_now};
ghost use Rattle.rh_step_findings.specs.Candidates.{ranks_before, is_in_tuple, is_available, is_best};
ghost use Rattle.rh_step_findings.specs.Tries.{runner};
ghost use Rattle.rh_step_findings.specs.Pairs.{is_behind, is_served, starts_forbidden, is_regained, starts_below, takes_back, starts_quiet, is_behind_tuple, is_placed_behind_tuple, permits_quiet, forbids, forbids_runner, forbids_last, forbids_twice, stops_forbidden, boots_now, boots_to_run, awaited, given_up, lost_with, other_node, is_helped, is_booted_with_phases, goes_to, ends_with, moves_unready};

use crate::step::Step;
use rh_model::{App, Node};
use rh_rules::Event;
use rh_state::Standing;
use rh_step_findings::Relation;

// Another node than the first one.
fn other_node(node: Node, other: Node) -> Option<Node>
    ensures { result ≡ other_node node other }
{
    if node.0 == other.0 { None } else { Some(other) }
}

impl<'a> Step<'a> {
    /// Does it run behind the best group?
    #[tactic(auto, unfolding(rh_step_findings::specs::Pairs::is_behind))]
    pub(crate) fn is_behind(&self, app: App) -> bool
        ensures { result ≡ is_behind self.now.state self.now.event app
            (runner self.now.state self.now.event app) }
    {
        match self.runner(app) {
            None => false,
            Some(at) => !self.is_best(app, at),
        }
    }

    // Is it started at a node that may run it?
    fn starts_available(&self, app: App, node: Node) -> bool
        ensures { result ≡ (starts_now self.now.state self.now.event node app
            && is_available self.now.state self.now.event app node) }
    {
        self.starts_now(node, app) && self.is_available(app, node)
    }

    /// Does a node that may run it start it at this step?
    #[tactic(auto, unfolding(rh_step_findings::specs::Pairs::is_served))]
    pub(crate) fn is_served(&self, app: App) -> bool
        ensures { result ≡ is_served self.now.state self.now.event app }
    {
        self.nodes
            .iter()
            .any(|node| self.starts_available(app, *node))
    }

    /// Is it started at a node that may not run it, and does it run nowhere, nor start where it may run?
    #[tactic(auto, unfolding(rh_step_findings::specs::Pairs::starts_forbidden))]
    pub(crate) fn starts_forbidden(&self, node: Node, app: App) -> bool
        ensures { result ≡ starts_forbidden self.now.state self.now.event node app }
    {
        self.tries(node, app)
            && !self.is_permitted_after(node, app)
            && self.starts_now(node, app)
            && self.runner(app).is_none()
            && !self.is_served(app)
    }

    // Is it started at a node of the best group?
    fn starts_best(&self, app: App, node: Node) -> bool
        ensures { result ≡ (starts_now self.now.state self.now.event node app
            && is_best self.now.state self.now.event app node) }
    {
        self.starts_now(node, app) && self.is_best(app, node)
    }

    /// Does a node of the best group start it at this step?
    #[tactic(auto, unfolding(rh_step_findings::specs::Pairs::is_regained))]
    pub(crate) fn is_regained(&self, app: App) -> bool
        ensures { result ≡ is_regained self.now.state self.now.event app }
    {
        self.nodes.iter().any(|node| self.starts_best(app, *node))
    }

    /// Does it run behind the best group, isn't it regained, and is it tried at a node that isn't of that group?
    #[tactic(auto, unfolding(rh_step_findings::specs::Pairs::starts_below))]
    pub(crate) fn starts_below(&self, node: Node, app: App) -> bool
        ensures { result ≡ starts_below self.now.state self.now.event node app }
    {
        self.tries(node, app)
            && (self.is_available(app, node) && !self.is_best(app, node))
            && self.is_behind(app)
            && !self.is_regained(app)
    }

    /// Does it run behind the best group, and is it tried at a node of that group?
    #[tactic(auto, unfolding(rh_step_findings::specs::Pairs::takes_back))]
    pub(crate) fn takes_back(&self, node: Node, app: App) -> bool
        ensures { result ≡ takes_back self.now.state self.now.event node app }
    {
        self.tries(node, app) && self.is_best(app, node) && self.is_behind(app)
    }

    /// Is it stopped, and started?
    #[tactic(auto, unfolding(rh_step_findings::specs::Pairs::starts_quiet))]
    pub(crate) fn starts_quiet(&self, node: Node, app: App) -> bool
        ensures { result ≡ starts_quiet self.now.state self.now.event node app }
    {
        self.starts_now(node, app) && !self.is_local(app) && self.is_quiet(app)
    }

    // Is the other node's group a tuple, and does it stand before the node's? Few groups stand before it: so that is asked first.
    fn is_tuple_before(&self, app: App, other: Node, node: Node) -> bool
        ensures { result ≡ (is_in_tuple self.now.state.cluster app other
            && ranks_before self.now.state.cluster app other node) }
    {
        self.ranks_before(app, other, node) && self.is_in_tuple(app, other)
    }

    /// Does a tuple stand before the node's group? None stands before the first group.
    #[tactic(auto, unfolding(rh_step_findings::specs::Pairs::is_behind_tuple), using(crate::proofs::Ranks::none_before_first))]
    pub(crate) fn is_behind_tuple(&self, app: App, node: Node) -> bool
        ensures { result ≡ is_behind_tuple self.now.state app node }
    {
        if matches!(self.group(app, node), Some(0)) {
            return false;
        }
        self.nodes
            .iter()
            .any(|other| self.is_tuple_before(app, *other, node))
    }

    /// Is it placed at a node of the best group, behind a tuple?
    #[tactic(auto, unfolding(rh_step_findings::specs::Pairs::is_placed_behind_tuple))]
    pub(crate) fn is_placed_behind_tuple(&self, node: Node, app: App) -> bool
        ensures { result ≡ is_placed_behind_tuple self.now.state self.now.event node app }
    {
        self.tries(node, app)
            && self.is_best(app, node)
            && self.runner(app).is_none()
            && self.is_behind_tuple(app, node)
    }

    /// Is it quiet, and permitted where it is held ready?
    #[tactic(auto, unfolding(rh_step_findings::specs::Pairs::permits_quiet))]
    pub(crate) fn permits_quiet(&self, node: Node, app: App) -> bool
        ensures { result ≡ permits_quiet self.now.state self.now.event node app }
    {
        self.is_permitted_by(node, app) && !self.is_local(app) && self.is_quiet(app)
    }

    // Is it forbidden at a node?
    #[tactic(auto, unfolding(rh_step_findings::specs::Pairs::forbids))]
    fn forbids(&self, node: Node, app: App) -> bool
        ensures { result ≡ forbids self.now.event node app }
    {
        match self.event {
            Event::Permit {
                node: at,
                app: one,
                allow,
            } => at.0 == node.0 && one.0 == app.0 && !allow,
            _ => false,
        }
    }

    /// Is it forbidden where it runs?
    #[tactic(auto, unfolding(rh_step_findings::specs::Pairs::forbids_runner))]
    pub(crate) fn forbids_runner(&self, node: Node, app: App) -> bool
        ensures { result ≡ forbids_runner self.now.state self.now.event node app }
    {
        self.forbids(node, app) && self.runs(node, app) && !self.is_local(app)
    }

    /// And may no other node of its list run it?
    #[tactic(auto, unfolding(rh_step_findings::specs::Pairs::forbids_last))]
    pub(crate) fn forbids_last(&self, node: Node, app: App) -> bool
        ensures { result ≡ forbids_last self.now.state self.now.event node app }
    {
        self.forbids_runner(node, app)
            && self.other_so(Relation::Idle, node, app).is_none()
            && self.other_so(Relation::Ready, node, app).is_none()
    }

    /// Is a local one forbidden where it was started while it was forbidden?
    #[tactic(auto, unfolding(rh_step_findings::specs::Pairs::forbids_twice))]
    pub(crate) fn forbids_twice(&self, node: Node, app: App) -> bool
        ensures { result ≡ forbids_twice self.now.state self.now.event node app }
    {
        self.forbids(node, app)
            && self.is_local(app)
            && self.waits(node, app)
            && !self.allows(node, app)
    }

    /// Or stopped there?
    #[tactic(auto, unfolding(rh_step_findings::specs::Pairs::stops_forbidden))]
    pub(crate) fn stops_forbidden(&self, node: Node, app: App) -> bool
        ensures { result ≡ stops_forbidden self.now.state self.now.event node app }
    {
        match self.event {
            Event::Stop { node: at, app: one } => {
                at.0 == node.0
                    && one.0 == app.0
                    && self.is_local(app)
                    && self.waits(node, app)
                    && !self.allows(node, app)
            }
            _ => false,
        }
    }

    /// Does a node come up, and boot it?
    #[tactic(auto, unfolding(rh_step_findings::specs::Pairs::boots_now))]
    pub(crate) fn boots_now(&self, node: Node, app: App) -> bool
        ensures { result ≡ boots_now self.now.state self.now.event node app }
    {
        self.comes_up(node) && self.boots(node, app)
    }

    /// Where it is to run?
    #[tactic(auto, unfolding(rh_step_findings::specs::Pairs::boots_to_run))]
    pub(crate) fn boots_to_run(&self, node: Node, app: App) -> bool
        ensures { result ≡ boots_to_run self.now.state self.now.event node app }
    {
        self.boots_now(node, app)
            && (self.is_local(app) && self.is_permitted_after(node, app)
                || self.is_best(app, node) && !self.stays(app))
    }

    /// Another node with which it was lost, whose time isn't over, and which doesn't start it again.
    #[tactic(auto, unfolding(rh_step_findings::specs::Pairs::awaited))]
    pub(crate) fn awaited_node(&self, node: Node, app: App) -> Option<Node>
        ensures { result ≡ awaited self.now.state self.now.event node app }
    {
        match self.standing_of(app) {
            Standing::Lost(from) if !self.starts_now(from, app) => other_node(node, from),
            _ => None,
        }
    }

    /// Or is over.
    #[tactic(auto, unfolding(rh_step_findings::specs::Pairs::given_up))]
    pub(crate) fn given_up(&self, node: Node, app: App) -> Option<Node>
        ensures { result ≡ given_up self.now.state node app }
    {
        match self.standing_of(app) {
            Standing::Wanted(Some(from)) => other_node(node, from),
            _ => None,
        }
    }

    /// Either of them.
    #[tactic(auto, unfolding(rh_step_findings::specs::Pairs::lost_with))]
    pub(crate) fn lost_with(&self, node: Node, app: App) -> Option<Node>
        ensures { result ≡ lost_with self.now.state node app }
    {
        match self.standing_of(app) {
            Standing::Lost(from) => other_node(node, from),
            Standing::Wanted(Some(from)) => other_node(node, from),
            _ => None,
        }
    }

    /// Has it start phases, and is it started or permitted by hand?
    #[tactic(auto, unfolding(rh_step_findings::specs::Pairs::is_helped))]
    pub(crate) fn is_helped(&self, node: Node, app: App) -> bool
        ensures { result ≡ is_helped self.now.state self.now.event node app }
    {
        self.has_phases(app) && (self.is_started_by(node, app) || self.is_permitted_by(node, app))
    }

    /// Has it start phases, and does a node that comes up boot it?
    #[tactic(auto, unfolding(rh_step_findings::specs::Pairs::is_booted_with_phases))]
    pub(crate) fn is_booted_with_phases(&self, node: Node, app: App) -> bool
        ensures { result ≡ is_booted_with_phases self.now.state self.now.event node app }
    {
        self.has_phases(app) && self.boots_now(node, app)
    }

    /// Does it fail over to a node of the best group?
    #[tactic(auto, unfolding(rh_step_findings::specs::Pairs::goes_to))]
    pub(crate) fn goes_to(&self, node: Node, app: App) -> bool
        ensures { result ≡ goes_to self.now.state self.now.event node app }
    {
        self.is_called(node, app) && self.is_best(app, node)
    }

    /// Does it end, and the node with it?
    #[tactic(auto, unfolding(rh_step_findings::specs::Pairs::ends_with))]
    pub(crate) fn ends_with(&self, node: Node, app: App) -> bool
        ensures { result ≡ ends_with self.now.state self.now.event node app }
    {
        match self.event {
            Event::Exit { app: one, .. } => {
                one.0 == app.0 && !self.is_local(app) && self.ends(node)
            }
            _ => false,
        }
    }

    /// Is it moved to a node that doesn't hold it ready?
    #[tactic(auto, unfolding(rh_step_findings::specs::Pairs::moves_unready))]
    pub(crate) fn moves_unready(&self, node: Node, app: App) -> bool
        ensures { result ≡ moves_unready self.now.state self.now.event node app }
    {
        match self.event {
            Event::Takeover {
                node: at,
                app: one,
                ..
            } => at.0 == node.0 && one.0 == app.0 && !self.is_started(node, app),
            _ => false,
        }
    }
}
