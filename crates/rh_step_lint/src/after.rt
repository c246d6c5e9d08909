//! What an event brings about of itself, before any application moves.

ghost use Rattle.std.specs.Prelude.{◌≡◌, ◌++◌};
ghost use Rattle.std.specs.List.{list_all};
ghost use Rattle.rh_model.specs.ClusterView.{mandatory_of, optional_of, sync_wait_of};
ghost use Rattle.rh_state.specs.Shape.{IsTimerOf};
ghost use Rattle.rh_rules.specs.NodesStart.{all_alive};
ghost use Rattle.rh_rules.specs.ByHand.{ends_node};
ghost use Rattle.rh_rules.specs.Everywhere.{is_target};
ghost use Rattle.rh_step_findings.specs.After.{is_alive_with, has_others_with, fires_within, ends_its_wait, comes_up, ends, is_up_after, boots, is_started_by, starts_now, is_started_after, is_permitted_after};

use crate::step::Step;
use rh_model::{App, Node, Restart, SyncWait};
use rh_rules::Event;
use rh_state::Timer;

// Does a node end with an application that ends there (application(3), restart types)?
fn ends_node(restart: Restart, normal: bool) -> bool
    ensures { result ≡ ends_node restart normal }
{
    match restart {
        Restart::Permanent => true,
        Restart::Transient => !normal,
        Restart::Temporary => false,
    }
}

impl<'a> Step<'a> {
    // Is a node alive, or does it boot at this step?
    fn is_alive_with(&self, booting: Node, node: Node) -> bool
        ensures { result ≡ is_alive_with self.now.state booting node }
    {
        booting.0 == node.0 || self.is_alive(node)
    }

    // Are the nodes of a list, with the one that boots?
    fn are_alive_with(&self, booting: Node, nodes: &[Node]) -> bool
        ensures { result ≡ list_all (is_alive_with self.now.state booting) nodes.now }
    {
        nodes.iter().all(|node| self.is_alive_with(booting, *node))
    }

    // Has a node all others for which it waits, with the one that boots?
    #[tactic(auto, using(crate::proofs::Joined::all_joined))]
    fn has_others_with(&self, booting: Node, node: Node) -> bool
        ensures { result ≡ has_others_with self.now.state booting node
            (sync_wait_of self.now.state.cluster node) }
    {
        match self.sync_wait(node) {
            SyncWait::Unset => true,
            SyncWait::After(_) | SyncWait::Forever => {
                self.are_alive_with(booting, self.mandatory(node))
                    && self.are_alive_with(booting, self.optional(node))
            }
        }
    }

    /// Does a timer that is set fire within so many milliseconds?
    #[tactic(auto, unfolding(rh_state::specs::Stored::read), using(crate::proofs::Beyond::by_difference))]
    pub(crate) fn fires_within(&self, ms: u64, timer: Timer) -> bool
        requires { IsTimerOf self.now.state.cluster timer }
        ensures { result ≡ fires_within self.now.state ms timer }
    {
        match self.state.due_of(timer) {
            Some(due) => due.saturating_sub(self.state.now()) <= ms,
            None => false,
        }
    }

    // Are a node's mandatory nodes alive (kernel(6), `sync_nodes_mandatory`)?
    #[tactic(auto, unfolding(rh_rules::specs::NodesStart::all_alive))]
    fn has_mandatory(&self, node: Node) -> bool
        ensures { result ≡ all_alive self.now.state (mandatory_of self.now.state.cluster node) }
    {
        self.mandatory(node)
            .iter()
            .all(|other| self.is_alive(*other))
    }

    // Does the wait of a node that waits end within the tick, and may it come up then?
    #[tactic(auto, using(crate::proofs::Beyond::is_below, crate::proofs::Beyond::beyond_waits_not))]
    fn ends_its_wait(&self, ms: u64, node: Node) -> bool
        ensures { result ≡ ends_its_wait self.now.state ms node }
    {
        self.state.formed();
        self.knows(node)
            && self.is_waiting(node)
            && self.fires_within(ms, Timer::Sync(node))
            && self.has_mandatory(node)
    }

    /// Does a node come up?
    #[tactic(auto, unfolding(rh_step_findings::specs::After::comes_up))]
    pub(crate) fn comes_up(&self, node: Node) -> bool
        ensures { result ≡ comes_up self.now.state self.now.event node }
    {
        match self.event {
            Event::Boot { node: booting } => {
                (booting.0 == node.0 || self.is_waiting(node))
                    && self.has_others_with(booting, node)
            }
            Event::Tick { ms } => self.ends_its_wait(ms, node),
            _ => false,
        }
    }

    /// Does a node end?
    #[tactic(auto, unfolding(rh_step_findings::specs::After::ends))]
    pub(crate) fn ends(&self, node: Node) -> bool
        ensures { result ≡ ends self.now.state self.now.event node }
    {
        match self.event {
            Event::Crash { node: at } => at.0 == node.0,
            Event::Exit {
                node: at,
                app,
                normal,
            } => at.0 == node.0 && ends_node(self.restart(node, app), normal),
            _ => false,
        }
    }

    /// Is it up behind the step?
    #[tactic(auto, unfolding(rh_step_findings::specs::After::is_up_after))]
    pub(crate) fn is_up_after(&self, node: Node) -> bool
        ensures { result ≡ is_up_after self.now.state self.now.event node }
    {
        self.comes_up(node) || self.is_up(node) && !self.ends(node)
    }

    /// Has a node's boot list the application?
    pub(crate) fn boots(&self, node: Node, app: App) -> bool
        ensures { result ≡ boots self.now.state.cluster node app }
    {
        self.boot_list(node).iter().any(|entry| app.0 == entry.0.0)
    }

    // Is the node one at which it is still to be started?
    fn is_target(&self, node: Node, app: App) -> bool
        ensures { result ≡ is_target self.now.state app node }
    {
        self.is_up(node)
            && (self.is_local(app) || self.group(app, node).is_some())
            && !self.is_started(node, app)
    }

    /// Is it started there by hand?
    pub(crate) fn is_started_by(&self, node: Node, app: App) -> bool
        ensures { result ≡ is_started_by self.now.state self.now.event node app }
    {
        match self.event {
            Event::Start {
                node: at,
                app: one,
                ..
            } => at.0 == node.0 && one.0 == app.0,
            Event::StartAll { app: one, .. } => one.0 == app.0 && self.is_target(node, app),
            _ => false,
        }
    }

    /// Is it started there at this step?
    #[tactic(auto, unfolding(rh_step_findings::specs::After::starts_now))]
    pub(crate) fn starts_now(&self, node: Node, app: App) -> bool
        ensures { result ≡ starts_now self.now.state self.now.event node app }
    {
        self.is_started_by(node, app) || self.comes_up(node) && self.boots(node, app)
    }

    /// Is it started there behind the step?
    #[tactic(auto, unfolding(rh_step_findings::specs::After::is_started_after))]
    pub(crate) fn is_started_after(&self, node: Node, app: App) -> bool
        ensures { result ≡ is_started_after self.now.state self.now.event node app }
    {
        // Most nodes of its list have it started before the step, which is one look.
        self.is_started(node, app) || self.starts_now(node, app)
    }

    /// May it run there behind the step?
    #[tactic(auto, unfolding(rh_step_findings::specs::After::is_permitted_after))]
    pub(crate) fn is_permitted_after(&self, node: Node, app: App) -> bool
        ensures { result ≡ is_permitted_after self.now.state self.now.event node app }
    {
        match self.event {
            Event::Permit {
                node: at,
                app: one,
                allow,
            } if at.0 == node.0 && one.0 == app.0 => allow,
            _ => self.allows(node, app),
        }
    }
}
