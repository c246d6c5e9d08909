//! The other nodes of which findings speak.

ghost use Rattle.std.specs.Prelude.{◌≡◌};
ghost use Rattle.rh_step_findings.specs.Others.{is_holder, stands_so, other_so};

use crate::step::Step;
use rh_model::{App, Node};
use rh_step_findings::Relation;

impl<'a> Step<'a> {
    // Does a node hold the application ready before the step, and may it run it?
    fn is_holder(&self, app: App, node: Node) -> bool
        ensures { result ≡ is_holder self.now.state app node }
    {
        self.is_up(node) && self.allows(node, app) && self.is_started(node, app)
    }

    // Does another node stand so?
    #[tactic(auto, unfolding(rh_step_findings::specs::Others::stands_so))]
    fn stands_so(&self, relation: Relation, node: Node, app: App, other: Node) -> bool
        ensures { result ≡ stands_so self.now.state self.now.event relation node app other }
    {
        match relation {
            Relation::BetterIdle => {
                self.ranks_before(app, other, node) && self.holds_up(node, app, other)
            }
            Relation::TupleIdle => {
                self.share_group(app, node, other) && self.holds_up(node, app, other)
            }
            Relation::WorseIdle => {
                self.ranks_before(app, node, other) && self.holds_up(node, app, other)
            }
            Relation::Idle => self.is_idle(node, app, other),
            Relation::Ready => {
                node.0 != other.0 && self.is_available(app, other) && self.is_started(other, app)
            }
            Relation::Unlisted => {
                node.0 != other.0
                    && self.group(app, other).is_none()
                    && self.is_up_after(other)
                    && self.takes_part(other)
            }
            Relation::Companion => node.0 != other.0 && self.is_best(app, other),
            Relation::Bystander => {
                node.0 != other.0 && self.is_best(app, other) && !self.starts_now(other, app)
            }
            Relation::Holder => {
                node.0 != other.0
                    && self.group(app, other).is_some()
                    && !self.ranks_before(app, node, other)
                    && self.is_holder(app, other)
            }
        }
    }

    /// The first node that does, in the order of the cluster file.
    #[tactic(auto, unfolding(rh_step_findings::specs::Others::other_so))]
    pub(crate) fn other_so(&self, relation: Relation, node: Node, app: App) -> Option<Node>
        ensures { result ≡ other_so self.now.state self.now.event relation node app }
    {
        let nodes = self.nodes.as_slice();
        'others: for other in nodes {
            if self.stands_so(relation, node, app, *other) {
                return Some(*other);
            }
        }
        None
    }
}
