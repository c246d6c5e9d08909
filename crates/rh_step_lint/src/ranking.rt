//! The best group of an application behind a step.

ghost use Rattle.std.specs.Prelude.{◌≡◌};
ghost use Rattle.std.specs.List.{list_any};
ghost use Rattle.rh_step_findings.specs.Ranked.{is_free, best_place, is_spare, has_spare};

use crate::step::Step;
use rh_model::{App, Node};

impl<'a> Step<'a> {
    // Is a node up and permitted behind the step?
    fn is_free(&self, app: App, node: Node) -> bool
        ensures { result ≡ is_free self.now.state self.now.event app node }
    {
        self.is_up_after(node) && self.is_permitted_after(node, app)
    }

    // Is one of these?
    fn has_free(&self, app: App, nodes: &[Node]) -> bool
        ensures { result ≡ list_any (is_free self.now.state self.now.event app) nodes.now }
    {
        nodes.iter().any(|node| self.is_free(app, *node))
    }

    /// The place of the first group of its list that has such a node.
    #[tactic(auto, unfolding(rh_step_findings::specs::Ranked::best_place))]
    pub(crate) fn best_place(&self, app: App) -> Option<usize>
        ensures { result ≡ best_place self.now.state self.now.event app }
    {
        self.groups(app)
            .iter()
            .position(|group| self.has_free(app, group.as_slice()))
    }

    // Is a node such a one, and hasn't it started the application behind the step?
    fn is_spare(&self, app: App, node: Node) -> bool
        ensures { result ≡ is_spare self.now.state self.now.event app node }
    {
        // Most nodes of its list have started it: only the others are asked whether they are free.
        !self.is_started_after(node, app) && self.is_free(app, node)
    }

    // Is one of these?
    fn any_spare(&self, app: App, nodes: &[Node]) -> bool
        ensures { result ≡ list_any (is_spare self.now.state self.now.event app) nodes.now }
    {
        nodes.iter().any(|node| self.is_spare(app, *node))
    }

    /// Is one of its list?
    #[tactic(auto, unfolding(rh_step_findings::specs::Ranked::has_spare))]
    pub(crate) fn has_spare(&self, app: App) -> bool
        ensures { result ≡ has_spare self.now.state self.now.event app }
    {
        self.groups(app)
            .iter()
            .any(|group| self.any_spare(app, group.as_slice()))
    }
}
