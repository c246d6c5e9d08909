//! Findings of a start that waits for another node.

ghost use Rattle.std.specs.Prelude.{◌≡◌};
ghost use Rattle.rh_step_findings.specs.declared.code.Code.TheVariants as code;
ghost use Rattle.rh_step_findings.specs.Pairs.{found};

use crate::step::Step;
use rh_model::{App, Node};
use rh_step_findings::{Relation, StepFinding};

impl<'a> Step<'a> {
    #[tactic(auto, unfolding(rh_step_findings::specs::Pairs::found))]
    pub(crate) fn better_node_not_started(&self, node: Node, app: App) -> Option<StepFinding>
        ensures { result ≡ found self.now.state self.now.event code.BetterNodeNotStarted node app }
    {
        if !self.asks_others(node, app) {
            return None;
        }
        let other = self.other_so(Relation::BetterIdle, node, app)?;
        Some(StepFinding::BetterNodeNotStarted { node, app, other })
    }

    #[tactic(auto, unfolding(rh_step_findings::specs::Pairs::found))]
    pub(crate) fn tuple_member_not_started(&self, node: Node, app: App) -> Option<StepFinding>
        ensures { result ≡ found self.now.state self.now.event code.TupleMemberNotStarted node app }
    {
        if !self.asks_others(node, app) {
            return None;
        }
        let other = self.other_so(Relation::TupleIdle, node, app)?;
        Some(StepFinding::TupleMemberNotStarted { node, app, other })
    }

    #[tactic(auto, unfolding(rh_step_findings::specs::Pairs::found))]
    pub(crate) fn worse_node_not_started(&self, node: Node, app: App) -> Option<StepFinding>
        ensures { result ≡ found self.now.state self.now.event code.WorseNodeNotStarted node app }
    {
        if !self.asks_others(node, app) {
            return None;
        }
        let other = self.other_so(Relation::WorseIdle, node, app)?;
        Some(StepFinding::WorseNodeNotStarted { node, app, other })
    }

    #[tactic(auto, unfolding(rh_step_findings::specs::Pairs::found))]
    pub(crate) fn forbidden_start_waits(&self, node: Node, app: App) -> Option<StepFinding>
        ensures { result ≡ found self.now.state self.now.event code.ForbiddenStartWaits node app }
    {
        if !self.starts_forbidden(node, app) {
            return None;
        }
        let other = self.other_so(Relation::Idle, node, app)?;
        Some(StepFinding::ForbiddenStartWaits { node, app, other })
    }

    #[tactic(auto, unfolding(rh_step_findings::specs::Pairs::found))]
    pub(crate) fn runs_at_a_worse_node(&self, node: Node, app: App) -> Option<StepFinding>
        ensures { result ≡ found self.now.state self.now.event code.RunsAtAWorseNode node app }
    {
        if !self.starts_below(node, app) {
            return None;
        }
        let runner = self.runner(app)?;
        Some(StepFinding::RunsAtAWorseNode { node, app, runner })
    }

    #[tactic(auto, unfolding(rh_step_findings::specs::Pairs::found))]
    pub(crate) fn tuple_takeover(&self, node: Node, app: App) -> Option<StepFinding>
        ensures { result ≡ found self.now.state self.now.event code.TupleTakeover node app }
    {
        if !self.takes_back(node, app) {
            return None;
        }
        let other = self.other_so(Relation::Bystander, node, app)?;
        Some(StepFinding::TupleTakeover { node, app, other })
    }

    #[tactic(auto, unfolding(rh_step_findings::specs::Pairs::found))]
    pub(crate) fn better_node_waits_quiet(&self, node: Node, app: App) -> Option<StepFinding>
        ensures { result ≡ found self.now.state self.now.event code.BetterNodeWaitsQuiet node app }
    {
        if !self.starts_quiet(node, app) {
            return None;
        }
        let other = self.other_so(Relation::Holder, node, app)?;
        Some(StepFinding::BetterNodeWaitsQuiet { node, app, other })
    }

    #[tactic(auto, unfolding(rh_step_findings::specs::Pairs::found))]
    pub(crate) fn weights_for_ever(&self, node: Node, app: App) -> Option<StepFinding>
        ensures { result ≡ found self.now.state self.now.event code.WeightsForEver node app }
    {
        if !self.is_placed_behind_tuple(node, app) {
            return None;
        }
        let other = self.other_so(Relation::Companion, node, app)?;
        Some(StepFinding::WeightsForEver { node, app, other })
    }
}
