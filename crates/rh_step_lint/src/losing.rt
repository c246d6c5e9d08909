//! Findings of losses, ends and takeovers.

ghost use Rattle.std.specs.Prelude.{◌≡◌};
ghost use Rattle.rh_step_findings.specs.declared.code.Code.TheVariants as code;
ghost use Rattle.rh_step_findings.specs.Pairs.{found};

use crate::step::Step;
use rh_model::{App, Node};
use rh_step_findings::{Relation, StepFinding};

impl<'a> Step<'a> {
    #[tactic(auto, unfolding(rh_step_findings::specs::Pairs::found))]
    pub(crate) fn start_within_time(&self, node: Node, app: App) -> Option<StepFinding>
        ensures { result ≡ found self.now.state self.now.event code.StartWithinTime node app }
    {
        if !self.starts_now(node, app) {
            return None;
        }
        let lost = self.awaited_node(node, app)?;
        Some(StepFinding::StartWithinTime { node, app, lost })
    }

    #[tactic(auto, unfolding(rh_step_findings::specs::Pairs::found))]
    pub(crate) fn nobody_saw_the_loss(&self, node: Node, app: App) -> Option<StepFinding>
        ensures { result ≡ found self.now.state self.now.event code.NobodySawTheLoss node app }
    {
        if !self.is_booted_with_phases(node, app) {
            return None;
        }
        let lost = self.given_up(node, app)?;
        Some(StepFinding::NobodySawTheLoss { node, app, lost })
    }

    #[tactic(auto, unfolding(rh_step_findings::specs::Pairs::found))]
    pub(crate) fn own_end(&self, node: Node, app: App) -> Option<StepFinding>
        ensures { result ≡ found self.now.state self.now.event code.OwnEnd node app }
    {
        if self.ends_with(node, app) && self.other_so(Relation::Ready, node, app).is_some() {
            Some(StepFinding::OwnEnd { node, app })
        } else {
            None
        }
    }

    #[tactic(auto, unfolding(rh_step_findings::specs::Pairs::found))]
    pub(crate) fn kind_after_loss(&self, node: Node, app: App) -> Option<StepFinding>
        ensures { result ≡ found self.now.state self.now.event code.KindAfterLoss node app }
    {
        if !self.is_helped(node, app) {
            return None;
        }
        let lost = self.lost_with(node, app)?;
        Some(StepFinding::KindAfterLoss { node, app, lost })
    }

    #[tactic(auto, unfolding(rh_step_findings::specs::Pairs::found))]
    pub(crate) fn takeover_not_started(&self, node: Node, app: App) -> Option<StepFinding>
        ensures { result ≡ found self.now.state self.now.event code.TakeoverNotStarted node app }
    {
        if !self.moves_unready(node, app) {
            return None;
        }
        Some(StepFinding::TakeoverNotStarted { node, app })
    }
}
