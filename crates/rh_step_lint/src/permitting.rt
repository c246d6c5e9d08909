//! Findings of permissions, and of dependencies.

ghost use Rattle.std.specs.Prelude.{◌≡◌};
ghost use Rattle.rh_step_findings.specs.declared.code.Code.TheVariants as code;
ghost use Rattle.rh_step_findings.specs.Pairs.{found};

use crate::step::Step;
use rh_model::{App, Node};
use rh_step_findings::{Lack, Relation, StepFinding};

impl<'a> Step<'a> {
    #[tactic(auto, unfolding(rh_step_findings::specs::Pairs::found))]
    pub(crate) fn permit_starts_quiet(&self, node: Node, app: App) -> Option<StepFinding>
        ensures { result ≡ found self.now.state self.now.event code.PermitStartsQuiet node app }
    {
        if !self.permits_quiet(node, app) {
            return None;
        }
        Some(StepFinding::PermitStartsQuiet { node, app })
    }

    #[tactic(auto, unfolding(rh_step_findings::specs::Pairs::found))]
    pub(crate) fn dependency_forbidden_at_start(&self, node: Node, app: App) -> Option<StepFinding>
        ensures { result
            ≡ found self.now.state self.now.event code.DependencyForbiddenAtStart node app }
    {
        if !self.boots_now(node, app) {
            return None;
        }
        let dependency = self.lacking_so(Lack::Forbidden, node, app)?;
        Some(StepFinding::DependencyForbiddenAtStart {
            node,
            app,
            dependency,
        })
    }

    #[tactic(auto, unfolding(rh_step_findings::specs::Pairs::found))]
    pub(crate) fn before_dependency(&self, node: Node, app: App) -> Option<StepFinding>
        ensures { result ≡ found self.now.state self.now.event code.BeforeDependency node app }
    {
        if !self.boots_now(node, app) {
            return None;
        }
        let dependency = self.lacking_so(Lack::Later, node, app)?;
        Some(StepFinding::BeforeDependency {
            node,
            app,
            dependency,
        })
    }

    #[tactic(auto, unfolding(rh_step_findings::specs::Pairs::found))]
    pub(crate) fn forbid_moves(&self, node: Node, app: App) -> Option<StepFinding>
        ensures { result ≡ found self.now.state self.now.event code.ForbidMoves node app }
    {
        if !(self.forbids_runner(node, app) && self.other_so(Relation::Idle, node, app).is_none()) {
            return None;
        }
        let other = self.other_so(Relation::Ready, node, app)?;
        Some(StepFinding::ForbidMoves { node, app, other })
    }

    #[tactic(auto, unfolding(rh_step_findings::specs::Pairs::found))]
    pub(crate) fn forbid_other_not_started(&self, node: Node, app: App) -> Option<StepFinding>
        ensures { result ≡ found self.now.state self.now.event code.ForbidOtherNotStarted node app }
    {
        if !self.forbids_runner(node, app) {
            return None;
        }
        let other = self.other_so(Relation::Idle, node, app)?;
        Some(StepFinding::ForbidOtherNotStarted { node, app, other })
    }

    #[tactic(auto, unfolding(rh_step_findings::specs::Pairs::found))]
    pub(crate) fn dependency_gone(&self, node: Node, app: App) -> Option<StepFinding>
        ensures { result ≡ found self.now.state self.now.event code.DependencyGone node app }
    {
        if !self.goes_to(node, app) {
            return None;
        }
        let dependency = self.lacking_so(Lack::Gone, node, app)?;
        Some(StepFinding::DependencyGone {
            node,
            app,
            dependency,
        })
    }

    #[tactic(auto, unfolding(rh_step_findings::specs::Pairs::found))]
    pub(crate) fn local_forbidden_twice(&self, node: Node, app: App) -> Option<StepFinding>
        ensures { result ≡ found self.now.state self.now.event code.LocalForbiddenTwice node app }
    {
        if !self.forbids_twice(node, app) {
            return None;
        }
        Some(StepFinding::LocalForbiddenTwice { node, app })
    }

    #[tactic(auto, unfolding(rh_step_findings::specs::Pairs::found))]
    pub(crate) fn local_stop_while_forbidden(&self, node: Node, app: App) -> Option<StepFinding>
        ensures { result
            ≡ found self.now.state self.now.event code.LocalStopWhileForbidden node app }
    {
        if !self.stops_forbidden(node, app) {
            return None;
        }
        Some(StepFinding::LocalStopWhileForbidden { node, app })
    }

    #[tactic(auto, unfolding(rh_step_findings::specs::Pairs::found))]
    pub(crate) fn needs_a_distributed_one(&self, node: Node, app: App) -> Option<StepFinding>
        ensures { result ≡ found self.now.state self.now.event code.NeedsADistributedOne node app }
    {
        if !self.boots_to_run(node, app) {
            return None;
        }
        let dependency = self.lacking_so(Lack::Elsewhere, node, app)?;
        Some(StepFinding::NeedsADistributedOne {
            node,
            app,
            dependency,
        })
    }

    #[tactic(auto, unfolding(rh_step_findings::specs::Pairs::found))]
    pub(crate) fn forbid_with_unlisted_nodes(&self, node: Node, app: App) -> Option<StepFinding>
        ensures { result
            ≡ found self.now.state self.now.event code.ForbidWithUnlistedNodes node app }
    {
        if !self.forbids_last(node, app) {
            return None;
        }
        let other = self.other_so(Relation::Unlisted, node, app)?;
        Some(StepFinding::ForbidWithUnlistedNodes { node, app, other })
    }
}
