//! All findings of a step that is made.

ghost use Rattle.std.specs.Prelude.{◌≡◌, ◌++◌, OnOk, IfOk};
ghost use Rattle.std.specs.List.{flat_map};
ghost use Rattle.std.specs.Option.{option_to_list};
ghost use Rattle.rh_state.specs.Numbers.{nodes_of};
ghost use Rattle.rh_step_findings.specs.Pairs.{found};
ghost use Rattle.rh_step_findings.specs.Findings.{codes_told, found_of, waits_found, lists_found, findings_made};
ghost use Rattle.rh_step_findings.specs.Touched.{touch_of, may_speak, found_in, all_touched};

use crate::step::Step;
use rh_base::OutOfMemory;
use rh_model::{App, Node};
use rh_step_findings::{Code, StepFinding, Touch};
use std::alloc::Global;

// The kinds at a node with an application, in the order in which they are told.
const CODES: [Code; 23] = [
    Code::BetterNodeNotStarted,
    Code::TupleMemberNotStarted,
    Code::WorseNodeNotStarted,
    Code::ForbiddenStartWaits,
    Code::RunsAtAWorseNode,
    Code::TupleTakeover,
    Code::BetterNodeWaitsQuiet,
    Code::PermitStartsQuiet,
    Code::DependencyForbiddenAtStart,
    Code::BeforeDependency,
    Code::ForbidMoves,
    Code::ForbidOtherNotStarted,
    Code::StartWithinTime,
    Code::NobodySawTheLoss,
    Code::WeightsForEver,
    Code::OwnEnd,
    Code::KindAfterLoss,
    Code::DependencyGone,
    Code::NeedsADistributedOne,
    Code::ForbidWithUnlistedNodes,
    Code::TakeoverNotStarted,
    Code::LocalForbiddenTwice,
    Code::LocalStopWhileForbidden,
];

// May a kind speak of a node and an application that the step touches?
fn may_speak(code: Code, touch: &Touch) -> bool
    ensures { result ≡ may_speak code touch.now }
{
    match code {
        Code::BetterNodeNotStarted | Code::TupleMemberNotStarted | Code::WorseNodeNotStarted => {
            touch.trial.waits
        }
        Code::ForbiddenStartWaits => touch.trial.forbidden,
        Code::RunsAtAWorseNode => touch.trial.below,
        Code::TupleTakeover => touch.trial.back,
        Code::WeightsForEver => touch.trial.weighs,
        Code::BetterNodeWaitsQuiet => touch.quiet,
        Code::DependencyForbiddenAtStart | Code::BeforeDependency | Code::NeedsADistributedOne =>
            touch.needs,
        Code::StartWithinTime => touch.starts,
        Code::NobodySawTheLoss => touch.phases,
        Code::KindAfterLoss => touch.helped,
        Code::DependencyGone => touch.goes,
        _ => touch.named,
    }
}

// Adds a finding, if there is one.
pub(crate) fn push_if_any(
    found: &mut Vec<StepFinding>,
    finding: Option<StepFinding>,
) -> Result<(), OutOfMemory>
    ensures { OnOk result (found.new.items ≡ found.old.items ++ option_to_list finding) }
{
    if let Some(finding) = finding {
        found.push(finding)?;
    }
    Ok(())
}

impl<'a> Step<'a> {
    // The finding of a kind at a node with an application, if there is one.
    fn found(&self, code: Code, node: Node, app: App) -> Option<StepFinding>
        ensures { result ≡ found self.now.state self.now.event code node app }
    {
        match code {
            Code::BetterNodeNotStarted => self.better_node_not_started(node, app),
            Code::TupleMemberNotStarted => self.tuple_member_not_started(node, app),
            Code::WorseNodeNotStarted => self.worse_node_not_started(node, app),
            Code::ForbiddenStartWaits => self.forbidden_start_waits(node, app),
            Code::RunsAtAWorseNode => self.runs_at_a_worse_node(node, app),
            Code::TupleTakeover => self.tuple_takeover(node, app),
            Code::BetterNodeWaitsQuiet => self.better_node_waits_quiet(node, app),
            Code::PermitStartsQuiet => self.permit_starts_quiet(node, app),
            Code::DependencyForbiddenAtStart => self.dependency_forbidden_at_start(node, app),
            Code::BeforeDependency => self.before_dependency(node, app),
            Code::ForbidMoves => self.forbid_moves(node, app),
            Code::ForbidOtherNotStarted => self.forbid_other_not_started(node, app),
            Code::StartWithinTime => self.start_within_time(node, app),
            Code::NobodySawTheLoss => self.nobody_saw_the_loss(node, app),
            Code::WeightsForEver => self.weights_for_ever(node, app),
            Code::OwnEnd => self.own_end(node, app),
            Code::KindAfterLoss => self.kind_after_loss(node, app),
            Code::DependencyGone => self.dependency_gone(node, app),
            Code::NeedsADistributedOne => self.needs_a_distributed_one(node, app),
            Code::ForbidWithUnlistedNodes => self.forbid_with_unlisted_nodes(node, app),
            Code::TakeoverNotStarted => self.takeover_not_started(node, app),
            Code::LocalForbiddenTwice => self.local_forbidden_twice(node, app),
            Code::LocalStopWhileForbidden => self.local_stop_while_forbidden(node, app),
        }
    }

    // Adds that of a kind at a node with an application that the step touches, if there is one.
    fn push_in(
        &self,
        found: &mut Vec<StepFinding>,
        code: Code,
        touch: &Touch,
    ) -> Result<(), OutOfMemory>
        requires { touch.now ≡ touch_of self.now.state self.now.event touch.now.node touch.now.app }
        ensures { OnOk result (found.new.items
            ≡ found.old.items ++ found_in self.now.state self.now.event code touch.now) }
    {
        if may_speak(code, touch) {
            push_if_any(found, self.found(code, touch.node, touch.app))?;
        }
        Ok(())
    }

    // Adds those of a kind. It is asked only of what the step touches, since nothing is found elsewhere.
    fn push_of(
        &self,
        found: &mut Vec<StepFinding>,
        code: Code,
        touched: &[Touch],
    ) -> Result<(), OutOfMemory>
        requires { touched.now ≡ all_touched self.now.state self.now.event }
        ensures { OnOk result
            (found.new.items ≡ found.old.items ++ found_of self.now.state self.now.event code) }
    {
        for touch in touched {
            self.push_in(found, code, touch)?;
        }
        Ok(())
    }

    // Adds those of some kinds.
    fn push_pairs(
        &self,
        found: &mut Vec<StepFinding>,
        codes: &[Code],
        touched: &[Touch],
    ) -> Result<(), OutOfMemory>
        requires { touched.now ≡ all_touched self.now.state self.now.event }
        ensures { OnOk result (found.new.items
            ≡ found.old.items ++ flat_map (found_of self.now.state self.now.event) codes.now) }
    {
        for code in codes {
            self.push_of(found, *code, touched)?;
        }
        Ok(())
    }

    // Adds those of nodes that come up while another one waits.
    fn push_waits(&self, found: &mut Vec<StepFinding>) -> Result<(), OutOfMemory>
        ensures { OnOk result (found.new.items ≡ found.old.items ++ flat_map
            (waits_found self.now.state self.now.event) (nodes_of self.now.state.cluster)) }
    {
        let nodes = self.nodes.as_slice();
        for node in nodes {
            push_if_any(found, self.other_node_waits(*node))?;
        }
        Ok(())
    }

    // Adds those of nodes whose lists lack a node.
    fn push_lists(&self, found: &mut Vec<StepFinding>) -> Result<(), OutOfMemory>
        ensures { OnOk result (found.new.items ≡ found.old.items ++ flat_map
            (lists_found self.now.state self.now.event) (nodes_of self.now.state.cluster)) }
    {
        let nodes = self.nodes.as_slice();
        for node in nodes {
            push_if_any(found, self.not_in_its_lists(*node))?;
        }
        Ok(())
    }

    /// All of them.
    #[tactic(auto, unfolding(rh_step_findings::specs::Findings::findings_made))]
    pub(crate) fn findings_made(&self, alloc: Global) -> Result<Vec<StepFinding>, OutOfMemory>
        ensures { IfOk result (λ found. found.items ≡ findings_made self.now.state self.now.event) }
    {
        let mut found = Vec::new(alloc);
        let touched = self.touched_pairs(alloc)?;
        self.push_pairs(&mut found, &CODES, touched.as_slice())?;
        self.push_waits(&mut found)?;
        self.push_lists(&mut found)?;
        Ok(found)
    }
}
