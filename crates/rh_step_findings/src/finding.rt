//! What a live OTP does otherwise at a step.

ghost use Rattle.std.specs.Prelude.{◌≡◌};
ghost use Rattle.rh_step_findings.specs.Levels.{is_warning, hangs};

use rh_model::{App, Node};

/// A step at which a live OTP does otherwise than the rules. Each names the node and the application of which it speaks, and the
/// other node, or the dependency, by which it comes to that: the first one where there are several.
#[derive(Clone, Copy, Debug, PartialEq, Eq)]
pub enum StepFinding {
    /// The application is started at the node, and the other one, of an earlier group of its list, is up and permitted and hasn't
    /// started it: a live OTP waits for that one, if one of the two has the other in its lists.
    BetterNodeNotStarted {
        node: Node,
        app: App,
        other: Node,
    },
    /// The same with another node of its own group.
    TupleMemberNotStarted {
        node: Node,
        app: App,
        other: Node,
    },
    /// The same with a node of a later group: where a tuple is asked, all nodes of the list are.
    WorseNodeNotStarted {
        node: Node,
        app: App,
        other: Node,
    },
    /// The application is started at a node at which it is forbidden, runs nowhere, nor is started where it may run, and the other
    /// node may run it and hasn't started it.
    ForbiddenStartWaits {
        node: Node,
        app: App,
        other: Node,
    },
    /// The application is started at the node while it runs at the other one, which is of a later group than the best that has a
    /// node for it; the node isn't of that best group, and none of that group starts it at the same moment.
    RunsAtAWorseNode {
        node: Node,
        app: App,
        runner: Node,
    },
    /// The application is started at a node of the best group while it runs in a later one, and the other node is of that best
    /// group, too, and doesn't start it at the same moment.
    TupleTakeover {
        node: Node,
        app: App,
        other: Node,
    },
    /// The application is quiet and is started at the node, and the other one, which ranks as high at least, holds it ready.
    BetterNodeWaitsQuiet {
        node: Node,
        app: App,
        other: Node,
    },
    /// The application is quiet and is permitted at a node at which it is started.
    PermitStartsQuiet {
        node: Node,
        app: App,
    },
    /// The node boots the application, and the dependency that it boots before isn't distributed, and is forbidden there.
    DependencyForbiddenAtStart {
        node: Node,
        app: App,
        dependency: App,
    },
    /// The node boots the application, and the dependency not before it.
    BeforeDependency {
        node: Node,
        app: App,
        dependency: App,
    },
    /// The application is forbidden at the node at which it runs, and all others that may run it hold it ready.
    ForbidMoves {
        node: Node,
        app: App,
        other: Node,
    },
    /// The application is forbidden at the node at which it runs, and the other one may run it and hasn't started it.
    ForbidOtherNotStarted {
        node: Node,
        app: App,
        other: Node,
    },
    /// The application is started at the node within the time in which it waits for the node with which it was lost, and not at
    /// that one.
    StartWithinTime {
        node: Node,
        app: App,
        lost: Node,
    },
    /// The application was lost with another node and couldn't start since, and the node comes up and boots it.
    NobodySawTheLoss {
        node: Node,
        app: App,
        lost: Node,
    },
    /// The application is placed at the node, one of two at least of its group, behind a tuple that has no node for it.
    WeightsForEver {
        node: Node,
        app: App,
        other: Node,
    },
    /// The application is started at, or moved to, a node that isn't in its list: refused (S10).
    StartWhereNotListed {
        node: Node,
        app: App,
    },
    /// The application is moved to a node at which it is forbidden: refused (S16).
    TakeoverWhereForbidden {
        node: Node,
        app: App,
    },
    /// The application isn't distributed, waits at the node, and is started there once more: refused (S11).
    StartOfAWaitingLocal {
        node: Node,
        app: App,
    },
    /// The application ends by itself, and its node with it, and another node holds it ready.
    OwnEnd {
        node: Node,
        app: App,
    },
    /// The application was lost with another node, and is started or permitted by hand at the node.
    KindAfterLoss {
        node: Node,
        app: App,
        lost: Node,
    },
    /// The application fails over to the node, or is permitted there, and the dependency doesn't run there.
    DependencyGone {
        node: Node,
        app: App,
        dependency: App,
    },
    /// The node comes up and boots the application, which may and is to run there, and the dependency is distributed and is to
    /// run elsewhere.
    NeedsADistributedOne {
        node: Node,
        app: App,
        dependency: App,
    },
    /// The application is forbidden at the node at which it runs, no other node of its list may run it, and the other one, which
    /// isn't in its list, takes part in distributed applications.
    ForbidWithUnlistedNodes {
        node: Node,
        app: App,
        other: Node,
    },
    /// The application is moved to a node at which it isn't started.
    TakeoverNotStarted {
        node: Node,
        app: App,
    },
    /// The application isn't distributed, was started at the node while it was forbidden there, and is forbidden once more.
    LocalForbiddenTwice {
        node: Node,
        app: App,
    },
    /// The application isn't distributed, was started at the node while it was forbidden there, and is stopped.
    LocalStopWhileForbidden {
        node: Node,
        app: App,
    },
    /// The node comes up and boots a distributed application, and the other one, which takes part in such ones, still waits for
    /// its nodes.
    OtherNodeWaits {
        node: Node,
        other: Node,
    },
    /// The node comes up as it boots, and the other one, which is alive, isn't in its lists; the node boots an application that
    /// may run at both.
    NotInItsLists {
        node: Node,
        other: Node,
    },
}

impl StepFinding {
    /// Whether it is one of the narrow set of findings, which were never there where live nodes agreed on clusters that were well
    /// set up: it is worth a warning, others a hint.
    pub fn is_warning(&self) -> bool
        ensures { result ≡ is_warning self.now }
    {
        !matches!(
            self,
            StepFinding::OwnEnd { .. }
                | StepFinding::KindAfterLoss { .. }
                | StepFinding::DependencyGone { .. }
                | StepFinding::ForbidWithUnlistedNodes { .. }
                | StepFinding::TakeoverNotStarted { .. }
                | StepFinding::LocalForbiddenTwice { .. }
                | StepFinding::LocalStopWhileForbidden { .. }
                | StepFinding::OtherNodeWaits { .. }
                | StepFinding::NotInItsLists { .. }
        )
    }

    /// Whether a live call or boot script doesn't return, so that from there on a live cluster has another past.
    pub fn hangs(&self) -> bool
        ensures { result ≡ hangs self.now }
    {
        matches!(
            self,
            StepFinding::BetterNodeNotStarted { .. }
                | StepFinding::TupleMemberNotStarted { .. }
                | StepFinding::WorseNodeNotStarted { .. }
                | StepFinding::ForbiddenStartWaits { .. }
                | StepFinding::RunsAtAWorseNode { .. }
                | StepFinding::TupleTakeover { .. }
                | StepFinding::BetterNodeWaitsQuiet { .. }
                | StepFinding::ForbidOtherNotStarted { .. }
                | StepFinding::ForbidWithUnlistedNodes { .. }
        )
    }
}
