//! The kinds of findings at a node and an application.

/// The kinds of findings that speak of a node and an application, each named as the [`StepFinding`](crate::StepFinding) that
/// tells it.
#[derive(Clone, Copy, Debug, PartialEq, Eq)]
pub enum Code {
    BetterNodeNotStarted,
    TupleMemberNotStarted,
    WorseNodeNotStarted,
    ForbiddenStartWaits,
    RunsAtAWorseNode,
    TupleTakeover,
    BetterNodeWaitsQuiet,
    PermitStartsQuiet,
    DependencyForbiddenAtStart,
    BeforeDependency,
    ForbidMoves,
    ForbidOtherNotStarted,
    StartWithinTime,
    NobodySawTheLoss,
    WeightsForEver,
    OwnEnd,
    KindAfterLoss,
    DependencyGone,
    NeedsADistributedOne,
    ForbidWithUnlistedNodes,
    TakeoverNotStarted,
    LocalForbiddenTwice,
    LocalStopWhileForbidden,
}
