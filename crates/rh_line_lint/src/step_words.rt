//! The words of what a live OTP does otherwise at a step.

ghost use Rattle.std.specs.Prelude.{◌≡◌};
ghost use Rattle.rh_findings.specs.Sentences.{words_seen, names_seen};
ghost use Rattle.rh_line_lint.specs.StepWords.{names, words_of, names_of};

use rh_calls::{app_word, node_word};
use rh_cluster::Cluster;
use rh_findings::{Names, Words};
use rh_step_findings::StepFinding;

const BETTER_NODE_NOT_STARTED: Words = Words {
    begin: "better_node_not_started: ",
    first: " is started at ",
    second: ", and ",
    third: ", before it in the list, is up and hasn't started it: live it hangs",
};

const TUPLE_MEMBER_NOT_STARTED: Words = Words {
    begin: "tuple_member_not_started: ",
    first: " is started at ",
    second: ", and ",
    third: " of the same tuple is up and hasn't started it: live it hangs",
};

const WORSE_NODE_NOT_STARTED: Words = Words {
    begin: "worse_node_not_started: ",
    first: " is started at ",
    second: ", and ",
    third: ", behind it in the list, is up and hasn't started it: live it hangs",
};

const FORBIDDEN_START_WAITS: Words = Words {
    begin: "forbidden_start_waits: ",
    first: " is started at ",
    second: ", where it is forbidden, and ",
    third: " may run it and hasn't started it: live it hangs",
};

const RUNS_AT_A_WORSE_NODE: Words = Words {
    begin: "runs_at_a_worse_node: ",
    first: " is started at ",
    second: ", and runs at ",
    third: ", which is none of its best nodes: live it hangs",
};

const TUPLE_TAKEOVER: Words = Words {
    begin: "tuple_takeover: ",
    first: " is started at ",
    second: ", and ",
    third: " of the same tuple is up, too, while it runs behind them: live it can hang",
};

const BETTER_NODE_WAITS_QUIET: Words = Words {
    begin: "better_node_waits_quiet: ",
    first: " is started at ",
    second: ", and ",
    third: " holds it stopped: live it hangs",
};

const PERMIT_STARTS_QUIET: Words = Words {
    begin: "permit_starts_quiet: ",
    first: " is stopped, and live the permission at ",
    second: " starts it",
    third: "",
};

const DEPENDENCY_FORBIDDEN_AT_START: Words = Words {
    begin: "dependency_forbidden_at_start: ",
    first: " boots ",
    second: ", which needs ",
    third: ", forbidden there: live it is never started by itself",
};

const BEFORE_DEPENDENCY: Words = Words {
    begin: "before_dependency: ",
    first: " boots ",
    second: " before ",
    third: ", which it needs: live it is never started by itself",
};

const FORBID_MOVES: Words = Words {
    begin: "forbid_moves: ",
    first: " is forbidden at ",
    second: ", and ",
    third: " holds it ready: live both run it for a moment",
};

const FORBID_OTHER_NOT_STARTED: Words = Words {
    begin: "forbid_other_not_started: ",
    first: " is forbidden at ",
    second: ", and ",
    third: " may run it and hasn't started it: live it hangs, and runs on",
};

const START_WITHIN_TIME: Words = Words {
    begin: "start_within_time: ",
    first: " is started at ",
    second: " within the time in which it waits for ",
    third: ": live it may start at once",
};

const NOBODY_SAW_THE_LOSS: Words = Words {
    begin: "nobody_saw_the_loss: ",
    first: " was lost with ",
    second: ", which nobody who is up saw: live ",
    third: " starts it at once",
};

const WEIGHTS_FOR_EVER: Words = Words {
    begin: "weights_for_ever: ",
    first: " is placed at ",
    second: " or ",
    third: " behind a tuple of nodes that are down: live they send messages for ever",
};

const START_WHERE_NOT_LISTED: Words = Words {
    begin: "start_where_not_listed: ",
    first: " isn't listed at ",
    second: ": live a second instance may run there",
    third: "",
};

const TAKEOVER_WHERE_FORBIDDEN: Words = Words {
    begin: "takeover_where_forbidden: ",
    first: " is forbidden at ",
    second: ": live the takeover runs it there all the same",
    third: "",
};

const START_OF_A_WAITING_LOCAL: Words = Words {
    begin: "start_of_a_waiting_local: ",
    first: " waits at ",
    second: ": live another start of it is done",
    third: "",
};

const OWN_END: Words = Words {
    begin: "own_end: ",
    first: " ends by itself at ",
    second: ", and the node with it: live it isn't failed over",
    third: "",
};

const KIND_AFTER_LOSS: Words = Words {
    begin: "kind_after_loss: ",
    first: " was lost with ",
    second: ", and starts at ",
    third: " by hand: live it starts as normal",
};

const DEPENDENCY_GONE: Words = Words {
    begin: "dependency_gone: ",
    first: " comes to ",
    second: ", where ",
    third: ", which it needs, doesn't run: live the node can end",
};

const NEEDS_A_DISTRIBUTED_ONE: Words = Words {
    begin: "needs_a_distributed_one: ",
    first: " is to run at ",
    second: ", and ",
    third: ", which it needs, elsewhere: live it starts without",
};

const FORBID_WITH_UNLISTED_NODES: Words = Words {
    begin: "forbid_with_unlisted_nodes: ",
    first: " is forbidden at ",
    second: ", and ",
    third: " takes part without being listed: live it hangs, and runs on",
};

const TAKEOVER_NOT_STARTED: Words = Words {
    begin: "takeover_not_started: ",
    first: " isn't started at ",
    second: ": live the takeover is refused",
    third: "",
};

const LOCAL_FORBIDDEN_TWICE: Words = Words {
    begin: "local_forbidden_twice: ",
    first: " was started at ",
    second: " while it was forbidden: live that start is forgotten now",
    third: "",
};

const LOCAL_STOP_WHILE_FORBIDDEN: Words = Words {
    begin: "local_stop_while_forbidden: ",
    first: " was started at ",
    second: " while it was forbidden: live the stop is refused",
    third: "",
};

const OTHER_NODE_WAITS: Words = Words {
    begin: "other_node_waits: ",
    first: " comes up while ",
    second: " still waits: live its applications wait, too, and may run elsewhere",
    third: "",
};

const NOT_IN_ITS_LISTS: Words = Words {
    begin: "not_in_its_lists: ",
    first: " comes up without ",
    second: " in its lists: live both may start what is lost later",
    third: "",
};

/// The words of a finding.
pub fn words_of(finding: &StepFinding) -> Words
    ensures { words_seen result ≡ words_of finding.now }
{
    match *finding {
        StepFinding::BetterNodeNotStarted { .. } => BETTER_NODE_NOT_STARTED,
        StepFinding::TupleMemberNotStarted { .. } => TUPLE_MEMBER_NOT_STARTED,
        StepFinding::WorseNodeNotStarted { .. } => WORSE_NODE_NOT_STARTED,
        StepFinding::ForbiddenStartWaits { .. } => FORBIDDEN_START_WAITS,
        StepFinding::RunsAtAWorseNode { .. } => RUNS_AT_A_WORSE_NODE,
        StepFinding::TupleTakeover { .. } => TUPLE_TAKEOVER,
        StepFinding::BetterNodeWaitsQuiet { .. } => BETTER_NODE_WAITS_QUIET,
        StepFinding::PermitStartsQuiet { .. } => PERMIT_STARTS_QUIET,
        StepFinding::DependencyForbiddenAtStart { .. } => DEPENDENCY_FORBIDDEN_AT_START,
        StepFinding::BeforeDependency { .. } => BEFORE_DEPENDENCY,
        StepFinding::ForbidMoves { .. } => FORBID_MOVES,
        StepFinding::ForbidOtherNotStarted { .. } => FORBID_OTHER_NOT_STARTED,
        StepFinding::StartWithinTime { .. } => START_WITHIN_TIME,
        StepFinding::NobodySawTheLoss { .. } => NOBODY_SAW_THE_LOSS,
        StepFinding::WeightsForEver { .. } => WEIGHTS_FOR_EVER,
        StepFinding::StartWhereNotListed { .. } => START_WHERE_NOT_LISTED,
        StepFinding::TakeoverWhereForbidden { .. } => TAKEOVER_WHERE_FORBIDDEN,
        StepFinding::StartOfAWaitingLocal { .. } => START_OF_A_WAITING_LOCAL,
        StepFinding::OwnEnd { .. } => OWN_END,
        StepFinding::KindAfterLoss { .. } => KIND_AFTER_LOSS,
        StepFinding::DependencyGone { .. } => DEPENDENCY_GONE,
        StepFinding::NeedsADistributedOne { .. } => NEEDS_A_DISTRIBUTED_ONE,
        StepFinding::ForbidWithUnlistedNodes { .. } => FORBID_WITH_UNLISTED_NODES,
        StepFinding::TakeoverNotStarted { .. } => TAKEOVER_NOT_STARTED,
        StepFinding::LocalForbiddenTwice { .. } => LOCAL_FORBIDDEN_TWICE,
        StepFinding::LocalStopWhileForbidden { .. } => LOCAL_STOP_WHILE_FORBIDDEN,
        StepFinding::OtherNodeWaits { .. } => OTHER_NODE_WAITS,
        StepFinding::NotInItsLists { .. } => NOT_IN_ITS_LISTS,
    }
}

// These names.
fn names<'a>(first: &'a str, second: &'a str, third: &'a str) -> Names<'a>
    ensures { names_seen result ≡ names first.now second.now third.now }
{
    Names {
        first,
        second,
        third,
    }
}

/// The names that stand in them.
pub fn names_of<'a>(cluster: &'a Cluster, finding: &StepFinding) -> Names<'a>
    ensures { names_seen result ≡ names_of cluster.now finding.now }
{
    match *finding {
        StepFinding::BetterNodeNotStarted { node, app, other } => names(
            app_word(cluster, app),
            node_word(cluster, node),
            node_word(cluster, other),
        ),
        StepFinding::TupleMemberNotStarted { node, app, other } => names(
            app_word(cluster, app),
            node_word(cluster, node),
            node_word(cluster, other),
        ),
        StepFinding::WorseNodeNotStarted { node, app, other } => names(
            app_word(cluster, app),
            node_word(cluster, node),
            node_word(cluster, other),
        ),
        StepFinding::ForbiddenStartWaits { node, app, other } => names(
            app_word(cluster, app),
            node_word(cluster, node),
            node_word(cluster, other),
        ),
        StepFinding::RunsAtAWorseNode { node, app, runner } => names(
            app_word(cluster, app),
            node_word(cluster, node),
            node_word(cluster, runner),
        ),
        StepFinding::TupleTakeover { node, app, other } => names(
            app_word(cluster, app),
            node_word(cluster, node),
            node_word(cluster, other),
        ),
        StepFinding::BetterNodeWaitsQuiet { node, app, other } => names(
            app_word(cluster, app),
            node_word(cluster, node),
            node_word(cluster, other),
        ),
        StepFinding::PermitStartsQuiet { node, app } => names(
            app_word(cluster, app),
            node_word(cluster, node),
            "",
        ),
        StepFinding::DependencyForbiddenAtStart {
            node,
            app,
            dependency,
        } => names(
            node_word(cluster, node),
            app_word(cluster, app),
            app_word(cluster, dependency),
        ),
        StepFinding::BeforeDependency {
            node,
            app,
            dependency,
        } => names(
            node_word(cluster, node),
            app_word(cluster, app),
            app_word(cluster, dependency),
        ),
        StepFinding::ForbidMoves { node, app, other } => names(
            app_word(cluster, app),
            node_word(cluster, node),
            node_word(cluster, other),
        ),
        StepFinding::ForbidOtherNotStarted { node, app, other } => names(
            app_word(cluster, app),
            node_word(cluster, node),
            node_word(cluster, other),
        ),
        StepFinding::StartWithinTime { node, app, lost } => names(
            app_word(cluster, app),
            node_word(cluster, node),
            node_word(cluster, lost),
        ),
        StepFinding::NobodySawTheLoss { node, app, lost } => names(
            app_word(cluster, app),
            node_word(cluster, lost),
            node_word(cluster, node),
        ),
        StepFinding::WeightsForEver { node, app, other } => names(
            app_word(cluster, app),
            node_word(cluster, node),
            node_word(cluster, other),
        ),
        StepFinding::StartWhereNotListed { node, app } => names(
            app_word(cluster, app),
            node_word(cluster, node),
            "",
        ),
        StepFinding::TakeoverWhereForbidden { node, app } => names(
            app_word(cluster, app),
            node_word(cluster, node),
            "",
        ),
        StepFinding::StartOfAWaitingLocal { node, app } => names(
            app_word(cluster, app),
            node_word(cluster, node),
            "",
        ),
        StepFinding::OwnEnd { node, app } => names(
            app_word(cluster, app),
            node_word(cluster, node),
            "",
        ),
        StepFinding::KindAfterLoss { node, app, lost } => names(
            app_word(cluster, app),
            node_word(cluster, lost),
            node_word(cluster, node),
        ),
        StepFinding::DependencyGone {
            node,
            app,
            dependency,
        } => names(
            app_word(cluster, app),
            node_word(cluster, node),
            app_word(cluster, dependency),
        ),
        StepFinding::NeedsADistributedOne {
            node,
            app,
            dependency,
        } => names(
            app_word(cluster, app),
            node_word(cluster, node),
            app_word(cluster, dependency),
        ),
        StepFinding::ForbidWithUnlistedNodes { node, app, other } => names(
            app_word(cluster, app),
            node_word(cluster, node),
            node_word(cluster, other),
        ),
        StepFinding::TakeoverNotStarted { node, app } => names(
            app_word(cluster, app),
            node_word(cluster, node),
            "",
        ),
        StepFinding::LocalForbiddenTwice { node, app } => names(
            app_word(cluster, app),
            node_word(cluster, node),
            "",
        ),
        StepFinding::LocalStopWhileForbidden { node, app } => names(
            app_word(cluster, app),
            node_word(cluster, node),
            "",
        ),
        StepFinding::OtherNodeWaits { node, other } => names(
            node_word(cluster, node),
            node_word(cluster, other),
            "",
        ),
        StepFinding::NotInItsLists { node, other } => names(
            node_word(cluster, node),
            node_word(cluster, other),
            "",
        ),
    }
}
