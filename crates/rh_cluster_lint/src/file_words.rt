//! The words of the findings of a file.

ghost use Rattle.std.specs.Prelude.{◌≡◌};
ghost use Rattle.rh_findings.specs.Sentences.{words_seen, names_seen};
ghost use Rattle.rh_cluster_lint.specs.FileWords.{words, names, words_of, names_of, is_warning};

use rh_calls::{app_word, dep_word, node_word};
use rh_cluster::Cluster;
use rh_file_lint::FileFinding;
use rh_findings::{Names, Words};

const NO_DISTRIBUTED_APPLICATION: Words = Words {
    begin: "no_distributed_application: no application is distributed, so none fails over",
    first: "",
    second: "",
    third: "",
};

const NO_LISTS: Words = Words {
    begin: "no_lists: ",
    first: " names no other node that it waits for: live it connects to nobody, and may run an instance of its own",
    second: "",
    third: "",
};

const ONE_SIDED_LISTS: Words = Words {
    begin: "one_sided_lists: ",
    first: " lists ",
    second: ", but isn't in its lists",
    third: "",
};

const INCOMPLETE_LISTS: Words = Words {
    begin: "incomplete_lists: ",
    first: " and ",
    second: " share a distributed application, but neither lists the other",
    third: "",
};

const LISTS_WITHOUT_TIMEOUT: Words = Words {
    begin: "lists_without_timeout: ",
    first: " has lists and no sync_nodes_timeout: it waits for nobody, and may run an instance of its own",
    second: "",
    third: "",
};

const SYNC_TIMEOUT_ZERO: Words = Words {
    begin: "sync_timeout_zero: sync_nodes_timeout of ",
    first: " is 0, which ends a live node",
    second: "",
    third: "",
};

const SYNC_TIMEOUT_TOO_LARGE: Words = Words {
    begin: "sync_timeout_too_large: sync_nodes_timeout of ",
    first: " is above 4294967295, and no live timer takes more",
    second: "",
    third: "",
};

const FAILOVER_TIMEOUT_TOO_LARGE: Words = Words {
    begin: "failover_timeout_too_large: the timeout of ",
    first: " is above 4294967295, and no live timer takes more",
    second: "",
    third: "",
};

const TUPLE_NOT_IN_ORDER: Words = Words {
    begin: "tuple_not_in_order: a tuple of ",
    first: " isn't in the order of names, by which live nodes go",
    second: "",
    third: "",
};

const TWO_TUPLES: Words = Words {
    begin: "two_tuples: the list of ",
    first: " has two tuples, for which live nodes can send messages for ever",
    second: "",
    third: "",
};

const BOOT_BEFORE_DEPENDENCY: Words = Words {
    begin: "boot_before_dependency: ",
    first: " boots ",
    second: " before ",
    third: ", on which it depends",
};

const CROSSED_BOOT_LISTS: Words = Words {
    begin: "crossed_boot_lists: ",
    first: " boots ",
    second: " before ",
    third: ", and another node the other way round: live both boots can hang",
};

const NOT_BOOTED_AT_LISTED_NODE: Words = Words {
    begin: "not_booted_at_listed_node: ",
    first: " may run ",
    second: ", but doesn't boot it",
    third: "",
};

const PERMANENT_DISTRIBUTED: Words = Words {
    begin: "permanent_distributed: ",
    first: " is distributed and booted as permanent: its end takes the node down, and live it fails over nowhere",
    second: "",
    third: "",
};

const LOCAL_AT_SEVERAL_NODES: Words = Words {
    begin: "local_at_several_nodes: several nodes boot ",
    first: ", which isn't distributed: each runs an instance of its own",
    second: "",
    third: "",
};

const DEPENDENCY_CIRCLE: Words = Words {
    begin: "dependency_circle: ",
    first: " depends on itself by way of others, and never starts",
    second: "",
    third: "",
};

const LOST_TOGETHER: Words = Words {
    begin: "lost_together: ",
    first: " and ",
    second: " may be lost with one node, and then can wait for one another for ever",
    third: "",
};

/// The words of a finding.
pub fn words_of(finding: &FileFinding) -> Words
    ensures { words_seen result ≡ words_of finding.now }
{
    match *finding {
        FileFinding::NoDistributedApplication => NO_DISTRIBUTED_APPLICATION,
        FileFinding::NoLists { .. } => NO_LISTS,
        FileFinding::OneSidedLists { .. } => ONE_SIDED_LISTS,
        FileFinding::IncompleteLists { .. } => INCOMPLETE_LISTS,
        FileFinding::ListsWithoutTimeout { .. } => LISTS_WITHOUT_TIMEOUT,
        FileFinding::SyncTimeoutZero { .. } => SYNC_TIMEOUT_ZERO,
        FileFinding::SyncTimeoutTooLarge { .. } => SYNC_TIMEOUT_TOO_LARGE,
        FileFinding::FailoverTimeoutTooLarge { .. } => FAILOVER_TIMEOUT_TOO_LARGE,
        FileFinding::TupleNotInOrder { .. } => TUPLE_NOT_IN_ORDER,
        FileFinding::TwoTuples { .. } => TWO_TUPLES,
        FileFinding::BootBeforeDependency { .. } => BOOT_BEFORE_DEPENDENCY,
        FileFinding::CrossedBootLists { .. } => CROSSED_BOOT_LISTS,
        FileFinding::NotBootedAtListedNode { .. } => NOT_BOOTED_AT_LISTED_NODE,
        FileFinding::PermanentDistributed { .. } => PERMANENT_DISTRIBUTED,
        FileFinding::LocalAtSeveralNodes { .. } => LOCAL_AT_SEVERAL_NODES,
        FileFinding::DependencyCircle { .. } => DEPENDENCY_CIRCLE,
        FileFinding::LostTogether { .. } => LOST_TOGETHER,
    }
}

/// These names.
pub fn names<'a>(first: &'a str, second: &'a str, third: &'a str) -> Names<'a>
    ensures { names_seen result ≡ names first.now second.now third.now }
{
    Names {
        first,
        second,
        third,
    }
}

/// The names that stand in them.
pub fn names_of<'a>(cluster: &'a Cluster, finding: &FileFinding) -> Names<'a>
    ensures { names_seen result ≡ names_of cluster.now finding.now }
{
    match *finding {
        FileFinding::NoDistributedApplication => names("", "", ""),
        FileFinding::NoLists { node } => names(node_word(cluster, node), "", ""),
        FileFinding::OneSidedLists { node, other } => names(
            node_word(cluster, node),
            node_word(cluster, other),
            "",
        ),
        FileFinding::IncompleteLists { node, other } => names(
            node_word(cluster, node),
            node_word(cluster, other),
            "",
        ),
        FileFinding::ListsWithoutTimeout { node } => names(node_word(cluster, node), "", ""),
        FileFinding::SyncTimeoutZero { node } => names(node_word(cluster, node), "", ""),
        FileFinding::SyncTimeoutTooLarge { node } => names(node_word(cluster, node), "", ""),
        FileFinding::FailoverTimeoutTooLarge { app } => names(app_word(cluster, app), "", ""),
        FileFinding::TupleNotInOrder { app } => names(app_word(cluster, app), "", ""),
        FileFinding::TwoTuples { app } => names(app_word(cluster, app), "", ""),
        FileFinding::BootBeforeDependency { node, app, dep } => names(
            node_word(cluster, node),
            app_word(cluster, app),
            dep_word(cluster, dep),
        ),
        FileFinding::CrossedBootLists {
            app,
            other,
            node,
            ..
        } => names(
            node_word(cluster, node),
            app_word(cluster, app),
            app_word(cluster, other),
        ),
        FileFinding::NotBootedAtListedNode { node, app } => names(
            node_word(cluster, node),
            app_word(cluster, app),
            "",
        ),
        FileFinding::PermanentDistributed { app } => names(app_word(cluster, app), "", ""),
        FileFinding::LocalAtSeveralNodes { app } => names(app_word(cluster, app), "", ""),
        FileFinding::DependencyCircle { app } => names(app_word(cluster, app), "", ""),
        FileFinding::LostTogether { app, other } => names(
            app_word(cluster, app),
            app_word(cluster, other),
            "",
        ),
    }
}

/// Whether an operator has to act: it can't be meant, or by it live nodes end, hang, start an application twice or run it elsewhere, and
/// they hardly ever agreed where a file had it.
pub fn is_warning(finding: &FileFinding) -> bool
    ensures { result ≡ is_warning finding.now }
{
    match *finding {
        FileFinding::TwoTuples { .. } => false,
        FileFinding::NotBootedAtListedNode { .. } => false,
        FileFinding::PermanentDistributed { .. } => false,
        FileFinding::LocalAtSeveralNodes { .. } => false,
        FileFinding::LostTogether { .. } => false,
        _ => true,
    }
}
