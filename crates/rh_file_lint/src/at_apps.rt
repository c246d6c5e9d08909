//! What is found at applications.

ghost use Rattle.std.specs.Prelude.{◌≡◌, ◌<◌, ◌++◌, OnOk};
ghost use Rattle.rh_model.specs.ClusterView.{app_count};
ghost use Rattle.rh_file_lint.specs.Findings.{at_apps};
ghost use Rattle.rh_file_lint.specs.Working.{found_at_app};

use crate::at_nodes::tell;
use crate::boot_lists::{is_permanent_somewhere, runs_several_times};
use crate::circles::is_in_circle;
use crate::finding::FileFinding;
use crate::node_lists::{has_two_tuples, has_unsorted_tuple};
use crate::timeouts::fails_over_too_late;
use rh_base::OutOfMemory;
use rh_model::{App, Cluster};
use std::alloc::Global;

// The kinds of findings that are told at an application.
#[derive(Clone, Copy)]
pub(crate) enum AppKind {
    FailoverTimeoutTooLarge,
    TupleNotInOrder,
    TwoTuples,
    PermanentDistributed,
    LocalAtSeveralNodes,
    DependencyCircle,
}

// Adds what is found of one kind, at all applications.
#[tactic(auto, unfolding(rh_state::specs::Numbers::apps_of))]
pub(crate) fn tell_at_apps(
    alloc: Global,
    found: &mut Vec<FileFinding>,
    cluster: &Cluster,
    kind: AppKind,
) -> Result<(), OutOfMemory>
    ensures { OnOk result
        (found.new.items ≡ found.old.items ++ at_apps cluster.now (found_at_app cluster.now kind)) }
{
    for number in 0..cluster.app_count() {
        tell_at_app(alloc, found, cluster, kind, App(number as u8))?;
    }
    Ok(())
}

// Adds what is found of one kind, at an application.
#[tactic(auto, unfolding(crate::specs::Findings::failover_timeout_too_large, crate::specs::Findings::tuple_not_in_order, crate::specs::Findings::two_tuples, crate::specs::Findings::permanent_distributed, crate::specs::Findings::local_at_several_nodes, crate::specs::Findings::dependency_circle))]
fn tell_at_app(
    alloc: Global,
    found: &mut Vec<FileFinding>,
    cluster: &Cluster,
    kind: AppKind,
    app: App,
) -> Result<(), OutOfMemory>
    requires { app.0 < app_count cluster.now }
    ensures { OnOk result (found.new.items ≡ found.old.items ++ found_at_app cluster.now kind app) }
{
    match kind {
        AppKind::FailoverTimeoutTooLarge => {
            let holds = fails_over_too_late(cluster, app);
            tell(found, FileFinding::FailoverTimeoutTooLarge { app }, holds)
        }
        AppKind::TupleNotInOrder => {
            let holds = has_unsorted_tuple(cluster, app);
            tell(found, FileFinding::TupleNotInOrder { app }, holds)
        }
        AppKind::TwoTuples => {
            let holds = has_two_tuples(cluster, app);
            tell(found, FileFinding::TwoTuples { app }, holds)
        }
        AppKind::PermanentDistributed => {
            let holds = is_permanent_somewhere(cluster, app);
            tell(found, FileFinding::PermanentDistributed { app }, holds)
        }
        AppKind::LocalAtSeveralNodes => {
            let holds = runs_several_times(cluster, app);
            tell(found, FileFinding::LocalAtSeveralNodes { app }, holds)
        }
        AppKind::DependencyCircle => {
            let holds = is_in_circle(alloc, cluster, app)?;
            tell(found, FileFinding::DependencyCircle { app }, holds)
        }
    }
}
