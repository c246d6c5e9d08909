//! All findings of a cluster.

ghost use Rattle.std.specs.Prelude.{◌≡◌, ◌++◌, IfOk, OnOk};
ghost use Rattle.rh_file_lint.specs.Cluster.{some_app, is_distributed};
ghost use Rattle.rh_file_lint.specs.Findings.{no_distributed_application, of_sync_lists, of_timeouts, of_node_lists, of_boot_lists, of_several_apps, file_findings_of};

use crate::at_apps::{AppKind, tell_at_apps};
use crate::at_nodes::{NodeKind, tell, tell_at_nodes};
use crate::cluster::is_distributed;
use crate::crossings::tell_crossings;
use crate::finding::FileFinding;
use crate::losses::tell_losses;
use rh_base::OutOfMemory;
use rh_model::{App, Cluster};
use std::alloc::Global;

/// What can't be meant in a cluster file, or what a live OTP takes otherwise: each finding exactly if its definition holds, by kind
/// in the order of [`FileFinding`], then by node and by application in the order of the file.
#[tactic(auto, unfolding(crate::specs::Findings::file_findings_of))]
pub fn file_findings(alloc: Global, cluster: &Cluster) -> Result<Vec<FileFinding>, OutOfMemory>
    ensures { IfOk result (λ found. found.items ≡ file_findings_of cluster.now) }
{
    let mut found = Vec::new(alloc);
    tell_no_distributed(&mut found, cluster)?;
    tell_of_sync_lists(&mut found, cluster)?;
    tell_of_timeouts(alloc, &mut found, cluster)?;
    tell_of_node_lists(alloc, &mut found, cluster)?;
    tell_of_boot_lists(alloc, &mut found, cluster)?;
    tell_of_several_apps(alloc, &mut found, cluster)?;
    Ok(found)
}

// Is some application distributed?
#[tactic(auto, unfolding(crate::specs::Cluster::some_app, rh_state::specs::Numbers::apps_of))]
fn has_distributed(cluster: &Cluster) -> bool
    ensures { result ≡ some_app cluster.now (is_distributed cluster.now) }
{
    for number in 0..cluster.app_count() {
        if is_distributed(cluster, App(number as u8)) {
            return true;
        }
    }
    false
}

// Adds that no application is distributed, if it is so.
#[tactic(auto, unfolding(crate::specs::Findings::no_distributed_application))]
fn tell_no_distributed(found: &mut Vec<FileFinding>, cluster: &Cluster) -> Result<(), OutOfMemory>
    ensures { OnOk result
        (found.new.items ≡ found.old.items ++ no_distributed_application cluster.now) }
{
    let holds = !has_distributed(cluster);
    tell(found, FileFinding::NoDistributedApplication, holds)
}

// Adds what is found in the lists of nodes for which nodes wait.
#[tactic(auto, unfolding(crate::specs::Findings::of_sync_lists))]
fn tell_of_sync_lists(found: &mut Vec<FileFinding>, cluster: &Cluster) -> Result<(), OutOfMemory>
    ensures { OnOk result (found.new.items ≡ found.old.items ++ of_sync_lists cluster.now) }
{
    tell_at_nodes(found, cluster, NodeKind::NoLists)?;
    tell_at_nodes(found, cluster, NodeKind::OneSidedLists)?;
    tell_at_nodes(found, cluster, NodeKind::IncompleteLists)
}

// Adds what is found in timeouts.
#[tactic(auto, unfolding(crate::specs::Findings::of_timeouts))]
fn tell_of_timeouts(
    alloc: Global,
    found: &mut Vec<FileFinding>,
    cluster: &Cluster,
) -> Result<(), OutOfMemory>
    ensures { OnOk result (found.new.items ≡ found.old.items ++ of_timeouts cluster.now) }
{
    tell_at_nodes(found, cluster, NodeKind::ListsWithoutTimeout)?;
    tell_at_nodes(found, cluster, NodeKind::SyncTimeoutZero)?;
    tell_at_nodes(found, cluster, NodeKind::SyncTimeoutTooLarge)?;
    tell_at_apps(alloc, found, cluster, AppKind::FailoverTimeoutTooLarge)
}

// Adds what is found in the lists of nodes that may run applications.
#[tactic(auto, unfolding(crate::specs::Findings::of_node_lists))]
fn tell_of_node_lists(
    alloc: Global,
    found: &mut Vec<FileFinding>,
    cluster: &Cluster,
) -> Result<(), OutOfMemory>
    ensures { OnOk result (found.new.items ≡ found.old.items ++ of_node_lists cluster.now) }
{
    tell_at_apps(alloc, found, cluster, AppKind::TupleNotInOrder)?;
    tell_at_apps(alloc, found, cluster, AppKind::TwoTuples)
}

// Adds what is found in boot lists.
#[tactic(auto, unfolding(crate::specs::Findings::of_boot_lists))]
fn tell_of_boot_lists(
    alloc: Global,
    found: &mut Vec<FileFinding>,
    cluster: &Cluster,
) -> Result<(), OutOfMemory>
    ensures { OnOk result (found.new.items ≡ found.old.items ++ of_boot_lists cluster.now) }
{
    tell_at_nodes(found, cluster, NodeKind::BootBeforeDependency)?;
    tell_crossings(alloc, found, cluster)?;
    tell_at_nodes(found, cluster, NodeKind::NotBootedAtListedNode)?;
    tell_at_apps(alloc, found, cluster, AppKind::PermanentDistributed)?;
    tell_at_apps(alloc, found, cluster, AppKind::LocalAtSeveralNodes)
}

// Adds what is found where applications depend on one another, or are lost together.
#[tactic(auto, unfolding(crate::specs::Findings::of_several_apps))]
fn tell_of_several_apps(
    alloc: Global,
    found: &mut Vec<FileFinding>,
    cluster: &Cluster,
) -> Result<(), OutOfMemory>
    ensures { OnOk result (found.new.items ≡ found.old.items ++ of_several_apps cluster.now) }
{
    tell_at_apps(alloc, found, cluster, AppKind::DependencyCircle)?;
    tell_losses(alloc, found, cluster)
}
