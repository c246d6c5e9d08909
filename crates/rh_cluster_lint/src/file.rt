//! What is found in a cluster.

ghost use Rattle.std.specs.Prelude.{◌≡◌, ◌++◌, [], ◌∷◌, IfOk, OnOk};
ghost use Rattle.std.specs.List.{flat_map};
ghost use Rattle.rh_cluster_lint.specs.Lines.{lines_seen};
ghost use Rattle.rh_cluster_lint.specs.FileWords.{file_line};
ghost use Rattle.rh_cluster_lint.specs.File.{file_found};

use crate::file_words::{is_warning, names_of, words_of};
use crate::lines::Lines;
use rh_base::OutOfMemory;
use rh_cluster::Cluster;
use rh_file_lint::FileFinding;
use rh_findings::{Finding, Kind, sentence};
use std::alloc::Global;

// The line of a finding: that of the node of which it speaks, and else of the application.
fn file_line(lines: &Lines<'_>, finding: &FileFinding) -> Option<u64>
    ensures { result ≡ file_line (lines_seen lines.now) finding.now }
{
    match *finding {
        FileFinding::NoDistributedApplication => None,
        FileFinding::NoLists { node } => lines.node_line(node),
        FileFinding::OneSidedLists { node, .. } => lines.node_line(node),
        FileFinding::IncompleteLists { node, .. } => lines.node_line(node),
        FileFinding::ListsWithoutTimeout { node } => lines.node_line(node),
        FileFinding::SyncTimeoutZero { node } => lines.node_line(node),
        FileFinding::SyncTimeoutTooLarge { node } => lines.node_line(node),
        FileFinding::FailoverTimeoutTooLarge { app } => lines.app_line(app),
        FileFinding::TupleNotInOrder { app } => lines.app_line(app),
        FileFinding::TwoTuples { app } => lines.app_line(app),
        FileFinding::BootBeforeDependency { node, .. } => lines.node_line(node),
        FileFinding::CrossedBootLists { node, .. } => lines.node_line(node),
        FileFinding::NotBootedAtListedNode { node, .. } => lines.node_line(node),
        FileFinding::PermanentDistributed { app } => lines.app_line(app),
        FileFinding::LocalAtSeveralNodes { app } => lines.app_line(app),
        FileFinding::DependencyCircle { app } => lines.app_line(app),
        FileFinding::LostTogether { app, .. } => lines.app_line(app),
    }
}

// A finding of the cluster, with its line and its words.
#[tactic(auto, unfolding(crate::specs::File::file_found))]
fn file_found(
    alloc: Global,
    lines: &Lines<'_>,
    cluster: &Cluster,
    finding: &FileFinding,
) -> Result<Finding, OutOfMemory>
    ensures { IfOk result
        (λ found. found ≡ file_found (lines_seen lines.now) cluster.now finding.now) }
{
    let kind = if is_warning(finding) {
        Kind::Warning
    } else {
        Kind::Hint
    };
    Ok(Finding {
        line: file_line(lines, finding),
        kind,
        text: sentence(alloc, words_of(finding), names_of(cluster, finding))?,
        path: None,
    })
}

/// Adds the findings of the cluster.
pub fn push_file_findings(
    alloc: Global,
    found: &mut Vec<Finding>,
    lines: &Lines<'_>,
    cluster: &Cluster,
    findings: &[FileFinding],
) -> Result<(), OutOfMemory>
    ensures { OnOk result (found.new.items ≡ found.old.items
        ++ flat_map (λ f. file_found (lines_seen lines.now) cluster.now f ∷ []) findings.now) }
{
    for finding in findings {
        found.push(file_found(alloc, lines, cluster, finding)?)?;
    }
    Ok(())
}
