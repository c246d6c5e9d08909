//! All that is found in the text of a cluster file.

ghost use Rattle.std.specs.Prelude.{◌≡◌, ◌+◌, ◌<◌, ◌^◌, ◌++◌, length, map, IfOk, OnOk};
ghost use Rattle.std.specs.List.{flat_map};
ghost use Rattle.std.specs.Option.{option_map};
ghost use Rattle.rh_base.specs.Tree.{tree_of, items_of};
ghost use Rattle.rh_cluster_lint.specs.Lines.{lines_seen, lines_of};
ghost use Rattle.rh_cluster_lint.specs.Text.{of_cluster, of_terms, text_found};

use crate::file::push_file_findings;
use crate::lines::Lines;
use crate::looked::Looked;
use crate::shapes::places_of;
use crate::terms::push_term_findings;
use rh_base::{OutOfMemory, Terms};
use rh_cluster::Cluster;
use rh_file_lint::file_findings;
use rh_findings::{Finding, term_starts};
use rh_term_lint::term_findings;
use rh_terms::{TermFault, read_kept};
use std::alloc::Global;

// Adds what is found in a cluster, if it is one.
#[tactic(auto, unfolding(crate::specs::Text::of_cluster))]
fn push_of_cluster(
    alloc: Global,
    found: &mut Vec<Finding>,
    lines: &Lines<'_>,
    cluster: Option<&Cluster>,
) -> Result<(), OutOfMemory>
    ensures { OnOk result (found.new.items ≡ found.old.items
        ++ of_cluster (lines_seen lines.now) (option_map (λ cluster. cluster.now) cluster.entry)) }
{
    match cluster {
        None => Ok(()),
        Some(cluster) => {
            let findings = file_findings(alloc, cluster)?;
            push_file_findings(alloc, found, lines, cluster, findings.as_slice())
        }
    }
}

// What is found in a text with these terms.
#[tactic(auto, unfolding(crate::specs::Text::of_terms))]
fn of_terms(
    alloc: Global,
    text: &[u8],
    terms: &Terms,
    cluster: Option<&Cluster>,
) -> Result<Vec<Finding>, OutOfMemory>
    requires { length text.now + 1 < 2 ^ 32 }
    ensures { IfOk result (λ found. found.items ≡ of_terms text.now
        (map tree_of (items_of terms.now)) (option_map (λ cluster. cluster.now) cluster.entry)) }
{
    let findings = term_findings(alloc, terms)?;
    let starts = term_starts(alloc, text)?;
    let nodes = places_of(alloc, "node", terms.as_slice())?;
    let apps = places_of(alloc, "application", terms.as_slice())?;
    let lines = Lines {
        text,
        starts: starts.as_slice(),
        nodes: nodes.as_slice(),
        apps: apps.as_slice(),
    };
    let mut found = Vec::new(alloc);
    push_term_findings(alloc, &mut found, &lines, findings.as_slice())?;
    push_of_cluster(alloc, &mut found, &lines, cluster)?;
    Ok(found)
}

/// What is found in the text of a cluster file, beside its fault: names that are nearly one that is read, and, where it is a cluster, what
/// can't be meant there, or a live OTP takes otherwise. Of a text that can't be read nothing is found.
#[tactic(auto, unfolding(crate::specs::Text::text_found), using(crate::proofs::FoundInKept::nothing_in_fault))]
pub fn text_findings(
    alloc: Global,
    text: &[u8],
    cluster: Option<&Cluster>,
) -> Result<Vec<Finding>, OutOfMemory>
    requires { length text.now + 1 < 2 ^ 32 }
    ensures { IfOk result (λ found.
        found.items ≡ text_found text.now (option_map (λ cluster. cluster.now) cluster.entry)) }
{
    // Most of a text stands in values of which nothing is told.
    match read_kept(alloc, Looked::File, text) {
        Ok(terms) => of_terms(alloc, text, &terms, cluster),
        Err(TermFault::OutOfMemory) => Err(OutOfMemory),
        Err(_) => Ok(Vec::new(alloc)),
    }
}
