//! Applications that nodes boot in opposite orders.

ghost use Rattle.std.specs.Prelude.{◌≡◌, ◌<◌, ◌++◌, map, true, OnOk};
ghost use Rattle.rh_model.specs.ClusterView.{app_count};
ghost use Rattle.rh_state.specs.Numbers.{apps_of};
ghost use Rattle.rh_file_lint.specs.declared.rows.RowKind.TheVariants.{BootPlaces};
ghost use Rattle.rh_file_lint.specs.Cluster.{is_distributed, comes_before};
ghost use Rattle.rh_file_lint.specs.BootLists.{first_booting};
ghost use Rattle.rh_file_lint.specs.Findings.{at_apps, crossed_orders, crossed_with, crossed_boot_lists};
ghost use Rattle.rh_file_lint.specs.Rows.{row_of, place_at};

use crate::boot_lists::is_distributed_pair;
use crate::cluster::comes_before;
use crate::finding::FileFinding;
use crate::rows::{RowKind, place_at, row_at, rows_of};
use rh_base::OutOfMemory;
use rh_model::{App, Cluster, Node};
use std::alloc::Global;

// Does a node boot both applications of these rows, the first one before the other?
fn boots_before(row: &[Option<usize>], other: &[Option<usize>], node: Node) -> bool
    ensures { result ≡ comes_before (place_at row.now node) (place_at other.now node) }
{
    comes_before(place_at(row, node), place_at(other, node))
}

// The first node that boots both applications, this one before the other.
#[tactic(auto, unfolding(crate::specs::BootLists::first_booting, rh_state::specs::Numbers::nodes_of))]
fn first_booting(
    cluster: &Cluster,
    rows: &[Vec<Option<usize>>],
    app: App,
    other: App,
) -> Option<Node>
    requires rows { map (λ row. row.items) rows.now
        ≡ map (row_of cluster.now BootPlaces) (apps_of cluster.now) }
    requires app { app.0 < app_count cluster.now }
    requires other { other.0 < app_count cluster.now }
    requires spread { is_distributed cluster.now app ≡ true }
    requires other_spread { is_distributed cluster.now other ≡ true }
    ensures { result ≡ first_booting cluster.now app other }
{
    let row = row_at(rows, app);
    let other_row = row_at(rows, other);
    for number in 0..cluster.node_count() {
        let node = Node(number as u8);
        if boots_before(row, other_row, node) {
            return Some(node);
        }
    }
    None
}

// Adds that two applications are booted in opposite orders, if there is a node that boots them as the first one says.
fn tell_crossed(
    found: &mut Vec<FileFinding>,
    app: App,
    other: App,
    node: Option<Node>,
    crossing: Node,
) -> Result<(), OutOfMemory>
    ensures { OnOk result
        (found.new.items ≡ found.old.items ++ crossed_orders app other node (Some crossing)) }
{
    if let Some(node) = node {
        found.push(FileFinding::CrossedBootLists {
            app,
            other,
            node,
            crossing,
        })?;
    }
    Ok(())
}

// Adds it of two applications, if they are distributed and it is so. Seldom does a node boot the later one first, so that is asked
// before the rest.
#[tactic(auto, unfolding(crate::specs::Findings::crossed_with), using(crate::proofs::PlacesTold::none_crosses))]
fn tell_crossed_with(
    found: &mut Vec<FileFinding>,
    cluster: &Cluster,
    rows: &[Vec<Option<usize>>],
    app: App,
    other: App,
) -> Result<(), OutOfMemory>
    requires rows { map (λ row. row.items) rows.now
        ≡ map (row_of cluster.now BootPlaces) (apps_of cluster.now) }
    requires app { app.0 < app_count cluster.now }
    requires other { other.0 < app_count cluster.now }
    ensures { OnOk result
        (found.new.items ≡ found.old.items ++ crossed_with cluster.now app other) }
{
    if !is_distributed_pair(cluster, app, other) {
        return Ok(());
    }
    match first_booting(cluster, rows, other, app) {
        None => Ok(()),
        Some(crossing) => {
            let node = first_booting(cluster, rows, app, other);
            tell_crossed(found, app, other, node, crossing)
        }
    }
}

// Adds the later applications that other nodes boot in another order than an application.
#[tactic(auto, unfolding(crate::specs::Findings::crossed_boot_lists, rh_state::specs::Numbers::apps_of))]
fn tell_crossed_boot_lists(
    found: &mut Vec<FileFinding>,
    cluster: &Cluster,
    rows: &[Vec<Option<usize>>],
    app: App,
) -> Result<(), OutOfMemory>
    requires rows { map (λ row. row.items) rows.now
        ≡ map (row_of cluster.now BootPlaces) (apps_of cluster.now) }
    requires app { app.0 < app_count cluster.now }
    ensures { OnOk result
        (found.new.items ≡ found.old.items ++ crossed_boot_lists cluster.now app) }
{
    for number in 0..cluster.app_count() {
        tell_crossed_with(found, cluster, rows, app, App(number as u8))?;
    }
    Ok(())
}

// Adds what is told of applications that nodes boot in opposite orders.
#[tactic(auto, unfolding(rh_state::specs::Numbers::apps_of))]
pub(crate) fn tell_crossings(
    alloc: Global,
    found: &mut Vec<FileFinding>,
    cluster: &Cluster,
) -> Result<(), OutOfMemory>
    ensures { OnOk result (found.new.items
        ≡ found.old.items ++ at_apps cluster.now (crossed_boot_lists cluster.now)) }
{
    let rows = rows_of(alloc, cluster, RowKind::BootPlaces)?;
    for number in 0..cluster.app_count() {
        tell_crossed_boot_lists(found, cluster, rows.as_slice(), App(number as u8))?;
    }
    Ok(())
}
