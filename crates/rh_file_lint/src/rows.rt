//! What is asked of a distributed application at each node, asked once for all that is told of pairs.

ghost use Rattle.std.specs.Prelude.{◌≡◌, ◌<◌, map, IfOk};
ghost use Rattle.rh_model.specs.ClusterView.{node_count, app_count};
ghost use Rattle.rh_state.specs.Numbers.{nodes_of, apps_of};
ghost use Rattle.rh_file_lint.specs.Rows.{place_in, places_in, row_of, row_at, place_at};

use crate::cluster::{boot_place, is_distributed};
use rh_base::OutOfMemory;
use rh_model::{App, Cluster, Node};
use std::alloc::Global;

// What the rows tell.
#[derive(Clone, Copy)]
pub(crate) enum RowKind {
    // The place in the node's boot list.
    BootPlaces,
    // The group of the application's list that has the node.
    Groups,
}

// The place of an application at a node.
fn place_in(cluster: &Cluster, kind: RowKind, app: App, node: Node) -> Option<usize>
    requires app { app.0 < app_count cluster.now }
    requires node { node.0 < node_count cluster.now }
    ensures { result ≡ place_in cluster.now kind app node }
{
    match kind {
        RowKind::BootPlaces => boot_place(cluster, node, app),
        RowKind::Groups => cluster.group_of(app, node),
    }
}

// The places of an application at all nodes.
#[tactic(auto, unfolding(rh_state::specs::Numbers::nodes_of))]
fn places_in(
    alloc: Global,
    cluster: &Cluster,
    kind: RowKind,
    app: App,
) -> Result<Vec<Option<usize>>, OutOfMemory>
    requires { app.0 < app_count cluster.now }
    ensures { IfOk result (λ places. places.items ≡ places_in cluster.now kind app) }
{
    let mut places = Vec::with_capacity(alloc, cluster.node_count())?;
    for number in 0..cluster.node_count() {
        places.push(place_in(cluster, kind, app, Node(number as u8)))?;
    }
    Ok(places)
}

// The same, and nothing for an application that isn't distributed: it is in no pair.
#[tactic(auto, unfolding(crate::specs::Rows::row_of))]
fn row_of(
    alloc: Global,
    cluster: &Cluster,
    kind: RowKind,
    app: App,
) -> Result<Vec<Option<usize>>, OutOfMemory>
    requires { app.0 < app_count cluster.now }
    ensures { IfOk result (λ row. row.items ≡ row_of cluster.now kind app) }
{
    if is_distributed(cluster, app) {
        places_in(alloc, cluster, kind, app)
    } else {
        Ok(Vec::new(alloc))
    }
}

// A row for each application.
#[tactic(auto, unfolding(rh_state::specs::Numbers::apps_of))]
pub(crate) fn rows_of(
    alloc: Global,
    cluster: &Cluster,
    kind: RowKind,
) -> Result<Vec<Vec<Option<usize>>>, OutOfMemory>
    ensures { IfOk result (λ rows.
        map (λ row. row.items) rows.items ≡ map (row_of cluster.now kind) (apps_of cluster.now)) }
{
    let mut rows = Vec::with_capacity(alloc, cluster.app_count())?;
    for number in 0..cluster.app_count() {
        let row = row_of(alloc, cluster, kind, App(number as u8))?;
        rows.push(row)?;
    }
    Ok(rows)
}

// The row of an application.
#[tactic(auto, unfolding(crate::specs::Rows::row_at))]
pub(crate) fn row_at(rows: &[Vec<Option<usize>>], app: App) -> &[Option<usize>]
    ensures { result.now ≡ row_at (map (λ row. row.items) rows.now) app }
{
    match rows.get(app.0 as usize) {
        Some(row) => row.as_slice(),
        None => &[],
    }
}

// The place in a row that stands for a node.
pub(crate) fn place_at(row: &[Option<usize>], node: Node) -> Option<usize>
    ensures { result ≡ place_at row.now node }
{
    row.get(node.0 as usize).copied().unwrap_or(None)
}
