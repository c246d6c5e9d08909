//! Applications that are lost together and whose standbys wait for one another.

ghost use Rattle.std.specs.Prelude.{◌≡◌, ◌<◌, ◌&&◌, ◌++◌, map, IfOk, OnOk};
ghost use Rattle.std.specs.List.{list_any};
ghost use Rattle.rh_model.specs.ClusterView.{app_count, spread_of};
ghost use Rattle.rh_state.specs.Numbers.{nodes_of, apps_of};
ghost use Rattle.rh_file_lint.specs.declared.rows.RowKind.TheVariants.{Groups};
ghost use Rattle.rh_file_lint.specs.declared.losses.Place.{Place};
ghost use Rattle.rh_file_lint.specs.Losses.{are_timed_alike, is_same_group, isnt_behind, can_contend, is_standby_of, can_be_lost_to, has_rival, is_timed_pair, are_lost_together};
ghost use Rattle.rh_file_lint.specs.Findings.{at_apps, lost_together};
ghost use Rattle.rh_file_lint.specs.Rows.{row_of, place_by, is_in_both};

use crate::at_nodes::tell;
use crate::cluster::comes_before;
use crate::finding::FileFinding;
use crate::rows::{RowKind, place_at, row_at, rows_of};
use rh_base::OutOfMemory;
use rh_model::{App, Cluster, Node};
use std::alloc::Global;

// The place of a node: its group in the list of one application, and in that of another one.
#[derive(Clone, Copy)]
struct Place {
    node: Node,
    first: Option<usize>,
    second: Option<usize>,
}

// Have both applications a failover timeout, and the same one?
fn are_timed_alike(cluster: &Cluster, app: App, other: App) -> bool
    requires app { app.0 < app_count cluster.now }
    requires other { other.0 < app_count cluster.now }
    ensures { result ≡ are_timed_alike (spread_of cluster.now app) (spread_of cluster.now other) }
{
    match (cluster.spread(app), cluster.spread(other)) {
        (Some(spread), Some(another)) => spread.timeout == another.timeout,
        _ => false,
    }
}

// Is one group another one?
fn is_same_group(group: Option<usize>, other: Option<usize>) -> bool
    ensures { result ≡ is_same_group group other }
{
    match (group, other) {
        (Some(group), Some(other)) => group == other,
        _ => false,
    }
}

// Does one group stand before another one, or is it that?
fn isnt_behind(group: Option<usize>, other: Option<usize>) -> bool
    ensures { result ≡ isnt_behind group other }
{
    match (group, other) {
        (Some(group), Some(other)) => group <= other,
        _ => false,
    }
}

// The place of a node, by the rows of both applications.
fn place_by(firsts: &[Option<usize>], seconds: &[Option<usize>], node: Node) -> Place
    ensures { result ≡ place_by firsts.now seconds.now node }
{
    Place {
        node,
        first: place_at(firsts, node),
        second: place_at(seconds, node),
    }
}

// Sets the places to those of all nodes.
#[tactic(auto, unfolding(rh_state::specs::Numbers::nodes_of))]
fn set_places(
    places: &mut Vec<Place>,
    cluster: &Cluster,
    firsts: &[Option<usize>],
    seconds: &[Option<usize>],
) -> Result<(), OutOfMemory>
    ensures { OnOk result
        (places.new.items ≡ map (place_by firsts.now seconds.now) (nodes_of cluster.now)) }
{
    places.clear();
    for number in 0..cluster.node_count() {
        places.push(place_by(firsts, seconds, Node(number as u8)))?;
    }
    Ok(())
}

// Can two nodes wait for one another?
#[tactic(auto, unfolding(crate::specs::Losses::can_contend))]
fn can_contend(node: Place, rival: Place) -> bool
    ensures { result ≡ can_contend node rival }
{
    is_same_group(node.first, rival.first)
        || is_same_group(node.second, rival.second)
        || (comes_before(node.first, rival.first) && comes_before(rival.second, node.second))
}

// Can a node be a standby of both applications where they run at another one?
#[tactic(auto, unfolding(crate::specs::Losses::is_standby_of))]
fn is_standby_of(lost: Place, node: Place) -> bool
    ensures { result ≡ is_standby_of lost node }
{
    lost.node.0 != node.node.0
        && isnt_behind(lost.first, node.first)
        && isnt_behind(lost.second, node.second)
}

// Is there a node of which both are standbys?
fn have_lost_node(places: &[Place], node: Place, rival: Place) -> bool
    ensures { result
        ≡ list_any (λ (k : Place). is_standby_of k node && is_standby_of k rival) places.now }
{
    places.iter().any(|lost| is_standby_of(*lost, node) && is_standby_of(*lost, rival))
}

// Is the node in both lists? No other one is a standby of both.
fn is_in_both(node: Place) -> bool
    ensures { result ≡ is_in_both node }
{
    node.first.is_some() && node.second.is_some()
}

// Can both applications be lost with one of the nodes to these two standbys?
#[tactic(auto, unfolding(crate::specs::Losses::can_be_lost_to), using(crate::proofs::Standbys::rival_in_both))]
fn can_be_lost_to(places: &[Place], node: Place, rival: Place) -> bool
    ensures { result ≡ can_be_lost_to places.now node rival }
{
    is_in_both(rival)
        && node.node.0 != rival.node.0
        && can_contend(node, rival)
        && have_lost_node(places, node, rival)
}

// Can they be lost to one of the nodes beside a node?
fn has_some_rival(places: &[Place], node: Place) -> bool
    ensures { result ≡ list_any (can_be_lost_to places.now node) places.now }
{
    places
        .iter()
        .any(|rival| can_be_lost_to(places, node, *rival))
}

// Can they be lost to a node and a rival of it?
#[tactic(auto, unfolding(crate::specs::Losses::has_rival), using(crate::proofs::Standbys::node_in_both))]
fn has_rival(places: &[Place], node: Place) -> bool
    ensures { result ≡ has_rival places.now node }
{
    is_in_both(node) && has_some_rival(places, node)
}

// Can they be lost to two of the nodes?
fn have_rivals(places: &[Place]) -> bool
    ensures { result ≡ list_any (has_rival places.now) places.now }
{
    places.iter().any(|node| has_rival(places, *node))
}

// Have two distributed applications one timeout, and is the first one before the other in the file?
fn is_timed_pair(cluster: &Cluster, app: App, other: App) -> bool
    requires app { app.0 < app_count cluster.now }
    requires other { other.0 < app_count cluster.now }
    ensures { result ≡ is_timed_pair cluster.now app other }
{
    app.0 < other.0 && are_timed_alike(cluster, app, other)
}

// Can they be lost with one node to two standbys that can wait for one another? The places are room that is used again for each pair.
#[tactic(auto, unfolding(crate::specs::Losses::are_lost_together))]
fn are_lost_together(
    cluster: &Cluster,
    rows: &[Vec<Option<usize>>],
    places: &mut Vec<Place>,
    app: App,
    other: App,
) -> Result<bool, OutOfMemory>
    requires rows { map (λ row. row.items) rows.now
        ≡ map (row_of cluster.now Groups) (apps_of cluster.now) }
    requires app { app.0 < app_count cluster.now }
    requires other { other.0 < app_count cluster.now }
    ensures { IfOk result (λ holds. holds ≡ are_lost_together cluster.now app other) }
{
    if !is_timed_pair(cluster, app, other) {
        return Ok(false);
    }
    set_places(places, cluster, row_at(rows, app), row_at(rows, other))?;
    Ok(have_rivals(places.as_slice()))
}

// Adds the later applications that can be lost with an application.
#[tactic(auto, unfolding(crate::specs::Findings::lost_together, rh_state::specs::Numbers::apps_of))]
fn tell_lost_together(
    found: &mut Vec<FileFinding>,
    cluster: &Cluster,
    rows: &[Vec<Option<usize>>],
    places: &mut Vec<Place>,
    app: App,
) -> Result<(), OutOfMemory>
    requires rows { map (λ row. row.items) rows.now
        ≡ map (row_of cluster.now Groups) (apps_of cluster.now) }
    requires app { app.0 < app_count cluster.now }
    ensures { OnOk result (found.new.items ≡ found.old.items ++ lost_together cluster.now app) }
{
    for number in 0..cluster.app_count() {
        let other = App(number as u8);
        let holds = are_lost_together(cluster, rows, places, app, other)?;
        tell(found, FileFinding::LostTogether { app, other }, holds)?;
    }
    Ok(())
}

// Adds what is told of applications that can be lost together.
#[tactic(auto, unfolding(rh_state::specs::Numbers::apps_of))]
pub(crate) fn tell_losses(
    alloc: Global,
    found: &mut Vec<FileFinding>,
    cluster: &Cluster,
) -> Result<(), OutOfMemory>
    ensures { OnOk result
        (found.new.items ≡ found.old.items ++ at_apps cluster.now (lost_together cluster.now)) }
{
    let rows = rows_of(alloc, cluster, RowKind::Groups)?;
    let mut places = Vec::new(alloc);
    for number in 0..cluster.app_count() {
        tell_lost_together(
            found,
            cluster,
            rows.as_slice(),
            &mut places,
            App(number as u8),
        )?;
    }
    Ok(())
}
