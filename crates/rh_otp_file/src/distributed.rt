//! `distributed`.

ghost use Rattle.std.specs.Prelude.{◌≡◌, map, filter_map, IfOk};
ghost use Rattle.std.specs.Option.{option_map, option_to_list};
ghost use Rattle.rh_base.specs.Tree.{tree_of};
ghost use Rattle.rh_cluster.specs.Shapes.{as_time};
ghost use Rattle.rh_cluster.specs.Values.{time_or_zero};
ghost use Rattle.rh_otp_file.specs.Distributed.{node_by_name, app_by_name, place_of, entry_of, own_in};

use crate::shapes::{atom, share, tuple};
use rh_base::{OutOfMemory, Term};
use rh_model::{App, Cluster, Node, TIMEOUT_LIMIT};
use rh_otp_model::{Entry, Own, Written};
use rh_term_lint::elements;
use std::alloc::Global;

// The node of the cluster that a term names.
#[tactic(auto, unfolding(crate::specs::Distributed::node_by_name))]
fn node_by_name(cluster: &Cluster, term: &Term) -> Option<Node>
    ensures { result ≡ node_by_name cluster.now (tree_of term.now) }
{
    let name = atom(term)?;
    cluster.node_of(name.as_str())
}

// The application of the cluster that a term names.
#[tactic(auto, unfolding(crate::specs::Distributed::app_by_name))]
fn app_by_name(cluster: &Cluster, term: &Term) -> Option<App>
    ensures { result ≡ app_by_name cluster.now (tree_of term.now) }
{
    let name = atom(term)?;
    cluster.app_of(name.as_str())
}

// The node that a term names, if it names one.
fn node_alone(alloc: Global, cluster: &Cluster, term: &Term) -> Result<Vec<Node>, OutOfMemory>
    ensures { IfOk result
        (λ nodes. nodes.items ≡ option_to_list (node_by_name cluster.now (tree_of term.now))) }
{
    let mut nodes = Vec::new(alloc);
    if let Some(node) = node_by_name(cluster, term) {
        nodes.push(node)?;
    }
    Ok(nodes)
}

// The nodes that these terms name, in order.
fn nodes_by_name(alloc: Global, cluster: &Cluster, terms: &[Term]) -> Result<Vec<Node>, OutOfMemory>
    ensures { IfOk result
        (λ nodes. nodes.items ≡ filter_map (node_by_name cluster.now) (map tree_of terms.now)) }
{
    let mut nodes = Vec::new(alloc);
    for term in terms {
        if let Some(node) = node_by_name(cluster, term) {
            nodes.push(node)?;
        }
    }
    Ok(nodes)
}

// A place of a list.
#[tactic(auto, unfolding(crate::specs::Distributed::place_of))]
fn place_of(alloc: Global, cluster: &Cluster, term: &Term) -> Result<Written, OutOfMemory>
    ensures { IfOk result (λ place. place ≡ place_of cluster.now (tree_of term.now)) }
{
    match tuple(term) {
        Some(terms) => Ok(Written::of(true, nodes_by_name(alloc, cluster, terms)?)),
        None => Ok(Written::of(false, node_alone(alloc, cluster, term)?)),
    }
}

// The places of a list, in order.
fn places_of(alloc: Global, cluster: &Cluster, terms: &[Term]) -> Result<Vec<Written>, OutOfMemory>
    ensures { IfOk result
        (λ places. places.items ≡ map (place_of cluster.now) (map tree_of terms.now)) }
{
    let mut places = Vec::new(alloc);
    for term in terms {
        places.push(place_of(alloc, cluster, term)?)?;
    }
    Ok(places)
}

// A time in milliseconds, up to the longest.
#[tactic(auto, unfolding(rh_cluster::specs::Shapes::as_time, rh_cluster::specs::Shapes::as_int))]
fn time(term: &Term) -> Option<u64>
    ensures { result ≡ as_time (tree_of term.now) }
{
    match term {
        Term::Int(number) if 0 <= *number && *number as u64 <= TIMEOUT_LIMIT => {
            Some(*number as u64)
        }
        _ => None,
    }
}

// The milliseconds of the value; without it, or for another term, 0.
fn time_or_zero(value: Option<&Term>) -> u64
    ensures { result ≡ time_or_zero (option_map (λ t. tree_of t.now) value.entry) }
{
    value.and_then(time).unwrap_or(0)
}

// An entry, if it is one of an application of the cluster.
#[tactic(auto, unfolding(crate::specs::Distributed::entry_of))]
fn entry_of(alloc: Global, cluster: &Cluster, term: &Term) -> Result<Option<Entry>, OutOfMemory>
    ensures { IfOk result (λ found. found ≡ entry_of cluster.now (tree_of term.now)) }
{
    let Some((app, timeout, places)) = share(term) else {
        return Ok(None);
    };
    let Some(app) = app_by_name(cluster, app) else {
        return Ok(None);
    };
    let timeout = time_or_zero(timeout);
    let places = places_of(alloc, cluster, elements(places))?;
    Ok(Some(Entry::of(app, timeout, places)))
}

// These entries, in order.
fn entries_of(alloc: Global, cluster: &Cluster, terms: &[Term]) -> Result<Vec<Entry>, OutOfMemory>
    ensures { IfOk result
        (λ entries. entries.items ≡ filter_map (entry_of cluster.now) (map tree_of terms.now)) }
{
    let mut entries = Vec::new(alloc);
    for term in terms {
        if let Some(entry) = entry_of(alloc, cluster, term)? {
            entries.push(entry)?;
        }
    }
    Ok(entries)
}

/// What a node's own `distributed` says, if it has one.
pub fn own_in(alloc: Global, cluster: &Cluster, value: Option<&Term>) -> Result<Own, OutOfMemory>
    ensures { IfOk result
        (λ own. own ≡ own_in cluster.now (option_map (λ t. tree_of t.now) value.entry)) }
{
    match value {
        Some(value) => Ok(Own::of(entries_of(alloc, cluster, elements(value))?)),
        None => Ok(Own::without(alloc)),
    }
}
