//! The second stage: the shape and the name of each term.

ghost use Rattle.std.specs.Prelude.{◌≡◌, ◌<◌, ◌≤◌, ℕ, [], ◌∷◌, ◌++◌, map, length, IfOk, OnOk};
ghost use Rattle.rh_base.specs.Tree.{tree_of};
ghost use Rattle.rh_cluster.specs.Faults.{Finds, WantsLast};
ghost use Rattle.rh_model.specs.Names.{is_among};
ghost use Rattle.rh_cluster.specs.Headers.{every_platform, new_name_faults, header_faults, headers_stage, node_names, app_names};

use crate::fault::ClusterFault;
use crate::name_rule::is_name;
use crate::shapes;
use rh_base::Term;
use rh_model::{MAX_APPS, MAX_NODES, NameSet, app_limit, node_limit};
use std::alloc::Global;

/// Is it a platform name of every node?
pub fn is_platform_everywhere(name: &str) -> bool
    ensures { result ≡ is_among every_platform name.now }
{
    name == "kernel" || name == "stdlib"
}

// Adds the name of a term behind the earlier ones of its kind.
#[tactic(auto, unfolding(crate::specs::Headers::new_name_faults))]
fn add_name(
    alloc: Global,
    most: usize,
    reserved: bool,
    names: &mut NameSet,
    name: &str,
) -> Result<(), ClusterFault>
    ensures faults { Finds result (new_name_faults most reserved names.old name.now) }
    ensures last { WantsLast result (new_name_faults most reserved names.old name.now) }
    ensures added { OnOk result (names.new ≡ names.old ++ name.now ∷ []) }
    ensures room { OnOk result (length names.old < most) }
{
    if !is_name(name) {
        return Err(ClusterFault::BadName);
    }
    if reserved || names.contains(name) {
        return Err(ClusterFault::DuplicateName);
    }
    if most <= names.len() {
        return Err(ClusterFault::TooMany);
    }
    names.add(alloc, name)?;
    Ok(())
}

// Adds the name of a term to the nodes or to the applications of a file of this profile.
#[tactic(auto, unfolding(crate::specs::Headers::header_faults))]
fn add_header(
    alloc: Global,
    profile: u8,
    nodes: &mut NameSet,
    apps: &mut NameSet,
    term: &Term,
) -> Result<(), ClusterFault>
    ensures faults { Finds result (header_faults profile nodes.old apps.old (tree_of term.now)) }
    ensures last { WantsLast result (header_faults profile nodes.old apps.old (tree_of term.now)) }
    ensures nodes { OnOk result (nodes.new ≡ nodes.old ++ node_names (tree_of term.now ∷ [])) }
    ensures apps { OnOk result (apps.new ≡ apps.old ++ app_names (tree_of term.now ∷ [])) }
    ensures few_nodes { OnOk result (length nodes.old ≤ MAX_NODES → length nodes.new ≤ MAX_NODES) }
    ensures few_apps { OnOk result (length apps.old ≤ MAX_APPS → length apps.new ≤ MAX_APPS) }
{
    if let Some((name, _)) = shapes::node(term) {
        return add_name(alloc, node_limit(profile), false, nodes, name);
    }
    if let Some((name, _)) = shapes::app(term) {
        let reserved = is_platform_everywhere(name);
        return add_name(alloc, app_limit(profile), reserved, apps, name);
    }
    Err(ClusterFault::BadValue)
}

/// The names of the nodes and of the applications of a file of this profile.
#[tactic(auto, unfolding(crate::specs::Headers::headers_stage))]
pub fn headers(
    alloc: Global,
    profile: u8,
    terms: &[Term],
) -> Result<(NameSet, NameSet), ClusterFault>
    ensures faults { Finds result (headers_stage profile (map tree_of terms.now)) }
    ensures nodes { IfOk result (λ names. names.0 ≡ node_names (map tree_of terms.now)) }
    ensures apps { IfOk result (λ names. names.1 ≡ app_names (map tree_of terms.now)) }
    ensures few_nodes { IfOk result (λ names. length names.0 ≤ MAX_NODES) }
    ensures few_apps { IfOk result (λ names. length names.1 ≤ MAX_APPS) }
{
    let mut nodes = NameSet::new(alloc);
    let mut apps = NameSet::new(alloc);
    for term in terms {
        add_header(alloc, profile, &mut nodes, &mut apps, term)?;
    }
    if nodes.len() == 0 {
        return Err(ClusterFault::NoNodes);
    }
    Ok((nodes, apps))
}
