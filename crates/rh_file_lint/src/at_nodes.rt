//! What is found at nodes.

ghost use Rattle.std.specs.Prelude.{◌≡◌, ◌<◌, ◌++◌, OnOk};
ghost use Rattle.std.specs.Option.{option_map, option_to_list};
ghost use Rattle.rh_model.specs.ClusterView.{node_count, app_count};
ghost use Rattle.rh_file_lint.specs.declared.finding.FileFinding.TheVariants.{BootBeforeDependency};
ghost use Rattle.rh_file_lint.specs.BootLists.{unmet_dep};
ghost use Rattle.rh_file_lint.specs.Findings.{finding_if, at_nodes, one_sided_lists, incomplete_lists, boot_before_dependency, not_booted_at_listed_node};
ghost use Rattle.rh_file_lint.specs.Working.{found_at_node};

use crate::boot_lists::{isnt_booted, unmet_dep};
use crate::finding::FileFinding;
use crate::sync_lists::{has_no_lists, is_incomplete, is_one_sided};
use crate::timeouts::{lacks_timeout, waits_too_long, waits_zero};
use rh_base::OutOfMemory;
use rh_model::{App, Cluster, Node};

// The kinds of findings that are told at a node.
#[derive(Clone, Copy)]
pub(crate) enum NodeKind {
    NoLists,
    OneSidedLists,
    IncompleteLists,
    ListsWithoutTimeout,
    SyncTimeoutZero,
    SyncTimeoutTooLarge,
    BootBeforeDependency,
    NotBootedAtListedNode,
}

// Adds a finding, if it holds.
pub(crate) fn tell(
    found: &mut Vec<FileFinding>,
    what: FileFinding,
    holds: bool,
) -> Result<(), OutOfMemory>
    ensures { OnOk result (found.new.items ≡ found.old.items ++ finding_if what holds) }
{
    if holds {
        found.push(what)?;
    }
    Ok(())
}

// Adds what is found of one kind, at all nodes.
#[tactic(auto, unfolding(rh_state::specs::Numbers::nodes_of))]
pub(crate) fn tell_at_nodes(
    found: &mut Vec<FileFinding>,
    cluster: &Cluster,
    kind: NodeKind,
) -> Result<(), OutOfMemory>
    ensures { OnOk result (found.new.items
        ≡ found.old.items ++ at_nodes cluster.now (found_at_node cluster.now kind)) }
{
    for number in 0..cluster.node_count() {
        tell_at_node(found, cluster, kind, Node(number as u8))?;
    }
    Ok(())
}

// Adds what is found of one kind, at a node.
#[tactic(auto, unfolding(crate::specs::Findings::no_lists, crate::specs::Findings::lists_without_timeout, crate::specs::Findings::sync_timeout_zero, crate::specs::Findings::sync_timeout_too_large))]
fn tell_at_node(
    found: &mut Vec<FileFinding>,
    cluster: &Cluster,
    kind: NodeKind,
    node: Node,
) -> Result<(), OutOfMemory>
    requires { node.0 < node_count cluster.now }
    ensures { OnOk result
        (found.new.items ≡ found.old.items ++ found_at_node cluster.now kind node) }
{
    match kind {
        NodeKind::NoLists => {
            let holds = has_no_lists(cluster, node);
            tell(found, FileFinding::NoLists { node }, holds)
        }
        NodeKind::OneSidedLists => tell_one_sided_lists(found, cluster, node),
        NodeKind::IncompleteLists => tell_incomplete_lists(found, cluster, node),
        NodeKind::ListsWithoutTimeout => {
            let holds = lacks_timeout(cluster, node);
            tell(found, FileFinding::ListsWithoutTimeout { node }, holds)
        }
        NodeKind::SyncTimeoutZero => {
            let holds = waits_zero(cluster, node);
            tell(found, FileFinding::SyncTimeoutZero { node }, holds)
        }
        NodeKind::SyncTimeoutTooLarge => {
            let holds = waits_too_long(cluster, node);
            tell(found, FileFinding::SyncTimeoutTooLarge { node }, holds)
        }
        NodeKind::BootBeforeDependency => tell_boots_before_dependency(found, cluster, node),
        NodeKind::NotBootedAtListedNode => tell_not_booted(found, cluster, node),
    }
}

// Adds the nodes that a node names and that have lists without it.
#[tactic(auto, unfolding(crate::specs::Findings::one_sided_lists, rh_state::specs::Numbers::nodes_of))]
fn tell_one_sided_lists(
    found: &mut Vec<FileFinding>,
    cluster: &Cluster,
    node: Node,
) -> Result<(), OutOfMemory>
    requires { node.0 < node_count cluster.now }
    ensures { OnOk result (found.new.items ≡ found.old.items ++ one_sided_lists cluster.now node) }
{
    for number in 0..cluster.node_count() {
        let other = Node(number as u8);
        let holds = is_one_sided(cluster, node, other);
        tell(found, FileFinding::OneSidedLists { node, other }, holds)?;
    }
    Ok(())
}

// Adds the nodes that a node's lists lack and that don't name it.
#[tactic(auto, unfolding(crate::specs::Findings::incomplete_lists, rh_state::specs::Numbers::nodes_of))]
fn tell_incomplete_lists(
    found: &mut Vec<FileFinding>,
    cluster: &Cluster,
    node: Node,
) -> Result<(), OutOfMemory>
    requires { node.0 < node_count cluster.now }
    ensures { OnOk result (found.new.items ≡ found.old.items ++ incomplete_lists cluster.now node) }
{
    for number in 0..cluster.node_count() {
        let other = Node(number as u8);
        let holds = is_incomplete(cluster, node, other);
        tell(found, FileFinding::IncompleteLists { node, other }, holds)?;
    }
    Ok(())
}

// Adds an application that a node boots before one of its dependencies.
fn tell_unmet_dep(
    found: &mut Vec<FileFinding>,
    cluster: &Cluster,
    node: Node,
    app: App,
) -> Result<(), OutOfMemory>
    requires node { node.0 < node_count cluster.now }
    requires app { app.0 < app_count cluster.now }
    ensures { OnOk result (found.new.items ≡ found.old.items ++ option_to_list
        (option_map (BootBeforeDependency node app) (unmet_dep cluster.now node app))) }
{
    if let Some(dep) = unmet_dep(cluster, node, app) {
        found.push(FileFinding::BootBeforeDependency { node, app, dep })?;
    }
    Ok(())
}

// Adds all such applications.
#[tactic(auto, unfolding(crate::specs::Findings::boot_before_dependency, rh_state::specs::Numbers::apps_of))]
fn tell_boots_before_dependency(
    found: &mut Vec<FileFinding>,
    cluster: &Cluster,
    node: Node,
) -> Result<(), OutOfMemory>
    requires { node.0 < node_count cluster.now }
    ensures { OnOk result
        (found.new.items ≡ found.old.items ++ boot_before_dependency cluster.now node) }
{
    for number in 0..cluster.app_count() {
        tell_unmet_dep(found, cluster, node, App(number as u8))?;
    }
    Ok(())
}

// Adds the distributed applications that list a node and that it doesn't boot.
#[tactic(auto, unfolding(crate::specs::Findings::not_booted_at_listed_node, rh_state::specs::Numbers::apps_of))]
fn tell_not_booted(
    found: &mut Vec<FileFinding>,
    cluster: &Cluster,
    node: Node,
) -> Result<(), OutOfMemory>
    requires { node.0 < node_count cluster.now }
    ensures { OnOk result
        (found.new.items ≡ found.old.items ++ not_booted_at_listed_node cluster.now node) }
{
    for number in 0..cluster.app_count() {
        let app = App(number as u8);
        let holds = isnt_booted(cluster, node, app);
        tell(
            found,
            FileFinding::NotBootedAtListedNode { node, app },
            holds,
        )?;
    }
    Ok(())
}
