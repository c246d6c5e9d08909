//! The fourth stage: what the nodes must agree on.

ghost use Rattle.std.specs.Prelude.{◌≡◌, ◌<◌, ◌≤◌, map, flat_map, length, slice_get, Some, IfOk};
ghost use Rattle.std.specs.List.{list_any, list_all};
ghost use Rattle.std.specs.Option.{option_map};
ghost use Rattle.rh_model.specs.ClusterView.{is_in, numbered};
ghost use Rattle.rh_cluster.specs.Faults.{Finds, FindsFirst};
ghost use Rattle.rh_cluster.specs.Values.{spread_for};
ghost use Rattle.rh_cluster.specs.Agreement.{same_group, same_groups, same_share, same_shares, same_wait, shares_at};
ghost use Rattle.rh_cluster.specs.Agreement.{wait_at, lists_node, names_node, is_involved, first_involved};
ghost use Rattle.rh_cluster.specs.Agreement.{agreed_shares, agree, mismatch_faults, mismatches, boot_entry_faults};
ghost use Rattle.rh_cluster.specs.Agreement.{boot_list_faults, boot_at, agreement_stage, numbers_below, WantsForName};

use crate::fault::ClusterFault;
use crate::shares::{AllShares, Share};
use rh_base::{OutOfMemory, Str};
use rh_model::{
    App, Group, MAX_NODES, NameSet, Node, NodeSettings, Restart, Spread, SyncWait, is_in,
};
use std::alloc::Global;

// Are all of these nodes in the other group?
fn are_in(these: &[Node], those: &[Node]) -> bool
    ensures { result ≡ list_all (λ n. is_in n those.now) these.now }
{
    for node in these {
        if !is_in(*node, those) {
            return false;
        }
    }
    true
}

// Are these the same nodes, in any order?
#[tactic(auto, unfolding(crate::specs::Agreement::same_group))]
fn same_group(these: &[Node], those: &[Node]) -> bool
    ensures { result ≡ same_group these.now those.now }
{
    are_in(these, those) && are_in(those, these)
}

// Are these the same groups in the same order?
fn same_groups(these: &[Group], those: &[Group]) -> bool
    ensures { result ≡ same_groups these.now those.now }
{
    if these.len() != those.len() {
        return false;
    }
    for index in 0..these.len() {
        if !same_group(these[index].as_slice(), those[index].as_slice()) {
            return false;
        }
    }
    true
}

// The same entry: its application, its timeout, its groups?
#[tactic(auto, unfolding(crate::specs::Agreement::same_share))]
fn same_share(this: &Share, that: &Share) -> bool
    ensures { result ≡ same_share this.now that.now }
{
    this.app.0 == that.app.0
        && this.spread.timeout == that.spread.timeout
        && same_groups(this.spread.groups.as_slice(), that.spread.groups.as_slice())
}

// Is the same entry among these?
fn has_share(share: &Share, shares: &[Share]) -> bool
    ensures { result ≡ list_any (same_share share.now) shares.now }
{
    for other in shares {
        if same_share(share, other) {
            return true;
        }
    }
    false
}

// Is each of these entries among those?
fn has_shares(these: &[Share], those: &[Share]) -> bool
    ensures { result ≡ list_all (λ s. list_any (same_share s) those.now) these.now }
{
    for share in these {
        if !has_share(share, those) {
            return false;
        }
    }
    true
}

// Are these the same entries, in any order?
#[tactic(auto, unfolding(crate::specs::Agreement::same_shares))]
fn same_shares(these: &[Share], those: &[Share]) -> bool
    ensures { result ≡ same_shares these.now those.now }
{
    has_shares(these, those) && has_shares(those, these)
}

// The same `sync_nodes_timeout`?
fn same_wait(this: SyncWait, that: SyncWait) -> bool
    ensures { result ≡ same_wait this that }
{
    match (this, that) {
        (SyncWait::Unset, SyncWait::Unset) => true,
        (SyncWait::After(this), SyncWait::After(that)) => this == that,
        (SyncWait::Forever, SyncWait::Forever) => true,
        _ => false,
    }
}

// Does the list of groups name the node?
fn lists_node(node: Node, spread: &Spread) -> bool
    ensures { result ≡ lists_node node spread.now }
{
    for group in spread.groups.as_slice() {
        if is_in(node, group.as_slice()) {
            return true;
        }
    }
    false
}

// Does the list of one of these entries name the node?
fn names_node(node: Node, shares: &[Share]) -> bool
    ensures { result ≡ names_node node shares.now }
{
    for share in shares {
        if lists_node(node, &share.spread) {
            return true;
        }
    }
    false
}

// Does the `distributed` of some node name it?
fn some_names_node(node: Node, all: &AllShares) -> bool
    ensures { result ≡ list_any (names_node node) all.now }
{
    for index in 0..all.len() {
        if names_node(node, all.at(index)) {
            return true;
        }
    }
    false
}

// How long a node waits when it starts.
fn wait_at(nodes: &[NodeSettings], node: usize) -> SyncWait
    ensures { result ≡ wait_at nodes.now node }
{
    nodes
        .get(node)
        .map_or(SyncWait::Unset, NodeSettings::sync_wait)
}

// What a node starts, in order.
fn boot_at(nodes: &[NodeSettings], node: usize) -> &[(App, Restart)]
    ensures { result.now ≡ boot_at nodes.now node }
{
    nodes.get(node).map_or(&[], NodeSettings::boot)
}

// Has the node's `distributed` an entry, or does some node's name it?
#[tactic(auto, unfolding(crate::specs::Agreement::is_involved))]
fn is_involved(all: &AllShares, node: usize) -> bool
    requires { node ≤ u8.MAX }
    ensures { result ≡ is_involved all.now node }
{
    !all.at(node).is_empty() || some_names_node(Node(node as u8), all)
}

// The first involved node.
#[tactic(auto, unfolding(crate::specs::Agreement::first_involved))]
fn first_involved(all: &AllShares) -> Option<usize>
    requires { length all.now ≤ MAX_NODES }
    ensures { result ≡ first_involved all.now }
{
    for node in 0..all.len() {
        if is_involved(all, node) {
            return Some(node);
        }
    }
    None
}

/// The `distributed` of the first involved node, which is that of all of them where they agree.
#[tactic(auto, unfolding(crate::specs::Agreement::agreed_shares))]
pub fn agreed_shares(all: &AllShares) -> &[Share]
    requires { length all.now ≤ MAX_NODES }
    ensures { result.now ≡ agreed_shares all.now }
{
    match first_involved(all) {
        Some(node) => all.at(node),
        None => &[],
    }
}

/// Where the application may run, by these entries.
pub fn spread_for(shares: &[Share], app: App) -> Option<&Spread>
    ensures { option_map (λ s. s.now) result ≡ spread_for shares.now app }
{
    for share in shares {
        if share.app.0 == app.0 {
            return Some(&share.spread);
        }
    }
    None
}

// Have two nodes the same entries, in any order?
#[tactic(auto, using(crate::proofs::Alike::same_as_itself))]
fn same_distributed(all: &AllShares, this: usize, that: usize) -> bool
    ensures { result ≡ same_shares (shares_at all.now this) (shares_at all.now that) }
{
    all.are_alike(this, that) || same_shares(all.at(this), all.at(that))
}

// Do two nodes agree: the same wait, the same `distributed`?
#[tactic(auto, unfolding(crate::specs::Agreement::agree))]
fn agree(nodes: &[NodeSettings], all: &AllShares, this: usize, that: usize) -> bool
    ensures { result ≡ agree nodes.now all.now this that }
{
    same_wait(wait_at(nodes, this), wait_at(nodes, that)) && same_distributed(all, this, that)
}

// The same name in memory of its own.
fn copy_of(alloc: Global, name: &str) -> Result<Str, OutOfMemory>
    ensures { IfOk result (λ copy. copy ≡ name.now) }
{
    Ok(Str::of(String::from_str(alloc, name)?))
}

// Tests whether a node, if it is involved, agrees with the first one that is.
#[tactic(auto, unfolding(crate::specs::Agreement::mismatch_faults))]
fn check_mismatch(
    alloc: Global,
    names: &NameSet,
    nodes: &[NodeSettings],
    all: &AllShares,
    first: usize,
    node: usize,
) -> Result<(), ClusterFault>
    requires named { node < length names.now }
    requires small { node ≤ u8.MAX }
    ensures faults { Finds result (mismatch_faults names.now nodes.now all.now first node) }
    ensures memory { WantsForName result (mismatch_faults names.now nodes.now all.now first node) }
{
    if is_involved(all, node) && !agree(nodes, all, first, node) {
        let node = copy_of(alloc, names.get(node))?;
        return Err(ClusterFault::Mismatch { node });
    }
    Ok(())
}

// Tests whether all involved nodes agree with the first one, in node order.
#[tactic(auto, unfolding(crate::specs::Agreement::mismatches))]
fn check_mismatches(
    alloc: Global,
    names: &NameSet,
    nodes: &[NodeSettings],
    all: &AllShares,
) -> Result<(), ClusterFault>
    requires named { length names.now ≡ length all.now }
    requires few { length all.now ≤ MAX_NODES }
    ensures faults { Finds result (mismatches names.now nodes.now all.now) }
    ensures memory { WantsForName result (mismatches names.now nodes.now all.now) }
{
    let Some(first) = first_involved(all) else {
        return Ok(());
    };
    for node in 0..all.len() {
        check_mismatch(alloc, names, nodes, all, first, node)?;
    }
    Ok(())
}

// Tests whether the application, if it is distributed, lists the node.
#[tactic(auto, unfolding(crate::specs::Agreement::boot_entry_faults))]
fn check_boot_entry(shares: &[Share], node: usize, app: App) -> Result<(), ClusterFault>
    requires { node ≤ u8.MAX }
    ensures { FindsFirst result (boot_entry_faults shares.now node app) }
{
    match spread_for(shares, app) {
        Some(spread) => {
            if lists_node(Node(node as u8), spread) {
                Ok(())
            } else {
                Err(ClusterFault::BootNotListed)
            }
        }
        None => Ok(()),
    }
}

// Tests each entry of a node's boot list, in order.
#[tactic(auto, unfolding(crate::specs::Agreement::boot_list_faults))]
fn check_boot_list(
    shares: &[Share],
    nodes: &[NodeSettings],
    node: usize,
) -> Result<(), ClusterFault>
    requires { node ≤ u8.MAX }
    ensures { FindsFirst result (boot_list_faults shares.now nodes.now node) }
{
    let boot = boot_at(nodes, node);
    for entry in boot {
        check_boot_entry(shares, node, entry.0)?;
    }
    Ok(())
}

// Tests the boot list of each node, in node order.
fn check_boot_lists(shares: &[Share], nodes: &[NodeSettings]) -> Result<(), ClusterFault>
    requires { length nodes.now ≤ MAX_NODES }
    ensures { FindsFirst result
        (flat_map (boot_list_faults shares.now nodes.now) (numbers_below (length nodes.now))) }
{
    for node in 0..nodes.len() {
        check_boot_list(shares, nodes, node)?;
    }
    Ok(())
}

/// Tests what the nodes must agree on: that all involved nodes do, and that each distributed application lists
/// the nodes that boot it.
#[tactic(auto, unfolding(crate::specs::Agreement::agreement_stage))]
pub fn check_agreement(
    alloc: Global,
    names: &NameSet,
    nodes: &[NodeSettings],
    all: &AllShares,
) -> Result<(), ClusterFault>
    requires named { length names.now ≡ length all.now }
    requires few { length all.now ≤ MAX_NODES }
    requires few_nodes { length nodes.now ≤ MAX_NODES }
    ensures faults { Finds result (agreement_stage names.now nodes.now all.now) }
    ensures memory { WantsForName result (agreement_stage names.now nodes.now all.now) }
{
    check_mismatches(alloc, names, nodes, all)?;
    check_boot_lists(agreed_shares(all), nodes)
}
