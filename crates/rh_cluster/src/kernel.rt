//! The third stage: the kernel's parameters.

ghost use Rattle.std.specs.Prelude.{◌≡◌, map, IfSome};
ghost use Rattle.std.specs.Option.{option_map};
ghost use Rattle.rh_base.specs.Tree.{tree_of};
ghost use Rattle.rh_cluster.specs.Faults.{FindsFirst, list_faults};
ghost use Rattle.rh_model.specs.Limits.{IsWithinLimit};
ghost use Rattle.rh_cluster.specs.Sections.{as_share, time_faults, share_faults, as_truth, permission_faults, as_sync_wait, kernel_key, node_name_faults, entries_faults};
ghost use Rattle.rh_cluster.specs.Common.{kernel_faults_left};

use crate::descriptions::check_description;
use crate::entries::check_entries;
use crate::fault::ClusterFault;
use crate::lists::{check_list, check_shape};
use crate::names::{check_app_name, check_node_name, check_pair};
use crate::shapes;
use rh_base::Term;
use rh_model::{Names, SyncWait};

/// The parts of an entry of `distributed`: its application, its timeout if it has one, and its groups.
#[tactic(auto, unfolding(crate::specs::Sections::as_share))]
pub fn share(term: &Term) -> Option<(&Term, Option<&Term>, &Term)>
    ensures { option_map (λ s. (
      tree_of s.0.now,
      option_map (λ t. tree_of t.now) s.1,
      tree_of s.2.now,
    )) result ≡ as_share (tree_of term.now) }
{
    match shapes::tuple(term)? {
        [app, groups] => Some((app, None, groups)),
        [app, timeout, groups] => Some((app, Some(timeout), groups)),
        _ => None,
    }
}

/// The truth value that a word names, if it is `true` or `false`.
#[tactic(auto, unfolding(crate::specs::Sections::as_truth))]
pub fn truth(term: &Term) -> Option<bool>
    ensures { result ≡ as_truth (tree_of term.now) }
{
    let word = shapes::atom(term)?;
    if word == "true" {
        Some(true)
    } else if word == "false" {
        Some(false)
    } else {
        None
    }
}

/// How long a node waits: for ever, a time, or not at all where it is `undefined`.
#[tactic(auto, unfolding(crate::specs::Sections::as_sync_wait))]
pub fn sync_wait(term: &Term) -> Option<SyncWait>
    ensures wait { result ≡ as_sync_wait (tree_of term.now) }
    ensures limit { IfSome result (λ wait. IsWithinLimit wait) }
{
    if let Some(word) = shapes::atom(term) {
        if word == "undefined" {
            return Some(SyncWait::Unset);
        }
        if word == "infinity" {
            return Some(SyncWait::Forever);
        }
        return None;
    }
    shapes::time(term).map(SyncWait::After)
}

// Tests an entry of `permissions`, behind earlier entries.
#[tactic(auto, unfolding(crate::specs::Sections::permission_faults))]
fn check_permission(names: &Names, earlier: &[Term], term: &Term) -> Result<(), ClusterFault>
    ensures { FindsFirst result
        (permission_faults names.now (map tree_of earlier.now) (tree_of term.now)) }
{
    check_pair(names, earlier, term, |value| truth(value).is_some())
}

// Tests an entry of `distributed`, behind earlier entries.
#[tactic(auto, unfolding(crate::specs::Sections::share_faults))]
fn check_share(names: &Names, earlier: &[Term], term: &Term) -> Result<(), ClusterFault>
    ensures { FindsFirst result
        (share_faults names.now (map tree_of earlier.now) (tree_of term.now)) }
{
    let (app, timeout, groups) = share(term).ok_or(ClusterFault::BadValue)?;
    check_app_name(names, earlier, app)?;
    check_timeout(timeout)?;
    check_description(names, groups)
}

// Tests the timeout of an entry of `distributed`, if it has one.
fn check_timeout(timeout: Option<&Term>) -> Result<(), ClusterFault>
    ensures { FindsFirst result (time_faults (option_map (λ t. tree_of t.now) timeout.entry)) }
{
    match timeout {
        Some(term) => check_shape(shapes::time(term).is_some()),
        None => Ok(()),
    }
}

/// A parameter that is read.
#[derive(Clone, Copy)]
pub enum KernelKey {
    Distributed,
    Mandatory,
    Optional,
    Timeout,
    Permissions,
}

/// The parameter of a key, if it is read.
pub fn kernel_key(key: &str) -> Option<KernelKey>
    ensures { result ≡ kernel_key key.now }
{
    match key {
        "distributed" => Some(KernelKey::Distributed),
        "sync_nodes_mandatory" => Some(KernelKey::Mandatory),
        "sync_nodes_optional" => Some(KernelKey::Optional),
        "sync_nodes_timeout" => Some(KernelKey::Timeout),
        "permissions" => Some(KernelKey::Permissions),
        _ => None,
    }
}

// Tests the value of a parameter; others are skipped, and `distributed` too where it has passed.
#[tactic(auto, unfolding(crate::specs::Sections::kernel_faults, crate::specs::Common::kernel_faults_left))]
fn check_kernel_value(
    names: &Names,
    has_passed: bool,
    key: Option<KernelKey>,
    value: &Term,
) -> Result<(), ClusterFault>
    ensures { FindsFirst result (kernel_faults_left has_passed names.now key (tree_of value.now)) }
{
    match key {
        Some(KernelKey::Distributed) if has_passed => Ok(()),
        Some(KernelKey::Distributed) => check_list(value, |earlier, term| {
            check_share(names, earlier, term)
        }),
        Some(KernelKey::Mandatory) => check_node_names(names, value),
        Some(KernelKey::Optional) => check_node_names(names, value),
        Some(KernelKey::Timeout) => check_shape(sync_wait(value).is_some()),
        Some(KernelKey::Permissions) => check_list(value, |earlier, term| {
            check_permission(names, earlier, term)
        }),
        None => Ok(()),
    }
}

// Tests a list of nodes' names.
fn check_node_names(names: &Names, value: &Term) -> Result<(), ClusterFault>
    ensures { FindsFirst result (list_faults (node_name_faults names.now) (tree_of value.now)) }
{
    check_list(value, |earlier, term| {
        check_node_name(names, earlier, term)
    })
}

/// Tests the section `kernel`, but not its `distributed` where that has passed.
pub fn check_kernel(names: &Names, has_passed: bool, value: &Term) -> Result<(), ClusterFault>
    ensures { FindsFirst result
        (entries_faults kernel_key (kernel_faults_left has_passed names.now) (tree_of value.now)) }
{
    check_entries(value, kernel_key, |key, value| {
        check_kernel_value(names, has_passed, key, value)
    })
}
