//! The third stage: the parameters of `rehearse`.

ghost use Rattle.std.specs.Prelude.{◌≡◌, map};
ghost use Rattle.rh_base.specs.Tree.{tree_of};
ghost use Rattle.rh_cluster.specs.Faults.{FindsFirst};
ghost use Rattle.rh_cluster.specs.Sections.{as_restart, boot_faults, platform_faults, rehearse_key, rehearse_faults, entries_faults};

use crate::entries::check_entries;
use crate::fault::ClusterFault;
use crate::lists::check_list;
use crate::names::{check_pair, check_word, repeats_atom};
use crate::shapes;
use rh_base::Term;
use rh_model::{Names, Restart};

/// The restart type that a word names.
#[tactic(auto, unfolding(crate::specs::Sections::as_restart))]
pub fn restart(term: &Term) -> Option<Restart>
    ensures { result ≡ as_restart (tree_of term.now) }
{
    let word = shapes::atom(term)?;
    if word == "permanent" {
        Some(Restart::Permanent)
    } else if word == "transient" {
        Some(Restart::Transient)
    } else if word == "temporary" {
        Some(Restart::Temporary)
    } else {
        None
    }
}

// Tests an entry of `boot`, behind earlier entries.
#[tactic(auto, unfolding(crate::specs::Sections::boot_faults))]
fn check_boot_entry(names: &Names, earlier: &[Term], term: &Term) -> Result<(), ClusterFault>
    ensures { FindsFirst result
        (boot_faults names.now (map tree_of earlier.now) (tree_of term.now)) }
{
    check_pair(names, earlier, term, |value| restart(value).is_some())
}

// Tests a platform name, behind earlier ones of its list.
#[tactic(auto, unfolding(crate::specs::Sections::platform_faults, crate::specs::Sections::name_faults))]
fn check_platform_name(names: &Names, earlier: &[Term], term: &Term) -> Result<(), ClusterFault>
    ensures { FindsFirst result
        (platform_faults names.now (map tree_of earlier.now) (tree_of term.now)) }
{
    let name = shapes::atom(term).ok_or(ClusterFault::BadValue)?;
    check_word(name, true, repeats_atom(name, earlier))?;
    if names.has_app(name) {
        return Err(ClusterFault::DuplicateName);
    }
    if !names.has_platform(name) {
        return Err(ClusterFault::TooMany);
    }
    Ok(())
}

// A parameter.
#[derive(Clone, Copy)]
enum RehearseKey {
    Boot,
    Platform,
}

// The parameter of a key.
fn rehearse_key(key: &str) -> Option<RehearseKey>
    ensures { result ≡ rehearse_key key.now }
{
    match key {
        "boot" => Some(RehearseKey::Boot),
        "platform" => Some(RehearseKey::Platform),
        _ => None,
    }
}

// Tests the value of a parameter; there are no others.
#[tactic(auto, unfolding(crate::specs::Sections::rehearse_faults))]
fn check_rehearse_value(
    names: &Names,
    key: Option<RehearseKey>,
    value: &Term,
) -> Result<(), ClusterFault>
    ensures { FindsFirst result (rehearse_faults names.now key (tree_of value.now)) }
{
    match key {
        Some(RehearseKey::Boot) => check_list(value, |earlier, term| {
            check_boot_entry(names, earlier, term)
        }),
        Some(RehearseKey::Platform) => check_list(value, |earlier, term| {
            check_platform_name(names, earlier, term)
        }),
        None => Err(ClusterFault::BadValue),
    }
}

/// Tests the section `rehearse`.
pub fn check_rehearse(names: &Names, value: &Term) -> Result<(), ClusterFault>
    ensures { FindsFirst result
        (entries_faults rehearse_key (rehearse_faults names.now) (tree_of value.now)) }
{
    check_entries(value, rehearse_key, |key, value| {
        check_rehearse_value(names, key, value)
    })
}
