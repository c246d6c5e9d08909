//! The third stage: the keys of an application.

ghost use Rattle.std.specs.Prelude.{◌≡◌, [], ◌∷◌, ◌++◌, map, is_some, OnOk};
ghost use Rattle.std.specs.List.{list_all};
ghost use Rattle.rh_base.specs.Tree.{tree_of};
ghost use Rattle.rh_cluster.specs.Faults.{Finds, WantsLast};
ghost use Rattle.rh_cluster.specs.Shapes.{atoms, as_entry};
ghost use Rattle.rh_cluster.specs.Sections.{dep_faults, deps_faults, is_start, are_phases, app_key, key_faults, entries_faults};

use crate::entries::check_entries;
use crate::fault::ClusterFault;
use crate::lists::check_shape;
use crate::names::check_word;
use crate::shapes;
use rh_base::Term;
use rh_model::{NameSet, Names};
use std::alloc::Global;

// Tests a name of `applications`, and adds it to the earlier ones.
#[tactic(auto, unfolding(crate::specs::Sections::dep_faults, crate::specs::Sections::name_faults))]
fn check_dep(
    alloc: Global,
    names: &Names,
    platforms: &NameSet,
    own: &str,
    earlier: &mut NameSet,
    term: &Term,
) -> Result<(), ClusterFault>
    ensures faults { Finds result
        (dep_faults names.now platforms.now own.now earlier.old (tree_of term.now)) }
    ensures last { WantsLast result
        (dep_faults names.now platforms.now own.now earlier.old (tree_of term.now)) }
    ensures earlier { OnOk result (earlier.new ≡ earlier.old ++ atoms (tree_of term.now ∷ [])) }
{
    let name = shapes::atom(term).ok_or(ClusterFault::BadValue)?;
    let is_known = names.has_app(name) || platforms.contains(name);
    check_word(name, is_known, earlier.contains(name))?;
    if own == name {
        return Err(ClusterFault::BadValue);
    }
    earlier.add(alloc, name)?;
    Ok(())
}

// Tests the value of `applications`.
#[tactic(auto, unfolding(crate::specs::Faults::list_faults))]
fn check_deps(
    alloc: Global,
    names: &Names,
    platforms: &NameSet,
    own: &str,
    value: &Term,
) -> Result<(), ClusterFault>
    ensures { Finds result (deps_faults names.now platforms.now own.now (tree_of value.now)) }
{
    let Some(terms) = shapes::list(value) else {
        return Err(ClusterFault::BadValue);
    };
    let mut earlier = NameSet::new(alloc);
    for term in terms {
        check_dep(alloc, names, platforms, own, &mut earlier, term)?;
    }
    Ok(())
}

// Is it `{Module, StartArg}` or the empty list?
#[tactic(auto, unfolding(crate::specs::Sections::is_start))]
fn is_start(value: &Term) -> bool
    ensures { result ≡ is_start (tree_of value.now) }
{
    shapes::entry(value).is_some() || shapes::list(value).is_some_and(|terms| terms.is_empty())
}

// Is each of them an entry `{Atom, Value}`?
fn are_entries(terms: &[Term]) -> bool
    ensures { result ≡ list_all (λ t. is_some (as_entry t)) (map tree_of terms.now) }
{
    for term in terms {
        if shapes::entry(term).is_none() {
            return false;
        }
    }
    true
}

// Is it `undefined` or a list of entries?
#[tactic(auto, unfolding(crate::specs::Sections::are_phases))]
fn are_phases(value: &Term) -> bool
    ensures { result ≡ are_phases (tree_of value.now) }
{
    shapes::atom(value) == Some("undefined") || shapes::list(value).is_some_and(are_entries)
}

/// What is read under a key.
#[derive(Clone, Copy)]
pub enum AppKey {
    Applications,
    Mod,
    StartPhases,
}

/// What is read under a key, if it is.
pub fn app_key(key: &str) -> Option<AppKey>
    ensures { result ≡ app_key key.now }
{
    match key {
        "applications" => Some(AppKey::Applications),
        "mod" => Some(AppKey::Mod),
        "start_phases" => Some(AppKey::StartPhases),
        _ => None,
    }
}

// Tests the value of a key; others are skipped.
#[tactic(auto, unfolding(crate::specs::Sections::key_faults))]
fn check_key_value(
    alloc: Global,
    names: &Names,
    platforms: &NameSet,
    own: &str,
    key: Option<AppKey>,
    value: &Term,
) -> Result<(), ClusterFault>
    ensures { Finds result (key_faults names.now platforms.now own.now key (tree_of value.now)) }
{
    match key {
        Some(AppKey::Applications) => check_deps(alloc, names, platforms, own, value),
        Some(AppKey::Mod) => check_shape(is_start(value)),
        Some(AppKey::StartPhases) => check_shape(are_phases(value)),
        None => Ok(()),
    }
}

/// Tests the keys of an application.
pub fn check_keys(
    alloc: Global,
    names: &Names,
    platforms: &NameSet,
    own: &str,
    value: &Term,
) -> Result<(), ClusterFault>
    ensures { Finds result
        (entries_faults app_key (key_faults names.now platforms.now own.now) (tree_of value.now)) }
{
    check_entries(value, app_key, |key, value| {
        check_key_value(alloc, names, platforms, own, key, value)
    })
}
