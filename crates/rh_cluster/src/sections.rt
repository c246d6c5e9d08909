//! The third stage: the sections of a node, and each term.

ghost use Rattle.std.specs.Prelude.{◌≡◌, map, IfOk, IsTrue};
ghost use Rattle.rh_base.specs.Tree.{tree_of};
ghost use Rattle.rh_cluster.specs.Faults.{Finds, FindsFirst};
ghost use Rattle.rh_cluster.specs.Sections.{IsFaultless, section_key, section_faults, entries_faults, parts_faults, parts_stage};
ghost use Rattle.rh_cluster.specs.Values.{distributed_in, distributed_of};
ghost use Rattle.rh_cluster.specs.Common.{AreAlike, section_faults_left};

use crate::common::{distributed_of, first_filled, is_same_value, is_still_alike};
use crate::entries::check_entries;
use crate::fault::ClusterFault;
use crate::kernel::check_kernel;
use crate::keys::check_keys;
use crate::lists::check_shape;
use crate::rehearse::check_rehearse;
use crate::shapes;
use rh_base::Term;
use rh_model::{NameSet, Names};
use std::alloc::Global;

/// A section that is read.
#[derive(Clone, Copy)]
pub enum SectionKey {
    Kernel,
    Rehearse,
}

/// The section of a key, if it is read.
pub fn section_key(key: &str) -> Option<SectionKey>
    ensures { result ≡ section_key key.now }
{
    match key {
        "kernel" => Some(SectionKey::Kernel),
        "rehearse" => Some(SectionKey::Rehearse),
        _ => None,
    }
}

// Tests what a section holds, but not a `distributed` that has passed; of the others only that they are lists.
#[tactic(auto, unfolding(crate::specs::Sections::section_faults, crate::specs::Common::section_faults_left))]
fn check_section_value(
    names: &Names,
    has_passed: bool,
    key: Option<SectionKey>,
    value: &Term,
) -> Result<(), ClusterFault>
    ensures { FindsFirst result (section_faults_left has_passed names.now key (tree_of value.now)) }
{
    match key {
        Some(SectionKey::Kernel) => check_kernel(names, has_passed, value),
        Some(SectionKey::Rehearse) => check_rehearse(names, value),
        None => check_shape(shapes::list(value).is_some()),
    }
}

// Tests the configuration of a node, of whose `distributed` it may be known that it passes.
fn check_sections(names: &Names, has_passed: bool, value: &Term) -> Result<(), ClusterFault>
    requires { IsTrue has_passed → IsFaultless names.now (distributed_in (tree_of value.now)) }
    ensures { FindsFirst result
        (entries_faults section_key (section_faults names.now) (tree_of value.now)) }
{
    check_entries(value, section_key, |key, value| {
        check_section_value(names, has_passed, key, value)
    })
}

// Tests the parts of a term, of whose `distributed` it may be known that it passes.
#[tactic(auto, unfolding(crate::specs::Sections::parts_faults))]
fn check_term(
    alloc: Global,
    names: &Names,
    platforms: &NameSet,
    has_passed: bool,
    term: &Term,
) -> Result<(), ClusterFault>
    requires { IsTrue has_passed → IsFaultless names.now (distributed_of (tree_of term.now)) }
    ensures { Finds result (parts_faults names.now platforms.now (tree_of term.now)) }
{
    if let Some((_, config)) = shapes::node(term) {
        return check_sections(names, has_passed, config);
    }
    if let Some((own, keys)) = shapes::app(term) {
        return check_keys(alloc, names, platforms, own, keys);
    }
    Ok(())
}

/// Tests the parts of each term, and tells how many from the first on are known to have no other `distributed` than the
/// first one that has an entry. Most files give their nodes the same one, so one that equals one that has passed isn't
/// tested again.
#[tactic(auto, unfolding(crate::specs::Sections::parts_stage))]
pub fn check_parts(
    alloc: Global,
    names: &Names,
    platforms: &NameSet,
    terms: &[Term],
) -> Result<usize, ClusterFault>
    ensures faults { Finds result (parts_stage names.now platforms.now (map tree_of terms.now)) }
    ensures alike { IfOk result (λ alike. AreAlike alike terms.now) }
{
    let common = first_filled(terms);
    let mut alike = 0;
    let mut passed = None;
    for (index, term) in terms.iter().enumerate() {
        let value = distributed_of(term);
        let is_alike = is_still_alike(alike == index, common, value);
        let has_passed = is_same_value(is_alike, value, passed);
        check_term(alloc, names, platforms, has_passed, term)?;
        passed = value.or(passed);
        if is_alike {
            alike = index + 1;
        }
    }
    Ok(alike)
}
