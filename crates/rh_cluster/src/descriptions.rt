//! The third stage: where a distributed application may run, as a list of groups.

ghost use Rattle.std.specs.Prelude.{◌≡◌, ◌++◌, map, flat_map};
ghost use Rattle.rh_base.specs.Tree.{tree_of};
ghost use Rattle.rh_cluster.specs.Faults.{FindsFirst, in_turn};
ghost use Rattle.rh_model.specs.Names.{is_among};
ghost use Rattle.rh_cluster.specs.Shapes.{atoms};
ghost use Rattle.rh_cluster.specs.Sections.{node_name_faults, members, desc_faults};

use crate::fault::ClusterFault;
use crate::lists::check_each;
use crate::names::{check_word, repeats_atom};
use crate::shapes;
use rh_base::Term;
use rh_model::Names;
use std::slice;

/// The names of a group: the parts of a tuple, or the term itself.
#[tactic(auto, unfolding(crate::specs::Sections::members))]
pub fn members(term: &Term) -> &[Term]
    ensures { map tree_of result.now ≡ members (tree_of term.now) }
{
    match shapes::tuple(term) {
        Some(parts) if !parts.is_empty() => parts,
        _ => slice::from_ref(term),
    }
}

// Does one of these groups name this node?
fn repeats_member(name: &str, groups: &[Term]) -> bool
    ensures { result ≡ is_among (atoms (flat_map members (map tree_of groups.now))) name.now }
{
    for group in groups {
        if repeats_atom(name, members(group)) {
            return true;
        }
    }
    false
}

// Is it among the names of the groups before, or before it in its own?
#[tactic(auto, using(crate::proofs::MemberNames::is_among_both))]
fn is_named_before(name: &str, before: &[Term], earlier: &[Term]) -> bool
    ensures { result ≡ is_among
        (atoms (flat_map members (map tree_of before.now) ++ map tree_of earlier.now)) name.now }
{
    repeats_member(name, before) || repeats_atom(name, earlier)
}

// Tests a name of a group, behind the groups before and the names before it in its own.
#[tactic(auto, unfolding(crate::specs::Sections::node_name_faults, crate::specs::Sections::name_faults))]
fn check_member(
    names: &Names,
    before: &[Term],
    earlier: &[Term],
    term: &Term,
) -> Result<(), ClusterFault>
    ensures { FindsFirst result (node_name_faults names.now
        (flat_map members (map tree_of before.now) ++ map tree_of earlier.now) (tree_of term.now)) }
{
    let name = shapes::atom(term).ok_or(ClusterFault::BadValue)?;
    let is_repeated = is_named_before(name, before, earlier);
    check_word(name, names.has_node(name), is_repeated)
}

// Tests a group, behind the groups before.
fn check_group(names: &Names, before: &[Term], group: &Term) -> Result<(), ClusterFault>
    ensures { FindsFirst result (in_turn (node_name_faults names.now)
        (flat_map members (map tree_of before.now)) (members (tree_of group.now))) }
{
    check_each(members(group), |earlier, term| {
        check_member(names, before, earlier, term)
    })
}

/// Tests a list of groups.
#[tactic(auto, unfolding(crate::specs::Sections::desc_faults))]
pub fn check_description(names: &Names, value: &Term) -> Result<(), ClusterFault>
    ensures { FindsFirst result (desc_faults names.now (tree_of value.now)) }
{
    let Some(groups) = shapes::list(value) else {
        return Err(ClusterFault::BadValue);
    };
    if groups.is_empty() {
        return Err(ClusterFault::BadValue);
    }
    check_each(groups, |before, group| check_group(names, before, group))
}
