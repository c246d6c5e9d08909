//! The entries of `distributed`, as they are kept.

ghost use Rattle.std.specs.Prelude.{◌≡◌, map, filter_map, unwrap_or, IfOk, IfSome, IsTrue};
ghost use Rattle.std.specs.Option.{option_map};
ghost use Rattle.rh_base.specs.Tree.{tree_of};
ghost use Rattle.rh_cluster.specs.Values.{time_or_zero, group_in, elements, share_of, distributed_in, shares_under, shares_in};
ghost use Rattle.rh_cluster.specs.Common.{IsNoOther};

use crate::building_nodes::nodes_named;
use crate::common::is_same_value;
use crate::descriptions::members;
use crate::kernel::share;
use crate::shapes;
use crate::shares::{Share, Shares};
use crate::values::{app_named, distributed_in, elements};
use rh_base::{OutOfMemory, Term};
use rh_model::{Group, Groups, Names, Spread};
use std::alloc::Global;

// The milliseconds of the value; without it, or for another term, 0.
fn time_or_zero(value: Option<&Term>) -> u64
    ensures { result ≡ time_or_zero (option_map (λ t. tree_of t.now) value.entry) }
{
    value.and_then(shapes::time).unwrap_or(0)
}

// The nodes of a group.
#[tactic(auto, unfolding(crate::specs::Values::group_in))]
fn group_in(alloc: Global, names: &Names, term: &Term) -> Result<Group, OutOfMemory>
    ensures { IfOk result (λ group. group ≡ group_in names.now (tree_of term.now)) }
{
    Ok(Group::of(nodes_named(alloc, names, members(term))?))
}

// The nodes of each of these groups, in order.
fn groups_in(alloc: Global, names: &Names, terms: &[Term]) -> Result<Groups, OutOfMemory>
    ensures { IfOk result (λ groups. groups ≡ map (group_in names.now) (map tree_of terms.now)) }
{
    let mut groups = Vec::new(alloc);
    for term in terms {
        groups.push(group_in(alloc, names, term)?)?;
    }
    Ok(Groups::of(groups))
}

// An entry, if its application is known.
#[tactic(auto, unfolding(crate::specs::Values::share_of))]
fn share_of(alloc: Global, names: &Names, term: &Term) -> Result<Option<Share>, OutOfMemory>
    ensures { IfOk result (λ found. found ≡ share_of names.now (tree_of term.now)) }
{
    let Some((app, timeout, groups)) = share(term) else {
        return Ok(None);
    };
    let Some(app) = app_named(names, app) else {
        return Ok(None);
    };
    let timeout = time_or_zero(timeout);
    let groups = groups_in(alloc, names, elements(groups))?;
    Ok(Some(Share {
        app,
        spread: Spread { timeout, groups },
    }))
}

// These entries, in order, without those whose application isn't known.
fn shares_of(alloc: Global, names: &Names, terms: &[Term]) -> Result<Shares, OutOfMemory>
    ensures { IfOk result
        (λ shares. shares ≡ filter_map (share_of names.now) (map tree_of terms.now)) }
{
    let mut shares = Vec::new(alloc);
    for term in terms {
        if let Some(share) = share_of(alloc, names, term)? {
            shares.push(share)?;
        }
    }
    Ok(Shares::of(shares))
}

/// The entries of a value of `distributed`; without one there are none.
pub fn shares_under(
    alloc: Global,
    names: &Names,
    value: Option<&Term>,
) -> Result<Shares, OutOfMemory>
    ensures { IfOk result
        (λ shares. shares ≡ shares_under names.now (option_map (λ t. tree_of t.now) value.entry)) }
{
    match value {
        Some(term) => shares_of(alloc, names, elements(term)),
        None => Ok(Shares::of(Vec::new(alloc))),
    }
}

/// The entries of a configuration's `distributed`, unless it is the common one. Where it is known that the node has no
/// other one, they aren't compared.
#[tactic(auto, unfolding(crate::specs::Values::shares_in, crate::specs::Values::elements_under))]
pub fn own_shares(
    alloc: Global,
    names: &Names,
    is_alike: bool,
    common: Option<&Term>,
    config: &Term,
) -> Result<Option<Shares>, OutOfMemory>
    requires { IsTrue is_alike
        → IsNoOther (option_map (λ t. tree_of t.now) common) (distributed_in (tree_of config.now)) }
    ensures { IfOk result (λ own.
        unwrap_or own (shares_under names.now (option_map (λ t. tree_of t.now) common.entry))
        ≡ shares_in names.now (tree_of config.now)) }
{
    let value = distributed_in(config);
    if is_same_value(is_alike, value, common) {
        return Ok(None);
    }
    Ok(Some(shares_under(alloc, names, value)?))
}
