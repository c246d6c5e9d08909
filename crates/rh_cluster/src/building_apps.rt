//! What the keys say of their application, as a cluster keeps it.

ghost use Rattle.std.specs.Prelude.{◌≡◌, map, filter_map, IfOk};
ghost use Rattle.std.specs.Option.{option_map};
ghost use Rattle.rh_base.specs.Tree.{tree_of};
ghost use Rattle.rh_cluster.specs.Values.{dep_named, start_in, is_list_there, spread_named, app_view};

use crate::agreement::spread_for;
use crate::shapes;
use crate::shares::Share;
use crate::values::{elements, elements_under, value_under};
use rh_base::{OutOfMemory, Term};
use rh_model::{AppSettings, Dep, Names, Spread, copy_of_spread, copy_of_start};
use std::alloc::Global;

// What the name stands for in `applications`: an application of the cluster, or else a platform name.
#[tactic(auto, unfolding(crate::specs::Values::dep_named))]
fn dep_named(names: &Names, term: &Term) -> Option<Dep>
    ensures { result ≡ dep_named names.now (tree_of term.now) }
{
    let name = shapes::atom(term)?;
    if let Some(app) = names.app_of(name) {
        return Some(Dep::Listed(app));
    }
    let index = names.platforms().index_of(name)?;
    Some(Dep::Platform(index as u16))
}

// What these names stand for in `applications`, in order.
fn deps_named(alloc: Global, names: &Names, terms: &[Term]) -> Result<Vec<Dep>, OutOfMemory>
    ensures { IfOk result
        (λ deps. deps.items ≡ filter_map (dep_named names.now) (map tree_of terms.now)) }
{
    let mut deps = Vec::new(alloc);
    for term in terms {
        if let Some(dep) = dep_named(names, term) {
            deps.push(dep)?;
        }
    }
    Ok(deps)
}

// The module and the argument of `{Module, StartArg}`.
fn start_in(value: Option<&Term>) -> Option<(&str, &Term)>
    ensures { option_map (λ s. (s.0.now, tree_of s.1.now)) result
        ≡ start_in (option_map (λ t. tree_of t.now) value.entry) }
{
    shapes::entry(value?)
}

// Is the value a list?
fn is_list_there(value: Option<&Term>) -> bool
    ensures { result ≡ is_list_there (option_map (λ t. tree_of t.now) value.entry) }
{
    value.and_then(shapes::list).is_some()
}

// Where the application of this name may run, by these entries.
fn spread_named<'a>(names: &Names, shares: &'a [Share], name: &str) -> Option<&'a Spread>
    ensures { option_map (λ s. s.now) result ≡ spread_named names.now shares.now name.now }
{
    spread_for(shares, names.app_of(name)?)
}

/// The settings of the application of this name and these keys.
#[tactic(auto, unfolding(crate::specs::Values::app_view))]
pub fn app_settings(
    alloc: Global,
    names: &Names,
    shares: &[Share],
    name: &str,
    keys: &Term,
) -> Result<AppSettings, OutOfMemory>
    ensures { IfOk result
        (λ settings. settings ≡ app_view names.now shares.now name.now (tree_of keys.now)) }
{
    let keys = elements(keys);
    let deps = deps_named(alloc, names, elements_under("applications", keys))?;
    let start = copy_of_start(alloc, start_in(value_under("mod", keys)))?;
    let phases = is_list_there(value_under("start_phases", keys));
    let spread = copy_of_spread(alloc, spread_named(names, shares, name))?;
    Ok(AppSettings::of(deps, start, phases, spread))
}
