//! The values of entries.

ghost use Rattle.std.specs.Prelude.{◌≡◌, map};
ghost use Rattle.std.specs.Option.{option_map};
ghost use Rattle.rh_base.specs.Tree.{tree_of};
ghost use Rattle.rh_model.specs.Names.{NamesView};
ghost use Rattle.rh_cluster.specs.Values.{elements, value_if, value_under, elements_under, distributed_in, node_named, app_named};

use crate::shapes;
use rh_base::Term;
use rh_model::{App, Names, Node};

/// The elements of a list; another term has none.
#[tactic(auto, unfolding(crate::specs::Values::elements))]
pub fn elements(term: &Term) -> &[Term]
    ensures { map tree_of result.now ≡ elements (tree_of term.now) }
{
    match shapes::list(term) {
        Some(terms) => terms,
        None => &[],
    }
}

/// The value of an entry of this key.
#[tactic(auto, unfolding(crate::specs::Values::value_if))]
pub fn value_if<'a>(key: &str, term: &'a Term) -> Option<&'a Term>
    ensures { option_map (λ value. tree_of value.now) result ≡ value_if key.now (tree_of term.now) }
{
    let (other, value) = shapes::entry(term)?;
    if other == key { Some(value) } else { None }
}

/// The value of the first entry of this key.
pub fn value_under<'a>(key: &str, terms: &'a [Term]) -> Option<&'a Term>
    ensures { option_map (λ value. tree_of value.now) result
        ≡ value_under key.now (map tree_of terms.now) }
{
    for term in terms {
        if let Some(value) = value_if(key, term) {
            return Some(value);
        }
    }
    None
}

/// The elements of that value.
#[tactic(auto, unfolding(crate::specs::Values::elements_under))]
pub fn elements_under<'a>(key: &str, terms: &'a [Term]) -> &'a [Term]
    ensures { map tree_of result.now ≡ elements_under key.now (map tree_of terms.now) }
{
    match value_under(key, terms) {
        Some(value) => elements(value),
        None => &[],
    }
}

/// The value of a configuration's `distributed`.
pub fn distributed_in(config: &Term) -> Option<&Term>
    ensures { option_map (λ value. tree_of value.now) result ≡ distributed_in (tree_of config.now) }
{
    value_under("distributed", elements_under("kernel", elements(config)))
}

/// The node of this name.
#[tactic(auto, unfolding(crate::specs::Values::node_named))]
pub fn node_named(names: &Names, term: &Term) -> Option<Node>
    ensures { result ≡ node_named names.now (tree_of term.now) }
{
    let name = shapes::atom(term)?;
    names.node_of(name)
}

/// The application of this name.
#[tactic(auto, unfolding(crate::specs::Values::app_named))]
pub fn app_named(names: &Names, term: &Term) -> Option<App>
    ensures { result ≡ app_named names.now (tree_of term.now) }
{
    let name = shapes::atom(term)?;
    names.app_of(name)
}
