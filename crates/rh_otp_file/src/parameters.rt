//! The parameters of a node's configuration, by their keys.

ghost use Rattle.std.specs.Prelude.{◌≡◌, map};
ghost use Rattle.std.specs.Option.{option_map};
ghost use Rattle.rh_base.specs.Tree.{tree_of};
ghost use Rattle.rh_cluster.specs.Values.{value_if, value_under, elements_under, kernel_of};

use rh_base::Term;
use rh_term_lint::{elements, entry};

// The value of an entry of this key.
#[tactic(auto, unfolding(rh_cluster::specs::Values::value_if))]
fn value_if<'a>(key: &str, term: &'a Term) -> Option<&'a Term>
    ensures { option_map (λ value. tree_of value.now) result ≡ value_if key.now (tree_of term.now) }
{
    let (other, value) = entry(term)?;
    if other.as_str() == key {
        Some(value)
    } else {
        None
    }
}

/// The value of the first entry of this key.
pub fn value_under<'a>(key: &str, terms: &'a [Term]) -> Option<&'a Term>
    ensures { option_map (λ value. tree_of value.now) result
        ≡ value_under key.now (map tree_of terms.now) }
{
    for term in terms {
        if let Some(value) = value_if(key, term) {
            return Some(value);
        }
    }
    None
}

// The elements of that value.
#[tactic(auto, unfolding(rh_cluster::specs::Values::elements_under))]
fn elements_under<'a>(key: &str, terms: &'a [Term]) -> &'a [Term]
    ensures { map tree_of result.now ≡ elements_under key.now (map tree_of terms.now) }
{
    match value_under(key, terms) {
        Some(value) => elements(value),
        None => &[],
    }
}

/// The entries of the section `kernel`.
pub fn kernel_of(config: &Term) -> &[Term]
    ensures { map tree_of result.now ≡ kernel_of (tree_of config.now) }
{
    elements_under("kernel", elements(config))
}
