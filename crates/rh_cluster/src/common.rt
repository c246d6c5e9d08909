//! The `distributed` that most files give to all their nodes.

ghost use Rattle.std.specs.Prelude.{◌≡◌, map, IsTrue};
ghost use Rattle.std.specs.Option.{option_map};
ghost use Rattle.rh_base.specs.Tree.{tree_of};
ghost use Rattle.rh_cluster.specs.Values.{distributed_of, filled, first_filled};
ghost use Rattle.rh_cluster.specs.Common.{IsNoOther, NeverDiffer};

use crate::shapes;
use crate::values::{distributed_in, elements};
use rh_base::Term;

/// The `distributed` of a term, if it is a node's.
pub fn distributed_of(term: &Term) -> Option<&Term>
    ensures { option_map (λ t. tree_of t.now) result ≡ distributed_of (tree_of term.now) }
{
    let (_, config) = shapes::node(term)?;
    distributed_in(config)
}

// A term's `distributed`, if it has an entry.
fn filled_distributed(term: &Term) -> Option<&Term>
    ensures { option_map (λ t. tree_of t.now) result ≡ filled (tree_of term.now) }
{
    let value = distributed_of(term)?;
    if elements(value).is_empty() {
        None
    } else {
        Some(value)
    }
}

/// The first `distributed` that has an entry. Most files give it to all their nodes.
pub fn first_filled(terms: &[Term]) -> Option<&Term>
    ensures { option_map (λ t. tree_of t.now) result ≡ first_filled (map tree_of terms.now) }
{
    for term in terms {
        if let Some(value) = filled_distributed(term) {
            return Some(value);
        }
    }
    None
}

// Is the value the common one, if there is a value?
fn is_no_other(common: Option<&Term>, value: Option<&Term>) -> bool
    ensures { IsTrue result → IsNoOther (option_map (λ t. tree_of t.now) common.entry)
        (option_map (λ t. tree_of t.now) value.entry) }
{
    match (common, value) {
        (_, None) => true,
        (Some(common), Some(value)) => value.same(common),
        (None, Some(_)) => false,
    }
}

/// Is the value the common one, if there is a value? Behind one that isn't, it isn't asked.
pub fn is_still_alike(are_alike: bool, common: Option<&Term>, value: Option<&Term>) -> bool
    ensures before { IsTrue result → IsTrue are_alike }
    ensures this { IsTrue result → IsNoOther (option_map (λ t. tree_of t.now) common.entry)
        (option_map (λ t. tree_of t.now) value.entry) }
{
    are_alike && is_no_other(common, value)
}

/// Are these the same value, or is there none? Two of which it is known that they never differ aren't compared.
pub fn is_same_value(are_alike: bool, this: Option<&Term>, that: Option<&Term>) -> bool
    requires { IsTrue are_alike → NeverDiffer (option_map (λ t. tree_of t.now) this)
        (option_map (λ t. tree_of t.now) that) }
    ensures { IsTrue result
        → option_map (λ t. tree_of t.now) this.entry ≡ option_map (λ t. tree_of t.now) that.entry }
{
    match (this, that) {
        (Some(this), Some(that)) => are_alike || this.same(that),
        (None, None) => true,
        _ => false,
    }
}
