//! Entries `{Key, Value}`, each among the terms before it.

ghost use Rattle.std.specs.Prelude.{◌≡◌, map};
ghost use Rattle.std.specs.List.{list_any};
ghost use Rattle.rh_base.specs.Tree.{tree_of};
ghost use Rattle.rh_cluster.specs.Faults.{Finds, FindsFirst, list_faults};
ghost use Rattle.rh_cluster.specs.Tests.{FindsOfValues, FindsFirstOfValues, TellsKeys};
ghost use Rattle.rh_cluster.specs.Sections.{has_key, entry_faults};

use crate::fault::ClusterFault;
use crate::lists::check_list;
use crate::shapes;
use rh_base::Term;

// Is it an entry of this key?
#[tactic(auto, unfolding(crate::specs::Sections::has_key))]
fn has_key(key: &str, term: &Term) -> bool
    ensures { result ≡ has_key key.now (tree_of term.now) }
{
    shapes::entry(term).is_some_and(|(other, _)| other == key)
}

// Is one of these an entry of this key?
fn repeats_key(key: &str, earlier: &[Term]) -> bool
    ensures { result ≡ list_any (has_key key.now) (map tree_of earlier.now) }
{
    for term in earlier {
        if has_key(key, term) {
            return true;
        }
    }
    false
}

// Tests an entry behind earlier terms: a key that is read doesn't come twice, and the value passes
// its test. A key is read if the table names what stands under it.
#[tactic(auto, unfolding(crate::specs::Sections::entry_faults))]
fn check_entry<
    K: Copy,
    R: Fn(&str) -> Option<K>,
    V: Fn(Option<K>, &Term) -> Result<(), ClusterFault>,
>(earlier: &[Term], term: &Term, key_of: &R, check_value: &V) -> Result<(), ClusterFault>
    requires keys { R.IsAlwaysCallable key_of.now }
    requires values { V.IsAlwaysCallable check_value.now }
    ensures finds { (keys : _) (faults : _) → TellsKeys R.Fn key_of.now keys →
        FindsOfValues V.Fn check_value.now faults →
        Finds result (entry_faults keys faults (map tree_of earlier.now) (tree_of term.now)) }
    ensures exact { (keys : _) (faults : _) → TellsKeys R.Fn key_of.now keys →
        FindsFirstOfValues V.Fn check_value.now faults →
        FindsFirst result (entry_faults keys faults (map tree_of earlier.now) (tree_of term.now)) }
{
    let (key, value) = shapes::entry(term).ok_or(ClusterFault::BadValue)?;
    let known = key_of(key);
    if known.is_some() && repeats_key(key, earlier) {
        return Err(ClusterFault::DuplicateParameter);
    }
    check_value(known, value)
}

/// Tests a value that must be a list of entries `{Key, Value}`, in which no key that is read comes
/// twice.
pub fn check_entries<
    K: Copy,
    R: Fn(&str) -> Option<K>,
    V: Fn(Option<K>, &Term) -> Result<(), ClusterFault>,
>(value: &Term, key_of: R, check_value: V) -> Result<(), ClusterFault>
    requires keys { R.IsAlwaysCallable key_of }
    requires values { V.IsAlwaysCallable check_value }
    ensures finds { (keys : _) (faults : _) → TellsKeys R.Fn key_of keys →
        FindsOfValues V.Fn check_value faults →
        Finds result (list_faults (entry_faults keys faults) (tree_of value.now)) }
    ensures exact { (keys : _) (faults : _) → TellsKeys R.Fn key_of keys →
        FindsFirstOfValues V.Fn check_value faults →
        FindsFirst result (list_faults (entry_faults keys faults) (tree_of value.now)) }
{
    check_list(value, |earlier, term| {
        check_entry(earlier, term, &key_of, &check_value)
    })
}
