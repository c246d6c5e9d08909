//! Values of the right shape, and lists whose elements are tested in turn.

ghost use Rattle.std.specs.Prelude.{[], map, not};
ghost use Rattle.rh_base.specs.Tree.{tree_of};
ghost use Rattle.rh_cluster.specs.Faults.{Finds, FindsFirst, when, in_turn, list_faults};
ghost use Rattle.rh_cluster.specs.declared.fault.ClusterFault.TheVariants as cluster;
ghost use Rattle.rh_cluster.specs.Tests.{FindsOfEach, FindsFirstOfEach};

use crate::fault::ClusterFault;
use crate::shapes;
use rh_base::Term;

/// Tests a value, of which it is known whether its shape is right.
pub fn check_shape(is_right: bool) -> Result<(), ClusterFault>
    ensures { FindsFirst result (when (not is_right) cluster.BadValue) }
{
    if is_right {
        Ok(())
    } else {
        Err(ClusterFault::BadValue)
    }
}

/// Tests each of these terms in turn. The test is given the terms before and the term itself, and
/// the first fault that it finds counts.
pub fn check_each<F: Fn(&[Term], &Term) -> Result<(), ClusterFault>>(
    terms: &[Term],
    test: F,
) -> Result<(), ClusterFault>
    requires { F.IsAlwaysCallable test }
    ensures finds { (faults : _) → FindsOfEach F.Fn test faults
        → Finds result (in_turn faults [] (map tree_of terms.now)) }
    ensures exact { (faults : _) → FindsFirstOfEach F.Fn test faults
        → FindsFirst result (in_turn faults [] (map tree_of terms.now)) }
{
    for (index, term) in terms.iter().enumerate() {
        test(&terms[..index], term)?;
    }
    Ok(())
}

/// Tests a value that must be a list, and each of its elements in turn.
#[tactic(auto, unfolding(crate::specs::Faults::list_faults))]
pub fn check_list<F: Fn(&[Term], &Term) -> Result<(), ClusterFault>>(
    value: &Term,
    test: F,
) -> Result<(), ClusterFault>
    requires { F.IsAlwaysCallable test }
    ensures finds { (faults : _) → FindsOfEach F.Fn test faults
        → Finds result (list_faults faults (tree_of value.now)) }
    ensures exact { (faults : _) → FindsFirstOfEach F.Fn test faults
        → FindsFirst result (list_faults faults (tree_of value.now)) }
{
    match shapes::list(value) {
        Some(terms) => check_each(terms, test),
        None => Err(ClusterFault::BadValue),
    }
}
