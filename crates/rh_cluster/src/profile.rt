//! The profile of a file: what its first term may say.

ghost use Rattle.std.specs.Prelude.{◌≡◌, true, map, IfSome};
ghost use Rattle.rh_base.specs.Tree.{tree_of};
ghost use Rattle.rh_model.specs.Limits.{is_profile};
ghost use Rattle.rh_cluster.specs.Profile.{profile_named, profile_of, behind_profile};

use crate::shapes;
use rh_base::Term;

// The profile that the first term names.
fn profile_named(terms: &[Term]) -> Option<u8>
    ensures profile { result ≡ profile_named (map tree_of terms.now) }
    ensures known { IfSome result (λ profile. is_profile profile ≡ true) }
{
    shapes::profile(terms.first()?)
}

/// The profile of the terms of a file: the first one, unless they name another.
#[tactic(auto, unfolding(crate::specs::Profile::profile_of))]
pub fn profile_of(terms: &[Term]) -> u8
    ensures profile { result ≡ profile_of (map tree_of terms.now) }
    ensures known { is_profile result ≡ true }
{
    match profile_named(terms) {
        Some(profile) => profile,
        None => 1,
    }
}

/// The terms that say what the cluster is: all but the one that names the profile.
#[tactic(auto, unfolding(crate::specs::Profile::behind_profile))]
pub fn behind_profile(terms: &[Term]) -> &[Term]
    ensures { map tree_of result.now ≡ behind_profile (map tree_of terms.now) }
{
    match profile_named(terms) {
        Some(_) => &terms[1..],
        None => terms,
    }
}
