//! Which pairs can call an application away from where it runs.

ghost use Rattle.std.specs.List.{list_any};
ghost use Rattle.std.specs.Prelude.{◌≡◌, ◌||◌, length, nat_lt, position};
ghost use Rattle.rh_model.specs.ClusterView.{app_count, group_of, is_in};
ghost use Rattle.rh_state.specs.Shape.{IsAppOf};
ghost use Rattle.rh_state.specs.Stored.{read};
ghost use Rattle.rh_rules.specs.Moves.{comes_before};
ghost use Rattle.rh_settle.specs.Calls.{can_call};

use rh_model::{App, Cluster, Group, Node, is_in};
use rh_rules::Pair;
use rh_state::{Standing, State};

// Does the group of a node come before that of another one? The walk ends at the first group that has one of the two.
fn comes_before(groups: &[Group], node: Node, other: Node) -> bool
    ensures { result
        ≡ comes_before (position (is_in node) groups.now) (position (is_in other) groups.now) }
{
    'groups: for group in groups {
        if is_in(other, group.as_slice()) {
            return false;
        }
        if is_in(node, group.as_slice()) {
            return true;
        }
    }
    false
}

// Does the group of a node come before that of another one in an application's node list?
fn is_earlier(cluster: &Cluster, app: App, node: Node, other: Node) -> bool
    requires { IsAppOf cluster.now app }
    ensures { result
        ≡ comes_before (group_of cluster.now app node) (group_of cluster.now app other) }
{
    match cluster.spread(app) {
        Some(spread) => comes_before(spread.groups.as_slice(), node, other),
        None => false,
    }
}

// Does the application of a pair run at a node of a later group than the pair's? Only then can the pair call it away.
#[tactic(auto, unfolding(crate::specs::Calls::can_call))]
fn can_call(state: &State, pair: Pair) -> bool
    ensures { result ≡ can_call (read state.now) pair }
{
    state.formed();
    let cluster = state.cluster();
    if pair.app.0 as usize >= cluster.app_count() {
        return false;
    }
    match state.standing(pair.app) {
        Standing::Running(from) => is_earlier(cluster, pair.app, pair.node, from),
        _ => false,
    }
}

// Can one of these pairs call its application away?
fn any_can_call(state: &State, pairs: &[Pair]) -> bool
    ensures { result ≡ list_any (can_call (read state.now)) pairs.now }
{
    pairs.iter().any(|pair| can_call(state, *pair))
}

/// Can one of these pairs call its application away, or are they more than there are applications? Such pairs aren't asked:
/// each takes a walk along its application's list, and a board takes one walk for an application, however many of its pairs
/// are fresh.
pub(crate) fn may_call(state: &State, pairs: &[Pair]) -> bool
    ensures { result ≡ (nat_lt (app_count (read state.now).cluster) (length pairs.now)
        || list_any (can_call (read state.now)) pairs.now) }
{
    pairs.len() > state.cluster().app_count() || any_can_call(state, pairs)
}
