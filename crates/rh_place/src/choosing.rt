//! The choice among the nodes at which an application can run.

ghost use Rattle.std.specs.Prelude.{◌≡◌, ◌<◌, ◌↔◌, ◌&&◌, ◌==◌, true, false, [], ◌∷◌, ◌++◌, All, Some, position, IsNone, IfSome, map};
ghost use Rattle.std.specs.List.{filter, list_any};
ghost use Rattle.std.specs.Option.{option_to_list};
ghost use Rattle.rh_model.specs.declared.node.Node.{Node};
ghost use Rattle.rh_model.specs.ClusterView.{app_count, is_in, group_of};
ghost use Rattle.rh_state.specs.StateView.{running_count};
ghost use Rattle.rh_state.specs.Shape.{IsNodeOf};
ghost use Rattle.rh_state.specs.Stored.{read};
ghost use Rattle.rh_place.specs.Sets.{has};
ghost use Rattle.rh_base.specs.Lists.{first_given, least};
ghost use Rattle.rh_rules.specs.Placing.{picked, is_operational, groups_of, best, candidates};

use crate::node_set::NodeSet;
use crate::operating::operational;
use rh_model::{App, Group, Node};
use rh_rules::Pick;
use rh_state::State;

/// The nodes at which an application that is wanted can be placed (Distributed Applications): of the first group of its
/// list that has a node where it can run, those such nodes at which fewest applications run. There are none if it isn't
/// distributed.
#[tactic(auto, unfolding(rh_rules::specs::Placing::candidates, rh_rules::specs::Placing::best))]
pub fn candidates(state: &State, app: App) -> NodeSet
    requires { app.0 < app_count (read state.now).cluster }
    ensures { (n : Node) → has result n ≡ is_in n (candidates (read state.now) app) }
{
    let able = operational_nodes(state, app);
    let group = first_group(state, app, able);
    let count = least_count(state, group, able);
    lightest(state, group, able, count)
}

/// The one of the [`candidates`] that the pick takes: `None` exactly if the application can run at no node of its list.
#[tactic(auto, unfolding(rh_rules::specs::Placing::candidates))]
pub fn choose(state: &State, app: App, pick: Pick) -> Option<Node>
    requires { app.0 < app_count (read state.now).cluster }
    ensures choice { result ≡ picked pick (candidates (read state.now) app) }
    ensures number { IfSome result (λ n. IsNodeOf (read state.now).cluster n) }
    ensures none { IsNone result ↔ ((n : Node) → is_operational (read state.now) app n ≡ true
        → IsNone (group_of (read state.now).cluster app n)) }
{
    best(state, app, operational_nodes(state, app), pick)
}

/// The same rule among the nodes of a set (Distributed Applications): of the first group of the application's list that
/// meets the set, the node of the set at which fewest applications run, and of several such nodes the one that the pick
/// takes. `None` exactly if no node of the set is in the list.
#[tactic(auto, unfolding(rh_rules::specs::Placing::best))]
pub fn best(state: &State, app: App, set: NodeSet, pick: Pick) -> Option<Node>
    requires { app.0 < app_count (read state.now).cluster }
    ensures choice { result ≡ picked pick (best (read state.now) app (has set)) }
    ensures number { IfSome result (λ n. IsNodeOf (read state.now).cluster n) }
    ensures none { IsNone result
        ↔ ((n : Node) → has set n ≡ true → IsNone (group_of (read state.now).cluster app n)) }
{
    let group = first_group(state, app, set);
    let count = least_count(state, group, set);
    one_of_lightest(state, group, set, count, pick)
}

// The lowest node of the set, if it is one of so many.
fn lowest(set: NodeSet, count: usize) -> Option<Node>
    ensures member { IfSome result (λ n. has set n ≡ true) }
    ensures number { IfSome result (λ n. n.0 < count) }
    ensures none { IsNone result → (n : Node) → n.0 < count → has set n ≡ false }
{
    match set.first() {
        Some(node) if (node.0 as usize) < count => Some(node),
        _ => None,
    }
}

/// The nodes of a set at which an application can run (Distributed Applications).
pub fn operational_among(state: &State, app: App, set: NodeSet) -> NodeSet
    requires { app.0 < app_count (read state.now).cluster }
    ensures { (n : Node) → has result n ≡ (has set n && is_operational (read state.now) app n) }
{
    state.formed();
    let count = state.cluster().node_count();
    let mut nodes = NodeSet::empty();
    let mut rest = set;
    'nodes: while let Some(node) = lowest(rest, count) {
        rest = rest.without(node);
        if operational(state, app, node) {
            nodes = nodes.with(node);
        }
    }
    nodes
}

/// The nodes at which an application can run (Distributed Applications).
pub fn operational_nodes(state: &State, app: App) -> NodeSet
    requires { app.0 < app_count (read state.now).cluster }
    ensures { (n : Node) → has result n ≡ is_operational (read state.now) app n }
{
    state.formed();
    let _few = state.cluster().node_count();
    operational_among(state, app, NodeSet::all())
}

// Has the group a node of the set?
fn meets(group: &Group, set: NodeSet) -> bool
    ensures { result ≡ list_any (has set) group.now }
{
    group.as_slice().iter().any(|node| set.has(*node))
}

// The place of the first group that has one.
fn place_meeting(groups: &[Group], set: NodeSet) -> Option<usize>
    ensures { result ≡ position (list_any (has set)) groups.now }
{
    groups.iter().position(|group| meets(group, set))
}

// The first of the groups of an application that has one; no node where none does.
fn first_group(state: &State, app: App, set: NodeSet) -> &[Node]
    requires { app.0 < app_count (read state.now).cluster }
    ensures first { filter (has set) result.now
        ≡ first_given (filter (has set)) (groups_of (read state.now).cluster app) }
    ensures numbers { All (IsNodeOf (read state.now).cluster) result.now }
{
    state.cluster().is_within();
    match state.cluster().spread(app) {
        Some(spread) => {
            let groups = spread.groups.as_slice();
            match place_meeting(groups, set) {
                Some(place) => groups[place].as_slice(),
                None => &[],
            }
        }
        None => &[],
    }
}

// How few applications run at a node of the group that is in the set.
fn least_count(state: &State, group: &[Node], set: NodeSet) -> usize
    requires { All (IsNodeOf (read state.now).cluster) group.now }
    ensures { result ≡ least (map (running_count (read state.now)) (filter (has set) group.now)) }
{
    let mut least: Option<usize> = None;
    'nodes: for node in group {
        if set.has(*node) {
            let count = state.running_count(*node);
            least = match least {
                Some(other) => Some(other.min(count)),
                None => Some(count),
            };
        }
    }
    least.unwrap_or(0)
}

// Is the node in the set, and do so many applications run there?
fn is_light(state: &State, node: Node, set: NodeSet, count: usize) -> bool
    requires { IsNodeOf (read state.now).cluster node }
    ensures { result ≡ (has set node && (running_count (read state.now) node == count)) }
{
    set.has(node) && state.running_count(node) == count
}

// The nodes of the group that are in the set and at which so many applications run.
fn lightest(state: &State, group: &[Node], set: NodeSet, count: usize) -> NodeSet
    requires { All (IsNodeOf (read state.now).cluster) group.now }
    ensures { (n : Node) → has result n ≡ is_in n
        (filter (λ m. running_count (read state.now) m == count) (filter (has set) group.now)) }
{
    let _few = state.cluster().node_count();
    let mut nodes = NodeSet::empty();
    'nodes: for node in group {
        if is_light(state, *node, set, count) {
            nodes = nodes.with(*node);
        }
    }
    nodes
}

// The one that the pick takes of the one found so far, if any, and a later one.
fn pick_node(pick: Pick, found: Option<Node>, later: Node) -> Node
    ensures { Some result ≡ picked pick (option_to_list found ++ later ∷ []) }
{
    match (pick, found) {
        (Pick::First, Some(earlier)) => earlier,
        _ => later,
    }
}

// The one of these that the pick takes.
fn one_of_lightest(
    state: &State,
    group: &[Node],
    set: NodeSet,
    count: usize,
    pick: Pick,
) -> Option<Node>
    requires { All (IsNodeOf (read state.now).cluster) group.now }
    ensures choice { result ≡ picked pick
        (filter (λ m. running_count (read state.now) m == count) (filter (has set) group.now)) }
    ensures number { IfSome result (λ n. IsNodeOf (read state.now).cluster n) }
{
    let mut found: Option<Node> = None;
    'nodes: for node in group {
        if is_light(state, *node, set, count) {
            found = Some(pick_node(pick, found, *node));
        }
    }
    found
}
