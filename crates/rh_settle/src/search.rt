//! Which move comes next.

ghost use Rattle.std.specs.Prelude.{◌≡◌, ◌<◌, ◌≤◌, ◌&&◌, ◌||◌, List, All, true, false, is_some, length, position, IsNone, IfSome};
ghost use Rattle.rh_model.specs.ClusterView.{node_count, app_count};
ghost use Rattle.rh_model.specs.ClusterView.{group_of, is_in};
ghost use Rattle.rh_model.specs.declared.node.Node.{Node};
ghost use Rattle.rh_state.specs.declared.status.Standing.TheVariants.{Running};
ghost use Rattle.rh_state.specs.Numbers.{nodes_of, apps_of};
ghost use Rattle.rh_state.specs.StateView.{waiting_at, waits_at};
ghost use Rattle.rh_state.specs.Stored.{read};
ghost use Rattle.rh_rules.specs.declared.pick.Pick.{Pick};
ghost use Rattle.rh_base.specs.Lists.{first_given, head};
ghost use Rattle.rh_rules.specs.Placing.{picked, is_operational};
ghost use Rattle.rh_place.specs.declared.node_set.TheConstants.NodeSet.{LIMIT};
ghost use Rattle.rh_place.specs.Sets.{has};
ghost use Rattle.rh_rules.specs.declared.notice.Pair.{Pair};
ghost use Rattle.rh_rules.specs.Course.{is_fresh, is_local};
ghost use Rattle.rh_settle.specs.Boards.{AreLocals, IsExactAt, IsBoardOf};
ghost use Rattle.rh_rules.specs.Moves.{can_start, local_moves, placements, comes_before, takeovers, takeovers_from};
ghost use Rattle.rh_rules.specs.Settling.{next_moves};

use crate::board::Board;
use crate::ready::Ready;
use rh_model::{App, AppMarks, Cluster, Group, Node};
use rh_place::{NodeSet, Pick, best, deps_run};
use rh_rules::{Move, Pair};
use rh_state::{Place, Standing, State};

// Isn't the application distributed?
fn is_local(cluster: &Cluster, app: App) -> bool
    requires { app.0 < app_count cluster.now }
    ensures { result ≡ is_local cluster.now app }
{
    cluster.spread(app).is_none()
}

// Can a local application start at a node where it waits?
#[tactic(auto, unfolding(rh_rules::specs::Moves::can_start))]
fn can_start(state: &State, node: Node, app: App) -> bool
    requires node { node.0 < node_count (read state.now).cluster }
    requires app { app.0 < app_count (read state.now).cluster }
    ensures { result ≡ can_start (read state.now) node app }
{
    is_local(state.cluster(), app) && state.allowed(node, app) && deps_run(state, node, app)
}

// The local move that comes next at a node.
fn local_at(state: &State, node: Node) -> Option<Move>
    requires { node.0 < node_count (read state.now).cluster }
    ensures { (pick : Pick) → result ≡ picked pick (local_moves (read state.now) node) }
{
    state.formed();
    let mut waiting = state.first_waiting(node);
    'waiting: while let Some(app) = waiting {
        if can_start(state, node, app) {
            return Some(Move::Local { node, app });
        }
        waiting = state.next_in_list(node, app);
    }
    None
}

// Does an application wait at a node where it is local and can start?
pub(crate) fn starts(state: &State, node: Node, app: App) -> bool
    requires node { node.0 < node_count (read state.now).cluster }
    requires app { app.0 < app_count (read state.now).cluster }
    ensures { result ≡ (waits_at (read state.now) node app && can_start (read state.now) node app) }
{
    state.formed();
    matches!(state.place_of(node, app), Place::InWaiting) && can_start(state, node, app)
}

// Can one of the local applications start at a node? These are their marks, and each is asked.
fn any_starts(state: &State, local: &AppMarks, node: Node) -> bool
    requires node { node.0 < node_count (read state.now).cluster }
    requires marks { AreLocals (read state.now).cluster local.now }
    ensures { result ≡ is_some (head (local_moves (read state.now) node)) }
{
    state.formed();
    let count = state.cluster().app_count();
    let mut rest = local.copy();
    'apps: while let Some(app) = rest.take_below(count) {
        if starts(state, node, app) {
            return true;
        }
    }
    false
}

// How many steps a walk along what waits at a node may take, where so many applications are local: as many as wait, unless these are
// more than twice as many. Then so few steps and a question to each local one, which costs about what a step does, come to less.
fn most_steps(state: &State, local: usize, node: Node) -> usize
    requires { node.0 < node_count (read state.now).cluster }
    ensures { result ≤ length (waiting_at (read state.now) node) }
{
    let waiting = state.waiting_count(node);
    if waiting / 2 > local { local } else { waiting }
}

// Can a local application start at a node? These are the marks of the local ones. The walk along what waits there ends at the
// first that can. But where few are local, many distributed ones can wait and none of the local ones be able to start: so the
// walk takes few steps then, and behind them the local ones are asked.
pub(crate) fn starts_at(state: &State, local: &AppMarks, node: Node) -> bool
    requires node { node.0 < node_count (read state.now).cluster }
    requires marks { AreLocals (read state.now).cluster local.now }
    ensures { result ≡ is_some (head (local_moves (read state.now) node)) }
{
    state.formed();
    let mut left = most_steps(state, local.count() as usize, node);
    let mut waiting = state.first_waiting(node);
    'waiting: while let Some(app) = waiting {
        if left == 0 {
            return any_starts(state, local, node);
        }
        if can_start(state, node, app) {
            return true;
        }
        left -= 1;
        waiting = state.next_in_list(node, app);
    }
    false
}

// The local move that comes next.
fn next_local(state: &State, board: &Board) -> Option<Move>
    requires { (n : Node) → IsExactAt (read state.now) board.now n }
    ensures { (pick : Pick) → result ≡ picked pick
        (first_given (local_moves (read state.now)) (nodes_of (read state.now).cluster)) }
{
    state.formed();
    match board.starts().first() {
        Some(node) => local_at(state, node),
        None => None,
    }
}

// The placement of an application.
fn placement_of(state: &State, board: &Board, app: App, pick: Pick) -> Option<Move>
    requires app { app.0 < app_count (read state.now).cluster }
    requires board { (n : Node) → IsExactAt (read state.now) board.now n }
    ensures { result ≡ picked pick (placements (read state.now) app) }
{
    let _few = state.cluster().app_count();
    match state.standing(app) {
        Standing::Wanted(from) => match best(state, app, board.able(app), pick) {
            Some(node) => Some(Move::Placement { app, from, node }),
            None => None,
        },
        _ => None,
    }
}

// The placement that comes next.
fn next_placement(state: &State, board: &Board, pick: Pick) -> Option<Move>
    requires { (n : Node) → IsExactAt (read state.now) board.now n }
    ensures { result ≡ picked pick
        (first_given (placements (read state.now)) (apps_of (read state.now).cluster)) }
{
    let count = state.cluster().app_count();
    let mut rest = board.moving_apps();
    'apps: while let Some(app) = rest.take_below(count) {
        if let Some(next) = placement_of(state, board, app, pick) {
            return Some(next);
        }
    }
    None
}

// A set with the nodes of a group too; none if this node is one of the group.
fn with_group(set: NodeSet, group: &[Node], from: Node) -> Option<NodeSet>
    requires { All (λ (n : Node). n.0 < LIMIT) group.now }
    ensures apart { IfSome result (λ more. is_in from group.now ≡ false) }
    ensures more { IfSome result
        (λ more. (n : Node) → has more n ≡ (has set n || is_in n group.now)) }
    ensures here { IsNone result → is_in from group.now ≡ true }
{
    let mut more = set;
    'members: for node in group {
        if node.0 == from.0 {
            return None;
        }
        more = more.with(*node);
    }
    Some(more)
}

// The nodes whose groups come before that of a node. The walk ends at that one's group, which is mostly among the first: an
// application runs at the first node where it can.
fn nodes_before(groups: &[Group], from: Node) -> NodeSet
    requires { All (All (λ (n : Node). n.0 < LIMIT)) groups.now }
    ensures { (n : Node) → has result n
        ≡ comes_before (position (is_in n) groups.now) (position (is_in from) groups.now) }
{
    let mut nodes = NodeSet::empty();
    'groups: for group in groups {
        match with_group(nodes, group.as_slice(), from) {
            Some(more) => nodes = more,
            None => return nodes,
        }
    }
    nodes
}

// The nodes of the set whose groups come before that of a node.
fn earlier(state: &State, app: App, from: Node, set: NodeSet) -> NodeSet
    requires { app.0 < app_count (read state.now).cluster }
    ensures nodes { (n : Node)
        → has result n ≡ (comes_before (group_of (read state.now).cluster app n)
        (group_of (read state.now).cluster app from) && has set n) }
    ensures others { (n : Node) → node_count (read state.now).cluster ≤ n.0 → has result n ≡ false }
{
    let cluster = state.cluster();
    cluster.is_within();
    let _few = cluster.node_count();
    match cluster.spread(app) {
        Some(spread) => nodes_before(spread.groups.as_slice(), from).and(set),
        None => NodeSet::empty(),
    }
}

// The takeover, by one of these nodes, of an application that runs at a node.
fn takeover_from(state: &State, app: App, from: Node, callers: NodeSet, pick: Pick) -> Option<Move>
    requires app { app.0 < app_count (read state.now).cluster }
    requires from { from.0 < node_count (read state.now).cluster }
    ensures { (fresh : List Pair) → ((n : Node) → n.0 < node_count (read state.now).cluster
        → has callers n ≡ (is_fresh fresh n app && is_operational (read state.now) app n))
        → result ≡ picked pick (takeovers_from (read state.now) fresh app (Running from)) }
{
    state.formed();
    let _few = state.cluster().node_count();
    if callers.put(from, false).is_empty() {
        return None;
    }
    let nodes = earlier(state, app, from, callers);
    if nodes.is_empty() {
        return None;
    }
    match best(state, app, nodes, pick) {
        Some(node) => Some(Move::Takeover { app, from, node }),
        None => None,
    }
}

// The takeover of an application by one of these nodes.
#[tactic(auto, unfolding(rh_rules::specs::Moves::takeovers))]
fn takeover_by(state: &State, app: App, callers: NodeSet, pick: Pick) -> Option<Move>
    requires { app.0 < app_count (read state.now).cluster }
    ensures { (fresh : List Pair) → ((n : Node) → n.0 < node_count (read state.now).cluster
        → has callers n ≡ (is_fresh fresh n app && is_operational (read state.now) app n))
        → result ≡ picked pick (takeovers (read state.now) fresh app) }
{
    match state.standing(app) {
        Standing::Running(from) => takeover_from(state, app, from, callers, pick),
        _ => None,
    }
}

// The takeover of an application.
fn takeover_of(state: &State, board: &Board, app: App, pick: Pick) -> Option<Move>
    requires { app.0 < app_count (read state.now).cluster }
    ensures { (fresh : List Pair) → IsBoardOf (read state.now) fresh board.now
        → result ≡ picked pick (takeovers (read state.now) fresh app) }
{
    state.formed();
    let _few = state.cluster().app_count();
    let callers = board.callers(app);
    if callers.is_empty() {
        return None;
    }
    takeover_by(state, app, callers, pick)
}

// The takeover that comes next.
fn next_takeover(state: &State, board: &Board, pick: Pick) -> Option<Move>
    ensures { (fresh : List Pair) → IsBoardOf (read state.now) fresh board.now → result ≡ picked
        pick (first_given (takeovers (read state.now) fresh) (apps_of (read state.now).cluster)) }
{
    state.formed();
    let count = state.cluster().app_count();
    let mut rest = board.moving_apps();
    'apps: while let Some(app) = rest.take_below(count) {
        if let Some(next) = takeover_of(state, board, app, pick) {
            return Some(next);
        }
    }
    None
}

/// The move that comes next, by the state's board.
pub(crate) fn next_on(state: &State, board: &Board, pick: Pick) -> Option<Move>
    requires { (n : Node) → IsExactAt (read state.now) board.now n }
    ensures { (fresh : List Pair) → IsBoardOf (read state.now) fresh board.now
        → result ≡ picked pick (next_moves (read state.now) fresh) }
{
    if let Some(next) = next_local(state, board) {
        return Some(next);
    }
    if let Some(next) = next_placement(state, board, pick) {
        return Some(next);
    }
    next_takeover(state, board, pick)
}

/// The move that comes next, where the pairs that are given are fresh: a local application starts, at the first node where
/// one can; else one that is to run is placed; else one that runs is taken over by a fresh pair's node. Of several equally
/// good ones it is the one that the pick takes, and `None` exactly if there is none. Takes no memory.
pub fn next_move(state: &State, fresh: &[Pair], pick: Pick) -> Option<Move>
    ensures { result ≡ picked pick (next_moves (read state.now) fresh.now) }
{
    let board = Board::of(state, Ready::of(state), fresh, &[]);
    next_on(state, &board, pick)
}
