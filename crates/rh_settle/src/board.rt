//! What settling keeps between its moves, so that no move is searched for from the beginning.

ghost use Rattle.std.specs.List.{list_any};
ghost use Rattle.std.specs.Prelude.{◌≡◌, ◌≢◌, ◌<◌, ◌≤◌, ◌&&◌, ◌||◌, ◌++◌, List, All, true, false, is_some, IsNone, IfSome};
ghost use Rattle.rh_model.specs.declared.limits.TheConstants.{MAX_APPS};
ghost use Rattle.rh_model.specs.declared.node.App.{App};
ghost use Rattle.rh_model.specs.declared.node.Node.{Node};
ghost use Rattle.rh_model.specs.ClusterView.{node_count, app_count, group_of, is_in};
ghost use Rattle.rh_state.specs.Numbers.{same_app, same_node};
ghost use Rattle.rh_state.specs.Shape.{IsNodeOf, IsAppOf};
ghost use Rattle.rh_state.specs.StateView.{StateView, standing_of};
ghost use Rattle.rh_state.specs.Stored.{read};
ghost use Rattle.rh_base.specs.Lists.{head};
ghost use Rattle.rh_place.specs.declared.node_set.TheConstants.NodeSet.{LIMIT};
ghost use Rattle.rh_rules.specs.Placing.{is_operational};
ghost use Rattle.rh_place.specs.Sets.{has};
ghost use Rattle.rh_rules.specs.declared.notice.Pair.{Pair};
ghost use Rattle.rh_model.specs.Marks.{is_marked, touches};
ghost use Rattle.rh_settle.specs.Boards.{is_among, is_wanted, touches_local, matters, is_asked, nodes_changed, mover, AreLocals, Covers, IsReadyOf, IsBoardOf};
ghost use Rattle.rh_rules.specs.Course.{is_fresh};
ghost use Rattle.rh_rules.specs.Moves.{local_moves, moved_state};

use crate::app_sets::AppSets;
use crate::ready::{Ready, is_wanted};
use crate::search::starts_at;
use rh_model::{App, AppMarks, Cluster, Group, MAX_APPS, Node};
use rh_place::{NodeSet, operational, operational_among};
use rh_rules::{Move, Pair};
use rh_state::{Standing, State};
use std::marker::Model;

/// Where moves can be found.
#[derive(Drop)]
pub(crate) struct Board {
    // The nodes at which a local application can start.
    starts: NodeSet,
    // The local applications.
    local: AppMarks,
    // The applications that can be placed or taken over: those that are to run, and those that have a fresh pair.
    moving: AppMarks,
    // For each application the nodes of its fresh pairs.
    fresh: AppSets,
    // For each application nodes at which it can run: all such of its fresh pairs and, where it is to run, of its list. There can
    // be others too, at which a move that touched it changed something.
    able: AppSets,
}

impl Model for Board {
    ghost use Rattle.rh_settle.specs.Boards.{BoardView};

    ghost Value = { BoardView };

    ghost view = { λ b. record {
      starts = b.starts;
      local = b.local;
      moving = b.moving;
      fresh = b.fresh;
      able = b.able;
    } };
}

impl Board {
    /// The board of a state, after these pairs were marked and these were freed.
    pub fn of(state: &State, ready: Ready, marked: &[Pair], freed: &[Pair]) -> Board
        requires { IsReadyOf (read state.now) ready }
        ensures { IsBoardOf (read state.now) (freed.now ++ marked.now) result }
    {
        let _few_apps = state.cluster().app_count();
        let _few_nodes = state.cluster().node_count();
        let mut board = Board {
            starts: ready.starts,
            local: ready.local,
            moving: ready.wanted,
            fresh: AppSets::empty(),
            able: AppSets::empty(),
        };
        add_fresh(&mut board.fresh, &mut board.moving, freed);
        add_fresh(&mut board.fresh, &mut board.moving, marked);
        find_able(state, &board.moving, &board.fresh, &mut board.able);
        board
    }

    /// The nodes at which a local application can start.
    pub fn starts(&self) -> NodeSet
        ensures { (n : Node) → has result n ≡ has self.now.starts n }
    {
        self.starts
    }

    /// The applications that can be placed or taken over.
    pub fn moving_apps(&self) -> AppMarks
        ensures { result ≡ self.now.moving }
    {
        self.moving.copy()
    }

    /// Nodes at which an application can run: if it is to run, all such of its list, and maybe others.
    pub fn able(&self, app: App) -> NodeSet
        requires { app.0 < MAX_APPS }
        ensures { (n : Node) → has result n ≡ is_among self.now.able app n }
    {
        self.able.of(app)
    }

    /// The nodes at which an application can run and has a fresh pair.
    pub fn callers(&self, app: App) -> NodeSet
        requires { app.0 < MAX_APPS }
        ensures { (n : Node)
            → has result n ≡ (is_among self.now.fresh app n && is_among self.now.able app n) }
    {
        self.fresh.of(app).and(self.able.of(app))
    }

    // Looks again at a node whose lists a move of an application changed.
    fn look_again(&mut self, state: &State, moved: App, node: Node)
        requires app { IsAppOf (read state.now).cluster moved }
        requires node { IsNodeOf (read state.now).cluster node }
        requires marks { AreLocals (read state.now).cluster self.old.local }
        ensures marks { self.new.local ≡ self.old.local }
        ensures moving { self.new.moving ≡ self.old.moving }
        ensures fresh { self.new.fresh ≡ self.old.fresh }
        ensures local { touches_local (read state.now).cluster moved ≡ true
            → has self.new.starts node ≡ is_some (head (local_moves (read state.now) node)) }
        ensures apart { touches_local (read state.now).cluster moved ≡ false
            → self.new.starts ≡ self.old.starts }
        ensures starts { (n : Node) → same_node n node ≡ false
            → has self.new.starts n ≡ has self.old.starts n }
        ensures here { (a : App) → IsAppOf (read state.now).cluster a
            → is_marked self.new.moving a ≡ true → touches (read state.now).cluster moved a ≡ true
            → matters (read state.now) self.new.fresh a node ≡ true
            → is_among self.new.able a node ≡ is_operational (read state.now) a node }
        ensures able { (a : App) (n : Node) → touches (read state.now).cluster moved a
            && same_node n node ≡ false → is_among self.new.able a n ≡ is_among self.old.able a n }
    {
        let _few_apps = state.cluster().app_count();
        let _few_nodes = state.cluster().node_count();
        if touches_local(state.cluster(), &self.local, moved) {
            self.starts = self.starts.put(node, starts_at(state, &self.local, node));
        }
        look_again_at(
            state,
            &self.moving,
            &self.fresh,
            moved,
            node,
            &mut self.able,
        );
    }

    /// Follows a move that was made.
    pub fn follow(&mut self, state: &State, made: Move)
        requires app { IsAppOf (read state.now).cluster (mover made) }
        requires nodes { All (IsNodeOf (read state.now).cluster) (nodes_changed made) }
        requires marks { AreLocals (read state.now).cluster self.old.local }
        ensures { (s : StateView) (fresh : List Pair) → IsBoardOf s fresh self.old
            → read state.now ≡ moved_state s made → IsBoardOf (read state.now) fresh self.new }
    {
        state.formed();
        match made {
            Move::Local { node, app } => self.look_again(state, app, node),
            Move::Placement { app, node, .. } => self.look_again(state, app, node),
            Move::Takeover { app, from, node } => {
                self.look_again(state, app, node);
                self.look_again(state, app, from);
            }
        }
    }
}

// Does a move of an application touch a local one?
fn touches_local(cluster: &Cluster, local: &AppMarks, moved: App) -> bool
    requires app { IsAppOf cluster.now moved }
    requires marks { AreLocals cluster.now local.now }
    ensures { result ≡ touches_local cluster.now moved }
{
    !cluster.touched_by(moved).and(local).is_empty()
}

// Puts a pair to the fresh ones, and marks its application.
fn add_pair(sets: &mut AppSets, marks: &mut AppMarks, pair: Pair)
    requires { Covers marks.old sets.old }
    ensures pairs { (a : App) (n : Node) → a.0 < MAX_APPS → n.0 < LIMIT → is_among sets.new a n
        ≡ (is_among sets.old a n || (same_node n pair.node && same_app a pair.app)) }
    ensures covered { Covers marks.new sets.new }
    ensures kept { (a : App) → is_marked marks.old a ≡ true → is_marked marks.new a ≡ true }
{
    if (pair.app.0 as usize) < MAX_APPS && pair.node.0 < NodeSet::LIMIT {
        sets.put(pair.app, pair.node, true);
        marks.mark(pair.app);
    }
}

// Puts pairs to the fresh ones, and marks their applications.
fn add_fresh(sets: &mut AppSets, marks: &mut AppMarks, pairs: &[Pair])
    requires { Covers marks.old sets.old }
    ensures pairs { (a : App) (n : Node) → a.0 < MAX_APPS → n.0 < LIMIT
        → is_among sets.new a n ≡ (is_among sets.old a n || is_fresh pairs.now n a) }
    ensures covered { Covers marks.new sets.new }
    ensures kept { (a : App) → is_marked marks.old a ≡ true → is_marked marks.new a ≡ true }
{
    'pairs: for pair in pairs {
        add_pair(sets, marks, *pair);
    }
}

// A set with the nodes of a group too.
fn with_nodes(set: NodeSet, group: &[Node]) -> NodeSet
    requires { All (λ (n : Node). n.0 < LIMIT) group.now }
    ensures { (n : Node) → has result n ≡ (has set n || is_in n group.now) }
{
    let mut nodes = set;
    'nodes: for node in group {
        nodes = nodes.with(*node);
    }
    nodes
}

// A set with the nodes of these groups too.
fn with_groups(set: NodeSet, groups: &[Group]) -> NodeSet
    requires { All (All (λ (n : Node). n.0 < LIMIT)) groups.now }
    ensures { (n : Node) → has result n ≡ (has set n || list_any (is_in n) groups.now) }
{
    let mut nodes = set;
    'groups: for group in groups {
        nodes = with_nodes(nodes, group.as_slice());
    }
    nodes
}

// A set with the nodes of an application's list too.
fn with_list(set: NodeSet, cluster: &Cluster, app: App) -> NodeSet
    requires { IsAppOf cluster.now app }
    ensures { (n : Node) → has result n ≡ (has set n || is_some (group_of cluster.now app n)) }
{
    cluster.is_within();
    let _few = cluster.node_count();
    match cluster.spread(app) {
        Some(spread) => with_groups(set, spread.groups.as_slice()),
        None => set,
    }
}

// The nodes at which an application can run, as far as that is asked.
fn able_nodes(state: &State, app: App, fresh: NodeSet) -> NodeSet
    requires { IsAppOf (read state.now).cluster app }
    ensures { (n : Node) → (is_wanted (standing_of (read state.now) app)
        && is_some (group_of (read state.now).cluster app n)) || has fresh n ≡ true
        → has result n ≡ is_operational (read state.now) app n }
{
    match state.standing(app) {
        Standing::Wanted(_) => {
            operational_among(state, app, with_list(fresh, state.cluster(), app))
        }
        _ => operational_among(state, app, fresh),
    }
}

// Finds for each of these applications where it can run, as far as that is asked.
fn find_able(state: &State, moving: &AppMarks, fresh: &AppSets, able: &mut AppSets)
    ensures { (n : Node) (a : App) → IsAppOf (read state.now).cluster a
        → is_marked moving.now a ≡ true → is_asked (read state.now) fresh.now a n ≡ true
        → is_among able.new a n ≡ is_operational (read state.now) a n }
{
    let count = state.cluster().app_count();
    let mut rest = moving.copy();
    'apps: while let Some(app) = rest.take_below(count) {
        able.set(app, able_nodes(state, app, fresh.of(app)));
    }
}

// Does it matter whether an application can run at a node?
fn matters(state: &State, fresh: &AppSets, app: App, node: Node) -> bool
    requires { IsAppOf (read state.now).cluster app }
    ensures { result ≡ matters (read state.now) fresh.now app node }
{
    let _few = state.cluster().app_count();
    is_wanted(state, app) || fresh.of(app).has(node)
}

// Looks again whether an application can run at a node, if that matters.
fn look_again_for(state: &State, fresh: &AppSets, app: App, node: Node, able: &mut AppSets)
    requires app { IsAppOf (read state.now).cluster app }
    requires node { IsNodeOf (read state.now).cluster node }
    ensures here { matters (read state.now) fresh.now app node ≡ true
        → is_among able.new app node ≡ is_operational (read state.now) app node }
    ensures others { (a : App) (n : Node) → same_app a app && same_node n node ≡ false
        → is_among able.new a n ≡ is_among able.old a n }
{
    let _few = state.cluster().app_count();
    let _nodes = state.cluster().node_count();
    if matters(state, fresh, app, node) {
        able.put(app, node, operational(state, app, node));
    }
}

// Looks again so for each of these applications that a move of this one touches.
fn look_again_at(
    state: &State,
    moving: &AppMarks,
    fresh: &AppSets,
    moved: App,
    node: Node,
    able: &mut AppSets,
)
    requires app { IsAppOf (read state.now).cluster moved }
    requires node { IsNodeOf (read state.now).cluster node }
    ensures here { (a : App) → IsAppOf (read state.now).cluster a → is_marked moving.now a ≡ true
        → touches (read state.now).cluster moved a ≡ true → matters (read state.now) fresh.now a
        node ≡ true → is_among able.new a node ≡ is_operational (read state.now) a node }
    ensures others { (a : App) (n : Node) → touches (read state.now).cluster moved a
        && same_node n node ≡ false → is_among able.new a n ≡ is_among able.old a n }
{
    let count = state.cluster().app_count();
    let mut rest = moving.and(&state.cluster().touched_by(moved));
    'apps: while let Some(app) = rest.take_below(count) {
        look_again_for(state, fresh, app, node, able);
    }
}
