//! What can move of itself, whatever pairs are fresh.

ghost use Rattle.std.specs.Prelude.{◌≡◌, ◌<◌, ◌≤◌, ◌+◌, ◌&&◌, ◌||◌, [], All, true, false, is_some};
ghost use Rattle.std.specs.List.{list_any};
ghost use Rattle.rh_model.specs.ClusterView.{app_count};
ghost use Rattle.rh_model.specs.declared.node.App.{App};
ghost use Rattle.rh_model.specs.declared.node.Node.{Node};
ghost use Rattle.rh_state.specs.Numbers.{same_node};
ghost use Rattle.rh_state.specs.Shape.{IsAppOf};
ghost use Rattle.rh_state.specs.StateView.{standing_of, waits_at};
ghost use Rattle.rh_state.specs.Stored.{read};
ghost use Rattle.rh_base.specs.Lists.{head};
ghost use Rattle.rh_place.specs.Sets.{has};
ghost use Rattle.rh_rules.specs.Course.{course_of};
ghost use Rattle.rh_rules.specs.Moves.{can_start, local_moves};
ghost use Rattle.rh_model.specs.Marks.{is_marked, marks_of};
ghost use Rattle.rh_settle.specs.Boards.{is_wanted, AreLocals, IsReadyOf};
ghost use Rattle.rh_settle.specs.Starting.{StartsAreMarked};
ghost use Rattle.rh_trace.specs.Traces.{IsPairOf};

use crate::search::{starts, starts_at};
use rh_model::{App, AppMarks, Node, with_mark_in_front};
use rh_place::NodeSet;
use rh_rules::Pair;
use rh_state::{Standing, State};
use std::marker::Model;

/// What can move of itself.
#[derive(Drop)]
pub(crate) struct Ready {
    // The nodes at which a local application can start.
    pub starts: NodeSet,
    // The local applications.
    pub local: AppMarks,
    // The applications that are to run.
    pub wanted: AppMarks,
}

impl Model for Ready {
    ghost use Rattle.rh_settle.specs.Boards.{ReadyView};

    ghost Value = { ReadyView };

    ghost view = { λ r. record { starts = r.starts; local = r.local; wanted = r.wanted } };
}

impl Ready {
    /// What can move in a state.
    pub fn of(state: &State) -> Ready
        ensures { IsReadyOf (read state.now) result }
    {
        let local = local_marks(state);
        Ready {
            starts: local_nodes(state, &local),
            local,
            wanted: wanted_marks(state),
        }
    }

    /// What can move in a state in which local applications can start at these pairs alone.
    pub fn of_marked(state: &State, pairs: &[Pair]) -> Ready
        requires pairs { All (IsPairOf (read state.now).cluster) pairs.now }
        requires starts { StartsAreMarked (course_of (read state.now) [] pairs.now) }
        ensures { IsReadyOf (read state.now) result }
    {
        let local = local_marks(state);
        Ready {
            starts: nodes_of_pairs(state, &local, pairs),
            local,
            wanted: wanted_marks(state),
        }
    }

    /// Can nothing move?
    pub fn is_idle(&self) -> bool
        ensures starts { result ≡ true → (n : Node) → has self.now.starts n ≡ false }
        ensures wanted { result ≡ true → (a : App) → is_marked self.now.wanted a ≡ false }
    {
        self.starts.is_empty() && self.wanted.is_empty()
    }
}

// Is an application to run?
pub(crate) fn is_wanted(state: &State, app: App) -> bool
    requires { IsAppOf (read state.now).cluster app }
    ensures { result ≡ is_wanted (standing_of (read state.now) app) }
{
    matches!(state.standing(app), Standing::Wanted(_))
}

// The local applications.
fn local_marks(state: &State) -> AppMarks
    ensures { AreLocals (read state.now).cluster result }
{
    state.cluster().locals()
}

// Is one of these applications to run?
fn has_wanted(standings: &[Standing]) -> bool
    ensures { result ≡ list_any is_wanted standings.now }
{
    standings
        .iter()
        .any(|standing| matches!(*standing, Standing::Wanted(_)))
}

// The marks of up to 64 applications, those from a number on, that are to run. It begins at the last one, so that all marks
// move up by one place each time: to shift a bit to the place of each application costs more.
fn half_marks(state: &State, from: usize, end: usize) -> u64
    requires end { end ≤ app_count (read state.now).cluster }
    requires from { from ≤ end }
    requires few { end ≤ from + 64 }
    ensures { (a b : App) → a.0 < end → a.0 ≡ b.0 + from
        → is_marked (marks_of result) b ≡ is_wanted (standing_of (read state.now) a) }
{
    let _few_apps = state.cluster().app_count();
    let mut wanted = 0;
    let mut number = end;
    'apps: while number > from {
        number -= 1;
        let app = App(number as u8);
        wanted = with_mark_in_front(wanted, is_wanted(state, app));
    }
    wanted
}

// The applications of a state that are to run. Each half of them has marks in a word of its own on the way: a mark that moves
// up in a word of twice that size takes twice the instructions.
fn all_marks(state: &State) -> AppMarks
    ensures { (a : App) → IsAppOf (read state.now).cluster a
        → is_marked result a ≡ is_wanted (standing_of (read state.now) a) }
{
    let count = state.cluster().app_count();
    let half = if count < 64 { count } else { 64 };
    let low = half_marks(state, 0, half);
    let high = half_marks(state, half, count);
    AppMarks::of_halves(low, high)
}

// The same, where mostly none is to run: to ask that of all of them at once costs less than their marks.
fn wanted_marks(state: &State) -> AppMarks
    ensures { (a : App) → IsAppOf (read state.now).cluster a
        → is_marked result a ≡ is_wanted (standing_of (read state.now) a) }
{
    if has_wanted(state.standings()) {
        all_marks(state)
    } else {
        AppMarks::empty()
    }
}

// The nodes at which a local application can start.
fn local_nodes(state: &State, local: &AppMarks) -> NodeSet
    requires { AreLocals (read state.now).cluster local.now }
    ensures { (n : Node) → has result n ≡ is_some (head (local_moves (read state.now) n)) }
{
    state.formed();
    let mut nodes = NodeSet::empty();
    if local.is_empty() {
        return nodes;
    }
    let count = state.cluster().node_count();
    'nodes: for number in 0..count {
        let node = Node(number as u8);
        nodes = nodes.put(node, starts_at(state, local, node));
    }
    nodes
}

// The nodes of a set, and that of a pair if its application is local, waits there and can start.
fn with_pair(set: NodeSet, state: &State, local: &AppMarks, pair: Pair) -> NodeSet
    requires local { AreLocals (read state.now).cluster local.now }
    requires pair { IsPairOf (read state.now).cluster pair }
    ensures { (n : Node) → has result n ≡ (has set n || (same_node n pair.node && (waits_at
        (read state.now) pair.node pair.app && can_start (read state.now) pair.node pair.app))) }
{
    state.formed();
    let _few_apps = state.cluster().app_count();
    let _few_nodes = state.cluster().node_count();
    if local.has(pair.app) && !set.has(pair.node) && starts(state, pair.node, pair.app) {
        return set.with(pair.node);
    }
    set
}

// The nodes at which a local application can start, where that is so at these pairs alone.
fn nodes_of_pairs(state: &State, local: &AppMarks, pairs: &[Pair]) -> NodeSet
    requires local { AreLocals (read state.now).cluster local.now }
    requires pairs { All (IsPairOf (read state.now).cluster) pairs.now }
    requires starts { StartsAreMarked (course_of (read state.now) [] pairs.now) }
    ensures { (n : Node) → has result n ≡ is_some (head (local_moves (read state.now) n)) }
{
    state.formed();
    let mut nodes = NodeSet::empty();
    if !local.is_empty() {
        'pairs: for pair in pairs {
            nodes = with_pair(nodes, state, local, *pair);
        }
    }
    nodes
}
