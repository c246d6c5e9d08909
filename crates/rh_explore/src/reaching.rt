//! What keeps an event from being one that may come: a limit that refuses it, and too many nodes that are not up.

ghost use Rattle.std.specs.Prelude.{◌≡◌, ◌≤◌, ◌<◌, not, if◌then◌else◌, Some};
ghost use Rattle.rh_model.specs.ClusterView.{node_count};
ghost use Rattle.rh_state.specs.StateView.{is_up, mode_of};
ghost use Rattle.rh_state.specs.Stored.{read};
ghost use Rattle.rh_keys.specs.ShiftLaws.{is_limit};
ghost use Rattle.rh_explore.specs.Reaching.{not_up_count};

use rh_model::Node;
use rh_state::{Mode, State};
use rh_step::Refusal;

/// Is it a limit of starts or of time that refuses?
pub(crate) fn is_limit(refusal: Refusal) -> bool
    ensures { result ≡ is_limit (Some refusal) }
{
    matches!(refusal, Refusal::IncarnationLimit | Refusal::TimeLimit)
}

/// How many nodes wait or are down.
#[tactic(auto, unfolding(rh_state::specs::Numbers::nodes_of))]
pub(crate) fn not_up_count(state: &State) -> usize
    ensures { result ≡ not_up_count (read state.now) }
{
    let mut count = 0;
    let nodes = state.cluster().node_count();
    for number in 0..nodes {
        count += one_if_not_up(state, Node(number as u8));
    }
    count
}

// 1 for a node that waits or is down, and 0 for one that is up.
fn one_if_not_up(state: &State, node: Node) -> usize
    requires { node.0 < node_count (read state.now).cluster }
    ensures one { result ≡ (if not (is_up (mode_of (read state.now) node)) then 1 else 0) }
    ensures few { result ≤ 1 }
{
    match state.mode(node) {
        Mode::Down | Mode::Waiting => 1,
        Mode::Up => 0,
    }
}
