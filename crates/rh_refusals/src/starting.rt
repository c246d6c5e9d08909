//! Where an application is started.

ghost use Rattle.std.specs.Prelude.{◌≡◌};
ghost use Rattle.rh_state.specs.Shape.{IsNodeOf, IsAppOf};
ghost use Rattle.rh_state.specs.StateView.{is_started};
ghost use Rattle.rh_state.specs.Stored.{read};
ghost use Rattle.rh_rules.specs.ByHand.{is_started_anywhere};

use rh_model::{App, Node};
use rh_state::{Place, State};

/// Is an application started at a node?
pub fn is_started_at(state: &State, node: Node, app: App) -> bool
    requires node { IsNodeOf (read state.now).cluster node }
    requires app { IsAppOf (read state.now).cluster app }
    ensures { result ≡ is_started (read state.now) node app }
{
    match state.place_of(node, app) {
        Place::InRunning | Place::InWaiting => true,
        Place::Off => false,
    }
}

/// Is an application started at some node?
#[tactic(auto, unfolding(rh_rules::specs::ByHand::is_started_anywhere, rh_state::specs::Numbers::nodes_of))]
pub fn is_started_anywhere(state: &State, app: App) -> bool
    requires { IsAppOf (read state.now).cluster app }
    ensures { result ≡ is_started_anywhere (read state.now) app }
{
    let count = state.cluster().node_count();
    'nodes: for number in 0..count {
        if is_started_at(state, Node(number as u8), app) {
            return true;
        }
    }
    false
}
