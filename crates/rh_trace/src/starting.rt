//! How an application starts.

ghost use Rattle.std.specs.Prelude.{◌≡◌, ◌<◌};
ghost use Rattle.rh_model.specs.ClusterView.{app_count};
ghost use Rattle.rh_state.specs.Stored.{read};
ghost use Rattle.rh_rules.specs.Placing.{start_kind};

use rh_model::{App, Node};
use rh_state::{Kind, State};

/// How an application starts at the second node after it was lost with the first, if with one (application(3),
/// `start/2`): as a failover if its start phases are defined and the nodes are different ones, else normally.
#[tactic(auto, unfolding(rh_rules::specs::Placing::start_kind))]
pub fn start_kind(state: &State, app: App, from: Option<Node>, node: Node) -> Kind
    requires { app.0 < app_count (read state.now).cluster }
    ensures { result ≡ start_kind (read state.now) app from node }
{
    match from {
        Some(lost) if lost.0 != node.0 && state.cluster().phases(app) => Kind::Failover(lost),
        _ => Kind::Normal,
    }
}
