//! The pairs of a node and an application, as entries of the linked lists.

ghost use Rattle.std.specs.Prelude.{◌≡◌, ◌<◌, IfSome};
ghost use Rattle.std.specs.Option.{option_map};
ghost use Rattle.rh_model.specs.ClusterView.{node_count, app_count};
ghost use Rattle.rh_arena.specs.Words.{entry_count, list_count};
ghost use Rattle.rh_state.specs.Pairs.{pair_number, waiting_list, app_of_pair, IsPairOfNode};
ghost use Rattle.rh_state.specs.Shape.{IsAppOf};

use crate::state::State;
use rh_model::{App, Node};

impl State {
    // The number of a pair's entry.
    pub(crate) fn pair(&self, node: Node, app: App) -> u32
        requires node { node.0 < node_count self.now.cluster }
        requires app { app.0 < app_count self.now.cluster }
        ensures pair { result ≡ pair_number self.now.cluster node app }
        ensures within { result < entry_count self.now.links }
    {
        let _nodes = self.cluster.node_count();
        node.0 as u32 * self.cluster.app_count() as u32 + app.0 as u32
    }

    // The number of the list of what waits at a node.
    pub(crate) fn waiting_list(&self, node: Node) -> u32
        requires { node.0 < node_count self.now.cluster }
        ensures list { result ≡ waiting_list self.now.cluster node }
        ensures within { result < list_count self.now.links }
    {
        self.cluster.node_count() as u32 + node.0 as u32
    }

    // The application of a node's pair, if there is one.
    pub(crate) fn app_at(&self, node: Node, pair: Option<u32>) -> Option<App>
        requires { IfSome pair (IsPairOfNode self.now.cluster node) }
        ensures app { result ≡ option_map (app_of_pair self.now.cluster node) pair }
        ensures number { IfSome result (IsAppOf self.now.cluster) }
    {
        match pair {
            None => None,
            Some(number) => {
                let apps = self.cluster.app_count() as u32;
                Some(App((number - node.0 as u32 * apps) as u8))
            }
        }
    }
}
