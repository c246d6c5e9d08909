//! Walks along the lists of a node, from pair to pair.
//!
//! A pair of a node and an application has a number: those of a node stand side by side, in the cluster's order of applications. A walk
//! that goes by these numbers finds the pair behind one without working out its number again.

ghost use Rattle.std.specs.Prelude.{◌≡◌, ◌≢◌, ◌<◌, ◌*◌, IfSome, slice_get};
ghost use Rattle.std.specs.Option.{option_map};
ghost use Rattle.rh_model.specs.ClusterView.{node_count, app_count};
ghost use Rattle.rh_state.specs.declared.status.Place.TheVariants.{Off};
ghost use Rattle.rh_state.specs.Pairs.{app_of_pair, IsPairOfNode};
ghost use Rattle.rh_state.specs.StateView.{running_at, waiting_at, place_of, next_in_list};
ghost use Rattle.rh_state.specs.Stored.{read};

use crate::state::State;
use rh_model::Node;

#[tactic(auto, unfolding(crate::specs::Stored::read))]
impl State {
    /// How many pairs stand before those of a node.
    pub fn pairs_before(&self, node: Node) -> u32
        requires { node.0 < node_count (read self.now).cluster }
        ensures { result ≡ node.0 * app_count (read self.now).cluster }
    {
        let _nodes = self.cluster.node_count();
        node.0 as u32 * self.cluster.app_count() as u32
    }

    /// The pair of the application that stands first among those that run at a node.
    pub fn first_running_pair(&self, node: Node) -> Option<u32>
        requires { node.0 < node_count (read self.now).cluster }
        ensures first { option_map (app_of_pair (read self.now).cluster node) result
            ≡ slice_get (running_at (read self.now) node) 0 }
        ensures pair { IfSome result (IsPairOfNode (read self.now).cluster node) }
    {
        self.links.first(node.0 as u32)
    }

    /// The pair of the application that stands first among those that wait at a node.
    pub fn first_waiting_pair(&self, node: Node) -> Option<u32>
        requires { node.0 < node_count (read self.now).cluster }
        ensures first { option_map (app_of_pair (read self.now).cluster node) result
            ≡ slice_get (waiting_at (read self.now) node) 0 }
        ensures pair { IfSome result (IsPairOfNode (read self.now).cluster node) }
    {
        self.links.first(self.waiting_list(node))
    }

    /// The pair of the application that stands behind that of this pair, which stands in a list of the node; `None` for the last one.
    pub fn next_pair(&self, node: Node, pair: u32) -> Option<u32>
        requires node { node.0 < node_count (read self.now).cluster }
        requires pair { IsPairOfNode (read self.now).cluster node pair }
        requires listed { place_of (read self.now) node
            (app_of_pair (read self.now).cluster node pair) ≢ Off }
        ensures next { option_map (app_of_pair (read self.now).cluster node) result
            ≡ next_in_list (read self.now) node (app_of_pair (read self.now).cluster node pair) }
        ensures pair { IfSome result (IsPairOfNode (read self.now).cluster node) }
    {
        // Only the contract speaks of the node.
        let _ = node;
        self.links.next(pair)
    }
}
