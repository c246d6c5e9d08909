//! The part of a boot script that starts applications.

ghost use Rattle.std.specs.Prelude.{◌≡◌};
ghost use Rattle.rh_otp_node.specs.Boot.{entry_at, entry_before, is_end, with_next};

use crate::node::LiveNode;
use rh_model::{App, Cluster, Node, Restart};

// What the node's boot list has at this place.
fn entry_at(cluster: &Cluster, node: Node, place: usize) -> Option<(App, Restart)>
    ensures { result ≡ entry_at cluster.now node place }
{
    cluster.is_within();
    if (node.0 as usize) < cluster.node_count() {
        cluster.boot(node).get(place).copied()
    } else {
        None
    }
}

impl LiveNode {
    /// How many applications of its boot list it has begun to start, with the end of the list as one more.
    pub fn place(&self) -> usize
        ensures { result ≡ self.now.place }
    {
        self.place
    }

    /// What the script starts next.
    pub fn next_entry(&self, cluster: &Cluster, node: Node) -> Option<(App, Restart)>
        ensures { result ≡ entry_at cluster.now node self.now.place }
    {
        entry_at(cluster, node, self.place)
    }

    /// What the script is starting.
    pub fn entry(&self, cluster: &Cluster, node: Node) -> Option<(App, Restart)>
        ensures { result ≡ entry_before cluster.now node self.now.place }
    {
        if self.place == 0 {
            return None;
        }
        entry_at(cluster, node, self.place - 1)
    }

    /// Does its list end here?
    pub fn is_boot_end(&self, cluster: &Cluster, node: Node) -> bool
        ensures { result ≡ is_end cluster.now node self.now.place }
    {
        cluster.is_within();
        (node.0 as usize) < cluster.node_count() && self.place == cluster.boot(node).len()
    }

    /// One entry more of its list has its turn. The end of the list counts as one.
    pub fn count_entry(&mut self)
        ensures { self.new ≡ with_next self.old }
    {
        self.place = self.place.saturating_add(1);
    }
}
