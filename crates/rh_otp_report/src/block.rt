//! What a process waits for that doesn't come by itself.

ghost use Rattle.std.specs.Prelude.{◌≡◌, slice_get};
ghost use Rattle.rh_otp_report.specs.Blocks.{block_of_stand, block_at, boot_at};

use rh_model::{App, Cluster, Node};
use rh_otp_dist::Stand;
use rh_otp_model::Requester;
use rh_otp_net::Locks;
use rh_otp_node::LiveNode;

/// For what a dist_ac waits. All that comes for it stays in its mailbox meanwhile.
#[derive(Clone, Copy, Debug, PartialEq, Eq)]
pub enum Block {
    /// The lock of all nodes that it saw, which another process has.
    Lock,
    /// That this node introduces itself.
    Introduction(Node),
    /// That this node tells its weight for the application.
    Weight(App, Node),
    /// That this node starts the application.
    Start(App, Node),
    /// That some node starts the application, which is forbidden here.
    AnyStart(App),
}

// The first of these nodes.
fn first_of(nodes: &[Node]) -> Option<Node>
    ensures { result ≡ slice_get nodes.now 0 }
{
    nodes.first().copied()
}

// For what a dist_ac waits that stands here, where these locks are held. Before its node is up it waits for nothing that is told.
fn block_of_stand(stand: &Stand, locks: &Locks) -> Option<Block>
    ensures { result ≡ block_of_stand stand.now locks.now }
{
    match stand {
        Stand::Idle | Stand::ForGo => None,
        Stand::ForLock(nodes) => {
            if locks.is_free(Requester::Sync, nodes.as_slice()) {
                None
            } else {
                Some(Block::Lock)
            }
        }
        Stand::ForIntroduction(stand) => {
            let node = first_of(stand.nodes())?;
            Some(Block::Introduction(node))
        }
        Stand::ForWeight(stand) => {
            let node = first_of(stand.nodes())?;
            Some(Block::Weight(stand.app(), node))
        }
        Stand::ForStart(attempt, node) => Some(Block::Start(attempt.app(), *node)),
        Stand::ForAnyStart(attempt) => Some(Block::AnyStart(attempt.app())),
    }
}

/// For what the dist_ac of a node that is up waits.
pub(crate) fn block_at(live: &LiveNode, locks: &Locks) -> Option<Block>
    ensures { result ≡ block_at live.now locks.now }
{
    if !live.is_up() {
        return None;
    }
    block_of_stand(live.dist()?.stand(), locks)
}

/// For which application's start the boot script of a node that is up waits.
pub(crate) fn boot_at(live: &LiveNode, cluster: &Cluster, node: Node) -> Option<App>
    ensures { result ≡ boot_at live.now cluster.now node }
{
    if !live.is_up() {
        return None;
    }
    let entry = live.entry(cluster, node)?;
    Some(entry.0)
}
