//! Lists of nodes.

ghost use Rattle.std.specs.Prelude.{◌≡◌, ◌==◌, position};
ghost use Rattle.rh_otp_dist.specs.State.{without_first, without_node};
ghost use Rattle.rh_otp_dist.specs.Down.{without_rows_at};

use rh_model::{App, Node};

// The place of a node.
fn place_of(nodes: &[Node], node: Node) -> Option<usize>
    ensures { result ≡ position (λ m. m.0 == node.0) nodes.now }
{
    nodes.iter().position(|other| other.0 == node.0)
}

/// Without the first that is this node (lists:delete/2).
pub fn delete_node(nodes: &mut Vec<Node>, node: Node)
    ensures { nodes.new.items ≡ without_first node nodes.old.items }
{
    if let Some(place) = place_of(nodes.as_slice(), node) {
        let _node = nodes.remove(place);
    }
}

/// Without this node.
pub fn drop_node(nodes: &mut Vec<Node>, node: Node)
    ensures { nodes.new.items ≡ without_node node nodes.old.items }
{
    nodes.retain(|other| other.0 != node.0);
}

/// Without the applications that ran at this node.
pub fn drop_rows_at(rows: &mut Vec<(App, Node)>, node: Node)
    ensures { rows.new.items ≡ without_rows_at node rows.old.items }
{
    rows.retain(|row| row.1.0 != node.0);
}
