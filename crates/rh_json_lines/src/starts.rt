//! How an application was started.

ghost use Rattle.std.specs.Prelude.{◌≡◌, ◌++◌, codes, OnOk};
ghost use Rattle.rh_model.specs.ClusterView.{ClusterView};
ghost use Rattle.rh_calls.specs.Report.{kind_words};
ghost use Rattle.rh_json_text.specs.Json.{json_string};
ghost use Rattle.rh_json_lines.specs.ClusterLines.{app_json, node_json};
ghost use Rattle.rh_json_lines.specs.Starts.{first_word, from_json, start_json};

use crate::clusters::{push_app, push_node};
use rh_base::OutOfMemory;
use rh_cluster::{App, Cluster, Node};
use rh_json_text::push_text;
use rh_state::Kind;

// The field of a start kind: its word needs no escape.
#[tactic(auto, unfolding(rh_json_text::specs::Json::json_string, rh_json_text::specs::Json::escaped))]
fn kind_field(kind: Kind) -> &'static str
    ensures { (c : ClusterView)
        → result.now ≡ codes ",\"start\":" ++ json_string (first_word (kind_words c kind)) }
{
    match kind {
        Kind::Normal => ",\"start\":\"normal\"",
        Kind::Failover(_) => ",\"start\":\"failover\"",
        Kind::Takeover(_) => ",\"start\":\"takeover\"",
    }
}

/// Adds a node behind its key, which begins with a comma.
pub fn push_node_at(
    out: &mut Vec<u8>,
    key: &str,
    cluster: &Cluster,
    node: Node,
) -> Result<(), OutOfMemory>
    ensures { OnOk result
        (out.new.items ≡ out.old.items ++ (key.now ++ node_json cluster.now node)) }
{
    push_text(out, key)?;
    push_node(out, cluster, node)
}

/// Adds an application behind its key, which begins with a comma.
pub fn push_app_at(
    out: &mut Vec<u8>,
    key: &str,
    cluster: &Cluster,
    app: App,
) -> Result<(), OutOfMemory>
    ensures { OnOk result (out.new.items ≡ out.old.items ++ (key.now ++ app_json cluster.now app)) }
{
    push_text(out, key)?;
    push_app(out, cluster, app)
}

// Adds the node that an application came from, if it came from one.
fn push_from(out: &mut Vec<u8>, cluster: &Cluster, kind: Kind) -> Result<(), OutOfMemory>
    ensures { OnOk result (out.new.items ≡ out.old.items ++ from_json cluster.now kind) }
{
    match kind {
        Kind::Normal => Ok(()),
        Kind::Failover(node) | Kind::Takeover(node) => {
            push_node_at(out, ",\"from\":", cluster, node)
        }
    }
}

/// Adds how an application was started: its kind, and the node that it came from, if it came from one.
#[tactic(auto, unfolding(crate::specs::Starts::start_json))]
pub fn push_start(out: &mut Vec<u8>, cluster: &Cluster, kind: Kind) -> Result<(), OutOfMemory>
    ensures { OnOk result (out.new.items ≡ out.old.items ++ start_json cluster.now kind) }
{
    push_text(out, kind_field(kind))?;
    push_from(out, cluster, kind)
}
