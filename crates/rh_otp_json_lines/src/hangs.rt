//! What hangs at a node, and its timers.

ghost use Rattle.std.specs.Prelude.{◌≡◌, ◌++◌, OnOk};
ghost use Rattle.std.specs.Fmt.{decimal};
ghost use Rattle.std.specs.List.{flat_map};
ghost use Rattle.rh_json_lines.specs.Notices.{pair_json};
ghost use Rattle.rh_json_text.specs.Json.{json_array, behind_comma};
ghost use Rattle.rh_otp_json_lines.specs.Nodes.{waited_json, blocked_json, block_json, boot_json, timed_json, timer_json, hanging_json};

use rh_base::OutOfMemory;
use rh_json_lines::{push_app_at, push_node_at, push_pair};
use rh_json_text::{close_array, push_number, push_text};
use rh_model::{App, Cluster, Node};
use rh_otp_report::{Block, NodeReport, NodeTimer};
use std::alloc::Global;

// Adds a word, an application and a node.
fn push_of_pair(
    out: &mut Vec<u8>,
    word: &str,
    cluster: &Cluster,
    app: App,
    node: Node,
) -> Result<(), OutOfMemory>
    ensures { OnOk result
        (out.new.items ≡ out.old.items ++ (word.now ++ pair_json cluster.now app node)) }
{
    push_text(out, word)?;
    push_pair(out, cluster, app, node)
}

// Adds for what a dist_ac waits, and of which application and node.
#[tactic(auto, unfolding(crate::specs::Nodes::waited_json))]
fn push_waited(out: &mut Vec<u8>, cluster: &Cluster, block: Block) -> Result<(), OutOfMemory>
    ensures { OnOk result (out.new.items ≡ out.old.items ++ waited_json cluster.now block) }
{
    match block {
        Block::Lock => push_text(out, "\"lock\""),
        Block::Introduction(node) => {
            push_node_at(out, "\"introduction\",\"node\":", cluster, node)
        }
        Block::Weight(app, node) => push_of_pair(out, "\"weight\"", cluster, app, node),
        Block::Start(app, node) => push_of_pair(out, "\"start\"", cluster, app, node),
        Block::AnyStart(app) => push_app_at(out, "\"start\",\"application\":", cluster, app),
    }
}

// Adds a dist_ac that is blocked.
#[tactic(auto, unfolding(crate::specs::Nodes::blocked_json))]
fn push_blocked(out: &mut Vec<u8>, cluster: &Cluster, block: Block) -> Result<(), OutOfMemory>
    ensures { OnOk result (out.new.items ≡ out.old.items ++ blocked_json cluster.now block) }
{
    push_text(out, ",\"dist_ac\":{\"for\":")?;
    push_waited(out, cluster, block)?;
    push_text(out, "}")
}

/// Adds the field of a dist_ac, if it is blocked.
#[tactic(auto, unfolding(crate::specs::Nodes::block_json))]
pub fn push_block(
    out: &mut Vec<u8>,
    cluster: &Cluster,
    block: Option<Block>,
) -> Result<(), OutOfMemory>
    ensures { OnOk result (out.new.items ≡ out.old.items ++ block_json cluster.now block) }
{
    match block {
        None => Ok(()),
        Some(block) => push_blocked(out, cluster, block),
    }
}

/// Adds the field of a boot script, if it waits.
#[tactic(auto, unfolding(crate::specs::Nodes::boot_json))]
pub fn push_boot(out: &mut Vec<u8>, cluster: &Cluster, boot: Option<App>) -> Result<(), OutOfMemory>
    ensures { OnOk result (out.new.items ≡ out.old.items ++ boot_json cluster.now boot) }
{
    match boot {
        None => Ok(()),
        Some(app) => push_app_at(out, ",\"boot\":", cluster, app),
    }
}

// Adds when a timer is due, behind a key.
fn push_due(alloc: Global, out: &mut Vec<u8>, key: &str, due: u64) -> Result<(), OutOfMemory>
    ensures { OnOk result (out.new.items ≡ out.old.items ++ (key.now ++ decimal due)) }
{
    push_text(out, key)?;
    push_number(alloc, out, due as u128)
}

// Adds what a timer is for, and when it is due.
fn push_timed(
    alloc: Global,
    out: &mut Vec<u8>,
    cluster: &Cluster,
    timer: NodeTimer,
) -> Result<(), OutOfMemory>
    ensures { OnOk result (out.new.items ≡ out.old.items ++ timed_json cluster.now timer) }
{
    match timer {
        NodeTimer::Sync(due) => push_due(alloc, out, "{\"timer\":\"sync\",\"due\":", due),
        NodeTimer::Failover(app, due) => {
            let key = "{\"timer\":\"failover\",\"application\":";
            push_app_at(out, key, cluster, app)?;
            push_due(alloc, out, ",\"due\":", due)
        }
    }
}

// Adds a timer.
#[tactic(auto, unfolding(crate::specs::Nodes::timer_json))]
fn push_timer(
    alloc: Global,
    out: &mut Vec<u8>,
    cluster: &Cluster,
    timer: NodeTimer,
) -> Result<(), OutOfMemory>
    ensures { OnOk result (out.new.items ≡ out.old.items ++ timer_json cluster.now timer) }
{
    push_timed(alloc, out, cluster, timer)?;
    push_text(out, "}")
}

// Adds timers, each behind a comma.
fn push_each_timer(
    alloc: Global,
    out: &mut Vec<u8>,
    cluster: &Cluster,
    timers: &[NodeTimer],
) -> Result<(), OutOfMemory>
    ensures { OnOk result (out.new.items
        ≡ out.old.items ++ flat_map (behind_comma (timer_json cluster.now)) timers.now) }
{
    for timer in timers {
        push_text(out, ",")?;
        push_timer(alloc, out, cluster, *timer)?;
    }
    Ok(())
}

// Adds the array of timers.
#[tactic(auto, using(rh_json_text::proofs::Arrays::array_is_closed))]
fn push_timers(
    alloc: Global,
    out: &mut Vec<u8>,
    cluster: &Cluster,
    timers: &[NodeTimer],
) -> Result<(), OutOfMemory>
    ensures { OnOk result
        (out.new.items ≡ out.old.items ++ json_array (timer_json cluster.now) timers.now) }
{
    let start = out.len();
    push_each_timer(alloc, out, cluster, timers)?;
    close_array(out, start)
}

// Adds what hangs at a node, and its timers.
#[tactic(auto, unfolding(crate::specs::Nodes::hanging_json))]
pub(crate) fn push_hanging(
    alloc: Global,
    out: &mut Vec<u8>,
    cluster: &Cluster,
    report: &NodeReport,
) -> Result<(), OutOfMemory>
    ensures { OnOk result (out.new.items ≡ out.old.items ++ hanging_json cluster.now report.now) }
{
    push_block(out, cluster, report.block)?;
    push_boot(out, cluster, report.boot)?;
    push_text(out, ",\"timers\":")?;
    push_timers(alloc, out, cluster, report.timers.as_slice())
}
