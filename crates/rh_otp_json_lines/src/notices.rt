//! What has happened at a command.

ghost use Rattle.std.specs.Prelude.{◌≡◌, ◌++◌, codes, OnOk};
ghost use Rattle.std.specs.List.{flat_map};
ghost use Rattle.rh_json_lines.specs.Starts.{first_word};
ghost use Rattle.rh_json_text.specs.Json.{json_string, json_array, behind_comma};
ghost use Rattle.rh_model.specs.ClusterView.{ClusterView};
ghost use Rattle.rh_otp_text.specs.Lines.{line_words};
ghost use Rattle.rh_otp_json_lines.specs.Notices.{named_json, notice_json};

use crate::calls::{push_call, push_error, push_verdict};
use rh_base::OutOfMemory;
use rh_json_lines::{push_node_at, push_pair, push_start};
use rh_json_text::{close_array, push_text};
use rh_model::{App, Cluster, Node};
use rh_otp_model::{Fault, StartType};
use rh_otp_sim::{Line, Verdict};
use rh_otp_system::Ask;
use rh_otp_text::kind_of;
use std::alloc::Global;

// The field of a notice's kind, with which its object begins: the word needs no escape.
#[tactic(auto, unfolding(rh_json_text::specs::Json::json_string, rh_json_text::specs::Json::escaped))]
fn kind_field(line: Line) -> &'static str
    ensures { (c : ClusterView)
        → result.now ≡ codes "{\"kind\":" ++ json_string (first_word (line_words c line)) }
{
    match line {
        Line::Up(_) => "{\"kind\":\"up\"",
        Line::Ended(_) => "{\"kind\":\"ended\"",
        Line::Started(_, _, _) => "{\"kind\":\"started\"",
        Line::Stopped(_, _) => "{\"kind\":\"stopped\"",
        Line::Failed(_, _, _) => "{\"kind\":\"failed\"",
        Line::Answered(_, _, _, _) => "{\"kind\":\"answered\"",
        Line::Waits(_, _) => "{\"kind\":\"waits\"",
        Line::Pending(_, _) => "{\"kind\":\"pending\"",
    }
}

// Adds an application that has started, where, and how.
fn push_started(
    out: &mut Vec<u8>,
    cluster: &Cluster,
    app: App,
    node: Node,
    kind: StartType,
) -> Result<(), OutOfMemory>
    ensures { OnOk result (out.new.items
        ≡ out.old.items ++ named_json cluster.now (Line.Started app node kind)) }
{
    push_pair(out, cluster, app, node)?;
    push_start(out, cluster, kind_of(kind))
}

// Adds an application whose start by the boot script has failed, where, and why.
fn push_failed(
    alloc: Global,
    out: &mut Vec<u8>,
    cluster: &Cluster,
    app: App,
    node: Node,
    fault: Fault,
) -> Result<(), OutOfMemory>
    ensures { OnOk result (out.new.items
        ≡ out.old.items ++ named_json cluster.now (Line.Failed app node fault)) }
{
    push_pair(out, cluster, app, node)?;
    push_error(alloc, out, cluster, fault)
}

// Adds the call of an earlier command, and its answer.
fn push_answered(
    alloc: Global,
    out: &mut Vec<u8>,
    cluster: &Cluster,
    ask: Ask,
    node: Node,
    app: App,
    verdict: Verdict,
) -> Result<(), OutOfMemory>
    ensures { OnOk result (out.new.items
        ≡ out.old.items ++ named_json cluster.now (Line.Answered ask node app verdict)) }
{
    push_text(out, ",")?;
    push_call(out, cluster, ask, node, app)?;
    push_verdict(alloc, out, cluster, verdict)
}

// Adds what a notice names, and what it says of that.
fn push_named(
    alloc: Global,
    out: &mut Vec<u8>,
    cluster: &Cluster,
    line: Line,
) -> Result<(), OutOfMemory>
    ensures { OnOk result (out.new.items ≡ out.old.items ++ named_json cluster.now line) }
{
    match line {
        Line::Up(node) | Line::Ended(node) => push_node_at(out, ",\"node\":", cluster, node),
        Line::Started(app, node, kind) => push_started(out, cluster, app, node, kind),
        Line::Failed(app, node, fault) => push_failed(alloc, out, cluster, app, node, fault),
        Line::Answered(ask, node, app, verdict) => {
            push_answered(alloc, out, cluster, ask, node, app, verdict)
        }
        Line::Stopped(app, node) | Line::Waits(app, node) | Line::Pending(app, node) => {
            push_pair(out, cluster, app, node)
        }
    }
}

// Adds a notice.
#[tactic(auto, unfolding(crate::specs::Notices::notice_json))]
fn push_notice(
    alloc: Global,
    out: &mut Vec<u8>,
    cluster: &Cluster,
    line: Line,
) -> Result<(), OutOfMemory>
    ensures { OnOk result (out.new.items ≡ out.old.items ++ notice_json cluster.now line) }
{
    push_text(out, kind_field(line))?;
    push_named(alloc, out, cluster, line)?;
    push_text(out, "}")
}

// Adds notices, each behind a comma.
fn push_each_notice(
    alloc: Global,
    out: &mut Vec<u8>,
    cluster: &Cluster,
    lines: &[Line],
) -> Result<(), OutOfMemory>
    ensures { OnOk result (out.new.items
        ≡ out.old.items ++ flat_map (behind_comma (notice_json cluster.now)) lines.now) }
{
    for line in lines {
        push_text(out, ",")?;
        push_notice(alloc, out, cluster, *line)?;
    }
    Ok(())
}

/// Adds the array of what has happened.
#[tactic(auto, using(rh_json_text::proofs::Arrays::array_is_closed))]
pub fn push_notices(
    alloc: Global,
    out: &mut Vec<u8>,
    cluster: &Cluster,
    lines: &[Line],
) -> Result<(), OutOfMemory>
    ensures { OnOk result
        (out.new.items ≡ out.old.items ++ json_array (notice_json cluster.now) lines.now) }
{
    let start = out.len();
    push_each_notice(alloc, out, cluster, lines)?;
    close_array(out, start)
}
