//! Why something waits, by a state.

ghost use Rattle.std.specs.Prelude.{◌≡◌, ◌<◌, ◌++◌, OnOk};
ghost use Rattle.std.specs.List.{flat_map};
ghost use Rattle.std.specs.Option.{option_to_list};
ghost use Rattle.rh_state.specs.Stored.{read};
ghost use Rattle.rh_trace.specs.Validity.{IsValid};
ghost use Rattle.rh_why.specs.Texts.{reason_text};
ghost use Rattle.rh_story.specs.LineText.{reason_line, app_lines, node_lines, why_lines};

use rh_base::OutOfMemory;
use rh_cluster::{App, Cluster, Node};
use rh_script::{Kind, mark};
use rh_state::State;
use rh_step::Notice;
use rh_why::{Reason, Reasons, awaited_text, push_reason, reasons_of, why_node_waits};
use std::alloc::Global;

// Adds the line of a reason in words.
fn push_line(text: &mut Vec<u8>, words: &[u8]) -> Result<(), OutOfMemory>
    ensures { OnOk result (text.new.items ≡ text.old.items ++ reason_line words.now) }
{
    text.extend_from_slice(mark(Kind::Reason).as_bytes())?;
    text.extend_from_slice(words)?;
    text.extend_from_slice(b"\n".as_slice())?;
    Ok(())
}

// Adds a reason, if there is one. Its line is made in a buffer, whatever that held.
fn push_if_any(
    text: &mut Vec<u8>,
    line: &mut String,
    cluster: &Cluster,
    reason: Option<Reason>,
) -> Result<(), OutOfMemory>
    ensures { OnOk result (text.new.items ≡ text.old.items ++ flat_map (λ reason.
        reason_line (reason_text cluster.now reason)) (option_to_list reason)) }
{
    if let Some(reason) = reason {
        line.clear();
        line.push_str(mark(Kind::Reason))?;
        push_reason(line, cluster, &reason)?;
        line.push_str("\n")?;
        text.extend_from_slice(line.as_bytes())?;
    }
    Ok(())
}

// Adds reasons.
fn push_reasons(
    text: &mut Vec<u8>,
    line: &mut String,
    cluster: &Cluster,
    reasons: Reasons,
) -> Result<(), OutOfMemory>
    ensures { OnOk result (text.new.items ≡ text.old.items ++ flat_map (λ reason.
        reason_line (reason_text cluster.now reason)) (option_to_list reasons.lacking
        ++ option_to_list reasons.forbidding ++ option_to_list reasons.by_standing)) }
{
    push_if_any(text, line, cluster, reasons.lacking)?;
    push_if_any(text, line, cluster, reasons.forbidding)?;
    push_if_any(text, line, cluster, reasons.by_standing)
}

// Adds why an application waits at a node: what isn't of the cluster waits nowhere.
fn push_app(
    text: &mut Vec<u8>,
    line: &mut String,
    state: &State,
    app: App,
    node: Node,
) -> Result<(), OutOfMemory>
    requires { IsValid (read state.now) }
    ensures { OnOk result (text.new.items ≡ text.old.items ++ app_lines (read state.now) app node) }
{
    let cluster = state.cluster();
    if (node.0 as usize) < cluster.node_count() && (app.0 as usize) < cluster.app_count() {
        push_reasons(text, line, cluster, reasons_of(state, app, node))?;
    }
    Ok(())
}

/// Adds why a notice is told. Each line is made in a buffer, whatever that held.
pub fn push_why(
    text: &mut Vec<u8>,
    line: &mut String,
    state: &State,
    notice: &Notice,
) -> Result<(), OutOfMemory>
    requires { IsValid (read state.now) }
    ensures { OnOk result
        (text.new.items ≡ text.old.items ++ why_lines (read state.now) notice.now) }
{
    match *notice {
        Notice::Waits { app, node } => push_app(text, line, state, app, node),
        _ => Ok(()),
    }
}

/// Adds for whom a node waits, if it does: what isn't of the cluster waits for nobody.
pub fn push_awaited(
    alloc: Global,
    text: &mut Vec<u8>,
    state: &State,
    node: Node,
) -> Result<(), OutOfMemory>
    requires { IsValid (read state.now) }
    ensures { OnOk result (text.new.items ≡ text.old.items ++ node_lines (read state.now) node) }
{
    let cluster = state.cluster();
    if (node.0 as usize) < cluster.node_count() {
        let awaited = why_node_waits(alloc, state, node)?;
        if !awaited.nodes.is_empty() {
            let words = awaited_text(alloc, cluster, &awaited)?;
            push_line(text, words.as_bytes())?;
        }
    }
    Ok(())
}
