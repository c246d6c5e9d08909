//! What newly hangs at nodes, by the reports before a step and behind it.

ghost use Rattle.std.specs.Prelude.{◌≡◌, ◌++◌, IfOk, OnOk};
ghost use Rattle.std.specs.String.{string_bytes};
ghost use Rattle.rh_otp_lint.specs.Hanging.{hang_of, hang_at, dist_ac_words, boot_words, new_words, hang_words, hangs, new_hang, new_hangs};

use rh_base::{OutOfMemory, Str};
use rh_calls::{app_word, node_word};
use rh_cluster::Cluster;
use rh_findings::{Finding, Kind};
use rh_model::{App, Node};
use rh_otp_report::{Block, NodeReport};
use rh_otp_text::push_block;
use std::alloc::Global;

/// What hangs at a node.
#[derive(Clone, Copy)]
pub(crate) struct Hang {
    /// For what its dist_ac waits.
    block: Option<Block>,
    /// For which application's start its boot script waits.
    boot: Option<App>,
}

// What hangs at a node, by its report.
fn hang_of(report: &NodeReport) -> Hang
    ensures { result ≡ hang_of report.now }
{
    Hang {
        block: report.block,
        boot: report.boot,
    }
}

// What hangs at this node, by these reports.
fn hang_at(reports: &[NodeReport], node: Node) -> Hang
    ensures { result ≡ hang_at reports.now node }
{
    for report in reports {
        if report.node.0 == node.0 {
            return hang_of(report);
        }
    }
    Hang {
        block: None,
        boot: None,
    }
}

// For what a dist_ac waits; nothing where it waits for nothing.
fn dist_ac_words(
    alloc: Global,
    cluster: &Cluster,
    block: Option<Block>,
) -> Result<String, OutOfMemory>
    ensures { IfOk result (λ text. string_bytes text ≡ dist_ac_words cluster.now block) }
{
    let mut text = String::new(alloc);
    if let Some(block) = block {
        text.push_str(", blocked dist_ac ")?;
        push_block(&mut text, cluster, block)?;
    }
    Ok(text)
}

// For which application's start a boot script waits; nothing where it waits for none.
fn boot_words(alloc: Global, cluster: &Cluster, boot: Option<App>) -> Result<String, OutOfMemory>
    ensures { IfOk result (λ text. string_bytes text ≡ boot_words cluster.now boot) }
{
    let mut text = String::new(alloc);
    if let Some(app) = boot {
        text.push_str(", blocked boot ")?;
        text.push_str(app_word(cluster, app))?;
    }
    Ok(text)
}

// Adds words, unless they were these before.
fn push_new(text: &mut String, before: &str, after: &str) -> Result<(), OutOfMemory>
    ensures { OnOk result
        (string_bytes text.new ≡ string_bytes text.old ++ new_words before.now after.now) }
{
    if before != after {
        text.push_str(after)?;
    }
    Ok(())
}

// What hangs, and didn't so before.
fn hang_words(
    alloc: Global,
    cluster: &Cluster,
    before: Hang,
    after: Hang,
) -> Result<String, OutOfMemory>
    ensures { IfOk result (λ text. string_bytes text ≡ hang_words cluster.now before after) }
{
    let mut text = String::new(alloc);
    let stood = dist_ac_words(alloc, cluster, before.block)?;
    let stands = dist_ac_words(alloc, cluster, after.block)?;
    push_new(&mut text, stood.as_str(), stands.as_str())?;
    let waited = boot_words(alloc, cluster, before.boot)?;
    let waits = boot_words(alloc, cluster, after.boot)?;
    push_new(&mut text, waited.as_str(), waits.as_str())?;
    Ok(text)
}

// The warning of what newly hangs at a node, on the line of this number.
#[tactic(auto, unfolding(crate::specs::Hanging::hangs))]
fn hangs(alloc: Global, number: u64, node: &str, words: &str) -> Result<Finding, OutOfMemory>
    ensures { IfOk result (λ found. found ≡ hangs number node.now words.now) }
{
    let text = format!(in alloc; "hangs: at {node}{words}")?;
    Ok(Finding {
        line: Some(number),
        kind: Kind::Warning,
        text: Str::of(text),
        path: None,
    })
}

// Adds it, if something does, by the reports before and that of the node behind.
fn push_hang(
    alloc: Global,
    found: &mut Vec<Finding>,
    cluster: &Cluster,
    number: u64,
    before: &[NodeReport],
    after: &NodeReport,
) -> Result<(), OutOfMemory>
    ensures { OnOk result (found.new.items
        ≡ found.old.items ++ new_hang cluster.now number before.now after.now) }
{
    let words = hang_words(alloc, cluster, hang_at(before, after.node), hang_of(after))?;
    if !words.is_empty() {
        let node = node_word(cluster, after.node);
        found.push(hangs(alloc, number, node, words.as_str())?)?;
    }
    Ok(())
}

/// Adds the warnings of what newly hangs, a node each.
pub(crate) fn push_hangs(
    alloc: Global,
    found: &mut Vec<Finding>,
    cluster: &Cluster,
    number: u64,
    before: &[NodeReport],
    after: &[NodeReport],
) -> Result<(), OutOfMemory>
    ensures { OnOk result (found.new.items
        ≡ found.old.items ++ new_hangs cluster.now number before.now after.now) }
{
    for report in after {
        push_hang(alloc, found, cluster, number, before, report)?;
    }
    Ok(())
}
