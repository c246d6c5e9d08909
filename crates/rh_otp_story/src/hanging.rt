//! What hangs, by the report of live nodes.

ghost use Rattle.std.specs.Prelude.{◌≡◌, ◌++◌, OnOk, IfOk};
ghost use Rattle.std.specs.List.{flat_map};
ghost use Rattle.rh_script.specs.Lines.{raw_lines};
ghost use Rattle.rh_otp_story.specs.Hanging.{blocked_line, node_blocks, hanging_text, has_line, new_line, new_lines};

use rh_base::OutOfMemory;
use rh_calls::node_word;
use rh_cluster::Cluster;
use rh_otp_report::{NodeReport, Report};
use rh_otp_text::push_node_lines;
use rh_script::{Kind, mark, split_line};
use std::alloc::Global;

// Adds a line of a report behind the name of its node, if it tells that something hangs there.
fn push_blocked(text: &mut Vec<u8>, name: &str, line: &[u8]) -> Result<(), OutOfMemory>
    ensures { OnOk result (text.new.items ≡ text.old.items ++ blocked_line name.now line.now) }
{
    if line.starts_with(b"  blocked ".as_slice()) {
        text.extend_from_slice(name.as_bytes())?;
        text.extend_from_slice(&line[1..])?;
    }
    Ok(())
}

// Adds those of all lines.
fn push_blocks(text: &mut Vec<u8>, name: &str, lines: &[u8]) -> Result<(), OutOfMemory>
    ensures { OnOk result (text.new.items
        ≡ text.old.items ++ flat_map (blocked_line name.now) (raw_lines lines.now)) }
{
    let mut rest = lines;
    'lines: while !rest.is_empty() {
        let (line, after) = split_line(rest);
        push_blocked(text, name, line)?;
        rest = after;
    }
    Ok(())
}

// Adds what hangs at a node.
fn push_node(
    alloc: Global,
    text: &mut Vec<u8>,
    cluster: &Cluster,
    report: &NodeReport,
) -> Result<(), OutOfMemory>
    ensures { OnOk result
        (text.new.items ≡ text.old.items ++ node_blocks cluster.now report.now) }
{
    let mut lines = String::new(alloc);
    push_node_lines(&mut lines, cluster, report)?;
    push_blocks(text, node_word(cluster, report.node), lines.as_bytes())
}

// Adds what hangs at all nodes.
fn push_nodes(
    alloc: Global,
    text: &mut Vec<u8>,
    cluster: &Cluster,
    nodes: &[NodeReport],
) -> Result<(), OutOfMemory>
    ensures { OnOk result (text.new.items
        ≡ text.old.items ++ flat_map (node_blocks cluster.now) nodes.now) }
{
    for node in nodes {
        push_node(alloc, text, cluster, node)?;
    }
    Ok(())
}

/// What hangs by a report: its lines that tell so, each behind the name of its node.
pub fn hanging_text(
    alloc: Global,
    cluster: &Cluster,
    report: &Report,
) -> Result<Vec<u8>, OutOfMemory>
    ensures { IfOk result (λ text. text.items ≡ hanging_text cluster.now report.now) }
{
    let mut text = Vec::new(alloc);
    push_nodes(alloc, &mut text, cluster, report.nodes.as_slice())?;
    Ok(text)
}

// Has a text this line?
fn has_line(text: &[u8], line: &[u8]) -> bool
    ensures { result ≡ has_line text.now line.now }
{
    let mut rest = text;
    'lines: while !rest.is_empty() {
        let (other, after) = split_line(rest);
        if other == line {
            return true;
        }
        rest = after;
    }
    false
}

// Adds a line behind the mark of reasons, unless a text has it.
fn push_new(text: &mut Vec<u8>, before: &[u8], line: &[u8]) -> Result<(), OutOfMemory>
    ensures { OnOk result (text.new.items ≡ text.old.items ++ new_line before.now line.now) }
{
    if !has_line(before, line) {
        text.extend_from_slice(mark(Kind::Reason).as_bytes())?;
        text.extend_from_slice(line)?;
    }
    Ok(())
}

/// Adds what hangs, and didn't hang before, each line behind the mark of reasons.
pub fn push_new_lines(text: &mut Vec<u8>, before: &[u8], after: &[u8]) -> Result<(), OutOfMemory>
    ensures { OnOk result (text.new.items ≡ text.old.items ++ new_lines before.now after.now) }
{
    let mut rest = after;
    'lines: while !rest.is_empty() {
        let (line, others) = split_line(rest);
        push_new(text, before, line)?;
        rest = others;
    }
    Ok(())
}
