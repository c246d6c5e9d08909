//! Reasons in words.

ghost use Rattle.std.specs.Prelude.{◌≡◌, ◌++◌, OnOk, IfOk};
ghost use Rattle.std.specs.List.{flat_map};
ghost use Rattle.std.specs.String.{string_bytes};
ghost use Rattle.rh_why.specs.Texts.{reason_text, one_word, until_text, awaited_text};

use crate::reason::{Awaited, Reason};
use rh_base::OutOfMemory;
use rh_calls::{dep_word, node_word, push_decimal};
use rh_model::{Cluster, Node};
use std::alloc::Global;

/// Why an application waits, in one line without its end: `needs db`, `forbidden`, `runs at n1@lab`, `lost with n1@lab until 6000`,
/// `quiet`. A number that nothing of the cluster has is shown as a question mark.
pub fn reason_text(alloc: Global, cluster: &Cluster, reason: &Reason) -> Result<String, OutOfMemory>
    ensures { IfOk result (λ text. string_bytes text ≡ reason_text cluster.now reason.now) }
{
    let mut text = String::new(alloc);
    push_reason(&mut text, cluster, reason)?;
    Ok(text)
}

/// Adds why an application waits, as [`reason_text`] says it.
#[tactic(auto, unfolding(crate::specs::Texts::reason_text))]
pub fn push_reason(text: &mut String, cluster: &Cluster, reason: &Reason) -> Result<(), OutOfMemory>
    ensures { OnOk result
        (string_bytes text.new ≡ string_bytes text.old ++ reason_text cluster.now reason.now) }
{
    match *reason {
        Reason::Needs { dep } => {
            text.push_str("needs ")?;
            text.push_str(dep_word(cluster, dep))?;
        }
        Reason::Forbidden => text.push_str("forbidden")?,
        Reason::RunsAt { node } => {
            text.push_str("runs at ")?;
            text.push_str(node_word(cluster, node))?;
        }
        Reason::LostWith { node, due } => {
            text.push_str("lost with ")?;
            text.push_str(node_word(cluster, node))?;
            text.push_str(" until ")?;
            push_decimal(text, due)?;
        }
        Reason::Quiet => text.push_str("quiet")?,
    }
    Ok(())
}

/// For whom a node waits, in one line without its end: `waits for n2@lab n3@lab until 5000`, or without `until ..` where the wait
/// has no end.
#[tactic(auto, unfolding(crate::specs::Texts::awaited_text))]
pub fn awaited_text(
    alloc: Global,
    cluster: &Cluster,
    awaited: &Awaited,
) -> Result<String, OutOfMemory>
    ensures { IfOk result (λ text.
        string_bytes text ≡ awaited_text cluster.now awaited.now.nodes.items awaited.now.until) }
{
    let mut text = String::new(alloc);
    write!(text, "waits for")?;
    push_nodes(&mut text, cluster, awaited.nodes.as_slice())?;
    push_until(&mut text, awaited.until)?;
    Ok(text)
}

// Adds the name of each node behind a blank.
fn push_nodes(text: &mut String, cluster: &Cluster, nodes: &[Node]) -> Result<(), OutOfMemory>
    ensures { OnOk result (string_bytes text.new
        ≡ string_bytes text.old ++ flat_map (one_word cluster.now) nodes.now) }
{
    for node in nodes {
        let name = node_word(cluster, *node);
        write!(text, " {name}")?;
    }
    Ok(())
}

// Adds until when the wait lasts, if it ends by itself.
fn push_until(text: &mut String, until: Option<u64>) -> Result<(), OutOfMemory>
    ensures { OnOk result (string_bytes text.new ≡ string_bytes text.old ++ until_text until) }
{
    if let Some(due) = until {
        write!(text, " until {due}")?;
    }
    Ok(())
}
