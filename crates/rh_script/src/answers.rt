//! The texts of answers.

ghost use Rattle.std.specs.Prelude.{◌≡◌, ◌++◌, codes, OnOk, IfOk};
ghost use Rattle.std.specs.List.{flat_map};
ghost use Rattle.std.specs.String.{string_bytes};
ghost use Rattle.rh_calls.specs.Report.{kind_words};
ghost use Rattle.rh_script.specs.Answers.{pair_words, reason_words, refusal_line, notice_line, answer_text, fault_text, bad_text};

use rh_base::OutOfMemory;
use rh_calls::{Reply, app_word, dep_word, node_word, push_decimal, push_kind};
use rh_cluster::{App, Cluster, ClusterFault, Node};
use rh_rules::{Notice, Refusal};
use rh_state::Kind;
use std::alloc::Global;

// Adds an application and a node.
fn push_pair(text: &mut String, cluster: &Cluster, app: App, node: Node) -> Result<(), OutOfMemory>
    ensures { OnOk result
        (string_bytes text.new ≡ string_bytes text.old ++ pair_words cluster.now app node) }
{
    text.push_str(app_word(cluster, app))?;
    text.push_str(" ")?;
    text.push_str(node_word(cluster, node))?;
    Ok(())
}

// Adds how an application was started as the last word of a line, with the space before it and the line's end: most start normally,
// which is one text to add.
fn push_last_kind(text: &mut String, cluster: &Cluster, kind: Kind) -> Result<(), OutOfMemory>
    ensures { OnOk result (string_bytes text.new
        ≡ string_bytes text.old ++ (codes " " ++ kind_words cluster.now kind ++ codes "\n")) }
{
    match kind {
        Kind::Normal => text.push_str(" normal\n")?,
        Kind::Failover(_) | Kind::Takeover(_) => {
            text.push_str(" ")?;
            push_kind(text, cluster, kind)?;
            text.push_str("\n")?;
        }
    }
    Ok(())
}

/// Adds the line of a notice, as it stands in an answer.
#[tactic(auto, unfolding(crate::specs::Answers::notice_line))]
pub fn push_notice(text: &mut String, cluster: &Cluster, notice: &Notice) -> Result<(), OutOfMemory>
    ensures { OnOk result
        (string_bytes text.new ≡ string_bytes text.old ++ notice_line cluster.now notice.now) }
{
    match *notice {
        Notice::Up { node } => {
            text.push_str("up ")?;
            text.push_str(node_word(cluster, node))?;
            text.push_str("\n")?;
        }
        Notice::Ended { node } => {
            text.push_str("ended ")?;
            text.push_str(node_word(cluster, node))?;
            text.push_str("\n")?;
        }
        Notice::Started {
            app,
            node,
            kind,
            ..
        } => {
            text.push_str("started ")?;
            push_pair(text, cluster, app, node)?;
            push_last_kind(text, cluster, kind)?;
        }
        Notice::Stopped { app, node } => {
            text.push_str("stopped ")?;
            push_pair(text, cluster, app, node)?;
            text.push_str("\n")?;
        }
        Notice::Waits { app, node } => {
            text.push_str("waits ")?;
            push_pair(text, cluster, app, node)?;
            text.push_str("\n")?;
        }
    }
    Ok(())
}

// Adds the lines of notices.
fn push_notices(text: &mut String, cluster: &Cluster, notices: &[Notice]) -> Result<(), OutOfMemory>
    ensures { OnOk result (string_bytes text.new
        ≡ string_bytes text.old ++ flat_map (notice_line cluster.now) notices.now) }
{
    for notice in notices {
        push_notice(text, cluster, notice)?;
    }
    Ok(())
}

/// Adds the name of the dependency that a refusal names, behind a space; nothing where it names none.
pub fn push_reason(
    text: &mut String,
    cluster: &Cluster,
    refusal: Refusal,
) -> Result<(), OutOfMemory>
    ensures { OnOk result
        (string_bytes text.new ≡ string_bytes text.old ++ reason_words cluster.now refusal) }
{
    if let Refusal::DependencyNotStarted { dep } = refusal {
        text.push_str(" ")?;
        text.push_str(dep_word(cluster, dep))?;
    }
    Ok(())
}

// Adds the line of a refusal.
fn push_refusal(text: &mut String, cluster: &Cluster, refusal: Refusal) -> Result<(), OutOfMemory>
    ensures { OnOk result
        (string_bytes text.new ≡ string_bytes text.old ++ refusal_line cluster.now refusal) }
{
    write!(text, "refused {refusal}")?;
    push_reason(text, cluster, refusal)?;
    text.push_str("\n")?;
    Ok(())
}

/// The text of a reply.
#[tactic(auto, unfolding(crate::specs::Answers::answer_text))]
pub fn answer_text(alloc: Global, cluster: &Cluster, reply: &Reply) -> Result<Vec<u8>, OutOfMemory>
    ensures { IfOk result (λ text. text.items ≡ answer_text cluster.now reply.now) }
{
    // As much as most answers take.
    let mut text = String::with_capacity(alloc, 512)?;
    match reply {
        Reply::Done(notices) => {
            text.push_str("ok\n")?;
            push_notices(&mut text, cluster, notices.as_slice())?;
        }
        Reply::Refused(refusal) => {
            push_refusal(&mut text, cluster, *refusal)?;
        }
        Reply::Undone | Reply::Redone => text.push_str("ok\n")?,
        Reply::AtStart => text.push_str("refused at_start\n")?,
        Reply::AtEnd => text.push_str("refused at_end\n")?,
        Reply::Moved(count) => {
            text.push_str("ok ")?;
            push_decimal(&mut text, *count as u64)?;
            text.push_str("\n")?;
        }
        Reply::Seen { text: report, .. } => {
            let mut bytes = Vec::from_slice(alloc, b"ok\n".as_slice())?;
            bytes.extend_from_slice(report.as_slice())?;
            return Ok(bytes);
        }
    }
    Ok(text.into_bytes())
}

/// The text of a cluster's fault.
#[tactic(auto, unfolding(crate::specs::Answers::fault_text))]
pub fn fault_text(alloc: Global, fault: &ClusterFault) -> Result<String, OutOfMemory>
    ensures { IfOk result (λ text. string_bytes text ≡ fault_text fault.now) }
{
    Ok(format!(in alloc; "cluster refused {fault}\n")?)
}

/// The text of a line that is no command.
#[tactic(auto, unfolding(crate::specs::Answers::bad_text))]
pub fn bad_text(alloc: Global, number: u64) -> Result<String, OutOfMemory>
    ensures { IfOk result (λ text. string_bytes text ≡ bad_text number) }
{
    Ok(format!(in alloc; "bad line {number}\n")?)
}
