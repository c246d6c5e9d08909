//! The lines of what has happened.

ghost use Rattle.std.specs.Prelude.{◌≡◌, ◌++◌, codes, OnOk};
ghost use Rattle.std.specs.String.{string_bytes};
ghost use Rattle.rh_otp_text.specs.Lines.{kind_of, refusal_words_with, verdict_words, of_pair, answered_words, line_words, line_text};

use crate::asks::push_ask;
use crate::faults::push_fault;
use rh_base::OutOfMemory;
use rh_calls::{app_word, node_word, push_kind};
use rh_model::{App, Cluster, Node};
use rh_otp_model::{Fault, StartType};
use rh_otp_sim::{Line, Verdict};
use rh_otp_system::Ask;
use rh_rules::Refusal;
use rh_script::push_reason;
use rh_state::Kind;

/// How an application was started, in the manual's words.
pub fn kind_of(kind: StartType) -> Kind
    ensures { result ≡ kind_of kind }
{
    match kind {
        StartType::Normal => Kind::Normal,
        StartType::Failover(node) => Kind::Failover(node),
        StartType::Takeover(node) => Kind::Takeover(node),
    }
}

// Adds why a step, or a call, was refused.
pub(crate) fn push_refusal(
    text: &mut String,
    cluster: &Cluster,
    refusal: Refusal,
) -> Result<(), OutOfMemory>
    ensures { OnOk result (string_bytes text.new
        ≡ string_bytes text.old ++ refusal_words_with cluster.now refusal) }
{
    write!(text, "refused {refusal}")?;
    push_reason(text, cluster, refusal)?;
    Ok(())
}

/// Adds what the answer to a call says: `ok`, `refused` and why, or `error` and why.
#[tactic(auto, unfolding(crate::specs::Lines::verdict_words))]
pub fn push_verdict(
    text: &mut String,
    cluster: &Cluster,
    verdict: Verdict,
) -> Result<(), OutOfMemory>
    ensures { OnOk result
        (string_bytes text.new ≡ string_bytes text.old ++ verdict_words cluster.now verdict) }
{
    match verdict {
        Verdict::Done => {
            text.push_str("ok")?;
            Ok(())
        }
        Verdict::Refused(refusal) => push_refusal(text, cluster, refusal),
        Verdict::Failed(fault) => {
            text.push_str("error ")?;
            push_fault(text, cluster, fault)
        }
    }
}

// Adds a word, an application and a node.
fn push_of_pair(
    text: &mut String,
    cluster: &Cluster,
    word: &str,
    app: App,
    node: Node,
) -> Result<(), OutOfMemory>
    ensures { OnOk result (string_bytes text.new
        ≡ string_bytes text.old ++ of_pair cluster.now word.now app node) }
{
    text.push_str(word)?;
    text.push_str(app_word(cluster, app))?;
    text.push_str(" ")?;
    text.push_str(node_word(cluster, node))?;
    Ok(())
}

// Adds the answer to a call of an earlier command.
fn push_answered(
    text: &mut String,
    cluster: &Cluster,
    ask: Ask,
    node: Node,
    app: App,
) -> Result<(), OutOfMemory>
    ensures { OnOk result (string_bytes text.new
        ≡ string_bytes text.old ++ answered_words cluster.now ask node app) }
{
    text.push_str("answered ")?;
    push_ask(text, cluster, ask, node, app)?;
    text.push_str(": ")?;
    Ok(())
}

// Adds a start, and how it was.
fn push_started(
    text: &mut String,
    cluster: &Cluster,
    app: App,
    node: Node,
    kind: StartType,
) -> Result<(), OutOfMemory>
    ensures { OnOk result (string_bytes text.new
        ≡ string_bytes text.old ++ line_words cluster.now (Line.Started app node kind)) }
{
    push_of_pair(text, cluster, "started ", app, node)?;
    text.push_str(" ")?;
    push_kind(text, cluster, kind_of(kind))
}

// Adds a start by the boot script that has failed, and why.
fn push_failed(
    text: &mut String,
    cluster: &Cluster,
    app: App,
    node: Node,
    fault: Fault,
) -> Result<(), OutOfMemory>
    ensures { OnOk result (string_bytes text.new
        ≡ string_bytes text.old ++ line_words cluster.now (Line.Failed app node fault)) }
{
    push_of_pair(text, cluster, "failed ", app, node)?;
    text.push_str(" ")?;
    push_fault(text, cluster, fault)
}

// Adds what has happened, without the line's end.
fn push_words(text: &mut String, cluster: &Cluster, line: Line) -> Result<(), OutOfMemory>
    ensures { OnOk result
        (string_bytes text.new ≡ string_bytes text.old ++ line_words cluster.now line) }
{
    match line {
        Line::Up(node) => {
            text.push_str("up ")?;
            text.push_str(node_word(cluster, node))?;
            Ok(())
        }
        Line::Ended(node) => {
            text.push_str("ended ")?;
            text.push_str(node_word(cluster, node))?;
            Ok(())
        }
        Line::Started(app, node, kind) => push_started(text, cluster, app, node, kind),
        Line::Stopped(app, node) => push_of_pair(text, cluster, "stopped ", app, node),
        Line::Failed(app, node, fault) => push_failed(text, cluster, app, node, fault),
        Line::Answered(ask, node, app, verdict) => {
            push_answered(text, cluster, ask, node, app)?;
            push_verdict(text, cluster, verdict)
        }
        Line::Waits(app, node) => push_of_pair(text, cluster, "waits ", app, node),
        Line::Pending(app, node) => push_of_pair(text, cluster, "pending ", app, node),
    }
}

/// Adds the line of what has happened.
#[tactic(auto, unfolding(crate::specs::Lines::line_text))]
pub fn push_line(text: &mut String, cluster: &Cluster, line: Line) -> Result<(), OutOfMemory>
    ensures { OnOk result
        (string_bytes text.new ≡ string_bytes text.old ++ line_text cluster.now line) }
{
    push_words(text, cluster, line)?;
    text.push_str("\n")?;
    Ok(())
}
