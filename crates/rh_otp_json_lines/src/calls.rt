//! Calls of an operator, and what they are answered.

ghost use Rattle.std.specs.Prelude.{◌≡◌, ◌++◌, codes, OnOk};
ghost use Rattle.rh_json_text.specs.Json.{json_string};
ghost use Rattle.rh_otp_text.specs.Asks.{verb_words, flag_words, end_words};
ghost use Rattle.rh_otp_json_lines.specs.Calls.{restart_json, last_json, call_json, error_json, error_in, verdict_json};

use rh_base::OutOfMemory;
use rh_json_lines::push_pair;
use rh_json_text::{push_string, push_text};
use rh_model::{App, Cluster, Node, Restart};
use rh_otp_model::Fault;
use rh_otp_sim::Verdict;
use rh_otp_system::Ask;
use rh_otp_text::{push_fault, push_verdict as push_verdict_words};
use std::alloc::Global;

// The field of a call's command: its word needs no escape.
#[tactic(auto, unfolding(rh_json_text::specs::Json::json_string, rh_json_text::specs::Json::escaped))]
fn verb_field(ask: Ask) -> &'static str
    ensures { result.now ≡ codes "\"call\":" ++ json_string (verb_words ask) }
{
    match ask {
        Ask::Start(_) => "\"call\":\"start\"",
        Ask::Stop => "\"call\":\"stop\"",
        Ask::Permit(_) => "\"call\":\"permit\"",
        Ask::Takeover(_) => "\"call\":\"takeover\"",
        Ask::Exit(_) => "\"call\":\"exit\"",
    }
}

// The field of a restart type.
#[tactic(auto, unfolding(rh_json_text::specs::Json::json_string, rh_json_text::specs::Json::escaped))]
fn restart_field(restart: Restart) -> &'static str
    ensures { result.now ≡ restart_json restart }
{
    match restart {
        Restart::Permanent => ",\"restart\":\"permanent\"",
        Restart::Transient => ",\"restart\":\"transient\"",
        Restart::Temporary => ",\"restart\":\"temporary\"",
    }
}

// The field of a permission.
fn permission_field(allow: bool) -> &'static str
    ensures { result.now ≡ codes ",\"permission\":" ++ flag_words allow }
{
    if allow {
        ",\"permission\":true"
    } else {
        ",\"permission\":false"
    }
}

// The field of how an application ends.
#[tactic(auto, unfolding(rh_json_text::specs::Json::json_string, rh_json_text::specs::Json::escaped))]
fn reason_field(is_normal: bool) -> &'static str
    ensures { result.now ≡ codes ",\"reason\":" ++ json_string (end_words is_normal) }
{
    if is_normal {
        ",\"reason\":\"normal\""
    } else {
        ",\"reason\":\"abnormal\""
    }
}

// The field of what a call's command says behind its names.
fn last_field(ask: Ask) -> &'static str
    ensures { result.now ≡ last_json ask }
{
    match ask {
        Ask::Start(restart) | Ask::Takeover(restart) => restart_field(restart),
        Ask::Stop => "",
        Ask::Permit(allow) => permission_field(allow),
        Ask::Exit(is_normal) => reason_field(is_normal),
    }
}

// Adds the fields of a call: the first word of its command, the application, the node, and what the command says behind them.
#[tactic(auto, unfolding(crate::specs::Calls::call_json))]
pub(crate) fn push_call(
    out: &mut Vec<u8>,
    cluster: &Cluster,
    ask: Ask,
    node: Node,
    app: App,
) -> Result<(), OutOfMemory>
    ensures { OnOk result
        (out.new.items ≡ out.old.items ++ call_json cluster.now ask node app) }
{
    push_text(out, verb_field(ask))?;
    push_pair(out, cluster, app, node)?;
    push_text(out, last_field(ask))
}

// Adds the field of an error.
#[tactic(auto, unfolding(crate::specs::Calls::error_json))]
pub(crate) fn push_error(
    alloc: Global,
    out: &mut Vec<u8>,
    cluster: &Cluster,
    fault: Fault,
) -> Result<(), OutOfMemory>
    ensures { OnOk result (out.new.items ≡ out.old.items ++ error_json cluster.now fault) }
{
    let mut words = String::new(alloc);
    push_fault(&mut words, cluster, fault)?;
    push_text(out, ",\"error\":")?;
    push_string(out, words.as_bytes())
}

// Adds the field of an answer's error, where it is one.
pub(crate) fn push_error_in(
    alloc: Global,
    out: &mut Vec<u8>,
    cluster: &Cluster,
    verdict: Verdict,
) -> Result<(), OutOfMemory>
    ensures { OnOk result (out.new.items ≡ out.old.items ++ error_in cluster.now verdict) }
{
    match verdict {
        Verdict::Done | Verdict::Refused(_) => Ok(()),
        Verdict::Failed(fault) => push_error(alloc, out, cluster, fault),
    }
}

/// Adds the fields of the answer to a call: its words, and the error alone, where it is one.
#[tactic(auto, unfolding(crate::specs::Calls::verdict_json))]
pub fn push_verdict(
    alloc: Global,
    out: &mut Vec<u8>,
    cluster: &Cluster,
    verdict: Verdict,
) -> Result<(), OutOfMemory>
    ensures { OnOk result (out.new.items ≡ out.old.items ++ verdict_json cluster.now verdict) }
{
    let mut words = String::new(alloc);
    push_verdict_words(&mut words, cluster, verdict)?;
    push_text(out, ",\"answer\":")?;
    push_string(out, words.as_bytes())?;
    push_error_in(alloc, out, cluster, verdict)
}
