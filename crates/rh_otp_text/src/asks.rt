//! Calls of an operator, as the commands that make them.

ghost use Rattle.std.specs.Prelude.{◌≡◌, ◌++◌, codes, OnOk};
ghost use Rattle.std.specs.String.{string_bytes};
ghost use Rattle.rh_otp_text.specs.Asks.{verb_words, flag_words, end_words, last_words, ask_words};

use rh_base::OutOfMemory;
use rh_calls::{app_word, node_word, restart_word};
use rh_model::{App, Cluster, Node};
use rh_otp_system::Ask;

// The first word of the command.
fn verb_word(ask: Ask) -> &'static str
    ensures { result.now ≡ verb_words ask }
{
    match ask {
        Ask::Start(_) => "start",
        Ask::Stop => "stop",
        Ask::Permit(_) => "permit",
        Ask::Takeover(_) => "takeover",
        Ask::Exit(_) => "exit",
    }
}

// A permission.
fn flag_word(allow: bool) -> &'static str
    ensures { result.now ≡ flag_words allow }
{
    if allow { "true" } else { "false" }
}

// How an application ends.
fn end_word(is_normal: bool) -> &'static str
    ensures { result.now ≡ end_words is_normal }
{
    if is_normal { "normal" } else { "abnormal" }
}

// Adds its last word, with the space before it.
fn push_last(text: &mut String, ask: Ask) -> Result<(), OutOfMemory>
    ensures { OnOk result (string_bytes text.new ≡ string_bytes text.old ++ last_words ask) }
{
    let word = match ask {
        Ask::Start(restart) | Ask::Takeover(restart) => restart_word(restart),
        Ask::Permit(allow) => flag_word(allow),
        Ask::Exit(is_normal) => end_word(is_normal),
        Ask::Stop => return Ok(()),
    };
    text.push_str(" ")?;
    text.push_str(word)?;
    Ok(())
}

/// Adds a call, as the command that makes it.
#[tactic(auto, unfolding(crate::specs::Asks::ask_words))]
pub fn push_ask(
    text: &mut String,
    cluster: &Cluster,
    ask: Ask,
    node: Node,
    app: App,
) -> Result<(), OutOfMemory>
    ensures { OnOk result
        (string_bytes text.new ≡ string_bytes text.old ++ ask_words cluster.now ask node app) }
{
    text.push_str(verb_word(ask))?;
    text.push_str(" ")?;
    text.push_str(node_word(cluster, node))?;
    text.push_str(" ")?;
    text.push_str(app_word(cluster, app))?;
    push_last(text, ask)
}
