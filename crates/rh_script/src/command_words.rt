//! Calls as the commands that ask them.

ghost use Rattle.std.specs.Prelude.{◌≡◌, ◌++◌, OnOk, IfOk};
ghost use Rattle.std.specs.List.{flat_map};
ghost use Rattle.std.specs.Fmt.{decimal};
ghost use Rattle.std.specs.String.{string_bytes};
ghost use Rattle.rh_script.specs.CommandWords.{truth_word, reason_word, spaced, argument_words, command_words};

use crate::forms::{Argument, Given, said};
use rh_base::OutOfMemory;
use rh_calls::{Call, app_word, node_word, push_decimal, restart_word};
use rh_cluster::Cluster;
use std::alloc::Global;

// The word of a permission.
pub fn truth_word(allow: bool) -> &'static str
    ensures { result.now ≡ truth_word allow }
{
    if allow { "true" } else { "false" }
}

// The word of a reason to end.
pub fn reason_word(normal: bool) -> &'static str
    ensures { result.now ≡ reason_word normal }
{
    if normal { "normal" } else { "abnormal" }
}

// Adds a word behind a space, where there is one.
fn push_word(text: &mut String, word: Option<&str>) -> Result<(), OutOfMemory>
    ensures { OnOk result
        (string_bytes text.new ≡ string_bytes text.old ++ spaced (λ word. word.now) word.entry) }
{
    if let Some(word) = word {
        text.push_str(" ")?;
        text.push_str(word)?;
    }
    Ok(())
}

// Adds a number likewise.
fn push_number(text: &mut String, number: Option<u64>) -> Result<(), OutOfMemory>
    ensures { OnOk result (string_bytes text.new ≡ string_bytes text.old ++ spaced decimal number) }
{
    if let Some(number) = number {
        text.push_str(" ")?;
        push_decimal(text, number)?;
    }
    Ok(())
}

// Adds an argument of this kind behind a space, where one is given.
fn push_argument(
    text: &mut String,
    cluster: &Cluster,
    argument: Argument,
    given: Given,
) -> Result<(), OutOfMemory>
    ensures { OnOk result (string_bytes text.new
        ≡ string_bytes text.old ++ argument_words cluster.now given argument) }
{
    match argument {
        Argument::Node => push_word(text, given.node.map(|node| node_word(cluster, node))),
        Argument::App => push_word(text, given.app.map(|app| app_word(cluster, app))),
        Argument::Restart => push_word(text, given.restart.map(|restart| restart_word(restart))),
        Argument::Truth => push_word(text, given.truth.map(truth_word)),
        Argument::Ending => push_word(text, given.ending.map(reason_word)),
        Argument::Milliseconds => push_number(text, given.ms),
    }
}

// Adds arguments of these kinds.
fn push_arguments(
    text: &mut String,
    cluster: &Cluster,
    arguments: &[Argument],
    given: Given,
) -> Result<(), OutOfMemory>
    ensures { OnOk result (string_bytes text.new
        ≡ string_bytes text.old ++ flat_map (argument_words cluster.now given) arguments.now) }
{
    for argument in arguments {
        push_argument(text, cluster, *argument, given)?;
    }
    Ok(())
}

/// The command that asks a call, as a line of a script without its end. A number that no node or no application has is
/// shown as a question mark.
#[tactic(auto, unfolding(crate::specs::CommandWords::command_words))]
pub fn command_text(alloc: Global, cluster: &Cluster, call: Call) -> Result<String, OutOfMemory>
    ensures { IfOk result (λ text. string_bytes text ≡ command_words cluster.now call) }
{
    let (verb, given) = said(call);
    let form = verb.form();
    let mut text = String::new(alloc);
    text.push_str(form.word)?;
    push_arguments(&mut text, cluster, form.arguments, given)?;
    Ok(text)
}
