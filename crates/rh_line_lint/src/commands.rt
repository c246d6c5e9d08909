//! How commands are written, and their words, as the table of `rh_script` has them.

ghost use Rattle.std.specs.Prelude.{◌≡◌, ◌++◌, IfOk, OnOk, map};
ghost use Rattle.std.specs.String.{string_bytes};
ghost use Rattle.rh_line_lint.specs.Commands.{argument_words, command_words, usage_of};

use rh_base::OutOfMemory;
use rh_script::{Argument, VERBS, Verb};
use std::alloc::Global;

/// The words of all commands.
#[tactic(auto, unfolding(crate::specs::Commands::command_words))]
pub fn command_words(alloc: Global) -> Result<Vec<&'static str>, OutOfMemory>
    ensures { IfOk result (λ words. map (λ word. word.now) words.items ≡ command_words) }
{
    let mut words = Vec::new(alloc);
    for verb in VERBS.as_slice() {
        words.push(verb.form().word)?;
    }
    Ok(words)
}

// What stands for an argument.
fn argument_words(argument: Argument) -> &'static str
    ensures { result.now ≡ argument_words argument }
{
    match argument {
        Argument::Node => "NODE",
        Argument::App => "APPLICATION",
        Argument::Restart => "permanent|transient|temporary",
        Argument::Truth => "true|false",
        Argument::Ending => "normal|abnormal",
        Argument::Milliseconds => "MILLISECONDS",
    }
}

/// Adds how a command is written.
pub fn push_usage(text: &mut String, verb: Verb) -> Result<(), OutOfMemory>
    ensures { OnOk result (string_bytes text.new ≡ string_bytes text.old ++ usage_of verb) }
{
    let form = verb.form();
    text.push_str(form.word)?;
    for argument in form.arguments {
        let words = argument_words(*argument);
        write!(text, " {words}")?;
    }
    Ok(())
}
