//! What the parser of the command line is made of: the table of subcommands, as `clap` takes it.

ghost use Rattle.std.specs.Prelude.{◌≡◌, false, IfOk, IfErr};
ghost use Rattle.clap.specs.Words.{App, app_of, kind_of, rule_of};
ghost use Rattle.clap.specs.declared.error.kind.ErrorKind.{ErrorKind};
ghost use Rattle.clap.specs.declared.error.kind.ErrorKind.TheVariants as kind;
ghost use Rattle.rh_command_line.specs.Table.{flag_word};
ghost use Rattle.rh_command_line.specs.CommandLine.{IsCommand, flag_option, line, memory_option, pick_option, rules_option, setting_option, states_option, subcommand_line, with_settings, with_subcommands, word_option, workers_option};

use crate::help::{ABOUT, AFTER_HELP};
use crate::table::{Flag, MOST_MEBIBYTES, MOST_STATES, SUBCOMMANDS, Setting, Subcommand};
use clap::builder::ValueParser;
use clap::{Arg, ArgAction, Command, Error};
use rh_plans::MAX_WORKERS;
use std::alloc::Global;

/// The names that options take.
#[derive(Clone, Copy)]
pub struct Names<'a> {
    /// Those of the choices at a tie.
    pub picks: &'a [&'a str],
    /// Those of the rules by which a script is answered.
    pub rules: &'a [&'a str],
}

// What arguments are made of: the allocator, and the names that options take.
#[derive(Clone, Copy)]
pub struct Parts<'a> {
    pub alloc: Global,
    pub names: Names<'a>,
}

/// The command line with its subcommands, and these names.
pub fn whole_command<'a>(alloc: Global, names: Names<'a>) -> Result<Command<'a>, Error>
    ensures ok { IfOk result (λ command. app_of command ≡ line names.entry) }
    ensures err { IfErr result (λ error. kind_of error ≡ kind.OutOfMemory) }
{
    let bare = Command::new(alloc, "rehearse")
        .version("0.1.0")
        .about(ABOUT)
        .after_help(AFTER_HELP)
        .subcommand_required(true);
    let parts = Parts { alloc, names };
    let command = add_subcommands(parts, bare, SUBCOMMANDS.as_slice())?;
    Ok(command)
}

// The command with more subcommands.
fn add_subcommands<'a>(
    parts: Parts<'a>,
    bare: Command<'a>,
    subcommands: &[Subcommand],
) -> Result<Command<'a>, Error>
    ensures ok { (app : App) → IsCommand app bare.entry
        → IfOk result (IsCommand (with_subcommands parts.entry.names app subcommands.now)) }
    ensures err { IfErr result (λ error. kind_of error ≡ kind.OutOfMemory) }
{
    let mut command = bare;
    for subcommand in subcommands {
        let added = subcommand_command(parts, *subcommand)?;
        command = command.subcommand(added)?;
    }
    Ok(command)
}

// A subcommand, with its options and its texts of help.
fn subcommand_command<'a>(parts: Parts<'a>, subcommand: Subcommand) -> Result<Command<'a>, Error>
    ensures ok { IfOk result (IsCommand (subcommand_line parts.entry.names subcommand)) }
    ensures err { IfErr result (λ error. kind_of error ≡ kind.OutOfMemory) }
{
    let entry = subcommand.entry();
    let bare = Command::new(parts.alloc, entry.word)
        .about(entry.about)
        .after_help(entry.after_help);
    add_settings(parts, bare, entry.settings)
}

// The command with more options.
fn add_settings<'a>(
    parts: Parts<'a>,
    bare: Command<'a>,
    settings: &[Setting],
) -> Result<Command<'a>, Error>
    ensures ok { (app : App) → IsCommand app bare.entry
        → IfOk result (IsCommand (with_settings parts.entry.names app settings.now)) }
    ensures err { IfErr result (λ error. kind_of error ≡ kind.OutOfMemory) }
{
    let mut command = bare;
    for setting in settings {
        command = command.arg(argument(parts, *setting))?;
    }
    Ok(command)
}

// An option, as an argument.
fn argument<'a>(parts: Parts<'a>, setting: Setting) -> Arg<'a>
    ensures rule { rule_of result ≡ setting_option parts.entry.names setting }
    ensures local { result.global ≡ false }
{
    match setting {
        Setting::Pick => pick_argument(parts),
        Setting::PickOrNumber => pick_or_number_argument(parts),
        Setting::Rules => rules_argument(parts),
        Setting::Workers => workers_argument(parts),
        Setting::States => states_argument(parts),
        Setting::Memory => memory_argument(parts),
        Setting::Flag(flag) => flag_argument(parts, flag),
    }
}

// The choice at a tie, as an argument.
fn pick_argument<'a>(parts: Parts<'a>) -> Arg<'a>
    ensures rule { rule_of result ≡ pick_option parts.entry.names }
    ensures local { result.global ≡ false }
{
    Arg::new(parts.alloc, "pick")
        .long("pick")
        .action(ArgAction::Set)
        .value_parser(ValueParser::Names(parts.names.picks))
        .default_value("first")
        .help("At a tie, takes the node that is written first or last in its group")
}

// The same where a number may stand, too, as an argument.
fn pick_or_number_argument<'a>(parts: Parts<'a>) -> Arg<'a>
    ensures rule { rule_of result ≡ word_option }
    ensures local { result.global ≡ false }
{
    Arg::new(parts.alloc, "pick")
        .long("pick")
        .action(ArgAction::Set)
        .value_parser(ValueParser::String)
        .default_value("first")
        .help(
            "At a tie, takes the node that is written first or last in its group; on live nodes, takes messages so, or as a number decides [values: first, last, N]",
        )
}

// The rules by which a script is answered, as an argument.
fn rules_argument<'a>(parts: Parts<'a>) -> Arg<'a>
    ensures rule { rule_of result ≡ rules_option parts.entry.names }
    ensures local { result.global ≡ false }
{
    Arg::new(parts.alloc, "rules")
        .long("rules")
        .action(ArgAction::Set)
        .value_parser(ValueParser::Names(parts.names.rules))
        .default_value("manual")
        .help("Answers by the manual's rules, or as live nodes of OTP 25 do")
}

// The number of workers, as an argument.
fn workers_argument<'a>(parts: Parts<'a>) -> Arg<'a>
    ensures rule { rule_of result ≡ workers_option }
    ensures local { result.global ≡ false }
{
    Arg::new(parts.alloc, "workers")
        .long("workers")
        .action(ArgAction::Set)
        .value_parser(ValueParser::Unsigned(1, MAX_WORKERS as u64))
        .default_value("1")
        .help("Shares the work among so many threads, 1 to 16")
}

// The number of states that are kept, as an argument.
fn states_argument<'a>(parts: Parts<'a>) -> Arg<'a>
    ensures rule { rule_of result ≡ states_option }
    ensures local { result.global ≡ false }
{
    Arg::new(parts.alloc, "states")
        .long("states")
        .action(ArgAction::Set)
        .value_parser(ValueParser::Unsigned(1, MOST_STATES as u64))
        .default_value("1000000")
        .help(
            "Keeps at most so many states, and ends unfinished where there are more; on live nodes tries at most so many lists, and ends unfinished behind as many",
        )
}

// How much memory the keys of the states take, as an argument.
fn memory_argument<'a>(parts: Parts<'a>) -> Arg<'a>
    ensures rule { rule_of result ≡ memory_option }
    ensures local { result.global ≡ false }
{
    Arg::new(parts.alloc, "memory")
        .long("memory")
        .action(ArgAction::Set)
        .value_parser(ValueParser::Unsigned(1, MOST_MEBIBYTES as u64))
        .default_value("1024")
        .help(
            "Keeps states whose keys take so many MiB at most, and ends unfinished where there are more",
        )
}

// A word that takes no value, as an argument.
fn flag_argument<'a>(parts: Parts<'a>, flag: Flag) -> Arg<'a>
    ensures rule { rule_of result ≡ flag_option (flag_word flag) }
    ensures local { result.global ≡ false }
{
    let word = flag.word();
    Arg::new(parts.alloc, word)
        .long(word)
        .action(ArgAction::SetTrue)
        .help(flag.help())
}
