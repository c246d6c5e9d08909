//! Why the matches of a command line in which the parser finds no fault mean no program, in words.

ghost use Rattle.std.specs.Prelude.{◌≡◌};
ghost use Rattle.clap.specs.Words.{found_of, rows_of, subcommand_rows_of};
ghost use Rattle.rh_command_line.specs.Asking.{why_no_explore, why_no_lint, why_no_program, why_no_rules, why_no_run, why_none, why_not};

use crate::reading::{is_live_in, rules_in};
use crate::table::{Subcommand, subcommand_named};
use clap::ArgMatches;

/// Why matches of the whole command line that name no program don't, in words.
pub fn why_none<'a>(matches: &ArgMatches<'_>) -> &'a str
    ensures { result.now ≡ why_none (subcommand_rows_of matches.now) }
{
    match matches.subcommand() {
        Some((name, matches)) => why_not(name, matches),
        None => "no program has this name and these options",
    }
}

// Why the subcommand with this word is no program with these matches.
fn why_not<'a>(word: &str, matches: &ArgMatches<'_>) -> &'a str
    ensures { result.now ≡ why_not word.now (rows_of (found_of matches.now)) }
{
    match subcommand_named(word) {
        Some(subcommand) => why_no_program(subcommand, matches),
        None => "no program has this name and these options",
    }
}

// Why a subcommand is no program with these matches.
fn why_no_program<'a>(subcommand: Subcommand, matches: &ArgMatches<'_>) -> &'a str
    ensures { result.now ≡ why_no_program subcommand (rows_of (found_of matches.now)) }
{
    match subcommand {
        Subcommand::Run => why_no_run(matches),
        Subcommand::Lint => why_no_lint(matches),
        Subcommand::Explore => why_no_explore(matches),
        Subcommand::Story | Subcommand::Verify | Subcommand::Sweep => why_no_rules(matches),
        _ => "no program has this name and these options",
    }
}

// Why there is no such run: no such rules, or other options that don't go together.
fn why_no_run<'a>(matches: &ArgMatches<'_>) -> &'a str
    ensures { result.now ≡ why_no_run (rows_of (found_of matches.now)) }
{
    match rules_in(matches) {
        Some(_) => "--json and --interactive go with neither --echo nor --strict",
        None => why_no_rules(matches),
    }
}

// Why nothing is listed so.
fn why_no_lint<'a>(matches: &ArgMatches<'_>) -> &'a str
    ensures { result.now ≡ why_no_lint (rows_of (found_of matches.now)) }
{
    match rules_in(matches) {
        Some(_) => "--all doesn't go with --rules otp25, by which all steps are told of",
        None => why_no_rules(matches),
    }
}

// Why there is no such search.
fn why_no_explore<'a>(matches: &ArgMatches<'_>) -> &'a str
    ensures { result.now ≡ why_no_explore (rows_of (found_of matches.now)) }
{
    match rules_in(matches) {
        Some(_) => {
            "--workers doesn't go with explore --rules otp25, which tries one list after the other"
        }
        None => why_no_rules(matches),
    }
}

// Why the matches name no rules with what they leave open: `--pick` has a word that means nothing there.
fn why_no_rules<'a>(matches: &ArgMatches<'_>) -> &'a str
    ensures { result.now ≡ why_no_rules (rows_of (found_of matches.now)) }
{
    if is_live_in(matches) {
        "with --rules otp25, --pick takes first, last or a number from 1 to 2147483646"
    } else {
        "--pick takes first or last, and a number only with --rules otp25"
    }
}
