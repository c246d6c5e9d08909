//! The table of subcommands: the word of each, its options, its texts of help, and the program that it means.

ghost use Rattle.std.specs.Prelude.{◌≡◌, position};
ghost use Rattle.std.specs.Str.{bytes_eq};
ghost use Rattle.rh_command_line.specs.Table.{flag_word, settings_of, subcommand_named, word_of};

use crate::explore_help::{EXPLORE_ABOUT, EXPLORE_AFTER_HELP};
use crate::help::{
    CHECK_ABOUT, CHECK_AFTER_HELP, LINT_ABOUT, LINT_AFTER_HELP, RUN_ABOUT, RUN_AFTER_HELP,
    SESSIONS_ABOUT, SESSIONS_AFTER_HELP, STORY_ABOUT, STORY_AFTER_HELP, SWEEP_ABOUT,
    SWEEP_AFTER_HELP, VERIFY_ABOUT, VERIFY_AFTER_HELP,
};

/// A word of a subcommand that takes no value: it is given, or it isn't.
#[derive(Clone, Copy)]
pub enum Flag {
    /// The command is printed before its answer.
    Echo,
    /// A refused step is a fault.
    Strict,
    /// The answers are lines of JSON.
    Json,
    /// The cluster file stands before the script.
    Whole,
    /// Hints count as warnings do.
    Hints,
    /// The steps behind one that hangs are told of.
    All,
    /// Each line is answered before more is read.
    Interactive,
}

impl Flag {
    /// Its word, which stands behind `--`.
    pub fn word<'a>(self) -> &'a str
        ensures { result.now ≡ flag_word self }
    {
        match self {
            Flag::Echo => "echo",
            Flag::Strict => "strict",
            Flag::Json => "json",
            Flag::Whole => "whole",
            Flag::Hints => "strict",
            Flag::All => "all",
            Flag::Interactive => "interactive",
        }
    }

    /// What help says of it.
    pub fn help<'a>(self) -> &'a str {
        match self {
            Flag::Echo => "Prints each command before its answer",
            Flag::Strict => "Ends with status 9 where a step was refused",
            Flag::Json => "Answers by lines of JSON, for programs",
            Flag::Whole => "Prints the cluster file before the script",
            Flag::Hints => "Ends with status 9 where there is a hint, too",
            Flag::All => "Tells of steps behind one that hangs on live nodes, too",
            Flag::Interactive => "Answers each line as soon as it has come",
        }
    }
}

/// The most states that a search can be asked to keep.
pub const MOST_STATES: usize = 4_294_967_295;

/// The most mebibytes that the keys of a search can be asked to take: a tebibyte.
pub const MOST_MEBIBYTES: usize = 1_048_576;

/// The greatest number that can decide the order of messages: two less than 2^31.
pub const MOST_NUMBER: usize = 2_147_483_646;

/// An option of a subcommand.
#[derive(Clone, Copy)]
pub enum Setting {
    /// The choice at a tie.
    Pick,
    /// The same, or on live nodes the order of messages, which a number can decide.
    PickOrNumber,
    /// The rules by which a script is answered.
    Rules,
    /// The number of workers.
    Workers,
    /// How many states are kept.
    States,
    /// How much memory their keys take.
    Memory,
    /// A word without a value.
    Flag(Flag),
}

static JSON: [Setting; 1] = [Setting::Flag(Flag::Json)];

static PICK: [Setting; 1] = [Setting::Pick];

static PICK_RULES: [Setting; 2] = [Setting::PickOrNumber, Setting::Rules];

static PICK_RULES_WHOLE: [Setting; 3] = [
    Setting::PickOrNumber,
    Setting::Rules,
    Setting::Flag(Flag::Whole),
];

static PICK_RULES_ALL_HINTS_JSON: [Setting; 5] = [
    Setting::PickOrNumber,
    Setting::Rules,
    Setting::Flag(Flag::All),
    Setting::Flag(Flag::Hints),
    Setting::Flag(Flag::Json),
];

static PICK_RULES_WORKERS_JSON: [Setting; 4] = [
    Setting::PickOrNumber,
    Setting::Rules,
    Setting::Workers,
    Setting::Flag(Flag::Json),
];

static PICK_RULES_WORKERS_STATES_MEMORY_JSON: [Setting; 6] = [
    Setting::PickOrNumber,
    Setting::Rules,
    Setting::Workers,
    Setting::States,
    Setting::Memory,
    Setting::Flag(Flag::Json),
];

static PICK_RULES_ECHO_STRICT_JSON_INTERACTIVE: [Setting; 6] = [
    Setting::PickOrNumber,
    Setting::Rules,
    Setting::Flag(Flag::Echo),
    Setting::Flag(Flag::Strict),
    Setting::Flag(Flag::Json),
    Setting::Flag(Flag::Interactive),
];

/// The subcommands.
#[derive(Clone, Copy)]
pub enum Subcommand {
    Run,
    Check,
    Lint,
    Story,
    Verify,
    Sessions,
    Sweep,
    Explore,
}

/// All of them, in the order in which help lists them.
pub static SUBCOMMANDS: [Subcommand; 8] = [
    Subcommand::Run,
    Subcommand::Check,
    Subcommand::Lint,
    Subcommand::Story,
    Subcommand::Verify,
    Subcommand::Sessions,
    Subcommand::Sweep,
    Subcommand::Explore,
];

/// What the command line has of a subcommand: its word, its options, and its texts of help.
#[derive(Clone, Copy)]
pub struct Entry<'a> {
    pub word: &'a str,
    pub settings: &'a [Setting],
    pub about: &'a str,
    pub after_help: &'a str,
}

impl Subcommand {
    /// What the command line has of it.
    pub fn entry<'a>(self) -> Entry<'a>
        ensures word { result.word.now ≡ word_of self }
        ensures settings { result.settings.now ≡ settings_of self }
    {
        match self {
            Subcommand::Run => entry_of(
                "run",
                PICK_RULES_ECHO_STRICT_JSON_INTERACTIVE.as_slice(),
                RUN_ABOUT,
                RUN_AFTER_HELP,
            ),
            Subcommand::Check => {
                entry_of("check", JSON.as_slice(), CHECK_ABOUT, CHECK_AFTER_HELP)
            }
            Subcommand::Lint => entry_of(
                "lint",
                PICK_RULES_ALL_HINTS_JSON.as_slice(),
                LINT_ABOUT,
                LINT_AFTER_HELP,
            ),
            Subcommand::Story => entry_of(
                "story",
                PICK_RULES_WHOLE.as_slice(),
                STORY_ABOUT,
                STORY_AFTER_HELP,
            ),
            Subcommand::Verify => entry_of(
                "verify",
                PICK_RULES.as_slice(),
                VERIFY_ABOUT,
                VERIFY_AFTER_HELP,
            ),
            Subcommand::Sessions => entry_of(
                "sessions",
                PICK.as_slice(),
                SESSIONS_ABOUT,
                SESSIONS_AFTER_HELP,
            ),
            Subcommand::Sweep => entry_of(
                "sweep",
                PICK_RULES_WORKERS_JSON.as_slice(),
                SWEEP_ABOUT,
                SWEEP_AFTER_HELP,
            ),
            Subcommand::Explore => entry_of(
                "explore",
                PICK_RULES_WORKERS_STATES_MEMORY_JSON.as_slice(),
                EXPLORE_ABOUT,
                EXPLORE_AFTER_HELP,
            ),
        }
    }
}

// This word with these options, and these texts of help.
fn entry_of<'a>(
    word: &'a str,
    settings: &'a [Setting],
    about: &'a str,
    after_help: &'a str,
) -> Entry<'a>
    ensures word { result.word.now ≡ word.now }
    ensures settings { result.settings.now ≡ settings.now }
{
    Entry {
        word,
        settings,
        about,
        after_help,
    }
}

// Is this the word of the subcommand?
fn is_word(word: &str, subcommand: Subcommand) -> bool
    ensures { result ≡ bytes_eq word.now (word_of subcommand) }
{
    word == subcommand.entry().word
}

// The place of the first of these subcommands that has this word.
fn place_of(word: &str, subcommands: &[Subcommand]) -> Option<usize>
    ensures { result ≡ position (λ s. bytes_eq word.now (word_of s)) subcommands.now }
{
    subcommands
        .iter()
        .position(|subcommand| is_word(word, *subcommand))
}

/// The subcommand with this word.
#[tactic(auto, unfolding(crate::specs::Table::subcommand_named))]
pub fn subcommand_named(word: &str) -> Option<Subcommand>
    ensures { result ≡ subcommand_named word.now }
{
    let subcommands = SUBCOMMANDS.as_slice();
    let at = place_of(word, subcommands)?;
    subcommands.get(at).copied()
}
