//! What program the matches of a command line mean.

ghost use Rattle.std.specs.Prelude.{◌≡◌, ◌≢◌, IfSome, Some, codes, if◌then◌else◌};
ghost use Rattle.std.specs.Option.{option_map};
ghost use Rattle.clap.specs.Words.{first_of, found_of, rows_of, subcommand_rows_of};
ghost use Rattle.rh_rules.specs.declared.pick.Pick.TheVariants as pick;
ghost use Rattle.rh_plans.specs.Workers.{AreWorkers};
ghost use Rattle.rh_asked.specs.Programs.{IsStaffed};
ghost use Rattle.rh_asked.specs.declared.program.Program.TheVariants as program;
ghost use Rattle.rh_command_line.specs.Asking.{allowed, allowed_memory, allowed_number, allowed_states, answering, explore_by, explore_of, flag_in, is_given, is_live, is_live_in, lint_by, lint_of, live_answering, live_explore, live_lint, live_run, live_sweep, manual_sweep, memory_in, number_in, order_in, order_of, pick_in, pick_named, program_among, program_in, program_of, room_in, rules_in, run_as, run_in, run_of, states_in, story_of, sweep_of, verify_of, workers_in};

use crate::rules::Rules;
use crate::table::{Flag, MOST_MEBIBYTES, MOST_NUMBER, MOST_STATES, Subcommand, subcommand_named};
use clap::ArgMatches;
use rh_asked::{LintManner, Manner, Program, SearchRoom};
use rh_otp_net::Order;
use rh_plans::MAX_WORKERS;
use rh_rules::Pick;

/// The program that the matches of the whole command line name.
pub fn program_among(matches: &ArgMatches<'_>) -> Option<Program>
    ensures named { result ≡ program_among (subcommand_rows_of matches.now) }
    ensures staffed { IfSome result IsStaffed }
{
    let (name, matches) = matches.subcommand()?;
    program_in(name, matches)
}

// The program of the subcommand with this word and these matches.
fn program_in(word: &str, matches: &ArgMatches<'_>) -> Option<Program>
    ensures named { result ≡ program_in word.now (rows_of (found_of matches.now)) }
    ensures staffed { IfSome result IsStaffed }
{
    let subcommand = subcommand_named(word)?;
    program_of(subcommand, matches)
}

// The program that a subcommand means with these matches. A number of workers that there may not be means none.
fn program_of(subcommand: Subcommand, matches: &ArgMatches<'_>) -> Option<Program>
    ensures named { result ≡ program_of subcommand (rows_of (found_of matches.now)) }
    ensures staffed { IfSome result IsStaffed }
{
    match subcommand {
        Subcommand::Check => Some(check_of(flag_in(matches, Flag::Json))),
        Subcommand::Run => run_in(matches),
        Subcommand::Story => Some(story_of(rules_in(matches)?, flag_in(matches, Flag::Whole))),
        Subcommand::Lint => lint_by(
            rules_in(matches)?,
            flag_in(matches, Flag::All),
            flag_in(matches, Flag::Hints),
            flag_in(matches, Flag::Json),
        ),
        Subcommand::Verify => Some(verify_of(rules_in(matches)?)),
        Subcommand::Sessions => Some(Program::Sessions(pick_in(matches))),
        Subcommand::Sweep => Some(sweep_of(
            rules_in(matches)?,
            flag_in(matches, Flag::Json),
            workers_in(matches)?,
        )),
        Subcommand::Explore => explore_by(
            rules_in(matches)?,
            flag_in(matches, Flag::Json),
            room_in(matches)?,
            workers_in(matches)?,
        ),
    }
}

// A check, by JSON or not.
fn check_of(json: bool) -> Program
    ensures named { result ≡ if json then program.CheckJson else program.Check }
    ensures staffed { IsStaffed result }
{
    if json {
        Program::CheckJson
    } else {
        Program::Check
    }
}

// A run by the rules that are named.
fn run_in(matches: &ArgMatches<'_>) -> Option<Program>
    ensures named { result ≡ run_in (rows_of (found_of matches.now)) }
    ensures staffed { IfSome result IsStaffed }
{
    let rules = rules_in(matches)?;
    let echo = flag_in(matches, Flag::Echo);
    let strict = flag_in(matches, Flag::Strict);
    let json = flag_in(matches, Flag::Json);
    let interactive = flag_in(matches, Flag::Interactive);
    match rules {
        Rules::Manual(pick) => run_as(pick, echo, strict, json, interactive),
        Rules::Live(order) => live_run(order, echo, strict, json, interactive),
    }
}

// A run on live nodes, by JSON or not, line by line or not: only the one that is neither has a manner.
fn live_run(
    order: Order,
    echo: bool,
    strict: bool,
    json: bool,
    interactive: bool,
) -> Option<Program>
    ensures named { result ≡ live_run order echo strict json interactive }
    ensures staffed { IfSome result IsStaffed }
{
    let manner = Manner { echo, strict };
    if !json && !interactive {
        Some(Program::RunLive(order, manner))
    } else if manner.echo || manner.strict {
        None
    } else {
        Some(live_answering(order, json, interactive))
    }
}

// One by JSON, line by line, or both.
fn live_answering(order: Order, json: bool, interactive: bool) -> Program
    ensures named { result ≡ live_answering order json interactive }
    ensures staffed { IsStaffed result }
{
    if interactive && json {
        Program::DialogueLiveJson(order)
    } else if interactive {
        Program::DialogueLive(order)
    } else {
        Program::RunLiveJson(order)
    }
}

// A run, by JSON or not, line by line or not: only the one that is neither has another manner.
fn run_as(pick: Pick, echo: bool, strict: bool, json: bool, interactive: bool) -> Option<Program>
    ensures named { result ≡ run_as pick echo strict json interactive }
    ensures staffed { IfSome result IsStaffed }
{
    if !json && !interactive {
        Some(run_of(pick, echo, strict))
    } else if echo || strict {
        None
    } else {
        Some(answering_run(pick, json, interactive))
    }
}

// A run by JSON, line by line, or both.
fn answering_run(pick: Pick, json: bool, interactive: bool) -> Program
    ensures named { result ≡ answering pick json interactive }
    ensures staffed { IsStaffed result }
{
    if !interactive {
        Program::RunJson(pick)
    } else if json {
        Program::DialogueJson(pick)
    } else {
        Program::Dialogue(pick)
    }
}

// A run: with no word beside its choice it is the plain one.
fn run_of(pick: Pick, echo: bool, strict: bool) -> Program
    ensures named { result ≡ run_of pick echo strict }
    ensures staffed { IsStaffed result }
{
    if echo || strict {
        Program::RunIn(pick, Manner { echo, strict })
    } else {
        Program::Run(pick)
    }
}

// A list of what is wrong, by these rules and in this manner.
fn lint_by(rules: Rules, all: bool, strict: bool, json: bool) -> Option<Program>
    ensures named { result ≡ lint_by rules all strict json }
    ensures staffed { IfSome result IsStaffed }
{
    match rules {
        Rules::Manual(pick) => Some(lint_of(pick, all, strict, json)),
        Rules::Live(order) => live_lint(order, all, strict, json),
    }
}

// On live nodes all steps are told of, so nobody asks for that.
fn live_lint(order: Order, all: bool, strict: bool, json: bool) -> Option<Program>
    ensures named { result ≡ live_lint order all strict json }
    ensures staffed { IfSome result IsStaffed }
{
    if all {
        None
    } else {
        Some(Program::LintLive(order, LintManner { all, strict, json }))
    }
}

// By the manual's rules.
fn lint_of(pick: Pick, all: bool, strict: bool, json: bool) -> Program
    ensures named { result ≡ lint_of pick all strict json }
    ensures staffed { IsStaffed result }
{
    Program::Lint(pick, LintManner { all, strict, json })
}

// A story by these rules, whole or not.
fn story_of(rules: Rules, whole: bool) -> Program
    ensures named { result ≡ story_of rules whole }
    ensures staffed { IsStaffed result }
{
    match rules {
        Rules::Manual(pick) => Program::Story(pick, whole),
        Rules::Live(order) => Program::StoryLive(order, whole),
    }
}

// A verification by these rules.
fn verify_of(rules: Rules) -> Program
    ensures named { result ≡ verify_of rules }
    ensures staffed { IsStaffed result }
{
    match rules {
        Rules::Manual(pick) => Program::Verify(pick),
        Rules::Live(order) => Program::VerifyLive(order),
    }
}

// A sweep by these rules and so many workers, by JSON or not.
fn sweep_of(rules: Rules, json: bool, workers: usize) -> Program
    requires { AreWorkers workers }
    ensures named { result ≡ sweep_of rules json workers }
    ensures staffed { IsStaffed result }
{
    match rules {
        Rules::Manual(pick) => manual_sweep(pick, json, workers),
        Rules::Live(order) => live_sweep(order, json, workers),
    }
}

// A sweep by the manual's rules.
fn manual_sweep(pick: Pick, json: bool, workers: usize) -> Program
    requires { AreWorkers workers }
    ensures named { result ≡ manual_sweep pick json workers }
    ensures staffed { IsStaffed result }
{
    if json {
        Program::SweepJson(pick, workers)
    } else {
        Program::Sweep(pick, workers)
    }
}

// A sweep on live nodes.
fn live_sweep(order: Order, json: bool, workers: usize) -> Program
    requires { AreWorkers workers }
    ensures named { result ≡ live_sweep order json workers }
    ensures staffed { IsStaffed result }
{
    if json {
        Program::SweepLiveJson(order, workers)
    } else {
        Program::SweepLive(order, workers)
    }
}

// A search by these rules, in so much room by so many workers, by JSON or not.
fn explore_by(rules: Rules, json: bool, room: SearchRoom, workers: usize) -> Option<Program>
    requires { AreWorkers workers }
    ensures named { result ≡ explore_by json room rules workers }
    ensures staffed { IfSome result IsStaffed }
{
    match rules {
        Rules::Manual(pick) => Some(explore_of(pick, json, room, workers)),
        Rules::Live(order) => live_explore(order, json, room.states, workers),
    }
}

// On live nodes one worker tries lists, so many at most, and keeps no states.
fn live_explore(order: Order, json: bool, lists: usize, workers: usize) -> Option<Program>
    ensures named { result ≡ live_explore order json lists workers }
    ensures staffed { IfSome result IsStaffed }
{
    if workers == 1 {
        Some(Program::ExploreLive(order, lists, json))
    } else {
        None
    }
}

// A search by the manual's rules, in so much room by so many workers, by JSON or not.
fn explore_of(pick: Pick, json: bool, room: SearchRoom, workers: usize) -> Program
    requires { AreWorkers workers }
    ensures named { result ≡ explore_of pick json room workers }
    ensures staffed { IsStaffed result }
{
    if json {
        Program::ExploreJson(pick, room, workers)
    } else {
        Program::Explore(pick, room, workers)
    }
}

/// Whether a word without a value was given.
pub fn flag_in(matches: &ArgMatches<'_>, flag: Flag) -> bool
    ensures { result ≡ flag_in flag (rows_of (found_of matches.now)) }
{
    is_given(matches.get_str(flag.word()))
}

// Whether a word without a value was given that has this text among the matches.
fn is_given(text: Option<&str>) -> bool
    ensures { result ≡ is_given (option_map (λ text. text.now) text.entry) }
{
    match text {
        Some(text) => text == "true",
        None => false,
    }
}

/// Whether the rules are those of live nodes.
pub fn is_live_in(matches: &ArgMatches<'_>) -> bool
    ensures { result ≡ is_live_in (rows_of (found_of matches.now)) }
{
    is_live(matches.get_str("rules"))
}

// Whether this word names the rules of live nodes.
fn is_live(word: Option<&str>) -> bool
    ensures { result ≡ is_live (option_map (λ word. word.now) word.entry) }
{
    match word {
        Some(word) => word == "otp25",
        None => false,
    }
}

// The choice at a tie.
fn pick_in(matches: &ArgMatches<'_>) -> Pick
    ensures { result ≡ pick_in (rows_of (found_of matches.now)) }
{
    pick_of(matches.get_str("pick"))
}

// The choice at a tie: the last for the word `last`, the first for any other and for none.
fn pick_of(word: Option<&str>) -> Pick
    ensures last { option_map (λ word. word.now) word.entry ≡ Some (codes "last")
        → result ≡ pick.Last }
    ensures first { option_map (λ word. word.now) word.entry ≢ Some (codes "last")
        → result ≡ pick.First }
{
    match word {
        Some("last") => Pick::Last,
        _ => Pick::First,
    }
}

// The choice that is named, where other words may stand there, too.
fn named_in(matches: &ArgMatches<'_>) -> Option<Pick>
    ensures { result ≡ pick_named (first_of (codes "pick") (rows_of (found_of matches.now))) }
{
    pick_named(matches.get_str("pick"))
}

// The choice that this word names, if it names one.
fn pick_named(word: Option<&str>) -> Option<Pick>
    ensures { result ≡ pick_named (option_map (λ word. word.now) word.entry) }
{
    let word = word?;
    if word == "first" {
        Some(Pick::First)
    } else if word == "last" {
        Some(Pick::Last)
    } else {
        None
    }
}

// The number that decides an order, if it may be this one.
fn number_in(matches: &ArgMatches<'_>) -> Option<u32>
    ensures { result ≡ number_in (rows_of (found_of matches.now)) }
{
    match matches.get_one::<usize>("pick") {
        Some(number) => allowed_number(number),
        None => None,
    }
}

// This number, if it may be this one.
fn allowed_number(number: usize) -> Option<u32>
    ensures { result ≡ allowed_number number }
{
    if number >= 1 && number <= MOST_NUMBER {
        Some(number as u32)
    } else {
        None
    }
}

// The order of messages, by the choice that is named or by a number.
fn order_of(pick: Option<Pick>, number: Option<u32>) -> Option<Order>
    ensures { result ≡ order_of pick number }
{
    match pick {
        Some(Pick::First) => Some(Order::FirstComes),
        Some(Pick::Last) => Some(Order::LastComes),
        None => match number {
            Some(number) => Some(Order::Drawn(number)),
            None => None,
        },
    }
}

// The order of messages.
fn order_in(matches: &ArgMatches<'_>) -> Option<Order>
    ensures { result ≡ order_in (rows_of (found_of matches.now)) }
{
    order_of(named_in(matches), number_in(matches))
}

/// The rules that are named, with what they leave open, if that is named so that it means something.
pub fn rules_in(matches: &ArgMatches<'_>) -> Option<Rules>
    ensures { result ≡ rules_in (rows_of (found_of matches.now)) }
{
    if is_live_in(matches) {
        Some(Rules::Live(order_in(matches)?))
    } else {
        Some(Rules::Manual(named_in(matches)?))
    }
}

// The number of workers, if there may be so many.
fn workers_in(matches: &ArgMatches<'_>) -> Option<usize>
    ensures number { result ≡ workers_in (rows_of (found_of matches.now)) }
    ensures staffed { IfSome result AreWorkers }
{
    match matches.get_one::<usize>("workers") {
        Some(workers) => allowed_workers(workers),
        None => None,
    }
}

// This number of workers, if there may be so many.
fn allowed_workers(workers: usize) -> Option<usize>
    ensures number { result ≡ allowed workers }
    ensures staffed { IfSome result AreWorkers }
{
    if workers >= 1 && workers <= MAX_WORKERS {
        Some(workers)
    } else {
        None
    }
}

// The number of states that are kept, if it may be so many.
fn states_in(matches: &ArgMatches<'_>) -> Option<usize>
    ensures { result ≡ states_in (rows_of (found_of matches.now)) }
{
    match matches.get_one::<usize>("states") {
        Some(states) => allowed_states(states),
        None => None,
    }
}

// This number of states, if it may be so many.
fn allowed_states(states: usize) -> Option<usize>
    ensures { result ≡ allowed_states states }
{
    if states >= 1 && states <= MOST_STATES {
        Some(states)
    } else {
        None
    }
}

// How much memory their keys take, if it may be so much.
fn memory_in(matches: &ArgMatches<'_>) -> Option<u32>
    ensures { result ≡ memory_in (rows_of (found_of matches.now)) }
{
    match matches.get_one::<usize>("memory") {
        Some(mebibytes) => allowed_memory(mebibytes),
        None => None,
    }
}

// This many mebibytes, if there may be so many.
fn allowed_memory(mebibytes: usize) -> Option<u32>
    ensures { result ≡ allowed_memory mebibytes }
{
    if mebibytes >= 1 && mebibytes <= MOST_MEBIBYTES {
        Some(mebibytes as u32)
    } else {
        None
    }
}

// How much a search may keep, if it may be so much.
fn room_in(matches: &ArgMatches<'_>) -> Option<SearchRoom>
    ensures { result ≡ room_in (rows_of (found_of matches.now)) }
{
    let states = states_in(matches)?;
    let mebibytes = memory_in(matches)?;
    Some(SearchRoom { states, mebibytes })
}
