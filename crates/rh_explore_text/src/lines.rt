//! What the lines of a search ask: those of its base, and then which events may come and what is asked.

ghost use Rattle.std.specs.Prelude.{◌≡◌, map, IfOk};
ghost use Rattle.rh_explore_text.specs.SearchLines.{no_line, event_asked, meant, is_wait, may_line, down_line, steps_at_most, steps_line, question_line, ask_line, search_command, search_words, search_text, search_line_of};

use crate::asks::{Question, ask_named};
use crate::events::is_meant;
use crate::words::{line_of_words, number_of, text_of, words_of};
use rh_base::OutOfMemory;
use rh_calls::Call;
use rh_cluster::Cluster;
use rh_script::{Line, line_of};
use rh_step::Event;
use std::alloc::Global;

/// What a line of a search asks.
#[derive(Drop)]
pub enum SearchLine {
    /// It is a line as any script has it.
    Plain(Line),
    /// This event may come, and where a name of it is left open, it may with each.
    May(Event),
    /// Time may pass to the next timer.
    MayWait,
    /// At most so many nodes are not up.
    Down(u64),
    /// At most so many events follow one another.
    Steps(u32),
    /// This is asked of the states that are reached.
    Asks(Question),
}

// A line that asks nothing that there is.
fn no_line() -> SearchLine
    ensures { result ≡ no_line }
{
    SearchLine::Plain(Line::Bad)
}

// The event that a line of a script asks, if it asks one.
fn event_asked(line: Line) -> Option<Event>
    ensures { result ≡ event_asked line }
{
    match line {
        Line::Asks(Call::Step(event)) => Some(event),
        _ => None,
    }
}

// A line of this event, if each name of it that the cluster hasn't is left open in these words.
fn meant(cluster: &Cluster, words: &[&str], event: Option<Event>) -> SearchLine
    ensures { result ≡ meant cluster.now (map (λ word. word.now) words.now) event }
{
    match event {
        Some(event) => {
            if is_meant(cluster, words, event) {
                SearchLine::May(event)
            } else {
                no_line()
            }
        }
        None => no_line(),
    }
}

// Are the words `wait` alone?
fn is_wait(words: &[&str]) -> bool
    ensures { result ≡ is_wait (map (λ word. word.now) words.now) }
{
    match words {
        [word] => *word == "wait",
        _ => false,
    }
}

// A line that lets an event come, or time pass to the next timer.
fn may_line(alloc: Global, cluster: &Cluster, words: &[&str]) -> Result<SearchLine, OutOfMemory>
    ensures { IfOk result (λ line. line ≡ may_line cluster.now (map (λ word. word.now) words.now)) }
{
    if is_wait(words) {
        return Ok(SearchLine::MayWait);
    }
    let command = line_of_words(alloc, words)?;
    let asked = line_of(alloc, cluster, command.as_slice())?;
    Ok(meant(cluster, words, event_asked(asked)))
}

// A line that bounds how many nodes are not up.
fn down_line(words: &[&str]) -> SearchLine
    ensures { result ≡ down_line (map (λ word. word.now) words.now) }
{
    match words {
        [word] => match number_of(*word) {
            Some(number) => SearchLine::Down(number),
            None => no_line(),
        },
        _ => no_line(),
    }
}

// A line of at most so many steps.
fn steps_at_most(number: Option<u64>) -> SearchLine
    ensures { result ≡ steps_at_most number }
{
    match number {
        Some(number) => {
            if number <= u32::MAX as u64 {
                SearchLine::Steps(number as u32)
            } else {
                no_line()
            }
        }
        None => no_line(),
    }
}

// A line that bounds how many events follow one another.
fn steps_line(words: &[&str]) -> SearchLine
    ensures { result ≡ steps_line (map (λ word. word.now) words.now) }
{
    match words {
        [word] => steps_at_most(number_of(*word)),
        _ => no_line(),
    }
}

// A line of a question, if there is one.
fn question_line(asked: Option<Question>) -> SearchLine
    ensures { result ≡ question_line asked }
{
    match asked {
        Some(question) => SearchLine::Asks(question),
        None => no_line(),
    }
}

// A line that asks something of states.
fn ask_line(alloc: Global, cluster: &Cluster, words: &[&str]) -> Result<SearchLine, OutOfMemory>
    ensures { IfOk result (λ line. line ≡ ask_line cluster.now (map (λ word. word.now) words.now)) }
{
    Ok(question_line(ask_named(alloc, cluster, words)?))
}

// What the words ask, the first of which says what kind of line it is.
fn search_command(
    alloc: Global,
    cluster: &Cluster,
    word: &str,
    words: &[&str],
) -> Result<SearchLine, OutOfMemory>
    ensures { IfOk result
        (λ line. line ≡ search_command cluster.now word.now (map (λ word. word.now) words.now)) }
{
    if word == "may" {
        may_line(alloc, cluster, words)
    } else if word == "down" {
        Ok(down_line(words))
    } else if word == "steps" {
        Ok(steps_line(words))
    } else if word == "ask" {
        ask_line(alloc, cluster, words)
    } else {
        Ok(no_line())
    }
}

// What words ask.
fn search_words(alloc: Global, cluster: &Cluster, words: &[&str]) -> Result<SearchLine, OutOfMemory>
    ensures { IfOk result
        (λ line. line ≡ search_words cluster.now (map (λ word. word.now) words.now)) }
{
    match words {
        [] => Ok(no_line()),
        [word, words @ ..] => search_command(alloc, cluster, *word, words),
    }
}

// What a line asks that is none of a script.
fn search_text(alloc: Global, cluster: &Cluster, line: &[u8]) -> Result<SearchLine, OutOfMemory>
    ensures { IfOk result (λ asked. asked ≡ search_text cluster.now line.now) }
{
    let Some(text) = text_of(line) else {
        return Ok(no_line());
    };
    let words = words_of(alloc, text)?;
    search_words(alloc, cluster, words.as_slice())
}

/// What a line asks: as any script has it, or else of a search.
#[tactic(auto, unfolding(crate::specs::SearchLines::search_line_of))]
pub fn search_line_of(
    alloc: Global,
    cluster: &Cluster,
    line: &[u8],
) -> Result<SearchLine, OutOfMemory>
    ensures { IfOk result (λ asked. asked ≡ search_line_of cluster.now line.now) }
{
    match line_of(alloc, cluster, line)? {
        Line::Bad => search_text(alloc, cluster, line),
        read => Ok(SearchLine::Plain(read)),
    }
}
