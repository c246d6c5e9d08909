//! What the lines of a script ask.

ghost use Rattle.std.specs.Prelude.{◌≡◌, if◌then◌else◌, Some, None, IfOk, map, take};
ghost use Rattle.std.specs.Option.{option_map};
ghost use Rattle.std.specs.Str.{is_utf8};
ghost use Rattle.rh_script.specs.Commands.{words_of, named, named_app, begins_with, milliseconds, restart_named, first_of, with_argument, given_in, call_asked, asking, command_of, line_of};

use crate::command_words::{reason_word, truth_word};
use crate::forms::{Argument, Given, NOTHING, call_of, verb_named};
use arrayvec::ArrayVec;
use rh_base::OutOfMemory;
use rh_calls::{Call, restart_word};
use rh_cluster::{App, Cluster, Node, Restart};
use std::alloc::Global;

/// What a line of a script asks.
#[derive(Clone, Copy, Debug, PartialEq, Eq)]
pub enum Line {
    /// It asks nothing.
    Nothing,
    /// It is a command.
    Asks(Call),
    /// It is no command.
    Bad,
}

// Stands for a node whose name the cluster hasn't. No cluster has so many nodes.
const NO_NODE: Node = Node(255);

// Stands for an application whose name the cluster hasn't. No cluster has so many applications.
const NO_APP: App = App(255);

// The words between runs of spaces, without those behind the sixth. Only a line that is no command has so many.
pub fn first_words(line: &str) -> ArrayVec<&str, 6>
    ensures { map (λ word. word.now) result.items ≡ take 6 (words_of line.now) }
{
    let mut words = ArrayVec::new();
    for part in line.split(' ') {
        if !part.is_empty() && !words.is_full() {
            words.push(part);
        }
    }
    words
}

// The node of this name, or what stands for none.
fn named_node(cluster: &Cluster, name: &str) -> Node
    ensures { result ≡ named cluster.now name.now }
{
    cluster.node_of(name).unwrap_or(NO_NODE)
}

// The application of this name, or what stands for none.
fn named_app(cluster: &Cluster, name: &str) -> App
    ensures { result ≡ named_app cluster.now name.now }
{
    cluster.app_of(name).unwrap_or(NO_APP)
}

// Does the line begin with this byte?
pub fn begins_with(byte: u8, line: &[u8]) -> bool
    ensures { result ≡ begins_with byte line.now }
{
    !line.is_empty() && line[0] == byte
}

/// A number of milliseconds: decimal digits and nothing else, within 64 bits.
pub fn milliseconds(word: &str) -> Option<u64>
    ensures { result ≡ milliseconds word.now }
{
    // A plus may stand before a number that is parsed, but not in a script.
    if begins_with(b'+', word.as_bytes()) {
        return None;
    }
    word.parse::<u64>().ok()
}

// The restart type of this name.
fn restart_named(word: &str) -> Option<Restart>
    ensures { result ≡ restart_named word.now }
{
    if word == restart_word(Restart::Permanent) {
        Some(Restart::Permanent)
    } else if word == restart_word(Restart::Transient) {
        Some(Restart::Transient)
    } else if word == restart_word(Restart::Temporary) {
        Some(Restart::Temporary)
    } else {
        None
    }
}

// Which of two words it is: the first stands for yes.
fn first_of(yea: &str, nay: &str, word: &str) -> Option<bool>
    ensures { result ≡ first_of yea.now nay.now word.now }
{
    if word == yea {
        Some(true)
    } else if word == nay {
        Some(false)
    } else {
        None
    }
}

// What is given, and this word as an argument of this kind. There is nothing where the word is no such argument.
fn with_argument(cluster: &Cluster, argument: Argument, word: &str, given: Given) -> Option<Given>
    ensures { result ≡ with_argument cluster.now argument word.now given }
{
    Some(match argument {
        Argument::Node => given.with_node(named_node(cluster, word)),
        Argument::App => given.with_app(named_app(cluster, word)),
        Argument::Restart => given.with_restart(restart_named(word)?),
        Argument::Truth => given.with_truth(first_of(truth_word(true), truth_word(false), word)?),
        Argument::Ending => {
            given.with_ending(first_of(reason_word(true), reason_word(false), word)?)
        }
        Argument::Milliseconds => given.with_ms(milliseconds(word)?),
    })
}

// What is given, and these words as arguments of these kinds: one word for each.
fn given_in(
    cluster: &Cluster,
    arguments: &[Argument],
    words: &[&str],
    given: Given,
) -> Option<Given>
    ensures { result ≡ given_in cluster.now arguments.now (map (λ word. word.now) words.now) given }
{
    match arguments {
        [] => match words {
            [] => Some(given),
            [_, ..] => None,
        },
        [argument, arguments @ ..] => match words {
            [] => None,
            [word, words @ ..] => {
                let given = with_argument(cluster, *argument, word, given)?;
                // Behind the last one there is nothing to go on with.
                match (arguments, words) {
                    ([], []) => Some(given),
                    _ => given_in(cluster, arguments, words, given),
                }
            }
        },
    }
}

// The call that a word asks with the words behind it.
fn call_asked(cluster: &Cluster, word: &str, words: &[&str]) -> Option<Call>
    ensures { result ≡ call_asked cluster.now word.now (map (λ word. word.now) words.now) }
{
    let verb = verb_named(word)?;
    let given = given_in(cluster, verb.form().arguments, words, NOTHING)?;
    call_of(verb, given)
}

// A line that asks this call, or is no command without one.
fn line_of_call(call: Option<Call>) -> Line
    ensures { result ≡ asking call }
{
    match call {
        Some(call) => Line::Asks(call),
        None => Line::Bad,
    }
}

// The command that the words make.
pub fn command_of(cluster: &Cluster, words: &[&str]) -> Line
    ensures { result ≡ command_of cluster.now (map (λ word. word.now) words.now) }
{
    match words {
        [] => Line::Nothing,
        [word, words @ ..] => line_of_call(call_asked(cluster, word, words)),
    }
}

// The command that a line's words make.
fn command_in(cluster: &Cluster, line: &str) -> Line
    ensures { result ≡ command_of cluster.now (words_of line.now) }
{
    command_of(cluster, first_words(line).as_slice())
}

/// The line as a text, if it is UTF-8.
pub fn text_of(line: &[u8]) -> Option<&str>
    ensures { option_map (λ text. text.now) result
        ≡ (if is_utf8 line.now then Some line.now else None) }
{
    str::from_utf8(line).ok()
}

// What a line asks that is no comment. It isn't made a part of its caller, so that a comment costs nothing of what words need.
#[inline(never)]
fn line_in(cluster: &Cluster, line: &[u8]) -> Line
    ensures { result
        ≡ (if is_utf8 line.now then command_of cluster.now (words_of line.now) else Line.Bad) }
{
    match text_of(line) {
        Some(text) => command_in(cluster, text),
        None => Line::Bad,
    }
}

/// What a line asks. It takes no memory.
#[inline]
#[tactic(auto, unfolding(crate::specs::Commands::line_of))]
pub fn line_of(_alloc: Global, cluster: &Cluster, line: &[u8]) -> Result<Line, OutOfMemory>
    ensures { IfOk result (λ asked. asked ≡ line_of cluster.now line.now) }
{
    // A comment.
    if begins_with(b'#', line) {
        return Ok(Line::Nothing);
    }
    Ok(line_in(cluster, line))
}
