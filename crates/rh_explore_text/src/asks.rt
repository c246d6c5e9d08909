//! What is asked of states, as words.

ghost use Rattle.std.specs.Prelude.{◌≡◌, ◌≤◌, [], ◌∷◌, true, Some, None, length, map, IfOk, IsTrue};
ghost use Rattle.std.specs.Option.{option_map};
ghost use Rattle.rh_explore_text.specs.Asks.{ask_view, ways_view, are_nodes, down_at, all_down, other_ways, ways_with, state_named, hanging_named, ways_named, is_of_each, asked_of, at_once_named, ends_within, time_named, soon, ask_named};

use crate::words::number_of;
use rh_base::OutOfMemory;
use rh_cluster::{App, Cluster, Node};
use rh_explore::{Ask, Condition};
use std::alloc::Global;
use std::marker::Model;

/// What is asked of the states that a search reaches.
#[derive(Drop)]
pub struct Question {
    ask: Ask,
}

/// Contracts see a `Question` as what it asks.
impl Model for Question {
    ghost use Rattle.rh_explore_text.specs.Asks.{AskView, ask_view};

    ghost Value = { AskView };

    ghost view = { λ q. ask_view q.ask };
}

impl Question {
    // The question, whether it is asked of each state, and what is so in one of these ways.
    fn of(always: bool, any_of: Vec<Vec<Condition>>) -> Question
        ensures { result ≡ record { always = always; within = None; any_of = ways_view any_of } }
    {
        Question {
            ask: Ask {
                always,
                within: None,
                any_of,
            },
        }
    }

    // The same of each state, where it may be met in so many milliseconds.
    fn within(self, ms: u64) -> Question
        ensures { result ≡ record self { always = true; within = Some ms } }
    {
        let ask = Ask {
            always: true,
            within: Some(ms),
            any_of: self.ask.any_of,
        };
        Question { ask }
    }

    /// What is asked.
    pub fn into_ask(self) -> Ask
        ensures { ask_view result ≡ self }
    {
        self.ask
    }
}

// Is each of these words the name of a node?
fn are_nodes(cluster: &Cluster, words: &[&str]) -> bool
    ensures { result ≡ are_nodes cluster.now (map (λ word. word.now) words.now) }
{
    'words: for word in words {
        if cluster.node_of(*word).is_none() {
            return false;
        }
    }
    true
}

// The condition that the node of this name isn't up.
fn down_at(cluster: &Cluster, name: &str) -> Condition
    ensures { result ≡ down_at cluster.now name.now }
{
    Condition::IsNotUp(cluster.node_of(name).unwrap_or(Node(255)))
}

// The conditions that the nodes of these names aren't up, if there is one and each is a node.
fn all_down(
    alloc: Global,
    cluster: &Cluster,
    names: &[&str],
) -> Result<Option<Vec<Condition>>, OutOfMemory>
    ensures { IfOk result (λ way. option_map (λ way. way.items) way
        ≡ all_down cluster.now (map (λ name. name.now) names.now)) }
{
    if names.is_empty() || !are_nodes(cluster, names) {
        return Ok(None);
    }
    let mut conditions = Vec::new(alloc);
    'names: for name in names {
        conditions.push(down_at(cluster, *name))?;
    }
    Ok(Some(conditions))
}

// The ways that these words add to the first one: none, or that nodes aren't up.
fn other_ways(
    alloc: Global,
    cluster: &Cluster,
    words: &[&str],
) -> Result<Option<Vec<Vec<Condition>>>, OutOfMemory>
    ensures { IfOk result (λ ways.
        option_map ways_view ways ≡ other_ways cluster.now (map (λ word. word.now) words.now)) }
{
    match words {
        [] => Ok(Some(Vec::new(alloc))),
        [_] => Ok(None),
        [word, next, names @ ..] => {
            if *word == "or" && *next == "down" {
                return one_way(alloc, all_down(alloc, cluster, names)?);
            }
            Ok(None)
        }
    }
}

// A way alone, if there is one.
fn one_way(
    alloc: Global,
    way: Option<Vec<Condition>>,
) -> Result<Option<Vec<Vec<Condition>>>, OutOfMemory>
    ensures { IfOk result (λ ways. option_map ways_view ways
        ≡ option_map (λ way. way ∷ []) (option_map (λ way. way.items) way)) }
{
    match way {
        None => Ok(None),
        Some(way) => {
            let mut ways = Vec::new(alloc);
            ways.push(way)?;
            Ok(Some(ways))
        }
    }
}

// These ways, and that a condition is so, if there is one.
fn ways_with(
    alloc: Global,
    condition: Option<Condition>,
    ways: Option<Vec<Vec<Condition>>>,
) -> Result<Option<Vec<Vec<Condition>>>, OutOfMemory>
    ensures { IfOk result
        (λ all. option_map ways_view all ≡ ways_with condition (option_map ways_view ways)) }
{
    match (condition, ways) {
        (Some(condition), Some(mut ways)) => {
            let mut way = Vec::new(alloc);
            way.push(condition)?;
            ways.push(way)?;
            Ok(Some(ways))
        }
        _ => Ok(None),
    }
}

// What is said of the application of this name: that it runs somewhere, or at no two nodes.
fn state_named(cluster: &Cluster, name: &str, state: &str) -> Option<Condition>
    ensures { result ≡ state_named cluster.now name.now state.now }
{
    let app = cluster.app_of(name)?;
    if state == "running" {
        Some(Condition::RunsSomewhere(app))
    } else if state == "once" {
        Some(Condition::RunsAtMostOnce(app))
    } else {
        None
    }
}

// That nothing hangs, if these words say so.
fn hanging_named(
    alloc: Global,
    word: &str,
    verb: &str,
) -> Result<Option<Vec<Vec<Condition>>>, OutOfMemory>
    ensures { IfOk result
        (λ ways. option_map ways_view ways ≡ hanging_named word.now verb.now) }
{
    if word != "nothing" || verb != "hangs" {
        return Ok(None);
    }
    let mut way = Vec::new(alloc);
    way.push(Condition::NothingHangs)?;
    one_way(alloc, Some(way))
}

// The ways that these words name: nothing hangs, or an application runs, and others behind that.
fn ways_named(
    alloc: Global,
    cluster: &Cluster,
    words: &[&str],
) -> Result<Option<Vec<Vec<Condition>>>, OutOfMemory>
    ensures { IfOk result (λ ways.
        option_map ways_view ways ≡ ways_named cluster.now (map (λ word. word.now) words.now)) }
{
    match words {
        [word, verb] => hanging_named(alloc, *word, *verb),
        [word, name, state, more @ ..] => {
            if *word == "app" {
                let ways = other_ways(alloc, cluster, more)?;
                return ways_with(alloc, state_named(cluster, *name, *state), ways);
            }
            Ok(None)
        }
        _ => Ok(None),
    }
}

// Is what these words ask asked of each state, also without `always`?
fn is_of_each(words: &[&str]) -> bool
    ensures { result ≡ is_of_each (map (λ word. word.now) words.now) }
{
    match words {
        [_, _] => true,
        [_, _, state, ..] => *state == "once",
        _ => false,
    }
}

// The question of these ways, if there are any.
fn asked_of(always: bool, ways: Option<Vec<Vec<Condition>>>) -> Option<Question>
    ensures { result ≡ asked_of always (option_map ways_view ways) }
{
    match ways {
        Some(ways) => Some(Question::of(always, ways)),
        None => None,
    }
}

// What these words ask, without a time in which it has to be met.
fn at_once_named(
    alloc: Global,
    cluster: &Cluster,
    words: &[&str],
) -> Result<Option<Question>, OutOfMemory>
    ensures { IfOk result
        (λ asked. asked ≡ at_once_named cluster.now (map (λ word. word.now) words.now)) }
{
    match words {
        [] => Ok(None),
        [word, rest @ ..] => {
            if *word == "always" {
                return Ok(asked_of(true, ways_named(alloc, cluster, rest)?));
            }
            let each = is_of_each(words);
            Ok(asked_of(each, ways_named(alloc, cluster, words)?))
        }
    }
}

// Is the last word but one `within`?
fn ends_within(words: &[&str]) -> bool
    ensures within { result ≡ ends_within (map (λ word. word.now) words.now) }
    ensures two { IsTrue result → 2 ≤ length words.now }
{
    let count = words.len();
    count >= 2 && words[count - 2] == "within"
}

// The milliseconds that the last word is.
fn time_named(words: &[&str]) -> Option<u64>
    requires { 2 ≤ length words.now }
    ensures { result ≡ time_named (map (λ word. word.now) words.now) }
{
    number_of(words[words.len() - 1])
}

// The same question of each state, where it may be met in so many milliseconds.
fn soon(ms: Option<u64>, asked: Option<Question>) -> Option<Question>
    ensures { result ≡ soon ms asked }
{
    match (ms, asked) {
        (Some(ms), Some(question)) => Some(question.within(ms)),
        _ => None,
    }
}

/// What the words behind `ask` ask.
pub fn ask_named(
    alloc: Global,
    cluster: &Cluster,
    words: &[&str],
) -> Result<Option<Question>, OutOfMemory>
    ensures { IfOk result
        (λ asked. asked ≡ ask_named cluster.now (map (λ word. word.now) words.now)) }
{
    if !ends_within(words) {
        return at_once_named(alloc, cluster, words);
    }
    let front = &words[..words.len() - 2];
    let asked = at_once_named(alloc, cluster, front)?;
    Ok(soon(time_named(words), asked))
}
