//! Names in a command that the cluster hasn't.

ghost use Rattle.std.specs.Prelude.{◌≡◌, ◌++◌, IfOk, OnOk, map, position, slice_get};
ghost use Rattle.std.specs.Option.{option_map, option_and_then};
ghost use Rattle.std.specs.String.{string_bytes};
ghost use Rattle.rh_line_lint.specs.Arguments.{is_node, is_app};
ghost use Rattle.rh_line_lint.specs.Lines.{node_words, app_words, unknown_node, unknown_app, of_command, of_words, unknown_names, word_at};

use crate::bad::error_at;
use crate::blame::push_near;
use crate::names::{app_names, node_names};
use crate::words::words_of;
use rh_base::OutOfMemory;
use rh_cluster::Cluster;
use rh_findings::Finding;
use rh_script::{Argument, text_of, verb_named};
use rh_term_lint::nearest;
use std::alloc::Global;

// What is told of a node that the cluster hasn't.
#[tactic(auto, unfolding(crate::specs::Lines::node_words))]
fn node_words(alloc: Global, cluster: &Cluster, name: &str) -> Result<String, OutOfMemory>
    ensures { IfOk result (λ text. string_bytes text ≡ node_words cluster.now name.now) }
{
    let names = node_names(alloc, cluster)?;
    let near = nearest(alloc, name, names.as_slice())?;
    let mut text = format!(in alloc; "unknown_node: the cluster has no node {name}")?;
    push_near(&mut text, near)?;
    Ok(text)
}

// What is told of an application that the cluster hasn't.
#[tactic(auto, unfolding(crate::specs::Lines::app_words))]
fn app_words(alloc: Global, cluster: &Cluster, name: &str) -> Result<String, OutOfMemory>
    ensures { IfOk result (λ text. string_bytes text ≡ app_words cluster.now name.now) }
{
    let names = app_names(alloc, cluster)?;
    let near = nearest(alloc, name, names.as_slice())?;
    let mut text = format!(in alloc; "unknown_application: the cluster has no application {name}")?;
    push_near(&mut text, near)?;
    Ok(text)
}

// Adds that the cluster has no node of this name, if it is so.
#[tactic(auto, unfolding(crate::specs::Lines::unknown_node))]
fn push_unknown_node(
    alloc: Global,
    found: &mut Vec<Finding>,
    cluster: &Cluster,
    number: u64,
    name: Option<&str>,
) -> Result<(), OutOfMemory>
    ensures { OnOk result (found.new.items ≡ found.old.items
        ++ unknown_node cluster.now number (option_map (λ name. name.now) name.entry)) }
{
    let Some(name) = name else {
        return Ok(());
    };
    if cluster.node_of(name).is_none() {
        let text = node_words(alloc, cluster, name)?;
        found.push(error_at(number, text))?;
    }
    Ok(())
}

// Adds that the cluster has no application of this name, if it is so.
#[tactic(auto, unfolding(crate::specs::Lines::unknown_app))]
fn push_unknown_app(
    alloc: Global,
    found: &mut Vec<Finding>,
    cluster: &Cluster,
    number: u64,
    name: Option<&str>,
) -> Result<(), OutOfMemory>
    ensures { OnOk result (found.new.items ≡ found.old.items
        ++ unknown_app cluster.now number (option_map (λ name. name.now) name.entry)) }
{
    let Some(name) = name else {
        return Ok(());
    };
    if cluster.app_of(name).is_none() {
        let text = app_words(alloc, cluster, name)?;
        found.push(error_at(number, text))?;
    }
    Ok(())
}

// The word at a place, if there is a place, and a word there.
fn word_at<'a>(words: &[&'a str], place: Option<usize>) -> Option<&'a str>
    ensures { option_map (λ word. word.now) result
        ≡ word_at (map (λ word. word.now) words.now) place }
{
    words.get(place?).copied()
}

// The place of the argument that is the name of a node.
fn node_place(arguments: &[Argument]) -> Option<usize>
    ensures { result ≡ position is_node arguments.now }
{
    arguments
        .iter()
        .position(|argument| matches!(argument, Argument::Node))
}

// The place of the argument that is the name of an application.
fn app_place(arguments: &[Argument]) -> Option<usize>
    ensures { result ≡ position is_app arguments.now }
{
    arguments
        .iter()
        .position(|argument| matches!(argument, Argument::App))
}

// Adds the names in the words behind a command that the cluster hasn't.
#[tactic(auto, unfolding(crate::specs::Lines::of_command))]
fn push_of_command(
    alloc: Global,
    found: &mut Vec<Finding>,
    cluster: &Cluster,
    number: u64,
    arguments: &[Argument],
    words: &[&str],
) -> Result<(), OutOfMemory>
    ensures { OnOk result (found.new.items ≡ found.old.items
        ++ of_command cluster.now number arguments.now (map (λ word. word.now) words.now)) }
{
    let node = word_at(words, node_place(arguments));
    let app = word_at(words, app_place(arguments));
    push_unknown_node(alloc, found, cluster, number, node)?;
    push_unknown_app(alloc, found, cluster, number, app)
}

// Adds the names in the words of a command that the cluster hasn't.
#[tactic(auto, unfolding(crate::specs::Lines::of_words))]
fn push_of_words(
    alloc: Global,
    found: &mut Vec<Finding>,
    cluster: &Cluster,
    number: u64,
    words: &[&str],
) -> Result<(), OutOfMemory>
    ensures { OnOk result (found.new.items
        ≡ found.old.items ++ of_words cluster.now number (map (λ word. word.now) words.now)) }
{
    match words {
        [] => Ok(()),
        [word, words @ ..] => match verb_named(word) {
            None => Ok(()),
            Some(verb) => {
                push_of_command(alloc, found, cluster, number, verb.form().arguments, words)
            }
        },
    }
}

/// Adds the names in a command that the cluster hasn't.
#[tactic(auto, unfolding(crate::specs::Lines::unknown_names))]
pub fn push_unknown_names(
    alloc: Global,
    found: &mut Vec<Finding>,
    cluster: &Cluster,
    number: u64,
    line: &[u8],
) -> Result<(), OutOfMemory>
    ensures { OnOk result
        (found.new.items ≡ found.old.items ++ unknown_names cluster.now number line.now) }
{
    let Some(text) = text_of(line) else {
        return Ok(());
    };
    let words = words_of(alloc, text)?;
    push_of_words(alloc, found, cluster, number, words.as_slice())
}
