//! One call with growths refused, as in the program `rh_growths`, of those of which a simulation is made: texts and terms, lists,
//! timers, clusters, states, and where an application can run. The program takes one word, the name of the call, makes what the
//! call needs, marks the call's beginning and its end, and writes what came of it.
#![tactic(auto)]

mod clusters;
mod exchanges;
mod lists;
mod made;
mod places;
mod readers;
mod setters;
mod states;
mod terms;
mod texts;
mod told;
mod wheels;

use rh_marks::{Answer, tell};
use std::alloc::Global;
use std::env;
use std::process::ExitCode;

// What comes of the call of this name; `None` where it has no such name, or its beginning can't be made.
fn call(alloc: Global, name: &str) -> Option<Answer> {
    if name.starts_with("Lists::") {
        lists::answer(alloc, name)
    } else if name.starts_with("Wheel::") {
        wheels::answer(alloc, name)
    } else if name.starts_with("Cluster::") || name == "read_cluster" {
        clusters::answer(alloc, name)
    } else if name.starts_with("Str::") || name.starts_with("Group") {
        texts::answer(alloc, name)
    } else if name.starts_with("Term") || name.starts_with("read_terms") {
        terms::answer(alloc, name)
    } else if name.starts_with("Notices::") || name.starts_with("Standings::") {
        told::answer(alloc, name)
    } else if name.starts_with("Watched::") {
        told::answer(alloc, name)
    } else {
        states::answer(alloc, name)
    }
}

// The word of the command line; `None` unless it is one.
fn word_of(rt: &HostRuntime) -> Option<String> {
    let mut words = env::args(rt).ok()?;
    let _ = words.next();
    words.next()
}

fn main(rt: HostRuntime) -> ExitCode {
    let told = match word_of(&rt) {
        Some(word) => call(rt.alloc(), word.as_str()),
        None => None,
    };
    tell(&rt, told)
}
