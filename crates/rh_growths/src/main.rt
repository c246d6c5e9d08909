//! One call with growths refused, which tests/growths.py does from outside. The program takes one word, the name of a call. It
//! makes what the call needs and keeps copies of what has to stay, marks the call's beginning and its end, and writes what came of
//! it (`rh_marks`). With a second word, the text of a cluster file, it makes many such calls, which all have to succeed.
#![tactic(auto)]

mod all_nodes;
mod bytes;
mod clusters;
mod firings;
mod first;
mod kept;
mod many;
mod moves;
mod performing;
mod rooms;
mod sims;
mod sweeps;
mod waits;

use rh_marks::{Answer, tell};
use std::alloc::Global;
use std::env;
use std::process::ExitCode;
use std::rt::Runtime;
use std::sync::Wait;
use std::thread::Threads;

// What comes of the call of this name; `None` where it has no such name, or its beginning can't be made.
fn call<T: Runtime<A = Global> + Threads + Wait + Sync>(rt: &T, name: &str) -> Option<Answer> {
    if let Some(answer) = sweeps::answer(rt, rt.alloc(), name) {
        Some(answer)
    } else if let Some(answer) = bytes::answer(rt.alloc(), name) {
        Some(answer)
    } else if let Some(answer) = sims::answer(rt.alloc(), name) {
        Some(answer)
    } else if let Some(answer) = moves::answer(rt.alloc(), name) {
        Some(answer)
    } else if let Some(answer) = all_nodes::answer(rt.alloc(), name) {
        Some(answer)
    } else if let Some(answer) = firings::answer(rt.alloc(), name) {
        Some(answer)
    } else if let Some(answer) = waits::answer(rt.alloc(), name) {
        Some(answer)
    } else {
        rooms::answer(rt.alloc(), name)
    }
}

// What comes of what these words ask, of which the second may be missing.
fn answer_of_words<T: Runtime<A = Global> + Threads + Wait + Sync>(
    rt: &T,
    name: &str,
    text: Option<String>,
) -> Option<Answer> {
    match text {
        None => call(rt, name),
        Some(text) => many::answer(rt.alloc(), name, text.as_str()),
    }
}

// The first words of the command line; `None` unless there is one.
fn words_of(rt: &HostRuntime) -> Option<(String, Option<String>)> {
    let mut words = env::args(rt).ok()?;
    let _ = words.next();
    let name = words.next()?;
    Some((name, words.next()))
}

fn main(rt: HostRuntime) -> ExitCode {
    let told = match words_of(&rt) {
        None => None,
        Some((name, text)) => answer_of_words(&rt, name.as_str(), text),
    };
    tell(&rt, told)
}
