//! The known name that another word was meant to be.

use rh_term_lint::nearest;
use std::alloc::Global;
use std::process::Abort;

static COMMANDS: [&str; 8] = [
    "boot", "crash", "halt", "start", "stop", "permit", "takeover", "tick",
];

static NODES: [&str; 3] = ["cp1@cave", "cp2@cave", "cp3@cave"];

// The nearest of these names is this one; none, where it is empty.
fn is_nearest(rt: &impl Abort, alloc: Global, word: &str, known: &[&str], want: &str) {
    let found = nearest(alloc, word, known).ok().expect(rt, "memory");
    assert_eq!(rt; found.unwrap_or(""), want);
}

#[test]
fn commands(rt: HostRuntime) {
    let alloc = rt.alloc();
    is_nearest(&rt, alloc, "crsh", &COMMANDS, "crash");
    is_nearest(&rt, alloc, "CRASH", &COMMANDS, "");
    is_nearest(&rt, alloc, "strat", &COMMANDS, "start");
    is_nearest(&rt, alloc, "takover", &COMMANDS, "takeover");
    is_nearest(&rt, alloc, "premit", &COMMANDS, "permit");
    is_nearest(&rt, alloc, "kill", &COMMANDS, "");
    is_nearest(&rt, alloc, "reboot", &COMMANDS, "boot");
    is_nearest(&rt, alloc, "", &COMMANDS, "");
    is_nearest(&rt, alloc, "tick", &COMMANDS, "tick");
    is_nearest(&rt, alloc, "boot", &[], "");
}

#[test]
fn nodes(rt: HostRuntime) {
    let alloc = rt.alloc();
    is_nearest(&rt, alloc, "cp2@cav", &NODES, "cp2@cave");
    is_nearest(&rt, alloc, "cp4@cave", &NODES, "cp1@cave");
    is_nearest(&rt, alloc, "cp3_cave", &NODES, "cp3@cave");
    is_nearest(&rt, alloc, "cp3", &NODES, "");
}
