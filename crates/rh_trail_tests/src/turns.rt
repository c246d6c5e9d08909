//! Two sessions in threads of their own, which pass the turn to one another.

use crate::rooms::{LOG, are_kept, schedule};
use crate::told::{Open, open_for, tell_how_it_closes};
use rh_calls::Call;
use rh_room::{Pass, Shared};
use rh_samples::CAVE;
use rh_step::Pick;
use std::alloc::Global;
use std::process::Abort;
use std::sync::{Condvar, Mutex, Wait};
use std::thread;
use std::thread::Threads;

// Whose turn it is: the number of calls that were made.
#[derive(Drop)]
struct Turns {
    made: Mutex<usize>,
    passed: Condvar,
}

// Makes the calls of a session, each in its turn.
fn in_turns<R: Wait>(rt: &R, alloc: Global, shared: &Shared, turns: &Turns, given: Pass) -> Pass {
    let mut pass = given;
    let calls = schedule();
    for turn in 0..calls.len() {
        let (session, call) = calls[turn];
        if session == pass.session() {
            {
                let made = turns.made.lock(rt);
                let _waited = turns.passed.wait_while(rt, made, |made| *made != turn);
            }
            call_in(rt, alloc, shared, &mut pass, call);
            *turns.made.lock(rt) = turn + 1;
            turns.passed.notify_all();
        }
    }
    pass
}

// Makes a call in the room that is shared.
fn call_in<R: Wait>(rt: &R, alloc: Global, shared: &Shared, pass: &mut Pass, call: Call) {
    let _ = shared.lock(rt).serve(alloc, pass, call);
}

// The passes, when both sessions have made their calls, each in a thread of its own.
fn in_threads<R: Threads + Wait + Sync>(
    rt: &R,
    alloc: Global,
    shared: &Shared,
    turns: &Turns,
    passes: Vec<Pass>,
) -> Option<Vec<Pass>> {
    match thread::map_vec(rt, passes, &|pass| in_turns(rt, alloc, shared, turns, pass)) {
        Ok(passes) => Some(passes),
        Err(_) => None,
    }
}

// A room whose sessions have made their calls in threads.
fn shared_by_threads<R: Threads + Wait + Sync>(rt: &R, alloc: Global, open: Open) -> Option<Open> {
    let Open { room, passes } = open;
    let shared = Mutex::new(room);
    let passes = from_first_turn(rt, alloc, &shared, passes)?;
    let room = shared.into_inner();
    Some(Open { room, passes })
}

// The passes, when the sessions have made their calls from the first turn on.
fn from_first_turn<R: Threads + Wait + Sync>(
    rt: &R,
    alloc: Global,
    shared: &Shared,
    passes: Vec<Pass>,
) -> Option<Vec<Pass>> {
    let turns = Turns {
        made: Mutex::new(0),
        passed: Condvar::new(),
    };
    in_threads(rt, alloc, shared, &turns, passes)
}

// The passes keep what they were told, and the room closes.
fn have_called(rt: &impl Abort, alloc: Global, open: Open) {
    are_kept(rt, alloc, open.passes.as_slice());
    let text = tell_how_it_closes(rt, alloc, open, CAVE, Pick::First);
    assert_eq!(rt; text.as_str(), LOG);
}

#[test]
fn two_sessions_in_threads(rt: HostRuntime) {
    let open = open_for(&rt, rt.alloc(), CAVE, 2);
    let open = shared_by_threads(&rt, rt.alloc(), open).expect(&rt, "memory");
    have_called(&rt, rt.alloc(), open);
}
