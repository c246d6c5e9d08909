//! Passes that aren't the room's, that are one too many or come again, and a room that is handed back.

use crate::support::cluster_of;
use crate::told::{
    Open, closed_on, open_for, tell_calls, tell_how_it_closes, tell_kept, tell_served,
};
use rh_calls::Call;
use rh_cluster::Cluster;
use rh_room::{CloseFault, CloseReason, Pass, Room};
use rh_samples::ONE_NODE;
use rh_step::Pick;
use std::alloc::Global;
use std::process::Abort;

// A session of another room makes a call in this one.
fn calls_abroad(rt: &impl Abort, alloc: Global, room: &mut Room, pass: &mut Pass, want: &str) {
    let mut text = String::new(alloc);
    assert!(rt; tell_served(&mut text, alloc, room, pass, Call::Undo).is_ok());
    assert_eq!(rt; text.as_str(), want);
}

// Each session of a room, of so many, makes a call, of which there is nothing to undo.
fn call_in_turn(rt: &impl Abort, alloc: Global, open: &mut Open, sessions: u8, want: &str) {
    let mut text = String::new(alloc);
    for before in 0..sessions {
        let call = [(before + 1, Call::Undo)];
        tell_calls(rt, &mut text, alloc, open, call.as_slice());
    }
    assert_eq!(rt; text.as_str(), want);
}

// What two sessions are told that call in turn.
static TWO_CALLS: &str = "0 1 at start\n1 2 at start\n";

// The last pass of another room, of so many sessions, none of which has called.
fn unused_pass(rt: &impl Abort, alloc: Global, sessions: u8) -> Pass {
    let mut other = open_for(rt, alloc, ONE_NODE, sessions);
    other.passes.pop().expect(rt, "a pass")
}

// The last pass of another room, of two sessions, both of which have called there.
fn used_pass(rt: &impl Abort, alloc: Global) -> Pass {
    let mut other = open_for(rt, alloc, ONE_NODE, 2);
    call_in_turn(rt, alloc, &mut other, 2, TWO_CALLS);
    other.passes.pop().expect(rt, "a pass")
}

// The last pass goes, and one of another room comes in its place.
fn exchange_last(rt: &impl Abort, passes: &mut Vec<Pass>, foreign: Pass) {
    assert!(rt; passes.pop().is_some() && passes.push(foreign).is_ok());
}

// A pass of another room comes to those of this one.
fn add_last(rt: &impl Abort, passes: &mut Vec<Pass>, surplus: Pass) {
    assert!(rt; passes.push(surplus).is_ok());
}

fn is_untouched(rt: &impl Abort, room: &Room, pass: &Pass) {
    assert!(rt; room.log().is_empty() && room.sim().trail().is_empty());
    assert!(rt; pass.receipts().is_empty());
}

// How the passes that are given close a room.
fn closes_so(rt: &impl Abort, alloc: Global, open: Open, want: &str) {
    let text = tell_how_it_closes(rt, alloc, open, ONE_NODE, Pick::First);
    assert_eq!(rt; text.as_str(), want);
}

// The third session of another room calls in this one.
fn third_is_refused(rt: &impl Abort, alloc: Global, room: &mut Room) {
    let mut pass = unused_pass(rt, alloc, 3);
    let want = "WrongRoom { place: 0 }\n";
    calls_abroad(rt, alloc, room, &mut pass, want);
    is_untouched(rt, room, &pass);
}

#[test]
fn a_room_of_two_has_no_third_session(rt: HostRuntime) {
    let mut open = open_for(&rt, rt.alloc(), ONE_NODE, 2);
    third_is_refused(&rt, rt.alloc(), &mut open.room);
    closes_so(&rt, rt.alloc(), open, "");
}

#[test]
fn the_pass_of_a_third_session_closes_nothing(rt: HostRuntime) {
    let mut open = open_for(&rt, rt.alloc(), ONE_NODE, 2);
    let foreign = unused_pass(&rt, rt.alloc(), 3);
    exchange_last(&rt, &mut open.passes, foreign);
    closes_so(&rt, rt.alloc(), open, "MissingPass\n");
}

#[test]
fn a_pass_is_one_too_many(rt: HostRuntime) {
    let mut open = open_for(&rt, rt.alloc(), ONE_NODE, 2);
    let surplus = unused_pass(&rt, rt.alloc(), 2);
    add_last(&rt, &mut open.passes, surplus);
    closes_so(&rt, rt.alloc(), open, "MissingPass\n");
}

#[test]
fn all_passes_are_missing(rt: HostRuntime) {
    let mut open = open_for(&rt, rt.alloc(), ONE_NODE, 1);
    assert!(rt; open.passes.pop().is_some() && open.passes.is_empty());
    closes_so(&rt, rt.alloc(), open, "MissingPass\n");
}

// The only session of another room calls in this one.
fn first_is_served(rt: &impl Abort, alloc: Global, room: &mut Room) {
    let mut pass = unused_pass(rt, alloc, 1);
    calls_abroad(rt, alloc, room, &mut pass, "0 1 at start\n");
    assert!(rt; room.log().len() == 1);
}

// A pass without receipts is served where its session is one of the room's, but then the room's own pass lacks the call.
#[test]
fn an_unused_pass_of_another_room_is_served(rt: HostRuntime) {
    let mut open = open_for(&rt, rt.alloc(), ONE_NODE, 1);
    first_is_served(&rt, rt.alloc(), &mut open.room);
    closes_so(&rt, rt.alloc(), open, "Disagree { session: 1, place: 0 }\n");
}

// The last session of another room, whose pass was told what the last of this one was, makes a call here; then its pass comes.
fn call_and_come(rt: &impl Abort, alloc: Global, open: &mut Open) {
    let mut foreign = used_pass(rt, alloc);
    calls_abroad(rt, alloc, &mut open.room, &mut foreign, "2 2 at start\n");
    exchange_last(rt, &mut open.passes, foreign);
}

// A pass that was told the same as the log has is as good as the room's own.
#[test]
fn a_pass_of_another_room_that_was_told_the_same(rt: HostRuntime) {
    let mut open = open_for(&rt, rt.alloc(), ONE_NODE, 2);
    call_in_turn(&rt, rt.alloc(), &mut open, 2, TWO_CALLS);
    call_and_come(&rt, rt.alloc(), &mut open);
    closes_so(
        &rt,
        rt.alloc(),
        open,
        "1 at start\n2 at start\n2 at start\n",
    );
}

// A pass that was called with again elsewhere is no longer this room's: the log ends before the place of its last receipt.
#[test]
fn a_pass_of_a_longer_log_is_refused(rt: HostRuntime) {
    let mut open = open_for(&rt, rt.alloc(), ONE_NODE, 1);
    call_in_turn(&rt, rt.alloc(), &mut open, 1, "0 1 at start\n");
    let mut foreign = used_pass(&rt, rt.alloc());
    calls_abroad(
        &rt,
        rt.alloc(),
        &mut open.room,
        &mut foreign,
        "WrongRoom { place: 1 }\n",
    );
}

// A pass is missing: the other one comes back as it was given.
fn one_is_missing(rt: &impl Abort, alloc: Global, why: CloseReason, passes: &[Pass]) {
    assert!(rt; why == CloseReason::MissingPass && passes.len() == 1);
    let mut text = String::new(alloc);
    for pass in passes {
        assert!(rt; tell_kept(&mut text, pass).is_ok());
    }
    assert_eq!(rt; text.as_str(), "1 2 at start\n");
}

// The room and its passes, which don't close for the want of one.
fn handed_back(rt: &impl Abort, alloc: Global, open: Open, cluster: &Cluster) -> Open {
    let fault = closed_on(open, cluster, Pick::First)
        .err()
        .expect(rt, "a fault");
    let CloseFault { why, room, passes } = fault;
    one_is_missing(rt, alloc, why, passes.as_slice());
    Open { room, passes }
}

// Both sessions of a room have called: its first pass is taken from the others.
fn first_of_two(rt: &impl Abort, alloc: Global, open: &mut Open) -> Pass {
    call_in_turn(rt, alloc, open, 2, TWO_CALLS);
    assert!(rt; open.passes.len() == 2);
    open.passes.remove(0)
}

// A room that comes back is closed with the pass that it lacked.
fn closes_with(rt: &impl Abort, alloc: Global, mut back: Open, first: Pass) {
    assert!(rt; back.passes.push(first).is_ok());
    closes_so(rt, alloc, back, "1 at start\n2 at start\n");
}

fn closes_behind(rt: &impl Abort, alloc: Global, cluster: &Cluster) {
    let mut open = open_for(rt, alloc, ONE_NODE, 2);
    let first = first_of_two(rt, alloc, &mut open);
    closes_with(rt, alloc, handed_back(rt, alloc, open, cluster), first);
}

// The first pass was left out: it comes behind the second, since the order doesn't count.
#[test]
fn a_room_that_is_handed_back_closes(rt: HostRuntime) {
    let cluster = cluster_of(&rt, rt.alloc(), ONE_NODE);
    closes_behind(&rt, rt.alloc(), &cluster);
}
