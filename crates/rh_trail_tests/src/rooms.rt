//! Rooms: what sessions are told in turn, passes that aren't the room's, limits, and rooms that don't close.

use crate::support::cluster_of;
use crate::told::{
    Open, open_for, open_on, served, tell_calls, tell_how_it_closes, tell_kept, tell_served,
};
use rh_calls::{Call, Reply, report};
use rh_cluster::Node;
use rh_room::{Pass, Room, RoomFault};
use rh_samples::{CAVE, ONE_NODE, TWO_NODES};
use rh_step::{Event, Pick};
use rh_trail::Sim;
use std::alloc::Global;
use std::process::Abort;

// The first node boots.
static BOOT: Event = Event::Boot { node: Node(0) };

/// Which session makes which call, of two.
pub fn schedule() -> [(u8, Call); 5] {
    [
        (1, Call::Step(BOOT)),
        (2, Call::Look),
        (2, Call::Undo),
        (1, Call::UndoAll),
        (1, Call::RedoAll),
    ]
}

// What the second session sees: the first node waits for the two others.
static SEEN: &str = "\
now 0
node cp1@cave waiting 1
node cp2@cave down 0
node cp3@cave down 0
app myapp quiet
timer sync cp1@cave 5000
";

/// What each session keeps, the first one's first; the report that was seen has 113 bytes.
pub static KEPT: &str = "\
0 1 done 0
3 1 moved 0
4 1 moved 1
1 2 seen 1 1 113
2 2 undone
";

/// The log behind these calls.
pub static LOG: &str = "\
1 done 0
2 seen 1 1 113
2 undone
1 moved 0
1 moved 1
";

static TOLD: &str = "\
0 1 done 0
1 2 seen 1 1 113
2 2 undone
3 1 moved 0
4 1 moved 1
";

// Is this what a look at the simulation shows?
fn is_seen(rt: &impl Abort, alloc: Global, sim: &Sim) -> bool {
    let shown = report(alloc, sim.state()).ok().expect(rt, "memory");
    shown.as_slice() == SEEN.as_bytes()
}

// Does a copy of the room's simulation show it?
fn is_seen_in_copy(rt: &impl Abort, alloc: Global, room: &Room) -> bool {
    let fork = room.fork(alloc).ok().expect(rt, "memory");
    is_seen(rt, alloc, &fork)
}

// Does the room show it, and a copy of its simulation?
fn shows(rt: &impl Abort, alloc: Global, room: &Room) {
    assert!(rt; is_seen_in_copy(rt, alloc, room) && is_seen(rt, alloc, room.sim()));
}

fn has_served_two(rt: &impl Abort, room: &Room) {
    assert!(rt; room.log().len() == 5 && room.sessions() == 2);
}

/// Do the passes keep what they were told?
pub fn are_kept(rt: &impl Abort, alloc: Global, passes: &[Pass]) {
    let mut text = String::new(alloc);
    for pass in passes {
        assert!(rt; tell_kept(&mut text, pass).is_ok());
    }
    assert_eq!(rt; text.as_str(), KEPT);
}

fn one_after_the_other(rt: &impl Abort, alloc: Global, open: &mut Open) {
    let mut text = String::new(alloc);
    let calls = schedule();
    tell_calls(rt, &mut text, alloc, open, calls.as_slice());
    assert_eq!(rt; text.as_str(), TOLD);
    are_kept(rt, alloc, open.passes.as_slice());
    shows(rt, alloc, &open.room);
    has_served_two(rt, &open.room);
}

#[test]
fn two_sessions_in_turn(rt: HostRuntime) {
    let mut open = open_for(&rt, rt.alloc(), CAVE, 2);
    one_after_the_other(&rt, rt.alloc(), &mut open);
    let text = tell_how_it_closes(&rt, rt.alloc(), open, CAVE, Pick::First);
    assert_eq!(rt; text.as_str(), LOG);
}

// The first session of a room calls there.
fn calls_at_home(rt: &impl Abort, alloc: Global, open: &mut Open, call: Call, want: &str) {
    let mut text = String::new(alloc);
    tell_calls(rt, &mut text, alloc, open, [(1, call)].as_slice());
    assert_eq!(rt; text.as_str(), want);
}

// The pass of the only session of another room, which has called there.
fn pass_from_elsewhere(rt: &impl Abort, alloc: Global) -> Pass {
    let mut other = open_for(rt, alloc, CAVE, 1);
    calls_at_home(rt, alloc, &mut other, Call::Undo, "0 1 at start\n");
    other.passes.pop().expect(rt, "a pass")
}

// The first session of another room calls in this one.
fn calls_abroad(rt: &impl Abort, alloc: Global, room: &mut Room) {
    let mut pass = pass_from_elsewhere(rt, alloc);
    let mut text = String::new(alloc);
    let told = tell_served(&mut text, alloc, room, &mut pass, Call::Look);
    assert!(rt; told.is_ok() && room.log().len() == 1);
    assert_eq!(rt; text.as_str(), "WrongRoom { place: 0 }\n");
}

// What a pass was told in another room isn't what this one has.
#[test]
fn a_pass_of_another_room_is_refused(rt: HostRuntime) {
    let mut open = open_for(&rt, rt.alloc(), CAVE, 2);
    calls_at_home(&rt, rt.alloc(), &mut open, Call::Step(BOOT), "0 1 done 0\n");
    calls_abroad(&rt, rt.alloc(), &mut open.room);
}

fn is_no_room(rt: &impl Abort, alloc: Global, sessions: u8) {
    let fault = open_on(alloc, cluster_of(rt, alloc, ONE_NODE), sessions).err();
    assert!(rt; fault == Some(RoomFault::SessionCount));
}

// A room of eight sessions, with their passes, the eighth of which is new.
fn are_eight(rt: &impl Abort, room: &Room, passes: &[Pass]) {
    assert!(rt; room.sessions() == 8 && passes.len() == 8);
    assert!(rt; passes[7].session() == 8 && passes[7].receipts().is_empty());
}

#[test]
fn a_room_has_1_to_8_sessions(rt: HostRuntime) {
    is_no_room(&rt, rt.alloc(), 0);
    is_no_room(&rt, rt.alloc(), 9);
    let open = open_for(&rt, rt.alloc(), ONE_NODE, 8);
    are_eight(&rt, &open.room, open.passes.as_slice());
}

// A call of a session, of which there is nothing to undo, is served.
fn is_served(rt: &impl Abort, alloc: Global, room: &mut Room, pass: &mut Pass) {
    let receipt = served(alloc, room, pass, Call::Undo)
        .ok()
        .expect(rt, "a receipt");
    assert!(rt; receipt.reply.same(&Reply::AtStart) && receipt.call == Call::Undo);
}

// Not one more call is served.
fn is_full(rt: &impl Abort, alloc: Global, room: &mut Room, pass: &mut Pass) {
    let fault = served(alloc, room, pass, Call::Undo).err();
    assert!(rt; fault == Some(RoomFault::LogFull));
    assert!(rt; room.log().len() == 65_535 && pass.receipts().len() == 65_535);
}

fn fill(rt: &impl Abort, alloc: Global, room: &mut Room, pass: &mut Pass) {
    for _ in 0..Room::LOG_LIMIT {
        is_served(rt, alloc, room, pass);
    }
    is_full(rt, alloc, room, pass);
}

#[test]
fn a_log_has_65535_entries(rt: HostRuntime) {
    let mut open = open_for(&rt, rt.alloc(), ONE_NODE, 1);
    let pass = open.passes.get_mut(0).expect(&rt, "a pass");
    fill(&rt, rt.alloc(), &mut open.room, pass);
}

#[test]
fn a_pass_is_missing(rt: HostRuntime) {
    let mut open = open_for(&rt, rt.alloc(), ONE_NODE, 2);
    assert!(rt; open.passes.pop().is_some());
    let text = tell_how_it_closes(&rt, rt.alloc(), open, ONE_NODE, Pick::First);
    assert_eq!(rt; text.as_str(), "MissingPass\n");
}

// The pass of the only session of another room.
fn only_pass_of_another(rt: &impl Abort, alloc: Global) -> Pass {
    let mut other = open_for(rt, alloc, ONE_NODE, 1);
    other.passes.pop().expect(rt, "a pass")
}

// The last pass goes, and that of another room's first session comes in its place.
fn take_from_another(rt: &impl Abort, alloc: Global, passes: &mut Vec<Pass>) {
    let foreign = only_pass_of_another(rt, alloc);
    assert!(rt; passes.pop().is_some() && passes.push(foreign).is_ok());
}

#[test]
fn a_session_has_two_passes(rt: HostRuntime) {
    let mut open = open_for(&rt, rt.alloc(), ONE_NODE, 2);
    take_from_another(&rt, rt.alloc(), &mut open.passes);
    let text = tell_how_it_closes(&rt, rt.alloc(), open, ONE_NODE, Pick::First);
    assert_eq!(rt; text.as_str(), "MissingPass\n");
}

#[test]
fn a_pass_was_told_less(rt: HostRuntime) {
    let mut open = open_for(&rt, rt.alloc(), ONE_NODE, 1);
    calls_at_home(&rt, rt.alloc(), &mut open, Call::Undo, "0 1 at start\n");
    take_from_another(&rt, rt.alloc(), &mut open.passes);
    let text = tell_how_it_closes(&rt, rt.alloc(), open, ONE_NODE, Pick::First);
    assert_eq!(rt; text.as_str(), "Disagree { session: 1, place: 0 }\n");
}

#[test]
fn the_room_stands_on_another_cluster(rt: HostRuntime) {
    let open = open_for(&rt, rt.alloc(), ONE_NODE, 1);
    let text = tell_how_it_closes(&rt, rt.alloc(), open, TWO_NODES, Pick::First);
    assert_eq!(rt; text.as_str(), "OtherBase\n");
}

#[test]
fn the_room_has_another_pick(rt: HostRuntime) {
    let open = open_for(&rt, rt.alloc(), ONE_NODE, 1);
    let text = tell_how_it_closes(&rt, rt.alloc(), open, ONE_NODE, Pick::Last);
    assert_eq!(rt; text.as_str(), "OtherBase\n");
}
