//! Rooms of two sessions: opening one, serving a call, forking it, and closing it.

use crate::clusters::{BOOT_1, BOOT_2, BOOT_3, CAVE, cluster_of, sim_behind};
use crate::kept::Kept;
use rh_calls::{Call, Reply};
use rh_cluster::Cluster;
use rh_marks::{Answer, begin, end};
use rh_room::{Entry, Pass, Receipt, Room, RoomFault, close, open_room};
use rh_step::{Pick, Refusal};
use rh_trail::Sim;
use std::alloc::Global;

// What a look shows behind the first boot: the node waits for the two others.
static SEEN: &str = "\
now 0
node cp1@cave waiting 1
node cp2@cave down 0
node cp3@cave down 0
app myapp quiet
timer sync cp1@cave 5000
";

// What the sessions have called, in turn.
static CALLS: [Call; 2] = [Call::Step(BOOT_1), Call::Step(BOOT_2)];

// A room and its passes.
#[derive(Drop)]
struct Open {
    room: Room,
    passes: Vec<Pass>,
}

/// What comes of the call of this name, if it is here.
pub fn answer(alloc: Global, name: &str) -> Option<Answer> {
    if name == "open_room" {
        Some(call_open_room(alloc, cluster_of(alloc, CAVE)?))
    } else if name == "Room::serve of a step" {
        call_serve(alloc, Call::Step(BOOT_3), 2)
    } else if name == "Room::serve of a look" {
        call_serve(alloc, Call::Look, 1)
    } else if name == "Room::fork" {
        call_fork(alloc)
    } else if name == "close" {
        call_close(alloc)
    } else if let Some(call) = quick_call(name) {
        call_serve(alloc, call, 2)
    } else {
        call_reader(alloc, name)
    }
}

// The call of a session of this name, if it takes no memory.
fn quick_call(name: &str) -> Option<Call> {
    if name == "Room::serve of undo" {
        Some(Call::Undo)
    } else if name == "Room::serve of redo" {
        Some(Call::Redo)
    } else if name == "Room::serve of undo_all" {
        Some(Call::UndoAll)
    } else if name == "Room::serve of redo_all" {
        Some(Call::RedoAll)
    } else if name == "Room::serve of a refused step" {
        Some(Call::Step(BOOT_1))
    } else {
        None
    }
}

// A room behind these calls, of which the sessions make one after the other.
fn open_behind(alloc: Global, calls: &[Call]) -> Option<Open> {
    let cluster = cluster_of(alloc, CAVE)?;
    let (room, passes) = open_room(alloc, cluster, Pick::First, 2).ok()?;
    let mut open = Open { room, passes };
    call_all(alloc, &mut open, calls)?;
    Some(open)
}

fn call_all(alloc: Global, open: &mut Open, calls: &[Call]) -> Option<()> {
    for index in 0..calls.len() {
        let pass = open.passes.get_mut(index % 2)?;
        let _ = open.room.serve(alloc, pass, calls[index]).ok()?;
    }
    Some(())
}

fn call_open_room(alloc: Global, cluster: Cluster) -> Answer {
    begin(alloc);
    let opening = open_room(alloc, cluster, Pick::First, 2);
    end(alloc);
    match opening {
        Ok((room, passes)) => Answer::of_call(room.log().is_empty() && passes.len() == 2),
        Err(RoomFault::OutOfMemory) => Answer::Refused,
        Err(_) => Answer::Changed("fault"),
    }
}

// The first session calls, behind so many calls.
fn call_serve(alloc: Global, call: Call, count: usize) -> Option<Answer> {
    let mut open = open_behind(alloc, CALLS.as_slice().get(..count)?)?;
    call_serve_on(alloc, &mut open, call, count)
}

fn call_serve_on(alloc: Global, open: &mut Open, call: Call, count: usize) -> Option<Answer> {
    let kept = Kept::of(alloc, open.room.sim())?;
    call_serve_beside(alloc, open, &kept, call, count)
}

fn call_serve_beside(
    alloc: Global,
    open: &mut Open,
    kept: &Kept,
    call: Call,
    count: usize,
) -> Option<Answer> {
    let pass = open.passes.get_mut(0)?;
    begin(alloc);
    let served = open.room.serve(alloc, pass, call);
    end(alloc);
    match served {
        Ok(receipt) => Some(Answer::of_call(
            receipt.place == count && is_right(&receipt) && open.room.log().len() == count + 1,
        )),
        Err(RoomFault::OutOfMemory) => Some(Answer::of_refusal(what_changed(
            alloc, open, kept, count,
        )?)),
        Err(_) => Some(Answer::Changed("fault")),
    }
}

// Is this what the step or the look answers?
fn is_right(receipt: &Receipt) -> bool {
    match (receipt.call, &receipt.reply) {
        (Call::Step(_), Reply::Done(notices)) => notices.as_slice().len() == 6,
        (Call::Step(_), Reply::Refused(refusal)) => *refusal == Refusal::AlreadyAlive,
        (Call::Undo, Reply::Undone) | (Call::Redo, Reply::AtEnd) => true,
        (Call::UndoAll, Reply::Moved(count)) => *count == 2,
        (Call::RedoAll, Reply::Moved(count)) => *count == 0,
        (
            Call::Look,
            Reply::Seen {
                cursor,
                trail,
                text,
            },
        ) => *cursor == 1 && *trail == 1 && text.as_slice() == SEEN.as_bytes(),
        _ => false,
    }
}

// What isn't as it was behind so many calls.
fn what_changed(
    alloc: Global,
    open: &Open,
    kept: &Kept,
    count: usize,
) -> Option<Option<&'static str>> {
    if let Some(what) = kept.seen_changed(alloc, open.room.sim()) {
        return Some(Some(what));
    }
    if !is_log(open.room.log(), count) {
        return Some(Some("log"));
    }
    if !are_receipts(open.passes.as_slice(), count) {
        return Some(Some("receipts"));
    }
    fork_changed(alloc, &open.room, kept)
}

// What of a fork of the room isn't as it was.
fn fork_changed(alloc: Global, room: &Room, kept: &Kept) -> Option<Option<&'static str>> {
    let mut fork = room.fork(alloc).ok()?;
    Some(kept.changed(alloc, &mut fork))
}

// Are these the entries of so many of the calls?
fn is_log(log: &[Entry], count: usize) -> bool {
    if log.len() != count || count > CALLS.len() {
        return false;
    }
    for index in 0..count {
        if log[index].call != CALLS[index] || !is_done(&log[index].reply) {
            return false;
        }
    }
    true
}

// Is this the reply to each of the calls?
fn is_done(reply: &Reply) -> bool {
    match reply {
        Reply::Done(notices) => notices.as_slice().is_empty(),
        _ => false,
    }
}

// Have the passes one receipt of each of so many calls?
fn are_receipts(passes: &[Pass], count: usize) -> bool {
    match passes {
        [first, second] => { first.receipts().len() == 1 && second.receipts().len() + 1 == count }
        _ => false,
    }
}

// The readers of a room and its passes.
fn call_reader(alloc: Global, name: &str) -> Option<Answer> {
    let open = open_behind(alloc, CALLS.as_slice())?;
    let pass = open.passes.get(0)?;
    begin(alloc);
    let is_right = is_read(&open.room, pass, name);
    end(alloc);
    Some(Answer::of_call(is_right?))
}

// Whether a reader of this name answers as it has to.
fn is_read(room: &Room, pass: &Pass, name: &str) -> Option<bool> {
    if name == "Room::log" {
        Some(room.log().len() == 2)
    } else if name == "Room::sim" {
        Some(room.sim().cursor() == 2)
    } else if name == "Room::sessions" {
        Some(room.sessions() == 2)
    } else if name == "Pass::session" {
        Some(pass.session() == 1)
    } else if name == "Pass::receipts" {
        Some(pass.receipts().len() == 1)
    } else {
        None
    }
}

fn call_fork(alloc: Global) -> Option<Answer> {
    let open = open_behind(alloc, CALLS.as_slice())?;
    call_fork_on(alloc, &open.room)
}

fn call_fork_on(alloc: Global, room: &Room) -> Option<Answer> {
    let kept = Kept::of(alloc, room.sim())?;
    let answer = call_fork_beside(alloc, room, &kept);
    Some(match kept.seen_changed(alloc, room.sim()) {
        None => answer,
        Some(what) => Answer::Changed(what),
    })
}

fn call_fork_beside(alloc: Global, room: &Room, kept: &Kept) -> Answer {
    begin(alloc);
    let fork = room.fork(alloc);
    end(alloc);
    match fork {
        Ok(mut fork) => {
            Answer::of_call(fork.cursor() == 2 && kept.changed(alloc, &mut fork).is_none())
        }
        Err(_) => Answer::Refused,
    }
}

fn call_close(alloc: Global) -> Option<Answer> {
    let cluster = cluster_of(alloc, CAVE)?;
    call_close_of(alloc, &cluster)
}

fn call_close_of(alloc: Global, cluster: &Cluster) -> Option<Answer> {
    call_close_on(alloc, open_behind(alloc, CALLS.as_slice())?, cluster)
}

fn call_close_on(alloc: Global, open: Open, cluster: &Cluster) -> Option<Answer> {
    let Open { room, passes } = open;
    begin(alloc);
    let closed = close(room, passes, cluster, Pick::First);
    end(alloc);
    match closed {
        Ok(closed) => Some(Answer::of_call(
            is_log(closed.log.as_slice(), 2) && is_behind(alloc, &closed.sim)?,
        )),
        Err(_) => Some(Answer::Changed("fault")),
    }
}

// Has a simulation the words that another has behind the two boots?
fn is_behind(alloc: Global, sim: &Sim) -> Option<bool> {
    let wanted = sim_behind(alloc, CAVE, [BOOT_1, BOOT_2].as_slice())?;
    Some(sim.cursor() == 2 && sim.state().same_words(wanted.state()))
}
