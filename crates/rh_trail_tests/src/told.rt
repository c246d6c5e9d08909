//! What the sessions of rooms are told, as text: a room with its passes, what is done with them, and how it closes.

use crate::support::cluster_of;
use rh_calls::{Call, Reply};
use rh_cluster::Cluster;
use rh_room::{CloseFault, Closed, Entry, Pass, Receipt, Room, RoomFault, close, open_room};
use rh_step::Pick;
use std::alloc::{AllocError, Global};
use std::process::Abort;

/// A room and its passes, those of the first sessions first.
#[derive(Drop)]
pub struct Open {
    pub room: Room,
    pub passes: Vec<Pass>,
}

/// A room of so many sessions.
pub fn open_for(rt: &impl Abort, alloc: Global, text: &str, sessions: u8) -> Open {
    let (room, passes) = open_on(alloc, cluster_of(rt, alloc, text), sessions)
        .ok()
        .expect(rt, "a room");
    Open { room, passes }
}

/// Opens a room of so many sessions on a cluster.
pub fn open_on(
    alloc: Global,
    cluster: Cluster,
    sessions: u8,
) -> Result<(Room, Vec<Pass>), RoomFault> {
    open_room(alloc, cluster, Pick::First, sessions)
}

fn tell_reply(text: &mut String, reply: &Reply) -> Result<(), AllocError> {
    match reply {
        Reply::Done(notices) => writeln!(text, "done {}", notices.as_slice().len()),
        Reply::Refused(refusal) => writeln!(text, "refused {refusal}"),
        Reply::Undone => text.push_str("undone\n"),
        Reply::Redone => text.push_str("redone\n"),
        Reply::AtStart => text.push_str("at start\n"),
        Reply::AtEnd => text.push_str("at end\n"),
        Reply::Moved(count) => writeln!(text, "moved {count}"),
        Reply::Seen {
            cursor,
            trail,
            text: report,
        } => { writeln!(text, "seen {cursor} {trail} {}", report.as_slice().len()) }
    }
}

// Does the receipt tell this call and its place?
fn tell_receipt(text: &mut String, session: u8, receipt: &Receipt) -> Result<(), AllocError> {
    write!(text, "{} {session} ", receipt.place)?;
    tell_reply(text, &receipt.reply)
}

/// Serves a call.
pub fn served(
    alloc: Global,
    room: &mut Room,
    pass: &mut Pass,
    call: Call,
) -> Result<Receipt, RoomFault> {
    room.serve(alloc, pass, call)
}

/// Serves a call, and tells its place, its session and the reply, or the fault.
pub fn tell_served(
    text: &mut String,
    alloc: Global,
    room: &mut Room,
    pass: &mut Pass,
    call: Call,
) -> Result<(), AllocError> {
    match served(alloc, room, pass, call) {
        Ok(receipt) => tell_receipt(text, pass.session(), &receipt),
        Err(fault) => writeln!(text, "{fault:?}"),
    }
}

/// Makes these calls in their turn, each with the number of its session.
pub fn tell_calls(
    rt: &impl Abort,
    text: &mut String,
    alloc: Global,
    open: &mut Open,
    calls: &[(u8, Call)],
) {
    for (session, call) in calls {
        tell_call(rt, text, alloc, open, *session, *call);
    }
}

// Makes a call of the session that has this number.
fn tell_call(
    rt: &impl Abort,
    text: &mut String,
    alloc: Global,
    open: &mut Open,
    session: u8,
    call: Call,
) {
    let index = (session as usize).saturating_sub(1);
    let pass = open.passes.get_mut(index).expect(rt, "a pass");
    let told = tell_served(text, alloc, &mut open.room, pass, call);
    assert!(rt; told.is_ok());
}

/// What a session keeps of what it was told.
pub fn tell_kept(text: &mut String, pass: &Pass) -> Result<(), AllocError> {
    for receipt in pass.receipts() {
        tell_receipt(text, pass.session(), receipt)?;
    }
    Ok(())
}

// The log, as the receipts tell it.
fn tell_log(text: &mut String, log: &[Entry]) -> Result<(), AllocError> {
    for entry in log {
        write!(text, "{} ", entry.session)?;
        tell_reply(text, &entry.reply)?;
    }
    Ok(())
}

/// Closes a room on a cluster, with its passes.
pub fn closed_on(open: Open, cluster: &Cluster, pick: Pick) -> Result<Closed, CloseFault> {
    let Open { room, passes } = open;
    close(room, passes, cluster, pick)
}

/// Closes a room, and tells its log, or why it doesn't close.
pub fn tell_closed(
    text: &mut String,
    open: Open,
    cluster: &Cluster,
    pick: Pick,
) -> Result<(), AllocError> {
    match closed_on(open, cluster, pick) {
        Ok(closed) => tell_log(text, closed.log.as_slice()),
        Err(fault) => writeln!(text, "{:?}", fault.why),
    }
}

/// How a room closes on the cluster of this text.
pub fn tell_how_it_closes(
    rt: &impl Abort,
    alloc: Global,
    open: Open,
    base: &str,
    pick: Pick,
) -> String {
    let cluster = cluster_of(rt, alloc, base);
    tell_how_it_closes_on(rt, alloc, open, &cluster, pick)
}

fn tell_how_it_closes_on(
    rt: &impl Abort,
    alloc: Global,
    open: Open,
    cluster: &Cluster,
    pick: Pick,
) -> String {
    let mut text = String::new(alloc);
    assert!(rt; tell_closed(&mut text, open, cluster, pick).is_ok());
    text
}
