//! The closing of a room.

ghost use Rattle.std.specs.Prelude.{◌≡◌, ◌<◌, ◌==◌, ◌↔◌, ℕ, length, count_by, All, Any, IsTrue, IfOk, IfErr, OnOk, IfNone, IfSome};
ghost use Rattle.std.specs.List.{HoldsAt};
ghost use Rattle.rh_trail.specs.Laws.{IsReversible};
ghost use Rattle.rh_room.specs.Legal.{IsRoom, IsSession, InOrder, of_session, receipt};
ghost use Rattle.rh_room.specs.Closing.{AreAll, Agrees, IsOn, IsFirstDifference, IsDisagreement, WhyOpen};

use crate::pass::{Entry, Pass, Receipt};
use crate::room::Room;
use rh_model::Cluster;
use rh_rules::Pick;
use rh_trail::Sim;

/// A closed room.
#[derive(Drop)]
pub struct Closed {
    /// The simulation, behind all calls.
    pub sim: Sim,
    /// All calls with their replies, in the order in which they were served.
    pub log: Vec<Entry>,
}

/// Why a room doesn't close.
#[derive(Clone, Copy, Debug, PartialEq, Eq)]
pub enum CloseReason {
    /// The passes aren't those of the room's sessions, each exactly once.
    MissingPass,
    /// What the pass of this session was told isn't what the log has of it, first at this place.
    Disagree { session: u8, place: usize },
    /// The room stands on another cluster, or on another pick.
    OtherBase,
}

/// A room that doesn't close, with the passes as they were given.
#[derive(Drop)]
pub struct CloseFault {
    /// The first reason that applies.
    pub why: CloseReason,
    /// The room.
    pub room: Room,
    /// The passes.
    pub passes: Vec<Pass>,
}

/// Closes a room, which takes no memory. The passes come in any order; the cluster (a copy that was kept) and the pick are
/// those with which the room was opened.
///
/// Where it answers Ok, all that the sessions were told is one legal history on that cluster: each call once, in the order
/// that its session had seen.
///
/// # Errors
/// The first of the reasons that applies, with the room and the passes.
pub fn close(
    room: Room,
    passes: Vec<Pass>,
    cluster: &Cluster,
    pick: Pick,
) -> Result<Closed, CloseFault>
    ensures sim { IfOk result (λ closed. closed.sim ≡ room.sim) }
    ensures log { IfOk result (λ closed. closed.log.items ≡ room.log) }
    ensures history { IfOk result
        (λ closed. IsRoom closed.sim.seen room.sessions closed.log.items) }
    ensures reversible { IfOk result (λ closed. IsReversible closed.sim.seen) }
    ensures all { OnOk result (AreAll room.sessions passes.items) }
    ensures agree { IfOk result (λ closed. All (Agrees closed.log.items) passes.items) }
    ensures base { OnOk result (IsOn room cluster.now pick) }
    ensures why { IfErr result (λ fault. WhyOpen room passes.items cluster.now pick fault.why) }
    ensures room { IfErr result (λ fault. fault.room ≡ room) }
    ensures passes { IfErr result (λ fault. fault.passes.items ≡ passes.items) }
{
    match why_open(&room, passes.as_slice(), cluster, pick) {
        Some(why) => Err(CloseFault { why, room, passes }),
        None => Ok(take_apart(room)),
    }
}

// A room in its parts.
fn take_apart(room: Room) -> Closed
    ensures sim { result.sim ≡ room.sim }
    ensures log { result.log.items ≡ room.log }
    ensures history { IsRoom result.sim.seen room.sessions result.log.items }
    ensures reversible { IsReversible result.sim.seen }
{
    let _ = room.log();
    let _ = room.sim();
    let (sim, log) = room.into_parts();
    Closed { sim, log }
}

// The first reason why the room doesn't close, if there is one.
fn why_open(room: &Room, passes: &[Pass], cluster: &Cluster, pick: Pick) -> Option<CloseReason>
    ensures all { IfNone result (AreAll room.now.sessions passes.now) }
    ensures agree { IfNone result (All (Agrees room.now.log) passes.now) }
    ensures base { IfNone result (IsOn room.now cluster.now pick) }
    ensures why { IfSome result (WhyOpen room.now passes.now cluster.now pick) }
{
    if !are_all(room.sessions(), passes) {
        return Some(CloseReason::MissingPass);
    }
    if let Some((session, place)) = disagreement(room.log(), passes, room.sessions()) {
        return Some(CloseReason::Disagree { session, place });
    }
    if !is_on(room, cluster, pick) {
        return Some(CloseReason::OtherBase);
    }
    None
}

// Does the room stand on this cluster and this pick?
fn is_on(room: &Room, cluster: &Cluster, pick: Pick) -> bool
    ensures { IsTrue result ↔ IsOn room.now cluster.now pick }
{
    room.sim().cluster().same(cluster) && room.sim().pick() == pick
}

// Are the passes those of the sessions, each exactly once?
fn are_all(sessions: u8, passes: &[Pass]) -> bool
    ensures { IsTrue result ↔ AreAll sessions passes.now }
{
    are_known(sessions, passes) && are_once(sessions, passes)
}

// Are all passes of sessions?
fn are_known(sessions: u8, passes: &[Pass]) -> bool
    ensures { IsTrue result ↔ All (λ p. IsSession sessions p.session) passes.now }
{
    for pass in passes {
        if pass.session() == 0 || pass.session() > sessions {
            return false;
        }
    }
    true
}

// Has each session exactly one pass?
fn are_once(sessions: u8, passes: &[Pass]) -> bool
    ensures { IsTrue result ↔ ((session : ℕ) → IsSession sessions session
        → count_by (λ p. p.session == session) passes.now ≡ 1) }
{
    for session in 1..=sessions {
        if count_of(session, passes) != 1 {
            return false;
        }
    }
    true
}

// How many passes are of the session.
fn count_of(session: u8, passes: &[Pass]) -> usize
    ensures { result ≡ count_by (λ p. p.session == session) passes.now }
{
    let mut found = 0;
    for pass in passes {
        if pass.session() == session {
            found += 1;
        }
    }
    found
}

// The first session whose pass doesn't agree with the log, and the first place at which it doesn't.
fn disagreement(log: &[Entry], passes: &[Pass], sessions: u8) -> Option<(u8, usize)>
    requires { AreAll sessions passes.now }
    ensures none { IfNone result (All (Agrees log.now) passes.now) }
    ensures some { IfSome result (λ found. IsDisagreement log.now passes.now found.0 found.1) }
{
    for session in 1..=sessions {
        if let Some(place) = disagreement_of(log, passes, session) {
            return Some((session, place));
        }
    }
    None
}

// The first place at which a pass of the session doesn't agree with the log.
fn disagreement_of(log: &[Entry], passes: &[Pass], session: u8) -> Option<usize>
    ensures none { IfNone result (All (λ p. p.session ≡ session → Agrees log.now p) passes.now) }
    ensures some { IfSome result (λ place. Any (λ p. (p.session ≡ session)
        × IsFirstDifference p.receipts (of_session session log.now) place) passes.now) }
{
    for pass in passes {
        if pass.session() == session {
            if let Some(place) = difference(log, session, pass) {
                return Some(place);
            }
        }
    }
    None
}

// The first place at which what a pass was told differs from what the log has of the session.
fn difference(log: &[Entry], session: u8, pass: &Pass) -> Option<usize>
    ensures none { IfNone result (pass.now.receipts ≡ of_session session log.now) }
    ensures some { IfSome result
        (IsFirstDifference pass.now.receipts (of_session session log.now)) }
{
    let receipts = pass.receipts();
    let mut met = 0;
    for place in 0..log.len() {
        let told = is_of_place(receipts, met, place);
        let logged = log[place].session == session;
        if told != logged {
            return Some(place);
        }
        if told {
            if !is_for(&receipts[met], &log[place]) {
                return Some(place);
            }
            met += 1;
        }
    }
    if met < receipts.len() {
        return Some(receipts[met].place);
    }
    None
}

// Is there a receipt at the index, and is it of this place?
fn is_of_place(receipts: &[Receipt], index: usize, place: usize) -> bool
    ensures { IsTrue result
        ↔ ((index < length receipts.now) × HoldsAt (λ r. r.place ≡ place) receipts.now index) }
{
    index < receipts.len() && receipts[index].place == place
}

// Has the receipt the call and the reply of the entry?
fn is_for(receipt: &Receipt, entry: &Entry) -> bool
    ensures { IsTrue result
        ↔ ((receipt.now.call ≡ entry.now.call) × (receipt.now.reply ≡ entry.now.reply)) }
{
    receipt.call == entry.call && receipt.reply.same(&entry.reply)
}
