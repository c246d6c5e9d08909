//! The room.

ghost use Rattle.std.specs.Prelude.{◌≡◌, ◌<◌, ◌≤◌, ◌↔◌, ◌++◌, ◌∷◌, [], ℕ, IsTrue, true, false, length, vec_capacity, IfOk, IfErr, OnOk, OnErr};
ghost use Rattle.std.specs.Option.{option_map};
ghost use Rattle.rh_trail.specs.Chain.{chain, kept_to};
ghost use Rattle.rh_trail.specs.Lone.{served, opened, TakesMemory};
ghost use Rattle.rh_trail.specs.Laws.{IsReversible, is_refusal};
ghost use Rattle.rh_trail.specs.Words.{LeavesWords, LeavesRecords};
ghost use Rattle.rh_room.specs.Legal.{IsSession, IsRoom, entry, session_limit, log_limit};
ghost use Rattle.rh_room.specs.Serving.{last_of, place_of, IsPassOf, receipt_of, WhyNot};

use crate::pass::{Entry, Pass, Receipt, RoomFault};
use crate::replies::reply_to;
use rh_base::OutOfMemory;
use rh_calls::{Call, LAST_SESSION};
use rh_trail::Sim;
use std::alloc::Global;
use std::marker::Model;
use std::sync::Mutex;

/// A simulation that sessions share, with the log of all their calls.
#[derive(Drop)]
pub struct Room {
    sim: Sim,
    sessions: u8,
    // Has room for all entries that it may hold.
    log: Vec<Entry>,
}

/// A room that threads share: each call is [`Room::serve`] on the guard of its lock.
pub type Shared = Mutex<Room>;

impl Model for Room {
    ghost use Rattle.std.specs.Prelude.{◌≤◌, vec_capacity};
    ghost use Rattle.rh_room.specs.Legal.{RoomView, IsRoom, log_limit};

    ghost Value = { RoomView };

    ghost view = { λ r. record { sim = r.sim; sessions = r.sessions; log = r.log.items } };

    ghost invariant = { λ r. record {
      legal : IsRoom r.sim.seen r.sessions r.log.items;
      room : log_limit ≤ vec_capacity r.log;
    } };
}

impl Room {
    /// The greatest number of sessions.
    pub const SESSION_LIMIT: u8 = LAST_SESSION;

    /// The greatest number of entries in a log.
    pub const LOG_LIMIT: usize = 65_535;

    // A room with an empty log, which has room for all entries.
    pub(crate) fn of(sim: Sim, sessions: u8, log: Vec<Entry>) -> Room
        requires sim { sim.seen ≡ opened sim.seen.cluster sim.seen.pick }
        requires sessions { IsSession session_limit sessions }
        requires empty { log.items ≡ [] }
        requires room { log_limit ≤ vec_capacity log }
        ensures sim { result.sim ≡ sim }
        ensures sessions { result.sessions ≡ sessions }
        ensures log { result.log ≡ [] }
    {
        Room { sim, sessions, log }
    }

    /// The calls of all sessions, in the order in which they were served, with their replies. Each reply is the one that a
    /// single caller is given who makes these calls in this order.
    pub fn log(&self) -> &[Entry]
        ensures log { result.now ≡ self.now.log }
        ensures legal { IsRoom self.now.sim.seen self.now.sessions result.now }
    {
        self.log.as_slice()
    }

    /// The simulation that the sessions share. Undo and redo of it are exact, whatever the sessions did.
    pub fn sim(&self) -> &Sim
        ensures sim { result.now ≡ self.now.sim }
        ensures reversible { IsReversible result.now.seen }
    {
        self.sim.is_reversible();
        &self.sim
    }

    /// The number of sessions, 1 to [`Room::SESSION_LIMIT`].
    pub fn sessions(&self) -> u8
        ensures sessions { result ≡ self.now.sessions }
        ensures few { IsSession session_limit result }
    {
        self.sessions
    }

    /// A simulation that is equal to the one of the room.
    pub fn fork(&self, alloc: Global) -> Result<Sim, OutOfMemory>
        ensures { IfOk result (λ sim. sim ≡ self.now.sim) }
    {
        self.sim.copy(alloc)
    }

    // The simulation and the log.
    pub(crate) fn into_parts(self) -> (Sim, Vec<Entry>)
        ensures sim { result.0 ≡ self.sim }
        ensures log { result.1.items ≡ self.log }
    {
        let Room { sim, log, .. } = self;
        (sim, log)
    }

    /// Serves a call of a session: makes it of the simulation, and adds the reply to the log and to the pass. A fault changes
    /// neither the room nor the pass.
    ///
    /// # Errors
    /// `WrongRoom` if the pass isn't one of this room's, else `LogFull` if the log is full, else `OutOfMemory`, and that only
    /// for a step that isn't refused and for a look. A step that is refused isn't an error: that is the reply.
    pub fn serve(
        &mut self,
        alloc: Global,
        pass: &mut Pass,
        call: Call,
    ) -> Result<Receipt, RoomFault>
        ensures receipt { IfOk result (λ receipt. receipt ≡ receipt_of self.old call) }
        ensures sim { OnOk result (self.new.sim.seen ≡ (served self.old.sim.seen call).sim) }
        ensures whole { IfOk result
            (λ receipt. is_refusal receipt.reply ≡ true → self.new.sim ≡ self.old.sim) }

        // The words that undo and redo lead to stay, up to the cursor for a step and all of them for each other call.
        ensures chain { (k : ℕ) → k ≤ kept_to self.old.sim.seen call
            → chain self.new.sim k ≡ chain self.old.sim k }
        ensures words { IfOk result (λ receipt. is_refusal receipt.reply ≡ false
            → LeavesWords self.old.sim call self.new.sim) }
        ensures records { IfOk result (λ receipt. is_refusal receipt.reply ≡ false
            → LeavesRecords self.old.sim call self.new.sim) }

        ensures sessions { self.new.sessions ≡ self.old.sessions }
        ensures log { IfOk result (λ receipt.
            self.new.log ≡ self.old.log ++ entry pass.old.session call receipt.reply ∷ []) }
        ensures session { pass.new.session ≡ pass.old.session }
        ensures receipts { IfOk result
            (λ receipt. pass.new.receipts ≡ pass.old.receipts ++ receipt ∷ []) }
        ensures fine { OnOk result
            (IsPassOf self.old pass.old × (length self.old.log < log_limit)) }
        ensures kept { OnErr result ((self.new ≡ self.old) × (pass.new ≡ pass.old)) }
        ensures fault { IfErr result (WhyNot self.old pass.old call) }
    {
        if !self.knows(pass) {
            let place = last_place(pass.receipts());
            return Err(RoomFault::WrongRoom { place });
        }
        if self.log.len() == Self::LOG_LIMIT {
            return Err(RoomFault::LogFull);
        }
        match self.serve_known(alloc, pass, call) {
            Ok(receipt) => Ok(receipt),
            Err(OutOfMemory) => Err(RoomFault::OutOfMemory),
        }
    }

    // Serves a call of a pass that is one of this room's.
    fn serve_known(
        &mut self,
        alloc: Global,
        pass: &mut Pass,
        call: Call,
    ) -> Result<Receipt, OutOfMemory>
        requires known { IsPassOf self.old pass.old }
        requires room { length self.old.log < log_limit }
        ensures receipt { IfOk result (λ receipt. receipt ≡ receipt_of self.old call) }
        ensures sim { OnOk result (self.new.sim.seen ≡ (served self.old.sim.seen call).sim) }
        ensures whole { IfOk result
            (λ receipt. is_refusal receipt.reply ≡ true → self.new.sim ≡ self.old.sim) }
        ensures chain { (k : ℕ) → k ≤ kept_to self.old.sim.seen call
            → chain self.new.sim k ≡ chain self.old.sim k }
        ensures words { IfOk result (λ receipt. is_refusal receipt.reply ≡ false
            → LeavesWords self.old.sim call self.new.sim) }
        ensures records { IfOk result (λ receipt. is_refusal receipt.reply ≡ false
            → LeavesRecords self.old.sim call self.new.sim) }
        ensures sessions { self.new.sessions ≡ self.old.sessions }
        ensures log { IfOk result (λ receipt.
            self.new.log ≡ self.old.log ++ entry pass.old.session call receipt.reply ∷ []) }
        ensures session { pass.new.session ≡ pass.old.session }
        ensures receipts { IfOk result
            (λ receipt. pass.new.receipts ≡ pass.old.receipts ++ receipt ∷ []) }
        ensures kept { OnErr result ((self.new ≡ self.old) × (pass.new ≡ pass.old)) }
        ensures last { OnErr result (TakesMemory self.old.sim.seen call) }
    {
        let session = pass.session();
        let place = self.log.len();
        let replies = reply_to(alloc, &mut self.sim, &self.log, call)?;
        let (logged, kept, told) = replies.into_three();
        let entry = Entry {
            session,
            call,
            reply: logged,
        };
        self.log.push_reserved(entry);
        let receipt = Receipt {
            place,
            call,
            reply: kept,
        };
        pass.receipts.push_reserved(receipt);
        Ok(Receipt {
            place,
            call,
            reply: told,
        })
    }

    // Is the pass one of this room's?
    fn knows(&self, pass: &Pass) -> bool
        ensures { IsTrue result ↔ IsPassOf self.now pass.now }
    {
        let session = pass.session();
        if session == 0 || session > self.sessions {
            return false;
        }
        match last(pass.receipts()) {
            None => true,
            Some(receipt) => match self.log.get(receipt.place) {
                None => false,
                Some(entry) => is_of(entry, session, receipt),
            },
        }
    }
}

// The last receipt, if there is one.
fn last(receipts: &[Receipt]) -> Option<&Receipt>
    ensures { option_map (λ r. r.now) result ≡ last_of receipts.now }
{
    if receipts.is_empty() {
        return None;
    }
    receipts.get(receipts.len() - 1)
}

// Its place, and 0 without receipts.
fn last_place(receipts: &[Receipt]) -> usize
    ensures { result ≡ place_of (last_of receipts.now) }
{
    match last(receipts) {
        None => 0,
        Some(receipt) => receipt.place,
    }
}

// Is the entry the one of the session that the receipt is of?
fn is_of(found: &Entry, session: u8, receipt: &Receipt) -> bool
    ensures { IsTrue result ↔ (found.now ≡ entry session receipt.now.call receipt.now.reply) }
{
    found.session == session && found.call == receipt.call && found.reply.same(&receipt.reply)
}
