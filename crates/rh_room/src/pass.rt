//! Entries of a log, and the passes of sessions.

ghost use Rattle.std.specs.Prelude.{◌≡◌, [], IfOk};
ghost use Rattle.rh_room.specs.Legal.{InOrder, new_pass};

use crate::room::Room;
use rh_base::OutOfMemory;
use rh_calls::{Call, Reply};
use std::alloc::Global;
use std::marker::Model;

/// An entry of a log: a call, with its session and the reply to it.
#[derive(Drop)]
pub struct Entry {
    /// The number of the session, counted from 1.
    pub session: u8,
    /// The call.
    pub call: Call,
    /// The reply.
    pub reply: Reply,
}

/// What a session is told of a call: its place in the log, and the reply to it.
#[derive(Drop)]
pub struct Receipt {
    /// The place in the log, counted from 0.
    pub place: usize,
    /// The call.
    pub call: Call,
    /// The reply.
    pub reply: Reply,
}

/// A session's right to call, which keeps the receipts of its calls.
#[derive(Drop)]
pub struct Pass {
    pub(crate) session: u8,
    // Has room for all calls that a room serves.
    pub(crate) receipts: Vec<Receipt>,
}

impl Model for Pass {
    ghost use Rattle.std.specs.Prelude.{◌≤◌, vec_capacity};
    ghost use Rattle.rh_room.specs.Legal.{PassView, InOrder, log_limit};

    ghost Value = { PassView };

    ghost view = { λ p. record { session = p.session; receipts = p.receipts.items } };

    ghost invariant = { λ p.
        record { order : InOrder p.receipts.items; room : log_limit ≤ vec_capacity p.receipts } };
}

impl Pass {
    // A pass without receipts.
    pub(crate) fn new(alloc: Global, session: u8) -> Result<Pass, OutOfMemory>
        ensures { IfOk result (λ pass. pass ≡ new_pass session) }
    {
        let receipts = Vec::with_capacity(alloc, Room::LOG_LIMIT)?;
        Ok(Pass { session, receipts })
    }

    /// The number of the session, counted from 1.
    pub fn session(&self) -> u8
        ensures { result ≡ self.now.session }
    {
        self.session
    }

    /// The receipts, in the order of the calls: each is of a later place than those before it.
    pub fn receipts(&self) -> &[Receipt]
        ensures receipts { result.now ≡ self.now.receipts }
        ensures order { InOrder result.now }
    {
        self.receipts.as_slice()
    }
}

/// Why a room doesn't open, or doesn't serve.
#[derive(Clone, Copy, Debug, PartialEq, Eq)]
pub enum RoomFault {
    /// A room has 1 to [`Room::SESSION_LIMIT`](crate::Room::SESSION_LIMIT) sessions.
    SessionCount,
    /// The pass is of another room: of a session that this one hasn't, or at the place of its last receipt (0 without
    /// receipts) the log has another entry, or none.
    WrongRoom { place: usize },
    /// The log holds [`Room::LOG_LIMIT`](crate::Room::LOG_LIMIT) entries, the most that it can.
    LogFull,
    /// Memory was refused.
    OutOfMemory,
}
