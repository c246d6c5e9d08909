//! A reply for all who keep it.

ghost use Rattle.std.specs.Prelude.{◌≡◌, IfOk, OnErr};
ghost use Rattle.rh_calls.specs.Sharing.{IsShared};

use crate::call::Reply;
use rh_base::OutOfMemory;
use std::marker::Model;

/// A reply for a log, for a pass and for the caller, which is seen as one. What is long in it lies in memory once. Sharing can
/// fail, so a simulation makes all three before it keeps a step; who needs one reply drops the others.
#[derive(Drop)]
pub struct Replies {
    logged: Reply,
    kept: Reply,
    told: Reply,
}

impl Model for Replies {
    ghost use Rattle.std.specs.Prelude.{◌≡◌};
    ghost use Rattle.rh_calls.specs.declared.call.Reply.{Reply};

    ghost Value = { Reply };

    ghost view = { λ r. r.told };

    ghost invariant = { λ r. record { logged : r.logged ≡ r.told; kept : r.kept ≡ r.told } };
}

impl Replies {
    /// This reply, which is shared. The error says that there are too many who share its notices or its report.
    pub fn of(reply: Reply) -> Result<Replies, OutOfMemory>
        ensures same { IfOk result (λ replies. replies ≡ reply) }
        ensures last { OnErr result (IsShared reply) }
    {
        let logged = reply.share()?;
        let kept = reply.share()?;
        Ok(Replies {
            logged,
            kept,
            told: reply,
        })
    }

    /// The reply, for one who keeps no log.
    pub fn into_one(self) -> Reply
        ensures { result ≡ self }
    {
        self.told
    }

    /// The reply for a log, for a pass and for the caller.
    pub fn into_three(self) -> (Reply, Reply, Reply)
        ensures logged { result.0 ≡ self }
        ensures kept { result.1 ≡ self }
        ensures told { result.2 ≡ self }
    {
        let Replies { logged, kept, told } = self;
        (logged, kept, told)
    }
}
