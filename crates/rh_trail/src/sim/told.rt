//! What a step's notices are told as.

ghost use Rattle.std.specs.Prelude.{◌≡◌, List, IfOk};
ghost use Rattle.rh_rules.specs.declared.notice.Notice.{Notice};
ghost use Rattle.rh_calls.specs.declared.call.Reply.TheVariants as reply;

use rh_base::OutOfMemory;
use rh_calls::{Notices, Replies, Reply};
use rh_step::Notice;
use std::alloc::Global;

/// What the notices of a step are told as: a simulation makes it before it keeps the step.
pub trait Told: Drop {
    /// These notices are told so.
    ghost tells: { Self → List Notice → Type 0 };

    /// Tells these notices.
    fn telling(alloc: Global, notices: Vec<Notice>) -> Result<Self, OutOfMemory>
        ensures { IfOk result (λ told. tells told notices.items) };
}

impl Told for Vec<Notice> {
    ghost tells = { λ told notices. told.items ≡ notices };

    fn telling(_alloc: Global, notices: Vec<Notice>) -> Result<Vec<Notice>, OutOfMemory> {
        Ok(notices)
    }
}

impl Told for Replies {
    ghost tells = { λ told notices. told ≡ reply.Done notices };

    fn telling(alloc: Global, notices: Vec<Notice>) -> Result<Replies, OutOfMemory> {
        Replies::of(Reply::Done(Notices::of(alloc, notices)?))
    }
}
