//! The reply to a call of a session.

ghost use Rattle.std.specs.Prelude.{◌≡◌, ◌≤◌, ℕ, true, false, IfOk, OnErr};
ghost use Rattle.std.specs.Option.{option_map};
ghost use Rattle.rh_trail.specs.Chain.{chain, kept_to};
ghost use Rattle.rh_trail.specs.Laws.{is_refusal};
ghost use Rattle.rh_trail.specs.Lone.{served, answered, TakesMemory};
ghost use Rattle.rh_trail.specs.Words.{LeavesWords, LeavesRecords};
ghost use Rattle.rh_room.specs.Serving.{last_look, look_reply, IsStill};

use crate::pass::Entry;
use rh_base::OutOfMemory;
use rh_calls::{Call, Replies, Reply};
use rh_trail::Sim;
use std::alloc::Global;

/// Makes a call of a simulation with the log of the calls so far, and gives the reply. A look right behind another one is
/// answered by the same reply, whose report is shared. Want of memory changes nothing.
pub fn reply_to(
    alloc: Global,
    sim: &mut Sim,
    log: &[Entry],
    call: Call,
) -> Result<Replies, OutOfMemory>
    requires { IsStill sim.old.seen (last_look log.now) }
    ensures reply { IfOk result (λ r. served sim.old.seen call ≡ answered r sim.new.seen) }
    ensures refused { IfOk result (λ r. is_refusal r ≡ true → sim.new ≡ sim.old) }
    ensures chain { (k : ℕ) → k ≤ kept_to sim.old.seen call → chain sim.new k ≡ chain sim.old k }
    ensures words { IfOk result (λ r. is_refusal r ≡ false → LeavesWords sim.old call sim.new) }
    ensures records { IfOk result (λ r. is_refusal r ≡ false → LeavesRecords sim.old call sim.new) }
    ensures same { OnErr result (sim.new ≡ sim.old) }
    ensures last { OnErr result (TakesMemory sim.old.seen call) }
{
    match (call, looked_last(log)) {
        (Call::Look, Some(reply)) => Replies::of(reply.share()?),
        _ => sim.answer(alloc, call),
    }
}

// The reply to the last call, if that is a look.
fn looked_last(log: &[Entry]) -> Option<&Reply>
    ensures { option_map (λ r. r.now) result ≡ last_look log.now }
{
    match log.last() {
        Some(entry) => reply_if_look(entry),
        None => None,
    }
}

// The reply to a call, if that is a look.
fn reply_if_look(entry: &Entry) -> Option<&Reply>
    ensures { option_map (λ r. r.now) result ≡ look_reply entry.now.call entry.now.reply }
{
    if entry.call == Call::Look {
        Some(&entry.reply)
    } else {
        None
    }
}
