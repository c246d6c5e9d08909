//! What a caller asks of a simulation of live nodes, and is answered.

ghost use Rattle.std.specs.Prelude.{◌≡◌, IfOk, OnOk, OnErr};
ghost use Rattle.rh_otp_sim.specs.Calls.{made_by, reply_to};

use crate::sim::LiveSim;
use crate::stepping::Outcome;
use rh_base::OutOfMemory;
use rh_calls::Call;
use std::alloc::Global;

/// The answer to a call.
#[derive(Drop)]
pub enum LiveReply {
    /// What the step comes to.
    Step(Outcome),
    /// A step was taken back.
    Undone,
    /// A step was made again.
    Redone,
    /// There is no step to take back.
    AtStart,
    /// There is no step to make again.
    AtEnd,
    /// So many steps were taken back or made again.
    Moved(usize),
    /// The state is to be told.
    Seen,
}

impl LiveSim {
    /// Does what is asked, and answers it. Where memory is refused nothing changes.
    pub fn answer(&mut self, alloc: Global, call: Call) -> Result<LiveReply, OutOfMemory>
        ensures reply { IfOk result (λ reply. reply ≡ reply_to call self.old) }
        ensures state { OnOk result (self.new ≡ made_by call self.old) }
        ensures err { OnErr result (self.new ≡ self.old) }
    {
        Ok(match call {
            Call::Step(event) => LiveReply::Step(self.step(alloc, event)?),
            Call::Undo => {
                if self.undo() {
                    LiveReply::Undone
                } else {
                    LiveReply::AtStart
                }
            }
            Call::Redo => {
                if self.redo() {
                    LiveReply::Redone
                } else {
                    LiveReply::AtEnd
                }
            }
            Call::UndoAll => LiveReply::Moved(self.undo_all()),
            Call::RedoAll => LiveReply::Moved(self.redo_all()),
            Call::Look => LiveReply::Seen,
        })
    }
}
