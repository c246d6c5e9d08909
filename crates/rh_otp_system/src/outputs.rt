//! What a process has done in a turn, carried out.

ghost use Rattle.std.specs.Prelude.{◌≡◌, OnOk};
ghost use Rattle.rh_otp_system.specs.Outputs.{free, carried_out, all_carried_out};

use crate::system::System;
use rh_base::OutOfMemory;
use rh_model::Node;
use rh_otp_model::{Envelope, Output, Process, Requester, Role};

impl<'a> System<'a> {
    // global:del_lock/2
    pub(crate) fn free(&mut self, requester: Requester, owner: Process)
        ensures { self.new ≡ free requester owner self.old }
    {
        self.net.locks.free(requester, owner);
    }

    // Carries out what a process of the node has done.
    fn carry_out(&mut self, node: Node, output: Output) -> Result<(), OutOfMemory>
        ensures { OnOk result (self.new ≡ carried_out node output self.old) }
    {
        match output {
            Output::Send(Envelope { from, to, message }) => self.send(from, to, message),
            Output::Tell(event) => self.tell(event),
            Output::ToDist(to, message) => self.send_to_dist(node, to, message),
            Output::Monitor(other) => self.monitor(node, other),
            Output::Free(requester, owner) => {
                self.free(requester, owner);
                Ok(())
            }
            Output::After(time, message) => {
                let to = self.process(node, Role::DistAc);
                self.after(time, to, message)
            }
        }
    }

    // All of it, in order.
    #[tactic(auto, using(crate::proofs::OneMore::one_more_output))]
    pub(crate) fn carry_out_all(
        &mut self,
        node: Node,
        outputs: Vec<Output>,
    ) -> Result<(), OutOfMemory>
        ensures { OnOk result (self.new ≡ all_carried_out node outputs.items self.old) }
    {
        for output in outputs {
            self.carry_out(node, output)?;
        }
        Ok(())
    }
}
