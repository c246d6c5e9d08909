//! Messages that arrive.

ghost use Rattle.std.specs.Prelude.{◌≡◌, OnOk};
ghost use Rattle.rh_otp_system.specs.Delivering.{controlled, arrived, received, delivered, slowed};

use crate::slow::Slow;
use crate::system::System;
use rh_base::OutOfMemory;
use rh_model::Node;
use rh_otp_model::{Envelope, Message, Process, Role};
use rh_otp_net::first_of_pair;

impl<'a> System<'a> {
    // The controller of a node handles a message.
    #[tactic(auto, using(crate::proofs::Node::put_back))]
    fn control(&mut self, node: Node, message: Message) -> Result<(), OutOfMemory>
        ensures { OnOk result (self.new ≡ controlled node message self.old) }
    {
        let mut live = self.take_node(node)?;
        let own = self.own(node);
        let out = live.control(self.alloc, self.cluster, own, node, message)?;
        self.put_node(node, live);
        self.carry_out_all(node, out)
    }

    // A process that is there still receives a message.
    fn receive(&mut self, to: Process, message: Message) -> Result<(), OutOfMemory>
        ensures { OnOk result (self.new ≡ received to message self.old) }
    {
        match to.role {
            Role::Controller => self.control(to.node, message),
            Role::DistAc => self.mail(to.node, message),
            Role::KernelConfig => self.kernel_receive(to.node, message),
            Role::Boot => self.boot_receive(to.node, message),
            Role::System => self.end(to.node),
            Role::Call(number) => self.call_receive(number, message),
            Role::NetKernel | Role::Starter(_) | Role::Timer => Ok(()),
        }
    }

    // A message arrives: it is lost where the process isn't there any more.
    fn arrive(&mut self, to: Process, message: Message) -> Result<(), OutOfMemory>
        ensures { OnOk result (self.new ≡ arrived to message self.old) }
    {
        if self.lives(to) {
            return self.receive(to, message);
        }
        Ok(())
    }

    // The message at this place arrives; behind others of its pair, the first of these does.
    #[tactic(auto, unfolding(crate::specs::Delivering::delivered))]
    pub(crate) fn deliver(&mut self, place: usize) -> Result<(), OutOfMemory>
        ensures { OnOk result (self.new ≡ delivered place self.old) }
    {
        if place >= self.messages.len() {
            return Ok(());
        }
        let first = first_of_pair(self.messages.as_slice(), place);
        let Envelope {
            from: _,
            to,
            message,
        } = self.messages.remove(first);
        self.arrive(to, message)
    }

    // global connects two nodes that are still alive, or a boot script begins.
    #[tactic(auto, unfolding(crate::specs::Delivering::slowed))]
    pub(crate) fn do_slowly(&mut self, what: Slow) -> Result<(), OutOfMemory>
        ensures { OnOk result (self.new ≡ slowed what self.old) }
    {
        match what {
            Slow::Connect(one, two) if self.is_alive(one) && self.is_alive(two) => {
                self.connect(one, two)
            }
            Slow::Boot(node) if self.is_alive(node) => self.boot_next(node, None),
            _ => Ok(()),
        }
    }
}
