//! Connections of nodes.

ghost use Rattle.std.specs.Prelude.{◌≡◌, OnOk};
ghost use Rattle.rh_otp_system.specs.Connecting.{with_up, tell_up, link, with_slow, with_slow_links, connect, reach, send_to_dist, monitor};

use crate::slow::Slow;
use crate::system::System;
use rh_base::OutOfMemory;
use rh_model::Node;
use rh_otp_model::{Message, Role};
use rh_otp_net::Link;
use rh_otp_node::Phase;

impl<'a> System<'a> {
    // net_kernel tells the node's kernel_config that it sees another one.
    pub(crate) fn send_up(&mut self, node: Node, other: Node) -> Result<(), OutOfMemory>
        ensures { OnOk result (self.new ≡ with_up node other self.old) }
    {
        let from = self.process(node, Role::NetKernel);
        let to = self.process(node, Role::KernelConfig);
        self.send(from, to, Message::NodeUp(other))
    }

    // The same, where it waits for others.
    fn tell_up(&mut self, node: Node, other: Node) -> Result<(), OutOfMemory>
        ensures { OnOk result (self.new ≡ tell_up node other self.old) }
    {
        if matches!(self.phase(node), Phase::Waiting) {
            return self.send_up(node, other);
        }
        Ok(())
    }

    // A connection is there, and both nodes are told.
    fn link(&mut self, one: Node, two: Node) -> Result<(), OutOfMemory>
        ensures { OnOk result (self.new ≡ link one two self.old) }
    {
        self.net.links.add(one, two)?;
        self.tell_up(one, two)?;
        self.tell_up(two, one)
    }

    // It takes longer than messages do.
    fn do_later(&mut self, what: Slow) -> Result<(), OutOfMemory>
        ensures { OnOk result (self.new ≡ with_slow what self.old) }
    {
        self.slow.push(what)?;
        Ok(())
    }

    // global is to connect these, a little later.
    fn connect_later(&mut self, links: &[Link]) -> Result<(), OutOfMemory>
        ensures { OnOk result (self.new ≡ with_slow_links links.now self.old) }
    {
        for link in links {
            self.do_later(Slow::Connect(link.0, link.1))?;
        }
        Ok(())
    }

    // Two nodes see one another; what either of them sees already global connects with the other.
    #[tactic(auto, unfolding(crate::specs::Connecting::connect))]
    pub(crate) fn connect(&mut self, one: Node, two: Node) -> Result<(), OutOfMemory>
        ensures { OnOk result (self.new ≡ connect one two self.old) }
    {
        if self.net.links.are_linked(one, two) {
            return Ok(());
        }
        let more = self.net.links.to_connect(self.alloc, one, two)?;
        self.link(one, two)?;
        self.connect_later(more.as_slice())
    }

    // A node tries to reach another one that is alive.
    pub(crate) fn reach(&mut self, node: Node, other: Node) -> Result<(), OutOfMemory>
        ensures { OnOk result (self.new ≡ reach node other self.old) }
    {
        if node.0 == other.0 {
            return Ok(());
        }
        self.connect(node, other)
    }

    // {dist_ac, Node} ! Message, which is lost where there is none.
    pub(crate) fn send_to_dist(
        &mut self,
        node: Node,
        to: Node,
        message: Message,
    ) -> Result<(), OutOfMemory>
        ensures { OnOk result (self.new ≡ send_to_dist node to message self.old) }
    {
        if !self.is_alive(to) {
            return Ok(());
        }
        self.reach(node, to)?;
        if !self.has_dist(to) {
            return Ok(());
        }
        let from = self.process(node, Role::DistAc);
        let to = self.process(to, Role::DistAc);
        self.send(from, to, message)
    }

    // monitor_node(Node, true), of the node's dist_ac: where the other one isn't alive it is told so at once.
    #[tactic(auto, using(crate::proofs::Node::put_back))]
    pub(crate) fn monitor(&mut self, node: Node, other: Node) -> Result<(), OutOfMemory>
        ensures { OnOk result (self.new ≡ monitor node other self.old) }
    {
        if !self.is_alive(other) {
            let from = self.process(other, Role::DistAc);
            let to = self.process(node, Role::DistAc);
            return self.send(from, to, Message::NodeDown(other));
        }
        self.reach(node, other)?;
        let mut live = self.take_node(node)?;
        live.monitor(other)?;
        self.put_node(node, live);
        Ok(())
    }
}
