//! The end of a node.

ghost use Rattle.std.specs.Prelude.{◌≡◌, IfOk, OnOk};
ghost use Rattle.rh_otp_system.specs.Ending.{downs_at, with_downs, down_told, downs_told, taken_down, ended, stopped};

use crate::system::System;
use rh_base::OutOfMemory;
use rh_model::Node;
use rh_otp_model::{Event, Message, Role};
use rh_otp_node::drop_node;

// So long a node lives on when its controller has ended, in milliseconds.
const ENDING_TIME: u64 = 1_500;

impl<'a> System<'a> {
    // How often the node's dist_ac is told of the end of another one: once where its own wait is over, and once for each monitor.
    fn downs_at(&self, node: Node, gone: Node) -> usize
        ensures { result ≡ downs_at node gone self.now }
    {
        let Some(live) = self.live(node) else {
            return 0;
        };
        let monitors = live.monitors(gone);
        if live.is_up() {
            monitors.saturating_add(1)
        } else {
            monitors
        }
    }

    // So many messages tell it so.
    fn send_downs(&mut self, node: Node, gone: Node, count: usize) -> Result<(), OutOfMemory>
        ensures { OnOk result (self.new ≡ with_downs count node gone self.old) }
    {
        let from = self.process(gone, Role::DistAc);
        let to = self.process(node, Role::DistAc);
        for number in 0..count {
            let _number = number;
            self.send(from, to, Message::NodeDown(gone))?;
        }
        Ok(())
    }

    // A node that saw it is told, if it has a dist_ac.
    #[tactic(auto, using(crate::proofs::Node::put_back), unfolding(crate::specs::Ending::down_told))]
    fn tell_down(&mut self, node: Node, gone: Node) -> Result<(), OutOfMemory>
        ensures { OnOk result (self.new ≡ down_told gone node self.old) }
    {
        if !self.has_dist(node) || !self.net.links.are_linked(gone, node) {
            return Ok(());
        }
        let count = self.downs_at(node, gone);
        let mut live = self.take_node(node)?;
        live.end_monitors(gone);
        self.put_node(node, live);
        self.send_downs(node, gone, count)
    }

    // All of these are told.
    fn tell_downs(&mut self, nodes: &[Node], gone: Node) -> Result<(), OutOfMemory>
        ensures { OnOk result (self.new ≡ downs_told gone nodes.now self.old) }
    {
        for node in nodes {
            self.tell_down(*node, gone)?;
        }
        Ok(())
    }

    // It is alive no more, and nobody has a lock there.
    #[tactic(auto, using(crate::proofs::Node::put_back), unfolding(crate::specs::Ending::taken_down))]
    fn take_down(&mut self, node: Node) -> Result<(), OutOfMemory>
        ensures { OnOk result (self.new ≡ taken_down node self.old) }
    {
        let mut live = self.take_node(node)?;
        live.end();
        self.put_node(node, live);
        drop_node(&mut self.net.alive, node);
        self.net.locks.forget_node(node);
        self.tell(Event::Ended(node))
    }

    // The nodes that are alive.
    pub(crate) fn alive(&self) -> Result<Vec<Node>, OutOfMemory>
        ensures { IfOk result (λ nodes. nodes.items ≡ self.now.alive) }
    {
        Ok(Vec::from_slice(self.alloc, self.net.alive.as_slice())?)
    }

    // A node ends, and all that were connected with it are told, behind all that it has sent.
    #[tactic(auto, unfolding(crate::specs::Ending::ended))]
    pub(crate) fn end(&mut self, node: Node) -> Result<(), OutOfMemory>
        ensures { OnOk result (self.new ≡ ended node self.old) }
    {
        self.take_down(node)?;
        let others = self.alive()?;
        self.tell_downs(others.as_slice(), node)?;
        self.net.links.forget_node(node);
        Ok(())
    }

    // application_controller:terminate/2: all that runs here stops, and the node ends a little later.
    #[tactic(auto, using(crate::proofs::Node::put_back), unfolding(crate::specs::Ending::stopped))]
    pub(crate) fn stop(&mut self, node: Node) -> Result<(), OutOfMemory>
        ensures { OnOk result (self.new ≡ stopped node self.old) }
    {
        let mut live = self.take_node(node)?;
        let own = self.own(node);
        let out = live.terminate(self.alloc, self.cluster, own, node)?;
        self.put_node(node, live);
        self.carry_out_all(node, out)?;
        let to = self.process(node, Role::System);
        self.after(ENDING_TIME, to, Message::Ends)
    }
}
