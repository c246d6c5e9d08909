//! kernel's wait for other nodes, and the boot script behind it.

ghost use Rattle.std.specs.Prelude.{◌≡◌, ◌∷◌, OnOk};
ghost use Rattle.rh_otp_system.specs.Joining.{join, go_on, timed_out, has_seen, start_next, boot_next};

use crate::slow::Slow;
use crate::system::System;
use rh_base::OutOfMemory;
use rh_model::{App, Node, Restart};
use rh_otp_model::{Event, Fault, Message, Outcome, Role};

impl<'a> System<'a> {
    // Its dist_ac, where it has one, is told that the wait is over.
    fn send_go(&mut self, node: Node) -> Result<(), OutOfMemory>
        ensures { OnOk result (self.new ≡ with_go node self.old) }
    {
        if !self.has_dist(node) {
            return Ok(());
        }
        let from = self.process(node, Role::KernelConfig);
        let to = self.process(node, Role::DistAc);
        self.send(from, to, Message::Go)
    }

    // Its wait is over.
    #[tactic(auto, using(crate::proofs::Node::put_back))]
    fn set_joined(&mut self, node: Node) -> Result<(), OutOfMemory>
        ensures { OnOk result (self.new ≡ joined_at node self.old) }
    {
        let mut live = self.take_node(node)?;
        live.join();
        self.put_node(node, live);
        Ok(())
    }

    // kernel_config:init/1, dist_ac:dist_take_control/1: the node's wait is over, and its boot script goes on.
    #[tactic(auto, unfolding(crate::specs::Joining::join))]
    pub(crate) fn join(&mut self, node: Node) -> Result<(), OutOfMemory>
        ensures { OnOk result (self.new ≡ join node self.old) }
    {
        self.set_joined(node)?;
        self.tell(Event::Up(node))?;
        self.send_go(node)?;
        self.slow.push(Slow::Boot(node))?;
        Ok(())
    }

    // rec_nodes([], []): it waits for nobody any more.
    pub(crate) fn go_on(&mut self, node: Node) -> Result<(), OutOfMemory>
        ensures { OnOk result (self.new ≡ go_on node self.old) }
    {
        match self.live(node) {
            Some(live) if live.waits() => Ok(()),
            _ => self.join(node),
        }
    }

    // Does it wait for nodes without which it ends?
    fn lacks_mandatory(&self, node: Node) -> bool
        ensures { result ≡ lacks_mandatory node self.now }
    {
        match self.live(node) {
            Some(live) => !live.mandatory().is_empty(),
            None => false,
        }
    }

    // The end of sync_nodes_timeout.
    fn time_out(&mut self, node: Node) -> Result<(), OutOfMemory>
        ensures { OnOk result (self.new ≡ timed_out node self.old) }
    {
        if self.lacks_mandatory(node) {
            self.end(node)
        } else {
            self.join(node)
        }
    }

    // It has seen another one.
    #[tactic(auto, using(crate::proofs::Node::put_back))]
    fn set_seen(&mut self, node: Node, other: Node) -> Result<(), OutOfMemory>
        ensures { OnOk result (self.new ≡ seen_at node other self.old) }
    {
        let mut live = self.take_node(node)?;
        live.see(other);
        self.put_node(node, live);
        Ok(())
    }

    // rec_nodes/2, check_up/3
    #[tactic(auto, unfolding(crate::specs::Joining::has_seen))]
    fn see(&mut self, node: Node, other: Node) -> Result<(), OutOfMemory>
        ensures { OnOk result (self.new ≡ has_seen node other self.old) }
    {
        self.set_seen(node, other)?;
        self.go_on(node)
    }

    // What kernel_config receives while it waits.
    pub(crate) fn kernel_receive(&mut self, node: Node, message: Message) -> Result<(), OutOfMemory>
        ensures { OnOk result (self.new ≡ kernel_received node message self.old) }
    {
        if self.is_up(node) {
            return Ok(());
        }
        match message {
            Message::Timeout => self.time_out(node),
            Message::NodeUp(other) => self.see(node, other),
            _ => Ok(()),
        }
    }
}

ghost use Rattle.std.specs.Prelude.{Some, None, Option};
ghost use Rattle.rh_otp_system.specs.Joining.{joined_at, seen_at, with_go, lacks_mandatory, kernel_received, boot_entry, boot_coming, told_failed, counted, fault_in};

/// The boot script.
impl<'a> System<'a> {
    // What it is starting.
    fn boot_entry(&self, node: Node) -> Option<(App, Restart)>
        ensures { result ≡ boot_entry node self.now }
    {
        match self.live(node) {
            Some(live) => live.entry(self.cluster, node),
            None => None,
        }
    }

    // What it starts next.
    fn boot_coming(&self, node: Node) -> Option<(App, Restart)>
        ensures { result ≡ boot_coming node self.now }
    {
        match self.live(node) {
            Some(live) => live.next_entry(self.cluster, node),
            None => None,
        }
    }

    // Does its list end here?
    fn is_boot_end(&self, node: Node) -> bool
        ensures { result ≡ is_boot_end node self.now }
    {
        match self.live(node) {
            Some(live) => live.is_boot_end(self.cluster, node),
            None => false,
        }
    }

    // An error is told, and the script goes on.
    fn tell_failed(&mut self, node: Node, fault: Option<Fault>) -> Result<(), OutOfMemory>
        ensures { OnOk result (self.new ≡ told_failed node fault self.old) }
    {
        match (fault, self.boot_entry(node)) {
            (Some(fault), Some((app, _))) => self.tell(Event::Failed(app, node, fault)),
            _ => Ok(()),
        }
    }

    // One entry more has its turn.
    #[tactic(auto, using(crate::proofs::Node::put_back))]
    fn count_entry(&mut self, node: Node) -> Result<(), OutOfMemory>
        ensures { OnOk result (self.new ≡ counted node self.old) }
    {
        let mut live = self.take_node(node)?;
        live.count_entry();
        self.put_node(node, live);
        Ok(())
    }

    // The next application is started, or the script is at its end.
    fn start_next(&mut self, node: Node) -> Result<(), OutOfMemory>
        ensures { OnOk result (self.new ≡ start_next node self.old) }
    {
        match self.boot_coming(node) {
            Some((app, restart)) => {
                let from = self.process(node, Role::Boot);
                let to = self.process(node, Role::Controller);
                self.send(from, to, Message::Start(app, restart, from))
            }
            None if self.is_boot_end(node) => self.tell(Event::Booted(node)),
            None => Ok(()),
        }
    }

    // A start has its answer, which may be an error: the script goes on.
    #[tactic(auto, unfolding(crate::specs::Joining::boot_next))]
    pub(crate) fn boot_next(&mut self, node: Node, fault: Option<Fault>) -> Result<(), OutOfMemory>
        ensures { OnOk result (self.new ≡ boot_next node fault self.old) }
    {
        self.tell_failed(node, fault)?;
        self.start_next(node)?;
        self.count_entry(node)
    }

    // What the boot script receives.
    pub(crate) fn boot_receive(&mut self, node: Node, message: Message) -> Result<(), OutOfMemory>
        ensures { OnOk result (self.new ≡ boot_received node message self.old) }
    {
        match message {
            Message::Answer(outcome) => self.boot_next(node, fault_in(outcome)),
            _ => Ok(()),
        }
    }
}

ghost use Rattle.rh_otp_system.specs.Joining.{is_boot_end, boot_received};

// The error of an answer, if it is one.
fn fault_in(outcome: Outcome) -> Option<Fault>
    ensures { result ≡ fault_in outcome }
{
    match outcome {
        Outcome::Failed(fault) => Some(fault),
        _ => None,
    }
}
