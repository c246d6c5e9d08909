//! What the system asks and makes of a node's dist_ac.

ghost use Rattle.std.specs.Prelude.{◌≡◌, OnOk};
ghost use Rattle.std.specs.Option.{option_map};
ghost use Rattle.rh_otp_node.specs.Remote.{has_next, mail_count, need_next, need_of, mailed, waiting_for_lock, monitored, without_monitors, monitor_count, unparked};

use crate::node::LiveNode;
use rh_base::OutOfMemory;
use rh_model::{Group, Node};
use rh_otp_dist::{Dist, Need};
use rh_otp_model::Message;

// What the message that it takes next asks of the system.
fn need_next(dist: &Dist) -> Need
    ensures { result ≡ need_next dist.now }
{
    match dist.next_mail() {
        Some(place) => dist.need(place),
        None => Need::Nothing,
    }
}

impl LiveNode {
    /// Its dist_ac, where it has one.
    pub fn dist(&self) -> Option<&Dist>
        ensures { option_map (λ d. d.now) result ≡ self.now.dist }
    {
        self.dist.as_ref()
    }

    /// Is there a message in its dist_ac's mailbox that it takes where it stands?
    pub fn has_next(&self) -> bool
        ensures { result ≡ has_next self.now }
    {
        match &self.dist {
            Some(dist) => dist.next_mail().is_some(),
            None => false,
        }
    }

    /// How many messages its dist_ac hasn't handled yet.
    pub fn mail_count(&self) -> usize
        ensures { result ≡ mail_count self.now }
    {
        match &self.dist {
            Some(dist) => dist.mail_count(),
            None => 0,
        }
    }

    /// What the message that its dist_ac takes next asks of the system before it is handled.
    pub fn need(&self) -> Need
        ensures { result ≡ need_of self.now }
    {
        match &self.dist {
            Some(dist) => need_next(dist),
            None => Need::Nothing,
        }
    }

    /// Its dist_ac has a message more in its mailbox.
    pub fn mail(&mut self, message: Message) -> Result<(), OutOfMemory>
        ensures { OnOk result (self.new ≡ mailed message self.old) }
    {
        match &mut self.dist {
            Some(dist) => dist.receive(message),
            None => Ok(()),
        }
    }

    /// sync_dacs/1: its dist_ac waits for the lock at these nodes.
    pub fn wait_for_lock(&mut self, nodes: Group)
        ensures { self.new ≡ waiting_for_lock nodes self.old }
    {
        if let Some(dist) = &mut self.dist {
            dist.wait_for_lock(nodes);
        }
    }

    /// monitor_node/2: its dist_ac is told once more of the end of this node.
    pub fn monitor(&mut self, node: Node) -> Result<(), OutOfMemory>
        ensures { OnOk result (self.new ≡ monitored node self.old) }
    {
        match &mut self.dist {
            Some(dist) => dist.monitor(node),
            None => Ok(()),
        }
    }

    /// How often its dist_ac is told of the end of this node, beside that of all that it sees.
    pub fn monitors(&self, node: Node) -> usize
        ensures { result ≡ monitor_count node self.now }
    {
        match &self.dist {
            Some(dist) => dist.monitors(node),
            None => 0,
        }
    }

    /// Its dist_ac has been told of the end of this node.
    pub fn end_monitors(&mut self, node: Node)
        ensures { self.new ≡ without_monitors node self.old }
    {
        if let Some(dist) = &mut self.dist {
            dist.end_monitors(node);
        }
    }

    /// The first start request that found the lock of its node held is sent again.
    pub fn unpark(&mut self) -> Result<(), OutOfMemory>
        ensures { OnOk result (self.new ≡ unparked self.old) }
    {
        match &mut self.dist {
            Some(dist) => dist.unpark(),
            None => Ok(()),
        }
    }
}
