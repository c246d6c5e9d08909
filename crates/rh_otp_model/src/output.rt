//! What a process does in a turn.

use crate::fault::Fault;
use crate::message::Message;
use crate::process::{Process, StartType};
use rh_model::{App, Node};

/// A message on its way.
#[derive(Drop)]
pub struct Envelope {
    pub from: Process,
    pub to: Process,
    pub message: Message,
}

/// What an observer sees.
#[derive(Clone, Copy, Debug, PartialEq, Eq)]
pub enum Event {
    /// The node's wait for others is over.
    Up(Node),
    /// Its boot script has come to its end.
    Booted(Node),
    /// The node has ended.
    Ended(Node),
    /// The application has started at the node.
    Started(App, Node, StartType),
    /// It has stopped there.
    Stopped(App, Node),
    /// Its start by the boot script has failed there.
    Failed(App, Node, Fault),
    /// The call of this number was answered.
    Answered(u32),
}

/// By which name a lock of `global` is asked for: all nodes that synchronise have one together.
#[derive(Clone, Copy, Debug, PartialEq, Eq)]
pub enum Requester {
    /// `{dist_ac, sync_dacs}`
    Sync,
    /// `{dist_ac, self()}` of this process.
    Alone(Process),
}

/// What a process does in a turn.
#[derive(Drop)]
pub enum Output {
    /// It sends a message to a process.
    Send(Envelope),
    /// An observer sees this.
    Tell(Event),
    /// `{dist_ac, Node} ! Message`
    ToDist(Node, Message),
    /// `monitor_node(Node, true)`
    Monitor(Node),
    /// `global:del_lock/2` of the lock that this process has by this name.
    Free(Requester, Process),
    /// `erlang:send_after/3` to itself, in milliseconds.
    After(u64, Message),
}
