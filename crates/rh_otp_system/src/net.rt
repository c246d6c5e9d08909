//! What is between the nodes.

ghost use Rattle.std.specs.Prelude.{◌≡◌, [], IfOk};

use crate::calls::Call;
use rh_base::{Duplicate, OutOfMemory, copies_of};
use rh_model::{App, Node};
use rh_otp_model::Process;
use rh_otp_net::{Links, Locks, Timers};
use std::alloc::Global;
use std::marker::Model;

/// What is between the nodes, and stays from one command to the next.
#[derive(Drop)]
pub struct Net {
    /// In milliseconds.
    pub clock: u64,
    /// The number of the command that is carried out.
    pub step: u64,
    /// The number of the last call.
    pub last_call: u32,
    /// The nodes that are alive, in the order in which they began.
    pub alive: Vec<Node>,
    pub links: Links,
    pub locks: Locks,
    pub timers: Timers,
    /// The calls that are open, and those that the last command has answered.
    pub calls: Vec<Call>,
    /// Who asked for a lock in vain until the last command was over: global:random_sleep/1 lets them sleep.
    pub asleep: Vec<Process>,
    /// Of which applications an observer was told that they wait at a node.
    pub told: Vec<(App, Node)>,
}

/// Contracts see a `Net` as its parts.
impl Model for Net {
    ghost use Rattle.rh_otp_system.specs.Views.{NetView};

    ghost Value = { NetView };

    ghost view = { λ n. record {
      clock = n.clock;
      step = n.step;
      last_call = n.last_call;
      alive = n.alive.items;
      links = n.links;
      locks = n.locks;
      timers = n.timers;
      calls = n.calls.items;
      asleep = n.asleep.items;
      told = n.told.items;
    } };
}

impl Net {
    /// Nothing has happened yet.
    pub fn new(alloc: Global) -> Net
        ensures { result ≡ record {
          clock = 0;
          step = 0;
          last_call = 0;
          alive = [];
          links = [];
          locks = [];
          timers = [];
          calls = [];
          asleep = [];
          told = [];
        } }
    {
        Net {
            clock: 0,
            step: 0,
            last_call: 0,
            alive: Vec::new(alloc),
            links: Links::new(alloc),
            locks: Locks::new(alloc),
            timers: Timers::new(alloc),
            calls: Vec::new(alloc),
            asleep: Vec::new(alloc),
            told: Vec::new(alloc),
        }
    }
}

impl Duplicate for Net {
    fn copy(&self, alloc: Global) -> Result<Net, OutOfMemory>
        ensures { IfOk result (λ copy. copy ≡ self.now) }
    {
        Ok(Net {
            clock: self.clock,
            step: self.step,
            last_call: self.last_call,
            alive: Vec::from_slice(alloc, self.alive.as_slice())?,
            links: self.links.copy(alloc)?,
            locks: self.locks.copy(alloc)?,
            timers: self.timers.copy(alloc)?,
            calls: copies_of(alloc, self.calls.as_slice())?,
            asleep: Vec::from_slice(alloc, self.asleep.as_slice())?,
            told: Vec::from_slice(alloc, self.told.as_slice())?,
        })
    }
}
