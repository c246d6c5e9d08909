//! The state of a system.

ghost use Rattle.std.specs.Prelude.{◌≡◌, [], IfOk};
ghost use Rattle.rh_history.specs.Draft.{draft_of};
ghost use Rattle.rh_otp_system.specs.State.{system_of};

use crate::cell::Cell;
use crate::net::Net;
use crate::slow::{Answered, Slow};
use rh_base::OutOfMemory;
use rh_history::Draft;
use rh_model::Cluster;
use rh_otp_model::{Envelope, Event, Own, OwnFile, Wait};
use std::alloc::Global;
use std::marker::Model;

/// All nodes and what is between them, while a command is carried out.
#[derive(Drop)]
pub struct System<'a> {
    pub(crate) alloc: Global,
    pub(crate) cluster: &'a Cluster,
    pub(crate) files: &'a [OwnFile],
    // What a number that no node has finds.
    pub(crate) no_file: OwnFile,
    pub(crate) nodes: Draft<'a, Cell>,
    pub(crate) net: Net,
    pub(crate) messages: Vec<Envelope>,
    pub(crate) slow: Vec<Slow>,
    // How often nodes have answered one another since all was quiet.
    pub(crate) answers: Vec<Answered>,
    pub(crate) events: Vec<Event>,
    // Whether time passes: then those who sleep ask for their lock again.
    pub(crate) is_ticking: bool,
    // Whether the command waits for the end of a node that ends by itself.
    pub(crate) ends_soon: bool,
}

/// Contracts see a `System` as its parts.
impl<'a> Model for System<'a> {
    ghost use Rattle.std.specs.Prelude.{◌≡◌};
    ghost use Rattle.rh_otp_system.specs.State.{SystemView, no_own};

    ghost Value = { SystemView };

    ghost view = { λ s. record {
      cluster = s.cluster.now;
      files = s.files.now;
      nodes = s.nodes;
      clock = s.net.clock;
      step = s.net.step;
      last_call = s.net.last_call;
      alive = s.net.alive;
      links = s.net.links;
      locks = s.net.locks;
      timers = s.net.timers;
      calls = s.net.calls;
      asleep = s.net.asleep;
      told = s.net.told;
      messages = s.messages.items;
      slow = s.slow.items;
      answers = s.answers.items;
      events = s.events.items;
      is_ticking = s.is_ticking;
      ends_soon = s.ends_soon;
    } };

    ghost invariant = { λ s. s.no_file.own ≡ no_own };
}

impl<'a> System<'a> {
    /// The system of these nodes and of what is between them, where nothing is on its way.
    pub fn open(
        alloc: Global,
        cluster: &'a Cluster,
        files: &'a [OwnFile],
        cells: &'a [Cell],
        net: Net,
        ends_soon: bool,
    ) -> Result<System<'a>, OutOfMemory>
        ensures { IfOk result
            (λ system. system ≡ system_of cluster.now files.now cells.now net ends_soon) }
    {
        Ok(System {
            alloc,
            cluster,
            files,
            no_file: OwnFile {
                own: Own::without(alloc),
                wait: Wait::Unset,
            },
            nodes: Draft::of(alloc, cells)?,
            net,
            messages: Vec::new(alloc),
            slow: Vec::new(alloc),
            answers: Vec::new(alloc),
            events: Vec::new(alloc),
            is_ticking: false,
            ends_soon,
        })
    }
}
