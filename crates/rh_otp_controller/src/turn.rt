//! A turn of a controller.

ghost use Rattle.std.specs.Prelude.{◌≡◌, [], IfOk, OnOk};
ghost use Rattle.rh_otp_controller.specs.Ending.{stop_each, terminated};

use crate::state::{Controller, Place};
use rh_base::OutOfMemory;
use rh_model::{App, Cluster};
use rh_otp_model::{Here, Output, Own};
use std::alloc::Global;
use std::marker::Model;

/// A controller at work: what it knows of its node, its state, and what it has done so far.
#[derive(Drop)]
pub struct Turn<'a> {
    pub(crate) cluster: &'a Cluster,
    pub(crate) own: &'a Own,
    pub(crate) here: Here,
    pub(crate) state: Controller,
    pub(crate) out: Vec<Output>,
}

/// Contracts see a `Turn` as its parts.
impl<'a> Model for Turn<'a> {
    ghost use Rattle.rh_otp_controller.specs.State.{TurnView};

    ghost Value = { TurnView };

    ghost view = { λ t. record {
      cluster = t.cluster.now;
      own = t.own.now;
      here = t.here;
      state = t.state;
      out = t.out.items;
    } };
}

impl<'a> Turn<'a> {
    /// The controller of this node in this state, which has done nothing yet.
    pub fn new(
        alloc: Global,
        cluster: &'a Cluster,
        own: &'a Own,
        here: Here,
        state: Controller,
    ) -> Turn<'a>
        ensures { result ≡ record {
          cluster = cluster.now;
          own = own.now;
          here = here;
          state = state;
          out = [];
        } }
    {
        Turn {
            cluster,
            own,
            here,
            state,
            out: Vec::new(alloc),
        }
    }

    /// Its state, and what it has done.
    pub fn into_parts(self) -> (Controller, Vec<Output>)
        ensures state { result.0 ≡ self.entry.state }
        ensures out { result.1.items ≡ self.entry.out }
    {
        let Turn {
            cluster: _,
            own: _,
            here: _,
            state,
            out,
        } = self;
        (state, out)
    }

    // Each of these that runs here stops.
    fn stop_each(&mut self, rows: &[(App, Place)]) -> Result<(), OutOfMemory>
        ensures { OnOk result (self.new ≡ stop_each rows.now self.old) }
    {
        for row in rows {
            self.stop_appl(row.0, Some(row.1))?;
        }
        Ok(())
    }

    // What runs, in memory of its own.
    fn running(&self, alloc: Global) -> Result<Vec<(App, Place)>, OutOfMemory>
        ensures { IfOk result (λ rows. rows.items ≡ self.now.state.running) }
    {
        Ok(Vec::from_slice(alloc, self.state.running())?)
    }

    /// terminate/2: all that runs here stops.
    pub fn terminate(&mut self, alloc: Global) -> Result<(), OutOfMemory>
        ensures { OnOk result (self.new ≡ terminated self.old) }
    {
        let running = self.running(alloc)?;
        self.stop_each(running.as_slice())
    }
}
