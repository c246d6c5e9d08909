//! A simulation by the rules of the manual, as what answers a script.

use crate::rehearsal::Rehearsal;
use rh_base::OutOfMemory;
use rh_calls::{Call, report};
use rh_cluster::Cluster;
use rh_script::answer_text;
use rh_trail::Sim;
use std::alloc::Global;

impl Rehearsal for Sim {
    ghost use Rattle.rh_trail.specs.SimView.{SimView};
    ghost use Rattle.rh_verify.specs.Manual.{manual};

    ghost View = { SimView };

    ghost view = { λ sim. sim.seen };

    ghost rules = { manual };

    fn cluster(&self) -> &Cluster {
        Sim::cluster(self)
    }

    fn answer(&mut self, alloc: Global, call: Call) -> Result<Vec<u8>, OutOfMemory> {
        let reply = Sim::answer(self, alloc, call)?.into_one();
        answer_text(alloc, Sim::cluster(self), &reply)
    }

    fn report(&self, alloc: Global) -> Result<Vec<u8>, OutOfMemory> {
        report(alloc, self.state())
    }
}
