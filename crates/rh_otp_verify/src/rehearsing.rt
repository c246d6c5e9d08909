//! A simulation of live nodes, as what answers a script.

use rh_base::OutOfMemory;
use rh_calls::Call;
use rh_cluster::Cluster;
use rh_otp_report::report_of;
use rh_otp_sim::LiveSim;
use rh_otp_text::{reply_text, report_text};
use rh_verify::Rehearsal;
use std::alloc::Global;

/// A simulation of live nodes that answers a script.
#[derive(Drop)]
pub struct LiveNodes {
    pub sim: LiveSim,
}

impl Rehearsal for LiveNodes {
    ghost use Rattle.rh_otp_sim.specs.Sim.{LiveSimView};
    ghost use Rattle.rh_otp_verify.specs.LiveVerify.{live};

    ghost View = { LiveSimView };

    ghost view = { λ nodes. nodes.sim };

    ghost rules = { live };

    fn cluster(&self) -> &Cluster {
        self.sim.cluster()
    }

    #[tactic(auto, using(rh_otp_run::proofs::Keeping::call_keeps_cluster))]
    fn answer(&mut self, alloc: Global, call: Call) -> Result<Vec<u8>, OutOfMemory> {
        let reply = self.sim.answer(alloc, call)?;
        let text = reply_text(alloc, &self.sim, &reply)?;
        Ok(text.into_bytes())
    }

    fn report(&self, alloc: Global) -> Result<Vec<u8>, OutOfMemory> {
        let told = report_of(alloc, &self.sim)?;
        let text = report_text(alloc, self.sim.cluster(), &told)?;
        Ok(text.into_bytes())
    }
}
