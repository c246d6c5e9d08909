//! A simulation of live nodes, of which a story tells.

ghost use Rattle.std.specs.Prelude.{◌≡◌, IfOk};
ghost use Rattle.rh_otp_story.specs.LiveStory.{hanging_in};

use crate::hanging::{hanging_text, push_new_lines};
use rh_base::OutOfMemory;
use rh_calls::Call;
use rh_cluster::Cluster;
use rh_otp_report::report_of;
use rh_otp_sim::LiveSim;
use rh_otp_text::reply_text;
use rh_story::{Teller, push_answer};
use std::alloc::Global;

/// A simulation of live nodes, of which a story tells.
#[derive(Drop)]
pub struct LiveNodes {
    pub sim: LiveSim,
}

// What hangs in a simulation.
fn hanging_in(alloc: Global, sim: &LiveSim) -> Result<Vec<u8>, OutOfMemory>
    ensures { IfOk result (λ text. text.items ≡ hanging_in sim.now) }
{
    let report = report_of(alloc, sim)?;
    hanging_text(alloc, sim.cluster(), &report)
}

impl Teller for LiveNodes {
    ghost use Rattle.rh_otp_sim.specs.Sim.{LiveSimView};
    ghost use Rattle.rh_otp_story.specs.LiveStory.{live};

    ghost View = { LiveSimView };

    ghost view = { λ nodes. nodes.sim };

    ghost telling = { live };

    fn cluster(&self) -> &Cluster {
        self.sim.cluster()
    }

    #[tactic(auto, using(rh_otp_run::proofs::Keeping::call_keeps_cluster))]
    fn push_call(
        &mut self,
        alloc: Global,
        text: &mut Vec<u8>,
        call: Call,
    ) -> Result<(), OutOfMemory> {
        let before = hanging_in(alloc, &self.sim)?;
        let reply = self.sim.answer(alloc, call)?;
        let answer = reply_text(alloc, &self.sim, &reply)?;
        push_answer(text, answer.as_bytes())?;
        let after = hanging_in(alloc, &self.sim)?;
        push_new_lines(text, before.as_slice(), after.as_slice())
    }

    fn ending(&mut self, alloc: Global, lack: &str) -> Result<Vec<u8>, OutOfMemory> {
        let _lack = lack;
        Ok(Vec::new(alloc))
    }
}
