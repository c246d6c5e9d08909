//! How a dialogue speaks that is held with live nodes.

use rh_base::OutOfMemory;
use rh_calls::Call;
use rh_cluster::Cluster;
use rh_devices::{Sink, Watched, WriteFault};
use rh_manner::{Form, Speaker};
use rh_otp_file::own_files;
use rh_otp_net::Order;
use rh_otp_sim::LiveSim;
use std::alloc::Global;

/// How a dialogue with live nodes speaks: in which order messages are taken, and in which form it answers.
#[derive(Clone, Copy)]
pub struct LiveVoice {
    pub order: Order,
    pub form: Form,
}

impl Speaker for LiveVoice {
    ghost use Rattle.rh_otp_sim.specs.Sim.{LiveSimView};
    ghost use Rattle.rh_otp_dialogue.specs.LiveVoices.{live};

    type Rehearsal = LiveSim;

    ghost View = { LiveSimView };

    ghost view = { λ sim. sim };

    ghost speech = { live };

    fn form(&self) -> Form {
        self.form
    }

    fn open(&self, alloc: Global, cluster: Cluster, text: &[u8]) -> Result<LiveSim, OutOfMemory> {
        let files = own_files(alloc, &cluster, text)?;
        LiveSim::open(alloc, cluster, files, self.order)
    }

    fn cluster<'a>(&self, sim: &'a LiveSim) -> &'a Cluster {
        sim.cluster()
    }

    fn answer<K: Sink>(
        &self,
        alloc: Global,
        sim: &mut LiveSim,
        number: u64,
        line: &[u8],
        call: Call,
        writer: &mut Watched<K>,
    ) -> Result<(), WriteFault> {
        match self.form {
            Form::Plain => match rh_otp_run::answer_call(alloc, sim, call, writer) {
                Ok(_) => Ok(()),
                Err(fault) => Err(fault),
            },
            Form::Json => rh_otp_json::answer_call(alloc, sim, number, line, call, writer),
        }
    }
}
