//! How a dialogue speaks that is held by the manual's rules.

ghost use Rattle.std.specs.Prelude.{◌≡◌, false};
ghost use Rattle.rh_run.specs.RunText.{Broke};
ghost use Rattle.rh_manner.specs.Voices.{bad_in, fault_in, opening_in};

use crate::speaker::Speaker;
use rh_base::OutOfMemory;
use rh_calls::Call;
use rh_cluster::{Cluster, ClusterFault};
use rh_devices::{Sink, Watched, WriteFault};
use rh_rules::Pick;
use rh_trail::Sim;
use std::alloc::Global;

/// In which form a dialogue answers.
#[derive(Clone, Copy)]
pub enum Form {
    /// As `run` of `rh_run` does.
    Plain,
    /// As lines of JSON, as `run_json` of `rh_json` does.
    Json,
}

/// How a dialogue speaks: which node is taken at a tie, and in which form it answers.
#[derive(Clone, Copy)]
pub struct Voice {
    pub pick: Pick,
    pub form: Form,
}

impl Form {
    /// Writes what stands before all answers: of JSON the line of the cluster.
    pub(crate) fn begin<K: Sink>(
        self,
        alloc: Global,
        cluster: &Cluster,
        writer: &mut Watched<K>,
    ) -> Result<(), WriteFault>
        requires { writer.old.failed ≡ false }
        ensures { Broke K.takes K.fails result (opening_in self cluster.now) writer.old writer.new }
    {
        match self {
            Form::Plain => Ok(()),
            Form::Json => rh_json::write_cluster(alloc, cluster, writer),
        }
    }

    /// Writes why a text is no cluster.
    pub(crate) fn refuse<K: Sink>(
        self,
        alloc: Global,
        fault: &ClusterFault,
        writer: &mut Watched<K>,
    ) -> Result<(), WriteFault>
        requires { writer.old.failed ≡ false }
        ensures { Broke K.takes K.fails result (fault_in self fault.now) writer.old writer.new }
    {
        match self {
            Form::Plain => rh_run::write_fault(alloc, fault, writer),
            Form::Json => rh_json::write_fault(alloc, fault, writer),
        }
    }

    /// Writes that the line of this number is no command.
    pub(crate) fn mark_bad<K: Sink>(
        self,
        alloc: Global,
        number: u64,
        writer: &mut Watched<K>,
    ) -> Result<(), WriteFault>
        requires { writer.old.failed ≡ false }
        ensures { Broke K.takes K.fails result (bad_in self number) writer.old writer.new }
    {
        match self {
            Form::Plain => rh_run::answer_bad(alloc, number, writer),
            Form::Json => rh_json::write_bad(alloc, number, writer),
        }
    }
}

impl Speaker for Voice {
    ghost use Rattle.rh_trail.specs.SimView.{SimView};
    ghost use Rattle.rh_manner.specs.Manual.{manual};

    type Rehearsal = Sim;

    ghost View = { SimView };

    ghost view = { λ sim. sim.seen };

    ghost speech = { manual };

    fn form(&self) -> Form {
        self.form
    }

    fn open(&self, alloc: Global, cluster: Cluster, _text: &[u8]) -> Result<Sim, OutOfMemory> {
        Sim::open(alloc, cluster, self.pick)
    }

    fn cluster<'a>(&self, sim: &'a Sim) -> &'a Cluster {
        sim.cluster()
    }

    fn answer<K: Sink>(
        &self,
        alloc: Global,
        sim: &mut Sim,
        number: u64,
        line: &[u8],
        call: Call,
        writer: &mut Watched<K>,
    ) -> Result<(), WriteFault> {
        match self.form {
            Form::Plain => rh_run::answer_call(alloc, sim, call, writer),
            Form::Json => rh_json::answer_call(alloc, sim, number, line, call, writer),
        }
    }
}
