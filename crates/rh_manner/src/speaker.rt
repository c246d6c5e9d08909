//! What answers in a dialogue.

ghost use Rattle.std.specs.Prelude.{◌≡◌, false, IfOk, OnOk};
ghost use Rattle.rh_run.specs.RunText.{Broke};

use crate::voice::Form;
use rh_base::OutOfMemory;
use rh_calls::Call;
use rh_cluster::Cluster;
use rh_devices::{Sink, Watched, WriteFault};
use std::alloc::Global;

/// What answers in a dialogue: it opens a rehearsal of a cluster, and answers by its rules.
pub trait Speaker {
    ghost use Rattle.rh_manner.specs.Speech.{Speech};

    /// A rehearsal of a cluster.
    type Rehearsal: Drop;

    // What is known of a rehearsal, and what is said by that.
    ghost View: { Type 0 };

    ghost view: { Self.Rehearsal → View };

    ghost speech: { Self → Speech View };

    /// In which form it answers.
    fn form(&self) -> Form
        ensures { result ≡ (speech self.now).form };

    /// Opens a rehearsal of a cluster that a file of this text describes.
    fn open(
        &self,
        alloc: Global,
        cluster: Cluster,
        text: &[u8],
    ) -> Result<Self::Rehearsal, OutOfMemory>
        ensures begun { IfOk result (λ r. view r ≡ (speech self.now).begun cluster text.now) }
        ensures cluster { IfOk result (λ r. (speech self.now).cluster (view r) ≡ cluster) };

    /// The cluster of a rehearsal.
    fn cluster<'a>(&self, rehearsal: &'a Self::Rehearsal) -> &'a Cluster
        ensures { result.now ≡ (speech self.now).cluster (view rehearsal.now) };

    /// Gives the call of a line, which has this number, to a rehearsal, and writes the answer.
    fn answer<K: Sink>(
        &self,
        alloc: Global,
        rehearsal: &mut Self::Rehearsal,
        number: u64,
        line: &[u8],
        call: Call,
        writer: &mut Watched<K>,
    ) -> Result<(), WriteFault>
        requires { writer.old.failed ≡ false }
        ensures behind { OnOk result
            (view rehearsal.new ≡ (speech self.now).behind (view rehearsal.old) call) }
        ensures cluster { OnOk result ((speech self.now).cluster (view rehearsal.new)
            ≡ (speech self.now).cluster (view rehearsal.old)) }
        ensures text { Broke K.takes K.fails result
            ((speech self.now).answer (view rehearsal.old) number line.now call)
            writer.old writer.new };
}
