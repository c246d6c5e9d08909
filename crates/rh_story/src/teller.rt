//! What a story tells of.

ghost use Rattle.std.specs.Prelude.{◌≡◌, ◌++◌, IfOk, OnOk};

use rh_base::OutOfMemory;
use rh_calls::Call;
use rh_cluster::Cluster;
use std::alloc::Global;

/// A simulation of which a story tells, by its rules.
pub trait Teller {
    ghost use Rattle.rh_story.specs.Telling.{Telling};

    // What its rules know of it, and what is told by these.
    ghost View: { Type 0 };

    ghost view: { Self → View };

    ghost telling: { Telling View };

    /// Its cluster.
    fn cluster(&self) -> &Cluster
        ensures { result.now ≡ telling.cluster (view self.now) };

    /// Makes a call, and adds what a story tells of it behind its command.
    fn push_call(
        &mut self,
        alloc: Global,
        text: &mut Vec<u8>,
        call: Call,
    ) -> Result<(), OutOfMemory>
        ensures text { OnOk result
            (text.new.items ≡ text.old.items ++ telling.told (view self.old) call) }
        ensures behind { OnOk result (view self.new ≡ telling.behind (view self.old) call) }
        ensures cluster { OnOk result
            (telling.cluster (view self.new) ≡ telling.cluster (view self.old)) };

    /// What stands behind the last line of its script, where the text before it lacks so much of its end.
    fn ending(&mut self, alloc: Global, lack: &str) -> Result<Vec<u8>, OutOfMemory>
        ensures { IfOk result (λ text. text.items ≡ telling.ending lack.now (view self.old)) };
}
