//! What answers the commands of a script.

ghost use Rattle.std.specs.Prelude.{◌≡◌, IfOk, OnOk};

use rh_base::OutOfMemory;
use rh_calls::Call;
use rh_cluster::Cluster;
use std::alloc::Global;

/// A rehearsal that answers commands by its rules.
pub trait Rehearsal {
    ghost use Rattle.rh_verify.specs.Rules.{Rules};

    // What its rules know of it, and these rules.
    ghost View: { Type 0 };

    ghost view: { Self → View };

    ghost rules: { Rules View };

    /// Its cluster.
    fn cluster(&self) -> &Cluster
        ensures { result.now ≡ rules.cluster (view self.now) };

    /// Makes a call, and answers the text of its answer.
    fn answer(&mut self, alloc: Global, call: Call) -> Result<Vec<u8>, OutOfMemory>
        ensures text { IfOk result (λ text. text.items ≡ rules.answer (view self.old) call) }
        ensures behind { OnOk result (view self.new ≡ rules.behind (view self.old) call) }
        ensures cluster { OnOk result
            (rules.cluster (view self.new) ≡ rules.cluster (view self.old)) };

    /// The text of its report.
    fn report(&self, alloc: Global) -> Result<Vec<u8>, OutOfMemory>
        ensures { IfOk result (λ text. text.items ≡ rules.report (view self.now)) };
}
