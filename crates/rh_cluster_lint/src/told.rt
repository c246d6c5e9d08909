//! The fault of a refused file as it is told.

ghost use Rattle.std.specs.Prelude.{◌≡◌, IfOk};
ghost use Rattle.rh_cluster_lint.specs.Told.{told_at, fault_in};

use crate::blame::way_to_fault;
use crate::fault::fault_finding;
use crate::sides::with_sides;
use crate::telling::{with_hint, with_place};
use rh_base::OutOfMemory;
use rh_cluster::ClusterFault;
use rh_findings::Finding;
use std::alloc::Global;

// A finding with the parameter in which a node differs, or with the part that is at fault.
fn told_at(
    alloc: Global,
    text: &[u8],
    fault: &ClusterFault,
    finding: Finding,
) -> Result<Finding, OutOfMemory>
    ensures { IfOk result (λ told. told ≡ told_at text.now fault.now finding) }
{
    match fault {
        ClusterFault::Mismatch { node } => with_sides(alloc, text, node.as_str(), finding),
        _ => {
            let steps = way_to_fault(alloc, text, fault)?;
            with_place(alloc, text, fault, finding, steps.as_slice())
        }
    }
}

/// The fault of a text that is no cluster, by the code that a check tells, with what was expected, and what may have been meant. Its line
/// is that of the fault, where it names one, else that of the part which is at fault, if one is. Then the way to the part is told and
/// what stands there, cut at [`MOST_SHOWN`](crate::MOST_SHOWN) bytes, and of a bad value what may stand there. Of a node that differs
/// from the first one that takes part in distribution it is the parameter in which it does, and what the first one has.
#[tactic(auto, unfolding(crate::specs::Told::fault_in))]
pub fn fault_in(alloc: Global, text: &[u8], fault: &ClusterFault) -> Result<Finding, OutOfMemory>
    ensures { IfOk result (λ finding. finding ≡ fault_in text.now fault.now) }
{
    let finding = with_hint(alloc, text, fault, fault_finding(alloc, fault)?)?;
    if finding.line.is_some() {
        return Ok(finding);
    }
    told_at(alloc, text, fault, finding)
}
