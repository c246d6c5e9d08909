//! Why a text is no cluster.

ghost use Rattle.std.specs.Prelude.{◌≡◌, ◌≢◌, false};
ghost use Rattle.rh_terms.specs.declared.fault.TermFault.TheVariants as terms;
ghost use Rattle.rh_cluster.specs.declared.fault.ClusterFault.TheVariants as cluster;
ghost use Rattle.rh_cluster.specs.TermMemory.{is_term_memory};
ghost use Rattle.rh_cluster.specs.FaultTexts.{is_memory};

use rh_base::{OutOfMemory, Str};
use rh_terms::TermFault;
use std::alloc::{AllocError, AllocFailed};

/// Why a text is no cluster: the first fault of the first of four stages that has one. The stages look
/// at the terms of the text; at the shape and name of each term; at the parts of each term; at what
/// the nodes must agree on.
#[derive(Debug, Drop)]
pub enum ClusterFault {
    /// The text is no list of terms.
    Term(TermFault),
    /// There is no node.
    NoNodes,
    /// There are more nodes or applications than the profile of the file allows, or more than 256 platform names.
    TooMany,
    /// Two nodes, two applications, or an application and the platform have one name.
    DuplicateName,
    /// A name is that of no node, or of no application.
    UnknownName,
    /// A name stands twice in one list.
    DuplicateInList,
    /// A section, a parameter or a key stands twice.
    DuplicateParameter,
    /// This node has another `distributed` or `sync_nodes_timeout` than the first node that is
    /// involved in distribution.
    Mismatch {
        /// The node's name.
        node: Str,
    },
    /// A node is to start a distributed application that doesn't list the node.
    BootNotListed,
    /// A value has another shape than is asked for, or is out of range.
    BadValue,
    /// A name is empty, has more than 255 bytes, or has a space or a control byte.
    BadName,
    /// A growth was refused.
    OutOfMemory,
}

impl ClusterFault {
    /// Whether a growth was refused. Any other fault is one of the text.
    pub fn is_memory(&self) -> bool
        ensures is { result ≡ is_memory self.now }
        ensures other { result ≡ false → (self.now ≢ cluster.OutOfMemory)
            × (self.now ≢ cluster.Term terms.OutOfMemory) }
    {
        match self {
            ClusterFault::OutOfMemory => true,
            ClusterFault::Term(fault) => is_term_memory(fault),
            _ => false,
        }
    }
}

// Whether a growth was refused while terms were read.
fn is_term_memory(fault: &TermFault) -> bool
    ensures is { result ≡ is_term_memory fault.now }
    ensures other { result ≡ false → fault.now ≢ terms.OutOfMemory }
{
    matches!(fault, TermFault::OutOfMemory)
}

impl From<TermFault> for ClusterFault {
    ghost from_gives = { λ fault e. e ≡ cluster.Term fault };

    fn from(fault: TermFault) -> ClusterFault {
        ClusterFault::Term(fault)
    }
}

impl From<OutOfMemory> for ClusterFault {
    ghost from_gives = { λ _ e. e ≡ cluster.OutOfMemory };

    fn from(_error: OutOfMemory) -> ClusterFault {
        ClusterFault::OutOfMemory
    }
}

impl From<AllocError> for ClusterFault {
    ghost from_gives = { λ _ e. e ≡ cluster.OutOfMemory };

    fn from(_error: AllocError) -> ClusterFault {
        ClusterFault::OutOfMemory
    }
}

impl<T: Drop> From<AllocFailed<T>> for ClusterFault {
    ghost from_gives = { λ _ e. e ≡ cluster.OutOfMemory };

    fn from(_error: AllocFailed<T>) -> ClusterFault {
        ClusterFault::OutOfMemory
    }
}
