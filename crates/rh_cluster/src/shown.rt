//! How a fault is shown.

use crate::fault::ClusterFault;
use std::fmt;

/// A fault is shown as its code and its name, with what it names.
impl fmt::Display for ClusterFault {
    ghost use Rattle.std.specs.Prelude.{Some};
    ghost use Rattle.rh_cluster.specs.FaultTexts.{cluster_fault_text};

    ghost output = { λ fault. Some (cluster_fault_text fault) };

    fn fmt<W: fmt::Write>(&self, f: &mut fmt::Formatter<W>) -> fmt::Result {
        match self {
            ClusterFault::Term(fault) => write!(f, "C1 {fault}"),
            ClusterFault::NoNodes => write!(f, "C2 no_nodes"),
            ClusterFault::TooMany => write!(f, "C3 too_many"),
            ClusterFault::DuplicateName => write!(f, "C4 duplicate_name"),
            ClusterFault::UnknownName => write!(f, "C5 unknown_name"),
            ClusterFault::DuplicateInList => write!(f, "C6 duplicate_in_list"),
            ClusterFault::DuplicateParameter => write!(f, "C7 duplicate_parameter"),
            ClusterFault::Mismatch { node } => {
                let name = node.as_str();
                write!(f, "C8 mismatch {name}")
            }
            ClusterFault::BootNotListed => write!(f, "C9 boot_not_listed"),
            ClusterFault::BadValue => write!(f, "C10 bad_value"),
            ClusterFault::BadName => write!(f, "C11 bad_name"),
            ClusterFault::OutOfMemory => write!(f, "C12 out_of_memory"),
        }
    }
}
