//! The fault of a text that is no cluster.

ghost use Rattle.std.specs.Prelude.{◌≡◌, IfOk};
ghost use Rattle.std.specs.String.{string_bytes};
ghost use Rattle.rh_cluster_lint.specs.Faults.{term_line, fault_line, term_words, fault_words, node_named, fault_finding};

use rh_base::{OutOfMemory, Str};
use rh_cluster::ClusterFault;
use rh_findings::{Finding, Kind};
use rh_terms::TermFault;
use std::alloc::Global;

// The line of a fault of terms, where it names one.
fn term_line(fault: &TermFault) -> Option<u64>
    ensures { result ≡ term_line fault.now }
{
    match *fault {
        TermFault::Syntax { line } => Some(line as u64),
        TermFault::Unsupported { line } => Some(line as u64),
        _ => None,
    }
}

// The line of a fault, where it names one.
fn fault_line(fault: &ClusterFault) -> Option<u64>
    ensures { result ≡ fault_line fault.now }
{
    match fault {
        ClusterFault::Term(fault) => term_line(fault),
        _ => None,
    }
}

// What is told of a fault of terms.
fn term_words(fault: &TermFault) -> &'static str
    ensures { result.now ≡ term_words fault.now }
{
    match *fault {
        TermFault::Syntax { .. } => {
            "T1: syntax: what stands here can't go on: a dot, a comma or a bracket may be missing, or quotes round a name"
        }
        TermFault::Unsupported { .. } => {
            "T2: unsupported: Erlang reads what stands here, but this reader doesn't: a float, a map, a binary or the like"
        }
        TermFault::NotUtf8 => "T3: not_utf8: the text isn't UTF-8",
        TermFault::TooDeep => {
            "T4: too_deep: more than 64 lists and tuples stand inside one another"
        }
        TermFault::IntRange => "T5: int_range: an integer is beyond 64 bits",
        TermFault::OutOfMemory => "T6: out_of_memory",
    }
}

// What is told of a fault, but for the name of a node.
fn fault_words(fault: &ClusterFault) -> &'static str
    ensures { result.now ≡ fault_words fault.now }
{
    match fault {
        ClusterFault::Term(fault) => term_words(fault),
        ClusterFault::NoNodes => "C2: no_nodes: no term {node, Name, SysConfig} stands in the file",
        ClusterFault::TooMany => {
            "C3: too_many: there are more nodes, applications or platform names than the profile allows"
        }
        ClusterFault::DuplicateName => {
            "C4: duplicate_name: two nodes, two applications, or an application and the platform have one name"
        }
        ClusterFault::UnknownName => {
            "C5: unknown_name: a value names a node, an application or a dependency that the file hasn't"
        }
        ClusterFault::DuplicateInList => {
            "C6: duplicate_in_list: a name stands twice in one list"
        }
        ClusterFault::DuplicateParameter => {
            "C7: duplicate_parameter: a section, a parameter or a key that is read stands twice"
        }
        ClusterFault::Mismatch { .. } => {
            "C8: mismatch: distributed or sync_nodes_timeout differs from that of the first node that takes part, at "
        }
        ClusterFault::BootNotListed => {
            "C9: boot_not_listed: a node boots a distributed application that doesn't list the node"
        }
        ClusterFault::BadValue => {
            "C10: bad_value: a value has another shape than is asked for, or is out of range"
        }
        ClusterFault::BadName => {
            "C11: bad_name: a name is empty, longer than 255 bytes, or has a space or a control byte"
        }
        ClusterFault::OutOfMemory => "C12: out_of_memory",
    }
}

// The name of the node that a fault names, if it names one.
fn node_named(fault: &ClusterFault) -> &str
    ensures { result.now ≡ node_named fault.now }
{
    match fault {
        ClusterFault::Mismatch { node } => node.as_str(),
        _ => "",
    }
}

/// The fault of a text that is no cluster, by the code that a check tells; its line, where it is one of the text, and what was
/// expected.
#[tactic(auto, unfolding(crate::specs::Faults::fault_finding))]
pub fn fault_finding(alloc: Global, fault: &ClusterFault) -> Result<Finding, OutOfMemory>
    ensures { IfOk result (λ finding. finding ≡ fault_finding fault.now) }
{
    let words = fault_words(fault);
    let node = node_named(fault);
    let text = format!(in alloc; "{words}{node}")?;
    Ok(Finding {
        line: fault_line(fault),
        kind: Kind::Error,
        text: Str::of(text),
        path: None,
    })
}
