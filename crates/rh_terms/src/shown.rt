//! How a fault is shown.

use crate::fault::TermFault;
use std::fmt;

/// A fault is shown as its code and its name, with its line where it has one.
impl fmt::Display for TermFault {
    ghost use Rattle.std.specs.Prelude.{Some};
    ghost use Rattle.rh_terms.specs.FaultTexts.{term_fault_text};

    ghost output = { λ fault. Some (term_fault_text fault) };

    // The words of the fault.
    fn fmt<W: fmt::Write>(&self, f: &mut fmt::Formatter<W>) -> fmt::Result {
        match self {
            TermFault::Syntax { line } => write!(f, "T1 syntax line {line}"),
            TermFault::Unsupported { line } => write!(f, "T2 unsupported line {line}"),
            TermFault::NotUtf8 => write!(f, "T3 not_utf8"),
            TermFault::TooDeep => write!(f, "T4 too_deep"),
            TermFault::IntRange => write!(f, "T5 int_range"),
            TermFault::OutOfMemory => write!(f, "T6 out_of_memory"),
        }
    }
}
