//! Why there is no sweep.

use std::fmt;

/// Why there is no sweep. It is shown as its code and its name.
#[derive(Clone, Copy, Debug, PartialEq, Eq)]
pub enum SweepFault {
    /// A sweep has 1 to 16 workers.
    WorkerCount,
    /// The base has steps that could be made again.
    BaseNotAtEnd,
    /// Some plan has more events than the base's trail has room for.
    TrailRoom,
    /// Memory was refused.
    OutOfMemory,
}

impl fmt::Display for SweepFault {
    ghost use Rattle.std.specs.Prelude.{Some};
    ghost use Rattle.rh_plans.specs.FaultWords.{fault_words};

    ghost output = { λ fault. Some (fault_words fault) };

    fn fmt<W: fmt::Write>(&self, f: &mut fmt::Formatter<W>) -> fmt::Result {
        match self {
            SweepFault::WorkerCount => write!(f, "V1 worker_count"),
            SweepFault::BaseNotAtEnd => write!(f, "V2 base_not_at_end"),
            SweepFault::TrailRoom => write!(f, "V3 trail_room"),
            SweepFault::OutOfMemory => write!(f, "V4 out_of_memory"),
        }
    }
}
