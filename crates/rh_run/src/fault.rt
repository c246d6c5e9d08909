//! Why a program ended early, and the fault that a whole text tells at its end.

ghost use Rattle.std.specs.Prelude.{◌≡◌};
ghost use Rattle.rh_run.specs.Faults.{reading_fault, writing_fault, ended};

use rh_cluster::ClusterFault;
use rh_devices::{ReadFault, WriteFault};
use rh_plans::SweepFault;
use thiserror::Error;

/// Why a program ended early.
#[derive(Debug, Drop, Error)]
pub enum RunFault {
    /// The text describes no cluster. The fault was written.
    #[error("cluster refused {0}")]
    Cluster(ClusterFault),
    /// The line of this number, counted from 1 behind the line `===`, is no command. That was written.
    #[error("bad line {0}")]
    BadLine(u64),
    /// The input could not be read, or is longer than 16,777,216 bytes. Nothing was written.
    #[error("the input can't be read, or is too long")]
    Read,
    /// The output could not be written: the front of the text was.
    #[error("the output can't be written")]
    Write,
    /// A growth was refused: the front of the text was written.
    #[error("out of memory")]
    OutOfMemory,
    /// The plans can't be swept. That was written.
    #[error("sweep refused {0}")]
    Sweep(SweepFault),
    /// The sessions' threads made no one history of their commands. Nothing was written.
    #[error("the sessions made no one history")]
    Room,
    /// A step was refused, and the program was asked to be strict. The whole text was written. `run` never ends so.
    #[error("a step was refused")]
    Refused,
    /// What a script expects doesn't hold. The whole text was written. `run` never ends so.
    #[error("what the script expects doesn't hold")]
    Differs,
    /// A search ended before all was looked at. The whole text was written. `run` never ends so.
    #[error("the search is unfinished")]
    Unfinished,
}

/// The fault that a whole text tells at its end.
#[derive(Drop)]
pub enum Told {
    /// The text describes no cluster.
    Cluster(ClusterFault),
    /// The line of this number is no command.
    BadLine(u64),
    /// The plans can't be swept.
    Sweep(SweepFault),
    /// A step was refused, and the program was asked to be strict. `run` tells none.
    Refused,
    /// What a script expects doesn't hold. `run` tells none.
    Differs,
    /// A search ended before all was looked at. `run` tells none.
    Unfinished,
}

/// How a program ends whose text was written whole.
pub fn ended(told: Option<Told>) -> Result<(), RunFault>
    ensures { result ≡ ended told }
{
    match told {
        None => Ok(()),
        Some(Told::Cluster(fault)) => Err(RunFault::Cluster(fault)),
        Some(Told::BadLine(number)) => Err(RunFault::BadLine(number)),
        Some(Told::Sweep(fault)) => Err(RunFault::Sweep(fault)),
        Some(Told::Refused) => Err(RunFault::Refused),
        Some(Told::Differs) => Err(RunFault::Differs),
        Some(Told::Unfinished) => Err(RunFault::Unfinished),
    }
}

impl From<ReadFault> for RunFault {
    ghost from_gives = { λ fault e. e ≡ reading_fault fault };

    fn from(fault: ReadFault) -> RunFault {
        match fault {
            ReadFault::Failed | ReadFault::TooLong => RunFault::Read,
            ReadFault::OutOfMemory => RunFault::OutOfMemory,
        }
    }
}

impl From<WriteFault> for RunFault {
    ghost from_gives = { λ fault e. e ≡ writing_fault fault };

    fn from(fault: WriteFault) -> RunFault {
        match fault {
            WriteFault::Failed => RunFault::Write,
            WriteFault::OutOfMemory => RunFault::OutOfMemory,
        }
    }
}
