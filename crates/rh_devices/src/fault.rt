//! Why an input was not read, and why a text was not written whole.

ghost use Rattle.std.specs.Prelude.{◌≡◌};
ghost use Rattle.rh_devices.specs.declared.fault.ReadFault.TheVariants as reading;
ghost use Rattle.rh_devices.specs.declared.fault.WriteFault.TheVariants as writing;

use rh_base::OutOfMemory;
use std::alloc::AllocError;

/// Why an input was not read.
#[derive(Clone, Copy)]
pub enum ReadFault {
    /// The reader has failed.
    Failed,
    /// There are more bytes than a program reads.
    TooLong,
    /// A growth was refused.
    OutOfMemory,
}

/// Why a text was not written whole.
#[derive(Clone, Copy)]
pub enum WriteFault {
    /// The writer has failed.
    Failed,
    /// A growth was refused.
    OutOfMemory,
}

impl From<AllocError> for ReadFault {
    ghost from_gives = { λ _ e. e ≡ reading.OutOfMemory };

    fn from(_error: AllocError) -> ReadFault {
        ReadFault::OutOfMemory
    }
}

impl From<OutOfMemory> for WriteFault {
    ghost from_gives = { λ _ e. e ≡ writing.OutOfMemory };

    fn from(_error: OutOfMemory) -> WriteFault {
        WriteFault::OutOfMemory
    }
}
