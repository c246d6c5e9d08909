//! Why a dialogue broke off.

ghost use Rattle.std.specs.Prelude.{◌≡◌};
ghost use Rattle.rh_manner.specs.declared.fault.DialogueFault.TheVariants as fault;
ghost use Rattle.rh_manner.specs.Faults.{dialogue_fault, unwritten};

use rh_devices::WriteFault;
use rh_run::RunFault;
use std::alloc::AllocError;

/// Why a dialogue broke off.
#[derive(Clone, Copy)]
pub enum DialogueFault {
    /// The device has failed where it was asked for bytes.
    Unheard,
    /// It gave more bytes than a program reads.
    TooLong,
    /// The device has failed where it was offered bytes, or flushed.
    Unsaid,
    /// A growth was refused.
    OutOfMemory,
}

impl From<AllocError> for DialogueFault {
    ghost from_gives = { λ _ e. e ≡ fault.OutOfMemory };

    fn from(_error: AllocError) -> DialogueFault {
        DialogueFault::OutOfMemory
    }
}

impl From<WriteFault> for DialogueFault {
    ghost from_gives = { λ f e. e ≡ unwritten f };

    fn from(fault: WriteFault) -> DialogueFault {
        match fault {
            WriteFault::Failed => DialogueFault::Unsaid,
            WriteFault::OutOfMemory => DialogueFault::OutOfMemory,
        }
    }
}

impl From<DialogueFault> for RunFault {
    ghost from_gives = { λ f e. e ≡ dialogue_fault f };

    fn from(fault: DialogueFault) -> RunFault {
        match fault {
            DialogueFault::Unheard | DialogueFault::TooLong => RunFault::Read,
            DialogueFault::Unsaid => RunFault::Write,
            DialogueFault::OutOfMemory => RunFault::OutOfMemory,
        }
    }
}
