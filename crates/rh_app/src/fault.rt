//! What can go wrong where several sessions share a cluster.

ghost use Rattle.std.specs.Prelude.{◌≡◌};
ghost use Rattle.rh_devices.specs.declared.fault.WriteFault.TheVariants as writing;
ghost use Rattle.rh_app.specs.Faults.{history_fault, sessions_fault};
ghost use Rattle.rh_app.specs.declared.fault.HistoryFault.TheVariants as history;
ghost use Rattle.rh_app.specs.declared.fault.SessionsFault.TheVariants as sessions;

use rh_base::OutOfMemory;
use rh_devices::WriteFault;
use rh_run::RunFault;
use std::alloc::AllocError;

/// Why the sessions' threads gave no history.
#[derive(Clone, Copy)]
pub enum HistoryFault {
    /// They made no one history of the commands.
    Room,
    /// A growth was refused.
    OutOfMemory,
}

/// Why the text of sessions was not written whole.
#[derive(Clone, Copy)]
pub enum SessionsFault {
    /// Their threads made no one history of the commands.
    Room,
    /// A text was not written whole.
    Write(WriteFault),
}

impl From<SessionsFault> for RunFault {
    ghost from_gives = { λ fault e. e ≡ sessions_fault fault };

    fn from(fault: SessionsFault) -> RunFault {
        match fault {
            SessionsFault::Room => RunFault::Room,
            SessionsFault::Write(fault) => RunFault::from(fault),
        }
    }
}

impl From<OutOfMemory> for HistoryFault {
    ghost from_gives = { λ _ e. e ≡ history.OutOfMemory };

    fn from(_error: OutOfMemory) -> HistoryFault {
        HistoryFault::OutOfMemory
    }
}

impl From<AllocError> for HistoryFault {
    ghost from_gives = { λ _ e. e ≡ history.OutOfMemory };

    fn from(_error: AllocError) -> HistoryFault {
        HistoryFault::OutOfMemory
    }
}

impl From<OutOfMemory> for SessionsFault {
    ghost from_gives = { λ _ e. e ≡ sessions.Write writing.OutOfMemory };

    fn from(error: OutOfMemory) -> SessionsFault {
        SessionsFault::Write(WriteFault::from(error))
    }
}

impl From<WriteFault> for SessionsFault {
    ghost from_gives = { λ fault e. e ≡ sessions.Write fault };

    fn from(fault: WriteFault) -> SessionsFault {
        SessionsFault::Write(fault)
    }
}

impl From<HistoryFault> for SessionsFault {
    ghost from_gives = { λ fault e. e ≡ history_fault fault };

    fn from(fault: HistoryFault) -> SessionsFault {
        match fault {
            HistoryFault::Room => SessionsFault::Room,
            HistoryFault::OutOfMemory => SessionsFault::Write(WriteFault::OutOfMemory),
        }
    }
}
