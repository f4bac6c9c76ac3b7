//! Why the units of an input end before the input does.

ghost use Rattle.std.specs.Prelude.{◌≡◌};
ghost use Rattle.mx_top.specs.declared.stop.Stop.TheVariants.{NoMemory};
ghost use Rattle.mx_top.specs.Stops.{stop_of};

use mx_journal::JournalFault;
use std::alloc::{AllocError, AllocFailed};

/// The first cause that a run meets once its directory is opened.
#[derive(Clone, Copy, Drop)]
pub(crate) enum Stop {
    /// The first malformed unit begins at byte `at`.
    BadInput { at: u64 },
    ReadFault,
    WriteFault,
    DiskFault,
    NoMemory,
}

impl From<AllocError> for Stop {
    ghost from_gives = { λ _ e. e ≡ NoMemory };

    fn from(_: AllocError) -> Stop {
        Stop::NoMemory
    }
}

impl<T: Drop> From<AllocFailed<T>> for Stop {
    ghost from_gives = { λ _ e. e ≡ NoMemory };

    fn from(_: AllocFailed<T>) -> Stop {
        Stop::NoMemory
    }
}

impl From<JournalFault> for Stop {
    ghost from_gives = { λ fault e. e ≡ stop_of fault };

    fn from(fault: JournalFault) -> Stop {
        match fault {
            JournalFault::Failed => Stop::DiskFault,
            JournalFault::NoMemory => Stop::NoMemory,
        }
    }
}
