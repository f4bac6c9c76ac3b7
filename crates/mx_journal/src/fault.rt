//! Why a call of a journal failed.

ghost use Rattle.std.specs.Prelude.{◌≡◌};
ghost use Rattle.mx_journal.specs.Faults.{fault_of};
ghost use Rattle.mx_journal.specs.declared.fault.JournalFault.TheVariants.{NoMemory};

use mx_outside::DirFault;
use std::alloc::AllocError;
use thiserror::Error;

/// Why a call of a journal failed. The journal can't be used any more.
#[derive(Clone, Copy, Debug, Drop, PartialEq, Eq, Error)]
pub enum JournalFault {
    /// A call on the directory failed.
    #[error("the disk failed")]
    Failed,
    /// An allocation failed.
    #[error("memory ran out")]
    NoMemory,
}

impl From<AllocError> for JournalFault {
    ghost from_gives = { λ _ e. e ≡ NoMemory };

    fn from(_: AllocError) -> JournalFault {
        JournalFault::NoMemory
    }
}

impl From<DirFault> for JournalFault {
    ghost from_gives = { λ fault e. e ≡ fault_of fault };

    fn from(fault: DirFault) -> JournalFault {
        match fault {
            DirFault::Failed => JournalFault::Failed,
            DirFault::NoMemory => JournalFault::NoMemory,
        }
    }
}
