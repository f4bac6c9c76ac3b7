//! Why a directory was not recovered.

ghost use Rattle.std.specs.Prelude.{◌≡◌};
ghost use Rattle.mx_recover.specs.declared.fault.RecoverFault.TheVariants.{NoMemory};
ghost use Rattle.mx_recover.specs.Faults.{fault_of_dir};

use mx_directory::Damage;
use mx_outside::DirFault;
use std::alloc::AllocError;
use thiserror::Error;

/// Why a directory was not recovered.
#[derive(Debug, Drop, Error)]
pub enum RecoverFault {
    /// The directory is corrupt or inconsistent; this is the first damage in it.
    #[error("damaged: {0}")]
    Damaged(Damage),
    /// A call on the directory failed.
    #[error("the disk failed")]
    Failed,
    /// Out of memory.
    #[error("out of memory")]
    NoMemory,
}

impl From<AllocError> for RecoverFault {
    ghost from_gives = { λ _ e. e ≡ NoMemory };

    fn from(_: AllocError) -> RecoverFault {
        RecoverFault::NoMemory
    }
}

impl From<DirFault> for RecoverFault {
    ghost from_gives = { λ fault e. e ≡ fault_of_dir fault };

    fn from(fault: DirFault) -> RecoverFault {
        match fault {
            DirFault::Failed => RecoverFault::Failed,
            DirFault::NoMemory => RecoverFault::NoMemory,
        }
    }
}
