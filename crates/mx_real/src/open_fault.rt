//! Why a folder can't be opened.

ghost use Rattle.std.specs.Prelude.{◌≡◌};
ghost use Rattle.mx_real.specs.declared.open_fault.OpenFault.TheVariants.{NoMemory};
ghost use Rattle.mx_real.specs.Faults.{open_fault_of};

use std::alloc::AllocError;
use std::io;
use std::io::ErrorKind;
use thiserror::Error;

/// Why a folder can't be opened.
#[derive(Clone, Copy, Debug, Drop, Error)]
pub enum OpenFault {
    /// Something that isn't a folder has the name.
    #[error("this isn't a folder: name a folder, or a new one in a folder that is there")]
    NotFolder,
    /// The system made or opened no folder, for this reason.
    #[error("the folder can't be opened ({0}): name a folder of this user's, or a new one in a folder that is there")]
    NotOpened(io::Error),
    /// Another process has it open, or this one has it open twice.
    #[error("another process uses the folder: end it first, or name another folder")]
    InUse,
    /// An allocation failed.
    #[error("memory ran out")]
    NoMemory,
}

impl From<io::Error> for OpenFault {
    ghost from_gives = { λ error fault. fault ≡ open_fault_of error };

    fn from(error: io::Error) -> OpenFault {
        match error.kind() {
            ErrorKind::OutOfMemory => OpenFault::NoMemory,
            ErrorKind::NotADirectory => OpenFault::NotFolder,
            _ => OpenFault::NotOpened(error),
        }
    }
}

impl From<AllocError> for OpenFault {
    ghost from_gives = { λ _ fault. fault ≡ NoMemory };

    fn from(_: AllocError) -> OpenFault {
        OpenFault::NoMemory
    }
}
