//! Why a port can't be listened on.

ghost use Rattle.std.specs.Prelude.{◌≡◌};
ghost use Rattle.mx_real.specs.declared.listen_fault.ListenFault.TheVariants.{NoMemory};
ghost use Rattle.mx_real.specs.Faults.{listen_fault_of};

use std::alloc::AllocError;
use std::io;
use std::io::ErrorKind;
use thiserror::Error;

/// Why a port can't be listened on.
#[derive(Clone, Copy, Debug, Drop, Error)]
pub enum ListenFault {
    /// Another socket listens on it.
    #[error("127.0.0.1:{0} can't be listened on, since another program does: end it first, or choose another port")]
    InUse(u16),
    /// The system refused it, for this reason.
    #[error("127.0.0.1:{0} can't be listened on ({1}): choose another port")]
    Refused(u16, io::Error),
    /// An allocation failed.
    #[error("memory ran out")]
    NoMemory,
}

impl ListenFault {
    /// What the system's error at this port is.
    pub(crate) fn of(port: u16, error: io::Error) -> ListenFault
        ensures { result ≡ listen_fault_of port error }
    {
        match error.kind() {
            ErrorKind::AddrInUse => ListenFault::InUse(port),
            ErrorKind::OutOfMemory => ListenFault::NoMemory,
            _ => ListenFault::Refused(port, error),
        }
    }
}

impl From<AllocError> for ListenFault {
    ghost from_gives = { λ _ fault. fault ≡ NoMemory };

    fn from(_: AllocError) -> ListenFault {
        ListenFault::NoMemory
    }
}
