//! Why the program ends.

use mx_real::ListenFault;
use std::alloc::AllocError;
use std::fmt;

/// Why the program ends with another status than 0.
#[derive(Drop)]
pub(crate) enum End {
    /// The arguments are neither a port nor `memory`.
    Usage,
    /// The port can't be listened on.
    Listen(ListenFault),
    /// A call failed, or memory ran out.
    Failed,
}

impl End {
    /// The status of the process.
    pub(crate) fn status(&self) -> u8 {
        match self {
            End::Usage => 2,
            End::Listen(_) => 8,
            End::Failed => 1,
        }
    }
}

impl fmt::Display for End {
    fn fmt<W: fmt::Write>(&self, f: &mut fmt::Formatter<W>) -> fmt::Result {
        match self {
            End::Usage => f.write_str("usage: mx_sockets PORT, or mx_sockets memory"),
            End::Listen(fault) => fault.fmt(f),
            End::Failed => f.write_str("a call failed, or memory ran out"),
        }
    }
}

impl From<AllocError> for End {
    fn from(_: AllocError) -> End {
        End::Failed
    }
}
