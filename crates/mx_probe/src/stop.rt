//! Why the program stops.

use std::alloc::AllocError;
use std::io::ErrorKind;

/// Why the program stops before the end of its input.
#[derive(Clone, Copy, Drop)]
pub enum Stop {
    ReadFault,
    WriteFault,
    NoMemory,
}

impl Stop {
    /// What a failed read stops with.
    pub fn of_read(kind: ErrorKind) -> Stop {
        match kind {
            ErrorKind::OutOfMemory => Stop::NoMemory,
            _ => Stop::ReadFault,
        }
    }

    /// The number that the process ends with.
    pub fn number(self) -> u8 {
        match self {
            Stop::ReadFault => 3,
            Stop::WriteFault => 4,
            Stop::NoMemory => 6,
        }
    }
}

impl From<AllocError> for Stop {
    fn from(_: AllocError) -> Stop {
        Stop::NoMemory
    }
}
