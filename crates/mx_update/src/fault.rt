//! Why operations can't be read or applied.

ghost use Rattle.std.specs.Prelude.{◌≡◌};
ghost use Rattle.mx_update.specs.declared.fault.OpFault.TheVariants.{NoMemory};

use std::alloc::{AllocError, AllocFailed};

/// Why operations can't be read, or make no tuple. Places count the operations from 0.
#[derive(Clone, Copy, Debug, Drop, PartialEq, Eq)]
pub enum OpFault {
    /// The first that isn't an operation has an unknown operator.
    Unknown,
    /// The first at fault has a wrong shape, or doesn't fit its field.
    Argument { place: u32 },
    /// The number that the first at fault computes is below -2^63 or above 2^64 - 1.
    Overflow { place: u32 },
    /// The tuple would have so many bytes, more than 1,048,576.
    TooLong { bytes: u64 },
    NoMemory,
}

impl From<AllocError> for OpFault {
    ghost from_gives = { λ _ e. e ≡ NoMemory };

    fn from(_fault: AllocError) -> OpFault {
        OpFault::NoMemory
    }
}

impl<T: Drop> From<AllocFailed<T>> for OpFault {
    ghost from_gives = { λ _ e. e ≡ NoMemory };

    fn from(_fault: AllocFailed<T>) -> OpFault {
        OpFault::NoMemory
    }
}
