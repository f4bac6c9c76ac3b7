//! What a SELECT asks of an index, and why it gets no tuples.

ghost use Rattle.std.specs.Prelude.{◌≡◌};
ghost use Rattle.mx_entries.specs.declared.pick.SelectFault.TheVariants as fault;
ghost use Rattle.mx_entries.specs.declared.pick.SelectStop.TheVariants.{NoMemory};
ghost use Rattle.mx_entries.specs.Windows.{select_fault_of, stop_fault_of};

use mx_key::{IterKind, Misfit, RangeFault};
use std::alloc::AllocError;

/// The maximum size of a SELECT's result, in bytes.
pub const MAX_RESULT_SIZE: usize = 16_777_216;

/// What a SELECT asks of an index.
#[derive(Clone, Copy, Debug, Drop)]
pub struct Pick<'a> {
    pub iterator: IterKind,
    /// An array of the key's parts.
    pub key: &'a [u8],
    /// How many tuples are skipped.
    pub offset: u32,
    /// The maximum number of tuples.
    pub limit: u32,
}

/// Why a SELECT returns no tuples.
#[derive(Clone, Copy, Drop, PartialEq, Eq)]
pub enum SelectStop {
    /// They have more than 16,777,216 bytes together.
    TooLong,
    /// An allocation failed.
    NoMemory,
}

impl From<AllocError> for SelectStop {
    ghost from_gives = { λ _ e. e ≡ NoMemory };

    fn from(_fault: AllocError) -> SelectStop {
        SelectStop::NoMemory
    }
}

/// Why a SELECT by a key picks no tuples.
#[derive(Clone, Copy, Debug, Drop, PartialEq, Eq)]
pub enum SelectFault {
    /// The key doesn't fit the index.
    Misfit(Misfit),
    /// They have more than 16,777,216 bytes together.
    TooLong,
    /// An allocation failed.
    NoMemory,
}

impl From<AllocError> for SelectFault {
    ghost from_gives = { λ _ e. e ≡ fault.NoMemory };

    fn from(_fault: AllocError) -> SelectFault {
        SelectFault::NoMemory
    }
}

impl From<RangeFault> for SelectFault {
    ghost from_gives = { λ why e. e ≡ select_fault_of why };

    fn from(why: RangeFault) -> SelectFault {
        match why {
            RangeFault::Misfit(misfit) => SelectFault::Misfit(misfit),
            RangeFault::NoMemory => SelectFault::NoMemory,
        }
    }
}

impl From<SelectStop> for SelectFault {
    ghost from_gives = { λ stop e. e ≡ stop_fault_of stop };

    fn from(stop: SelectStop) -> SelectFault {
        match stop {
            SelectStop::TooLong => SelectFault::TooLong,
            SelectStop::NoMemory => SelectFault::NoMemory,
        }
    }
}
