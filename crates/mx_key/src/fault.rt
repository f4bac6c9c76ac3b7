//! Why fields make no key, and why a key doesn't fit an index.

ghost use Rattle.std.specs.Prelude.{◌≡◌};
ghost use Rattle.mx_key.specs.declared.fault.KeyFault.TheVariants.{NoMemory};
ghost use Rattle.mx_key.specs.declared.fault.RangeFault.TheVariants as range;
ghost use Rattle.mx_key.specs.Faults.{key_fault_of};

use crate::part::PartKind;
use std::alloc::AllocError;

/// Why a tuple's fields make no key.
#[derive(Clone, Copy, Drop, PartialEq, Eq)]
pub enum NoKey {
    /// The tuple has no such field.
    Missing { field: u32 },
    /// The field is of another type.
    Wrong { field: u32, expected: PartKind },
}

/// Why there is no key: the tuple's fields make none, or out of memory.
#[derive(Clone, Copy, Drop, PartialEq, Eq)]
pub enum KeyFault {
    /// The tuple has no such field.
    Missing { field: u32 },
    /// The field is of another type.
    Wrong { field: u32, expected: PartKind },
    /// Out of memory.
    NoMemory,
}

impl From<NoKey> for KeyFault {
    ghost from_gives = { λ why e. e ≡ key_fault_of why };

    fn from(why: NoKey) -> KeyFault {
        match why {
            NoKey::Missing { field } => KeyFault::Missing { field },
            NoKey::Wrong { field, expected } => KeyFault::Wrong { field, expected },
        }
    }
}

impl From<AllocError> for KeyFault {
    ghost from_gives = { λ _ e. e ≡ NoMemory };

    fn from(_fault: AllocError) -> KeyFault {
        KeyFault::NoMemory
    }
}

/// Why a key doesn't fit an index. Parts count from 0.
#[derive(Clone, Copy, Debug, Drop, PartialEq, Eq)]
pub enum Misfit {
    /// It has so many parts, more than the index.
    TooLong { parts: u32 },
    /// The part is of another type.
    WrongPart { part: u32, expected: PartKind },
}

/// Why a key has no range in an index: it doesn't fit, or out of memory.
#[derive(Clone, Copy, Drop, PartialEq, Eq)]
pub enum RangeFault {
    /// It doesn't fit the index.
    Misfit(Misfit),
    /// Out of memory.
    NoMemory,
}

impl From<Misfit> for RangeFault {
    ghost from_gives = { λ misfit e. e ≡ range.Misfit misfit };

    fn from(misfit: Misfit) -> RangeFault {
        RangeFault::Misfit(misfit)
    }
}

impl From<AllocError> for RangeFault {
    ghost from_gives = { λ _ e. e ≡ range.NoMemory };

    fn from(_fault: AllocError) -> RangeFault {
        RangeFault::NoMemory
    }
}
