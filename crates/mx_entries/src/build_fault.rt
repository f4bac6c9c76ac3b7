//! Why an index can't be made.

ghost use Rattle.std.specs.Prelude.{◌≡◌};
ghost use Rattle.mx_entries.specs.declared.build_fault.BuildFault.TheVariants as fault;

use mx_key::NoKey;
use std::alloc::AllocError;

/// Why an index can't be made.
#[derive(Clone, Copy, Drop, PartialEq, Eq)]
pub enum BuildFault {
    /// A tuple has no key in it.
    LacksKey(NoKey),
    /// A tuple has the key of one before it, and the index is unique.
    Duplicate,
    /// Out of memory.
    NoMemory,
}

impl From<AllocError> for BuildFault {
    ghost from_gives = { λ _ e. e ≡ fault.NoMemory };

    fn from(_fault: AllocError) -> BuildFault {
        BuildFault::NoMemory
    }
}
