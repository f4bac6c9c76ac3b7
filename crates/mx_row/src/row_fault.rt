//! Why bytes begin no transaction.

ghost use Rattle.std.specs.Prelude.{◌≡◌};
ghost use Rattle.mx_row.specs.declared.row_fault.RowFault.TheVariants.{NoMemory};

use std::alloc::AllocError;

/// Why bytes begin no transaction, whatever follows them.
#[derive(Clone, Copy, Drop, PartialEq, Eq)]
pub enum RowFault {
    /// The row at this place, which counts bytes from 0, is none that the transaction can have there, or makes
    /// it too large.
    Bad { at: usize },
    /// Out of memory.
    NoMemory,
}

impl From<AllocError> for RowFault {
    ghost from_gives = { λ _ e. e ≡ NoMemory };

    fn from(_fault: AllocError) -> RowFault {
        RowFault::NoMemory
    }
}
