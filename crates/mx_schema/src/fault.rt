//! Why rows make no catalogue.

ghost use Rattle.std.specs.Prelude.{◌≡◌};
ghost use Rattle.mx_schema.specs.declared.fault.SchemaFault.TheVariants.{NoMemory};

use mx_base::Refusal;
use std::alloc::AllocError;

/// Why rows make no catalogue.
#[derive(Debug, Drop)]
pub enum SchemaFault {
    /// The row in this place describes nothing, or what is there already. The rows of spaces are counted
    /// from 0, and those of indexes after them.
    Row { place: u32, refusal: Refusal },
    /// Out of memory.
    NoMemory,
}

impl From<AllocError> for SchemaFault {
    ghost from_gives = { λ _ e. e ≡ NoMemory };

    fn from(_fault: AllocError) -> SchemaFault {
        SchemaFault::NoMemory
    }
}
