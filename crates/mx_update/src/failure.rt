//! Why an operation can't be applied to a tuple's fields.

ghost use Rattle.std.specs.Prelude.{◌≡◌};
ghost use Rattle.mx_update.specs.declared.failure.Failure.TheVariants.{NoMemory};

use std::alloc::AllocError;

#[derive(Clone, Copy, Drop)]
pub(crate) enum Failure {
    /// It doesn't fit its field.
    Argument,
    /// Its result is no number of 64 bits.
    Overflow,
    NoMemory,
}

impl From<AllocError> for Failure {
    ghost from_gives = { λ _ e. e ≡ NoMemory };

    fn from(_fault: AllocError) -> Failure {
        Failure::NoMemory
    }
}
