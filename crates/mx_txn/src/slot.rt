//! A slot's number.

ghost use Rattle.std.specs.Prelude.{◌≡◌, ◌<◌};

use std::marker::Model;

/// How many transactions may be open.
pub const MAX_OPEN: u32 = 1024;

/// The number of a slot, below 1,024.
#[derive(Clone, Copy, PartialEq, Eq)]
pub struct Slot(pub(crate) u32);

impl Model for Slot {
    ghost use Rattle.std.specs.Prelude.{ℕ, ◌<◌};
    ghost use Rattle.mx_txn.specs.Slots.{max_open};

    ghost Value = { ℕ };

    ghost view = { λ s. s.0 };

    ghost inverse = { λ n. record { 0 = n } };

    ghost invariant = { λ s. s.0 < max_open };
}

impl Slot {
    /// The slot's number.
    pub fn number(self) -> u32
        ensures value { result ≡ self }
        ensures bounded { result < MAX_OPEN }
    {
        self.0
    }
}
