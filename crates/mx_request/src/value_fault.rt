//! Why the value under a key is refused.

use mx_base::Refusal;

/// Why the value under this key is refused.
#[derive(Clone, Copy, Drop)]
pub(crate) enum ValueFault {
    Missing(u8),
    /// It is of the wrong type or out of range.
    Illegal(u8),
}

impl From<ValueFault> for Refusal {
    ghost use Rattle.std.specs.Prelude.{◌≡◌};
    ghost use Rattle.mx_request.specs.ValueFaults.{value_refusal};

    ghost from_gives = { λ fault refusal. refusal ≡ value_refusal fault };

    fn from(fault: ValueFault) -> Refusal {
        match fault {
            ValueFault::Missing(key) => Refusal::MissingKey { key },
            ValueFault::Illegal(key) => Refusal::IllegalValue { key },
        }
    }
}
