//! Operations on numbers.

ghost use Rattle.mx_update.specs.Arithmetic.{arithmetic_of};
ghost use Rattle.mx_update.specs.Returns.{Returns};
ghost use Rattle.mx_update.specs.Updates.{Number as NumberField};
ghost use Rattle.mx_update.specs.Views.{field_view};

use crate::failure::Failure;
use crate::field::{Field, number_of};
use crate::number::Number;

/// An operator with its operand.
#[derive(Clone, Copy)]
pub(crate) enum Arithmetic<'a> {
    Add(&'a i128),
    Subtract(&'a i128),
    And(u64),
    Or(u64),
    Xor(u64),
}

/// The number of the field and the operand as one number.
pub(crate) fn computed(arithmetic: Arithmetic<'_>, field: &Field<'_>) -> Result<Number, Failure>
    ensures { Returns NumberField result (arithmetic_of arithmetic.entry (field_view field.now)) }
{
    let Some(number) = number_of(field) else {
        return Err(Failure::Argument);
    };
    match arithmetic {
        Arithmetic::Add(operand) => number.sum(operand).ok_or(Failure::Overflow),
        Arithmetic::Subtract(operand) => number.difference(operand).ok_or(Failure::Overflow),
        Arithmetic::And(operand) => {
            let bits = number.bits().ok_or(Failure::Argument)?;
            Ok(Number::from_bits(bits & operand))
        }
        Arithmetic::Or(operand) => {
            let bits = number.bits().ok_or(Failure::Argument)?;
            Ok(Number::from_bits(bits | operand))
        }
        Arithmetic::Xor(operand) => {
            let bits = number.bits().ok_or(Failure::Argument)?;
            Ok(Number::from_bits(bits ^ operand))
        }
    }
}
