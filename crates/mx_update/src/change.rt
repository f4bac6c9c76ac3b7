//! One operation on the fields of a tuple.

ghost use Rattle.std.specs.Prelude.{◌≡◌, ◌+◌, ◌≤◌, length};
ghost use Rattle.mx_operations.specs.Views.{operation_view};
ghost use Rattle.mx_update.specs.Arithmetic.{arithmetic_of};
ghost use Rattle.mx_update.specs.Returns.{Changes};
ghost use Rattle.std.specs.Result.{result_ok};
ghost use Rattle.mx_update.specs.Updates.{after_assign, after_insert, after_delete, fields_after_one, place_of, place_within, with_change, spliced};

use crate::arithmetic::{Arithmetic, computed};
use crate::failure::Failure;
use crate::field::Field;
use crate::fields::Fields;
use crate::place::place_of;
use crate::splice::spliced;
use mx_operations::Operation;
use std::alloc::Global;

/// Changes the fields as the operation says; at a failure they stay.
pub(crate) fn change<'a>(
    alloc: Global,
    base: u32,
    operation: &Operation<'a>,
    fields: &mut Fields<'a>,
) -> Result<(), Failure>
    ensures changed { Changes result fields.old fields.new (fields_after_one base fields.old (operation_view operation.now)) }
    ensures grows { length fields.new ≤ length fields.old + 1 }
{
    match operation {
        Operation::Assign { field, value } => assign(base, field, value, fields),
        Operation::Insert { field, value } => insert(base, field, value, fields),
        Operation::Delete { field, count } => delete(base, field, *count, fields),
        Operation::Add { field, operand } => compute(base, field, Arithmetic::Add(operand), fields),
        Operation::Subtract { field, operand } => {
            compute(base, field, Arithmetic::Subtract(operand), fields)
        }
        Operation::And { field, operand } => {
            compute(base, field, Arithmetic::And(*operand), fields)
        }
        Operation::Or { field, operand } => compute(base, field, Arithmetic::Or(*operand), fields),
        Operation::Xor { field, operand } => {
            compute(base, field, Arithmetic::Xor(*operand), fields)
        }
        Operation::Splice {
            field,
            position,
            cut,
            text,
        } => splice(alloc, base, field, position, cut, text, fields),
    }
}

/// Puts the value into a field's place, or behind the last field.
fn assign<'a>(
    base: u32,
    number: &i128,
    value: &'a [u8],
    fields: &mut Fields<'a>,
) -> Result<(), Failure>
    ensures changed { Changes result fields.old fields.new (after_assign base fields.old number.now value.now) }
    ensures grows { length fields.new ≤ length fields.old + 1 }
{
    let count = fields.len();
    let Some(place) = place_of(base, count, count + 1, number) else {
        return Err(Failure::Argument);
    };
    if place == count {
        fields.push(Field::Sent(value))?;
    } else {
        fields.set(place, Field::Sent(value));
    }
    Ok(())
}

fn insert<'a>(
    base: u32,
    number: &i128,
    value: &'a [u8],
    fields: &mut Fields<'a>,
) -> Result<(), Failure>
    ensures changed { Changes result fields.old fields.new (after_insert base fields.old number.now value.now) }
    ensures grows { length fields.new ≤ length fields.old + 1 }
{
    let places = fields.len() + 1;
    let Some(place) = place_of(base, places, places, number) else {
        return Err(Failure::Argument);
    };
    fields.insert(place, Field::Sent(value))?;
    Ok(())
}

fn delete(base: u32, number: &i128, count: u64, fields: &mut Fields<'_>) -> Result<(), Failure>
    ensures changed { Changes result fields.old fields.new (after_delete base fields.old number.now count) }
    ensures grows { length fields.new ≤ length fields.old + 1 }
{
    let Some(place) = place_in(base, number, fields) else {
        return Err(Failure::Argument);
    };
    fields.delete(place, count);
    Ok(())
}

/// Computes with the number of a field.
fn compute(
    base: u32,
    number: &i128,
    arithmetic: Arithmetic<'_>,
    fields: &mut Fields<'_>,
) -> Result<(), Failure>
    ensures changed { Changes result fields.old fields.new (with_change base fields.old number.now (arithmetic_of arithmetic.entry)) }
    ensures grows { length fields.new ≤ length fields.old + 1 }
{
    let Some(place) = place_in(base, number, fields) else {
        return Err(Failure::Argument);
    };
    let result = computed(arithmetic, fields.get(place))?;
    fields.set(place, Field::Number(result));
    Ok(())
}

/// Replaces a part of a field's text.
fn splice(
    alloc: Global,
    base: u32,
    number: &i128,
    position: &i128,
    cut: &i128,
    text: &[u8],
    fields: &mut Fields<'_>,
) -> Result<(), Failure>
    ensures changed { Changes result fields.old fields.new (with_change base fields.old number.now (spliced base position.now cut.now text.now)) }
    ensures grows { length fields.new ≤ length fields.old + 1 }
{
    let Some(place) = place_in(base, number, fields) else {
        return Err(Failure::Argument);
    };
    let result = spliced(alloc, base, position, cut, text, fields.get(place))?;
    fields.set(place, Field::Text(result));
    Ok(())
}

/// The place of a field that is there.
fn place_in(base: u32, number: &i128, fields: &Fields<'_>) -> Option<usize>
    ensures { result ≡ result_ok (place_within (length fields.now) (place_of base (length fields.now) number.now)) }
{
    let count = fields.len();
    place_of(base, count, count, number)
}
