//! Reading an operation: an operator, a field number, and the operator's arguments.

ghost use Rattle.std.specs.Prelude.{◌≡◌, ◌≤◌};
ghost use Rattle.std.specs.Option.{option_and_then, option_map};
ghost use Rattle.mx_msgpack.specs.Items.{values_from};
ghost use Rattle.mx_msgpack.specs.Projections.{as_int, as_text, first_as};
ghost use Rattle.mx_msgpack.specs.Readers.{unsigned_in};
ghost use Rattle.mx_msgpack.specs.Reading.{Gives};
ghost use Rattle.mx_operations.specs.Operations.{operation_by_name, operation_in, one_or_more, operation_of, operation_with};
ghost use Rattle.mx_operations.specs.Arguments.{argument_count, only_letter};
ghost use Rattle.mx_operations.specs.Views.{operation_view};

use crate::fault::ShapeFault;
use crate::operation::Operation;
use crate::operator::{Operator, operator_of};
use mx_msgpack::{Items, array_of, int_in, parted, text_in, unsigned_in};

/// The operation that these bytes spell.
///
/// # Errors
/// Why they spell none: the operator is judged before its arguments.
#[tactic(auto, unfolding(crate::specs::Operations::operation_in))]
pub fn read_operation(bytes: &[u8]) -> Result<Operation<'_>, ShapeFault>
    ensures { Gives operation_view result (operation_in bytes.now) }
{
    let Some(elements) = array_of(bytes) else {
        return Err(ShapeFault::BadArgument);
    };
    if elements.count == 0 {
        return Err(ShapeFault::BadArgument);
    }
    let (name, operands) = parted(elements.bytes);
    let operands = Items {
        count: elements.count - 1,
        bytes: operands,
    };
    operation_by_name(name, operands)
}

fn operation_by_name<'a>(name: &[u8], operands: Items<'a>) -> Result<Operation<'a>, ShapeFault>
    ensures { Gives operation_view result
        (operation_by_name (first_as as_text name.now) (values_from operands.entry.count operands.entry.bytes.now)) }
{
    let Some(letter) = letter_in(name) else {
        return Err(ShapeFault::BadArgument);
    };
    let Some(operator) = operator_of(letter) else {
        return Err(ShapeFault::UnknownOperator);
    };
    match operation_with(operator, operands) {
        Some(operation) => Ok(operation),
        None => Err(ShapeFault::BadArgument),
    }
}

fn operation_with<'a>(operator: Operator, operands: Items<'a>) -> Option<Operation<'a>>
    ensures { option_map operation_view result ≡ operation_with operator (values_from operands.entry.count operands.entry.bytes.now) }
{
    if operands.count != 1 + argument_count(operator) {
        return None;
    }
    let (field, arguments) = parted(operands.bytes);
    operation_of(operator, field, arguments)
}

/// How many arguments follow the field number.
fn argument_count(operator: Operator) -> u32
    ensures count { result ≡ argument_count operator }
    ensures few { result ≤ 3 }
{
    match operator {
        Operator::Splice => 3,
        _ => 1,
    }
}

fn operation_of<'a>(operator: Operator, field: &[u8], arguments: &'a [u8]) -> Option<Operation<'a>>
    ensures { option_map operation_view result
        ≡ option_and_then (λ number. operation_of operator number (values_from (argument_count operator) arguments.now)) (first_as as_int field.now) }
{
    let field = int_in(field)?;
    let (first, others) = parted(arguments);
    match operator {
        Operator::Assign => Some(Operation::Assign {
            field,
            value: first,
        }),
        Operator::Insert => Some(Operation::Insert {
            field,
            value: first,
        }),
        Operator::Delete => Some(Operation::Delete {
            field,
            count: one_or_more_in(first)?,
        }),
        Operator::Add => Some(Operation::Add {
            field,
            operand: int_in(first)?,
        }),
        Operator::Subtract => Some(Operation::Subtract {
            field,
            operand: int_in(first)?,
        }),
        Operator::And => Some(Operation::And {
            field,
            operand: unsigned_in(first)?,
        }),
        Operator::Or => Some(Operation::Or {
            field,
            operand: unsigned_in(first)?,
        }),
        Operator::Xor => Some(Operation::Xor {
            field,
            operand: unsigned_in(first)?,
        }),
        Operator::Splice => {
            let (cut, others) = parted(others);
            let (text, _) = parted(others);
            Some(Operation::Splice {
                field,
                position: int_in(first)?,
                cut: int_in(cut)?,
                text: text_in(text)?,
            })
        }
    }
}

fn letter_in(value: &[u8]) -> Option<u8>
    ensures { result ≡ option_and_then only_letter (first_as as_text value.now) }
{
    match text_in(value)? {
        [letter] => Some(*letter),
        _ => None,
    }
}

fn one_or_more_in(value: &[u8]) -> Option<u64>
    ensures { result ≡ option_and_then one_or_more (unsigned_in value.now) }
{
    let count = unsigned_in(value)?;
    if count == 0 {
        return None;
    }
    Some(count)
}
