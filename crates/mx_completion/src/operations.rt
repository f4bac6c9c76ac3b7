//! Update operations that more bytes may follow.

ghost use Rattle.std.specs.Prelude.{◌≡◌, ◌⊎◌, ◌≤◌, ◌+◌, ◌^◌, length};
ghost use Rattle.std.specs.Option.{option_map};
ghost use Rattle.mx_request.specs.Spelling.{AreOperations};
ghost use Rattle.mx_operations.specs.Operations.{max_operations};
ghost use Rattle.mx_completion.specs.Completions.{Completes, MissesAtMost};
ghost use Rattle.mx_completion.specs.Sequences.{InRow};
ghost use Rattle.mx_completion.specs.OperationForms.{AreOperands, IsLettered, IsNamed, IsOperand, IsOperation, operands_of};

use crate::completion::{Completion, longer};
use crate::head::{Head, head_at};
use crate::leading::Kind;
use crate::number::unsigned_completion;
use crate::value::{int_completion, text_completion, value_completion};
use mx_operations::MAX_OPERATIONS;

/// An array of 3, the name of an operator, a field number and a value.
const MIN_OPERATION_SIZE: usize = 5;

/// How many containers may stand in one another in a value of an operation: around it stand a body's map, the
/// array of operations and the operation.
const OPERAND_ROOM: usize = 61;

/// What a value of an operation may be.
#[derive(Clone, Copy)]
enum Operand {
    Number,
    /// A number from 1 on.
    Count,
    /// A number from 0 on.
    Bits,
    Any,
    Text,
}

/// What the bytes can become as an array of update operations, in a container.
pub fn operations_completion(bytes: &[u8]) -> Completion
    ensures { Completes AreOperations bytes.now result }
{
    match head_at(Kind::Array, bytes) {
        Some(Head::Cut { count, missing }) => {
            if count > MAX_OPERATIONS as usize {
                return Completion::Impossible;
            }
            Completion::Missing {
                least: missing + MIN_OPERATION_SIZE * count,
            }
        }
        Some(Head::Full { count, size }) => {
            if count > MAX_OPERATIONS as usize {
                return Completion::Impossible;
            }
            longer(size, row_completion(count, bytes.split_at(size).1))
        }
        None => Completion::Impossible,
    }
}

/// So many operations in a row.
fn row_completion(count: usize, bytes: &[u8]) -> Completion
    requires { count ≤ max_operations }
    ensures { Completes (InRow IsOperation count) bytes.now result }
{
    let mut left = count;
    let mut rest = bytes;
    while left > 0 {
        left -= 1;
        match operation_completion(rest) {
            Completion::Whole { size } => (_, rest) = rest.split_at(size),
            Completion::Missing { least } => {
                return Completion::Missing {
                    least: least + MIN_OPERATION_SIZE * left,
                };
            }
            Completion::Impossible => return Completion::Impossible,
        }
    }
    Completion::Whole {
        size: bytes.len() - rest.len(),
    }
}

fn operation_completion(bytes: &[u8]) -> Completion
    ensures completes { Completes IsOperation bytes.now result }
    ensures few { MissesAtMost (2 ^ 32 + 100) result }
{
    match head_at(Kind::Array, bytes) {
        Some(Head::Cut { count, missing }) => {
            if count != 0 {
                return Completion::Impossible;
            }
            // What stands behind the head of the shortest, which is one byte.
            Completion::Missing {
                least: missing + (MIN_OPERATION_SIZE - 1),
            }
        }
        Some(Head::Full { count, size }) => {
            if count != 3 && count != 5 {
                return Completion::Impossible;
            }
            longer(size, named_completion(count, bytes.split_at(size).1))
        }
        None => Completion::Impossible,
    }
}

/// The values of an operation, so many.
fn named_completion(count: usize, bytes: &[u8]) -> Completion
    requires { (count ≡ 3) ⊎ (count ≡ 5) }
    ensures completes { Completes (IsNamed count) bytes.now result }
    ensures few { MissesAtMost (2 ^ 32 + 100) result }
{
    match head_at(Kind::Text, bytes) {
        Some(
            Head::Cut {
                count: text,
                missing,
            },
        ) => {
            if text != 0 {
                return Completion::Impossible;
            }
            Completion::Missing {
                least: missing + count,
            }
        }
        Some(Head::Full { count: text, size }) => {
            if text != 1 {
                return Completion::Impossible;
            }
            longer(size, lettered_completion(count, bytes.split_at(size).1))
        }
        None => Completion::Impossible,
    }
}

/// A letter, and the other values of an operation, one less than so many.
fn lettered_completion(count: usize, bytes: &[u8]) -> Completion
    requires { (count ≡ 3) ⊎ (count ≡ 5) }
    ensures completes { Completes (IsLettered count) bytes.now result }
    ensures few { MissesAtMost (2 ^ 32 + 100) result }
{
    let Some((letter, rest)) = bytes.split_first() else {
        // Each of the other values takes a byte at least, as the letter does.
        return Completion::Missing { least: count };
    };
    match operands_of(*letter) {
        Some(operands) => {
            if operands.len() + 1 != count {
                return Completion::Impossible;
            }
            longer(1, operands_completion(operands, rest))
        }
        None => Completion::Impossible,
    }
}

fn operands_of(letter: u8) -> Option<&'static [Operand]>
    ensures { option_map (λ operands. operands.now) result ≡ operands_of letter }
{
    match letter {
        b'=' | b'!' => Some(&[Operand::Number, Operand::Any]),
        b'#' => Some(&[Operand::Number, Operand::Count]),
        b'+' | b'-' => Some(&[Operand::Number, Operand::Number]),
        b'&' | b'|' | b'^' => Some(&[Operand::Number, Operand::Bits]),
        b':' => Some(&[
            Operand::Number,
            Operand::Number,
            Operand::Number,
            Operand::Text,
        ]),
        _ => None,
    }
}

/// These values in a row.
fn operands_completion(operands: &[Operand], bytes: &[u8]) -> Completion
    requires { length operands.now ≤ 4 }
    ensures completes { Completes (AreOperands operands.now) bytes.now result }
    ensures few { MissesAtMost (2 ^ 32 + length operands.now) result }
{
    let Some((operand, others)) = operands.split_first() else {
        return Completion::Whole { size: 0 };
    };
    match operand_completion(*operand, bytes) {
        Completion::Whole { size } => {
            longer(size, operands_completion(others, bytes.split_at(size).1))
        }
        // Each of the others takes a byte at least.
        Completion::Missing { least } => Completion::Missing {
            least: least + others.len(),
        },
        Completion::Impossible => Completion::Impossible,
    }
}

fn operand_completion(operand: Operand, bytes: &[u8]) -> Completion
    ensures completes { Completes (IsOperand operand) bytes.now result }
    ensures few { MissesAtMost (2 ^ 32) result }
{
    match operand {
        Operand::Number => int_completion(bytes),
        Operand::Count => unsigned_completion(1, bytes),
        Operand::Bits => unsigned_completion(0, bytes),
        Operand::Any => value_completion(OPERAND_ROOM, bytes),
        Operand::Text => text_completion(bytes),
    }
}
