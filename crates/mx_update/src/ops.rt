//! The operations of a request.

ghost use Rattle.std.specs.Prelude.{◌≡◌, ◌≤◌, length, map, Ok, MatchResult};
ghost use Rattle.mx_operations.specs.Operations.{max_operations, operations_in};
ghost use Rattle.mx_operations.specs.Views.{operation_view};
ghost use Rattle.mx_update.specs.Faults.{IsShapeFault};

use crate::fault::OpFault;
use mx_msgpack::{array_of, parted};
use mx_operations::{MAX_OPERATIONS, Operation, ShapeFault, read_operation};
use std::alloc::Global;
use std::marker::Model;

/// At most 4,000 operations, in the order in which they are applied.
#[derive(Drop)]
pub struct Ops<'a> {
    operations: Vec<Operation<'a>>,
}

impl<'a> Model for Ops<'a> {
    ghost use Rattle.std.specs.Prelude.{List, ◌≤◌, length, map};
    ghost use Rattle.mx_operations.specs.Operations.{Operation, max_operations};
    ghost use Rattle.mx_operations.specs.Views.{operation_view};

    ghost Value = { List Operation };

    ghost view = { λ o. map operation_view o.operations.items };

    ghost invariant = { λ o. length o.operations.items ≤ max_operations };
}

impl<'a> Ops<'a> {
    /// The operations in place.
    pub fn as_slice(&self) -> &[Operation<'a>]
        ensures value { map operation_view result.now ≡ self.now }
        ensures few { length result.now ≤ max_operations }
    {
        self.operations.as_slice()
    }
}

/// The operations that these bytes spell, which are one array.
///
/// # Errors
/// `Unknown` or `Argument` for the first that isn't an operation, `Argument` of place 0 where the bytes
/// aren't one array, and `NoMemory`.
pub fn read_ops(alloc: Global, bytes: &[u8]) -> Result<Ops<'_>, OpFault>
    ensures { MatchResult result
        (λ ops. operations_in bytes.now ≡ Ok ops)
        (λ fault. IsShapeFault fault (operations_in bytes.now)) }
{
    let Some(spellings) = array_of(bytes) else {
        return Err(OpFault::Argument { place: 0 });
    };
    let room = spellings.count.min(MAX_OPERATIONS);
    let mut operations = Vec::with_capacity(alloc, room as usize)?;
    let mut rest = spellings.bytes;
    for place in 0..spellings.count {
        if place >= MAX_OPERATIONS {
            return Err(OpFault::Argument { place });
        }
        let (spelling, others) = parted(rest);
        match read_operation(spelling) {
            Ok(operation) => operations.push(operation)?,
            Err(ShapeFault::UnknownOperator) => return Err(OpFault::Unknown),
            Err(ShapeFault::BadArgument) => return Err(OpFault::Argument { place }),
        }
        rest = others;
    }
    Ok(Ops { operations })
}
