//! Operations that stand in a row.

ghost use Rattle.std.specs.Prelude.{◌≡◌, List, Ok, Err, MatchOption};
ghost use Rattle.mx_msgpack.specs.Items.{values_from};
ghost use Rattle.mx_operations.specs.Operations.{Operation, operations_from};

use crate::fault::{OperationFault, ShapeFault};
use crate::reading::read_operation;
use mx_msgpack::{Items, parted};

/// The maximum number of operations of a request.
pub const MAX_OPERATIONS: u32 = 4_000;

/// The first of these values that isn't an operation, and why it isn't; the 4,001st is one too many. It
/// takes no memory.
pub fn first_fault(operations: Items<'_>) -> Option<OperationFault>
    ensures { MatchOption result
        ((all : List Operation) × (operations_from 0 (values_from operations.entry.count operations.entry.bytes.now) ≡ Ok all))
        (λ fault. operations_from 0 (values_from operations.entry.count operations.entry.bytes.now) ≡ Err fault) }
{
    let mut rest = operations.bytes;
    for place in 0..operations.count {
        if place >= MAX_OPERATIONS {
            return Some(OperationFault {
                place,
                fault: ShapeFault::BadArgument,
            });
        }
        let (operation, others) = parted(rest);
        if let Err(fault) = read_operation(operation) {
            return Some(OperationFault { place, fault });
        }
        rest = others;
    }
    None
}
