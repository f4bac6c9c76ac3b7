//! Whether an array is one of update operations.

ghost use Rattle.std.specs.Prelude.{◌≡◌};
ghost use Rattle.mx_request.specs.Operators.{operation_refusal, shape_fault};

use mx_base::Refusal;
use mx_msgpack::array_in;
use mx_operations::{OperationFault, ShapeFault, first_fault};

pub(crate) fn shape_fault(operations: &[u8]) -> Option<Refusal>
    ensures { result ≡ shape_fault operations.now }
{
    let fault = first_fault(array_in(operations)?)?;
    Some(operation_refusal(fault))
}

fn operation_refusal(fault: OperationFault) -> Refusal
    ensures { result ≡ operation_refusal fault }
{
    match fault.fault {
        ShapeFault::UnknownOperator => Refusal::UnknownOperator,
        ShapeFault::BadArgument => Refusal::BadArgument {
            operation: fault.place,
        },
    }
}
