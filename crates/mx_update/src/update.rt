//! The tuple that operations make of another one.

ghost use Rattle.std.specs.Prelude.{◌≡◌, ◌≤◌, ◌+◌, length, map, Ok, MatchResult, OnOk};
ghost use Rattle.mx_msgpack.specs.Items.{IsArray};
ghost use Rattle.mx_operations.specs.Operations.{max_operations};
ghost use Rattle.mx_operations.specs.Views.{operation_view};
ghost use Rattle.mx_tuple.specs.Fields.{max_tuple_size};
ghost use Rattle.mx_update.specs.Faults.{IsLengthFault, IsUpdateFault};
ghost use Rattle.mx_update.specs.Returns.{fault_at};
ghost use Rattle.mx_update.specs.Updates.{after_or_same, fields_after, fields_after_applicable, fields_after_one, updated, upserted};

use crate::change::change;
use crate::failure::Failure;
use crate::fault::OpFault;
use crate::fields::Fields;
use crate::ops::Ops;
use crate::writing::tuple_of;
use mx_msgpack::Bytes;
use mx_operations::Operation;
use std::alloc::{AllocError, Global};

/// The tuple after an UPDATE's operations, whose fields count from `base`.
///
/// # Errors
/// `Argument` or `Overflow` for the first operation that can't be applied, `TooLong`, and `NoMemory`.
#[tactic(auto, unfolding(crate::specs::Updates::updated))]
pub fn apply(alloc: Global, tuple: &[u8], ops: &Ops<'_>, base: u32) -> Result<Bytes, OpFault>
    requires array { IsArray tuple.now }
    requires size { length tuple.now ≤ max_tuple_size }
    ensures { MatchResult result
        (λ after. updated base tuple.now ops.now ≡ Ok after)
        (λ fault. IsUpdateFault fault (updated base tuple.now ops.now)) }
{
    let operations = ops.as_slice();
    let mut fields = Fields::sent(alloc, tuple, operations.len())?;
    change_all(alloc, base, operations, &mut fields)?;
    tuple_of(alloc, &fields)
}

/// The tuple after an UPSERT's operations, whose fields count from `base`; those that can't be applied
/// are passed over.
///
/// # Errors
/// `TooLong` and `NoMemory`.
#[tactic(auto, unfolding(crate::specs::Updates::upserted))]
pub fn apply_upsert(alloc: Global, tuple: &[u8], ops: &Ops<'_>, base: u32) -> Result<Bytes, OpFault>
    requires array { IsArray tuple.now }
    requires size { length tuple.now ≤ max_tuple_size }
    ensures { MatchResult result
        (λ after. upserted base tuple.now ops.now ≡ Ok after)
        (λ fault. IsLengthFault fault (upserted base tuple.now ops.now)) }
{
    let operations = ops.as_slice();
    let mut fields = Fields::sent(alloc, tuple, operations.len())?;
    change_applicable(alloc, base, operations, &mut fields)?;
    tuple_of(alloc, &fields)
}

/// Applies all operations, from left to right, up to the first that fails.
fn change_all<'a>(
    alloc: Global,
    base: u32,
    operations: &[Operation<'a>],
    fields: &mut Fields<'a>,
) -> Result<(), OpFault>
    requires few { length operations.now ≤ max_operations }
    ensures changed { MatchResult result
        (λ _. fields_after base 0 (map operation_view operations.now) fields.old ≡ Ok fields.new)
        (λ fault. IsUpdateFault fault (fields_after base 0 (map operation_view operations.now) fields.old)) }
    ensures grows { OnOk result (length fields.new ≤ length fields.old + length operations.now) }
{
    for (place, operation) in operations.iter().enumerate() {
        if let Err(failure) = change(alloc, base, operation, fields) {
            return Err(fault_at(place as u32, failure));
        }
    }
    Ok(())
}

/// Applies the operations that can be, from left to right.
fn change_applicable<'a>(
    alloc: Global,
    base: u32,
    operations: &[Operation<'a>],
    fields: &mut Fields<'a>,
) -> Result<(), AllocError>
    ensures changed { OnOk result (fields.new ≡ fields_after_applicable base (map operation_view operations.now) fields.old) }
    ensures grows { OnOk result (length fields.new ≤ length fields.old + length operations.now) }
{
    for operation in operations {
        change_if_applicable(alloc, base, operation, fields)?;
    }
    Ok(())
}

/// Applies the operation where it can be.
fn change_if_applicable<'a>(
    alloc: Global,
    base: u32,
    operation: &Operation<'a>,
    fields: &mut Fields<'a>,
) -> Result<(), AllocError>
    ensures changed { OnOk result (fields.new ≡ after_or_same fields.old (fields_after_one base fields.old (operation_view operation.now))) }
    ensures grows { length fields.new ≤ length fields.old + 1 }
{
    match change(alloc, base, operation, fields) {
        Ok(()) => Ok(()),
        Err(Failure::Argument) => Ok(()),
        Err(Failure::Overflow) => Ok(()),
        Err(Failure::NoMemory) => Err(AllocError),
    }
}

fn fault_at(place: u32, failure: Failure) -> OpFault
    ensures { result ≡ fault_at place failure }
{
    match failure {
        Failure::Argument => OpFault::Argument { place },
        Failure::Overflow => OpFault::Overflow { place },
        Failure::NoMemory => OpFault::NoMemory,
    }
}
