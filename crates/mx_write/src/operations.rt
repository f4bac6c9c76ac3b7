//! What update operations make of a tuple.

ghost use Rattle.std.specs.Prelude.{◌≡◌, ◌↔◌, ◌≤◌, ◌<◌, [], ℕ, List, Result, MatchResult, length};
ghost use Rattle.mx_base.specs.declared.refusal.Refusal.TheVariants.{OutOfMemory};
ghost use Rattle.mx_msgpack.specs.Items.{IsArray};
ghost use Rattle.mx_operations.specs.declared.fault.OperationFault.{OperationFault};
ghost use Rattle.mx_operations.specs.Operations.{Operation};
ghost use Rattle.mx_tuple.specs.Fields.{max_tuple_size};
ghost use Rattle.mx_update.specs.declared.fault.OpFault.TheVariants.{NoMemory};
ghost use Rattle.mx_update.specs.Faults.{IsLengthFault, IsShapeFault, IsUpdateFault};
ghost use Rattle.mx_update.specs.Updates.{UpdateFailure, updated, upserted};
ghost use Rattle.mx_write.specs.Judged.{judged_as, next_stage};
ghost use Rattle.mx_write.specs.Stages.{IsRefusedBy, JudgesAs};
ghost use Rattle.mx_write.specs.Update as spec;
ghost use Rattle.mx_write.specs.Update.{the_operations};

use mx_base::Refusal;
use mx_msgpack::Bytes;
use mx_tuple::MAX_TUPLE_SIZE;
use mx_update::{OpFault, Ops, apply, apply_upsert, read_ops};
use std::alloc::Global;

/// The tuple that an UPDATE's operations make of one, which is an array. One that is longer than a tuple
/// may be, which no space has, is taken as one for which there is no memory.
///
/// # Errors
/// The refusal of the first that isn't an operation or can't be applied, or of a tuple that is too long.
pub fn update_tuple(
    alloc: Global,
    base: u32,
    tuple: &[u8],
    operations: &[u8],
) -> Result<Bytes, Refusal>
    requires array { IsArray tuple.now }
    ensures { JudgesAs result (next_stage [] (the_operations operations.now).outcome (λ read. judged_as (spec.tuple_or_refusal (updated base tuple.now read)))).outcome }
{
    let read = read_operations(alloc, operations)?;
    check_stored_size(tuple)?;
    match apply(alloc, tuple, &read, base) {
        Ok(new) => Ok(new),
        Err(fault) => Err(fault_refusal(fault)),
    }
}

/// As `update_tuple`, by an UPSERT's operations; those that can't be applied are passed over.
///
/// # Errors
/// The refusal of the first that isn't an operation, or of a tuple that is too long.
pub fn upsert_tuple(
    alloc: Global,
    base: u32,
    tuple: &[u8],
    operations: &[u8],
) -> Result<Bytes, Refusal>
    requires array { IsArray tuple.now }
    ensures { JudgesAs result (next_stage [] (the_operations operations.now).outcome (λ read. judged_as (spec.tuple_or_refusal (upserted base tuple.now read)))).outcome }
{
    let read = read_operations(alloc, operations)?;
    check_stored_size(tuple)?;
    match apply_upsert(alloc, tuple, &read, base) {
        Ok(new) => Ok(new),
        Err(fault) => Err(fault_refusal(fault)),
    }
}

/// Checks that a tuple isn't longer than one in a space may be.
///
/// # Errors
/// Out of memory, where it is longer.
fn check_stored_size(tuple: &[u8]) -> Result<(), Refusal>
    ensures { MatchResult result
        (λ _. length tuple.now ≤ max_tuple_size)
        (λ why. (max_tuple_size < length tuple.now) × (why ≡ OutOfMemory)) }
{
    if tuple.len() > MAX_TUPLE_SIZE {
        return Err(Refusal::OutOfMemory);
    }
    Ok(())
}

fn read_operations(alloc: Global, operations: &[u8]) -> Result<Ops<'_>, Refusal>
    ensures { JudgesAs result (the_operations operations.now).outcome }
{
    match read_ops(alloc, operations) {
        Ok(read) => Ok(read),
        Err(fault) => Err(fault_refusal(fault)),
    }
}

fn fault_refusal(fault: OpFault) -> Refusal
    ensures shape { (read : Result (List Operation) OperationFault) → IsShapeFault fault read → IsRefusedBy result (judged_as (spec.operations_or_refusal read)) }
    ensures update { (made : Result (List ℕ) UpdateFailure) → IsUpdateFault fault made → IsRefusedBy result (judged_as (spec.tuple_or_refusal made)) }
    ensures length { (made : Result (List ℕ) UpdateFailure) → IsLengthFault fault made → IsRefusedBy result (judged_as (spec.tuple_or_refusal made)) }
    ensures memory { (result ≡ OutOfMemory) ↔ (fault ≡ NoMemory) }
{
    match fault {
        OpFault::Unknown => Refusal::UnknownOperator,
        OpFault::Argument { place } => Refusal::BadArgument { operation: place },
        OpFault::Overflow { place } => Refusal::IntegerOverflow { operation: place },
        OpFault::TooLong { bytes } => Refusal::TupleTooLong { bytes },
        OpFault::NoMemory => Refusal::OutOfMemory,
    }
}
