//! The calls of `mx_operations` and `mx_update`. A call of one tuple names the base, the tuple and the
//! operations.

ghost use Rattle.std.specs.Prelude.{◌≤◌, length, IsTrue};
ghost use Rattle.mx_msgpack.specs.Items.{IsArray};
ghost use Rattle.mx_tuple.specs.Fields.{max_tuple_size};

use mx_arguments::{Arguments, Ends, Hex, no_call};
use mx_msgpack::array_of;
use mx_operations::{Operation, first_fault};
use mx_tuple::MAX_TUPLE_SIZE;
use mx_update::{OpFault, Ops, apply, apply_upsert, read_ops};
use std::alloc::{AllocError, Global};

/// The answer of the call of this name.
pub fn answer(call: &str, arguments: &mut Arguments<'_>) -> Result<String, AllocError> {
    match call {
        "read" => read(arguments),
        "fault" => fault(arguments),
        "apply" => updated(false, arguments),
        "upsert" => updated(true, arguments),
        _ => no_call(arguments),
    }
}

/// The operations of an array.
fn read(arguments: &mut Arguments<'_>) -> Result<String, AllocError> {
    let alloc = arguments.alloc();
    let bytes = arguments.bytes();
    match read_ops(alloc, bytes.as_slice()) {
        Ok(ops) => shown(alloc, &ops),
        Err(OpFault::NoMemory) => Err(AllocError),
        Err(fault) => format!(in alloc; "err {fault:?}"),
    }
}

fn shown(alloc: Global, ops: &Ops<'_>) -> Result<String, AllocError> {
    let mut answer = String::from_str(alloc, "ok")?;
    for operation in ops.as_slice() {
        show(operation, &mut answer)?;
    }
    Ok(answer)
}

/// Adds an operation as its operator, field number and arguments, with colons between them.
fn show(operation: &Operation<'_>, answer: &mut String) -> Result<(), AllocError> {
    match operation {
        Operation::Assign { field, value } => write!(answer, " =:{field}:{}", Hex(value)),
        Operation::Insert { field, value } => write!(answer, " !:{field}:{}", Hex(value)),
        Operation::Delete { field, count } => write!(answer, " #:{field}:{count}"),
        Operation::Add { field, operand } => write!(answer, " +:{field}:{operand}"),
        Operation::Subtract { field, operand } => write!(answer, " -:{field}:{operand}"),
        Operation::And { field, operand } => write!(answer, " &:{field}:{operand}"),
        Operation::Or { field, operand } => write!(answer, " |:{field}:{operand}"),
        Operation::Xor { field, operand } => write!(answer, " ^:{field}:{operand}"),
        Operation::Splice {
            field,
            position,
            cut,
            text,
        } => write!(answer, " ::{field}:{position}:{cut}:{}", Hex(text)),
    }
}

/// The first fault of an array's operations, and its place.
fn fault(arguments: &mut Arguments<'_>) -> Result<String, AllocError> {
    let alloc = arguments.alloc();
    let text = arguments.text();
    let bytes = arguments.bytes_in(text);
    let Some(operations) = array_of(bytes.as_slice()) else {
        arguments.refuse_text("array", text);
        return Ok(String::new(alloc));
    };
    match first_fault(operations) {
        Some(fault) => format!(in alloc; "{} {:?}", fault.place, fault.fault),
        None => String::from_str(alloc, "none"),
    }
}

fn is_tuple(bytes: &[u8]) -> bool
    ensures { IsTrue result → IsArray bytes.now × (length bytes.now ≤ max_tuple_size) }
{
    match array_of(bytes) {
        Some(_) => bytes.len() <= MAX_TUPLE_SIZE,
        None => false,
    }
}

/// What an UPDATE or an UPSERT makes of a tuple.
fn updated(is_upsert: bool, arguments: &mut Arguments<'_>) -> Result<String, AllocError> {
    let alloc = arguments.alloc();
    let base: u32 = arguments.number();
    let text = arguments.text();
    let tuple = arguments.bytes_in(text);
    let bytes = arguments.bytes();
    if !is_tuple(tuple.as_slice()) {
        arguments.refuse_text("tuple", text);
        return Ok(String::new(alloc));
    }
    let made = match read_ops(alloc, bytes.as_slice()) {
        Ok(ops) if is_upsert => apply_upsert(alloc, tuple.as_slice(), &ops, base),
        Ok(ops) => apply(alloc, tuple.as_slice(), &ops, base),
        Err(fault) => Err(fault),
    };
    match made {
        Ok(tuple) => format!(in alloc; "ok {}", Ends(tuple.as_slice())),
        Err(OpFault::NoMemory) => Err(AllocError),
        Err(fault) => format!(in alloc; "err {fault:?}"),
    }
}
