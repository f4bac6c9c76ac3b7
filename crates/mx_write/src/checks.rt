//! What a space asks of a tuple: its size, its format, and a key in each index.

ghost use Rattle.std.specs.Prelude.{◌≡◌, ◌⊎◌, Ok, Err, Some, None, MatchResult, false, true, length, nat_lt};
ghost use Rattle.mx_base.specs.declared.refusal.Refusal.TheVariants.{OutOfMemory, TupleTooLong};
ghost use Rattle.mx_key.specs.declared.fault.KeyFault.TheVariants.{NoMemory};
ghost use Rattle.mx_key.specs.declared.fault.NoKey.{NoKey};
ghost use Rattle.mx_key.specs.Comparable.{comparable_of};
ghost use Rattle.mx_key.specs.Faults.{key_fault_of};
ghost use Rattle.mx_key.specs.Keys.{Key, AreFit};
ghost use Rattle.mx_msgpack.specs.Items.{IsArray};
ghost use Rattle.mx_tuple.specs.Fields.{max_tuple_size, tuple_of};
ghost use Rattle.mx_tuple.specs.Formats.{checked};
ghost use Rattle.mx_schema.specs.State.{key_in};
ghost use Rattle.mx_write.specs.Checks as spec;
ghost use Rattle.mx_write.specs.Lookup.{all_indexes, other_indexes};
ghost use Rattle.mx_write.specs.Stages.{Checks, ChecksKey};

use crate::type_name::type_of;
use mx_base::{Refusal, TypeName};
use mx_key::{KeyFault, NoKey, key_of_tuple};
use mx_msgpack::Bytes;
use mx_schema::{IndexDef, IndexDefs, Schema, array_or_empty};
use mx_tuple::{FieldFault, FieldKind, Format, MAX_TUPLE_SIZE, TupleBad, check, from_bytes};
use std::alloc::Global;

/// The comparable bytes of a tuple's primary key, where its space takes it.
///
/// # Errors
/// Why it doesn't: its size, then its fields by the format, then its keys, index by index.
pub fn check_tuple(
    alloc: Global,
    schema: &Schema,
    primary: &IndexDef,
    tuple: &[u8],
) -> Result<Bytes, Refusal>
    requires array { IsArray tuple.now }
    ensures { ChecksKey result (spec.tuple_fault schema.now primary.now tuple.now) primary.now tuple.now }
{
    check_size(tuple)?;
    check_fields(alloc, schema, primary, tuple)
}

/// As `check_tuple`, of any bytes; those that are no array have no fields.
///
/// # Errors
/// As of `check_tuple`.
pub fn check_bytes(
    alloc: Global,
    schema: &Schema,
    primary: &IndexDef,
    bytes: &[u8],
) -> Result<Bytes, Refusal>
    ensures { ChecksKey result (spec.tuple_fault schema.now primary.now bytes.now) primary.now bytes.now }
{
    check_size(bytes)?;
    check_fields(alloc, schema, primary, array_or_empty(bytes))
}

fn check_size(tuple: &[u8]) -> Result<(), Refusal>
    ensures { MatchResult result
        (λ _. nat_lt max_tuple_size (length tuple.now) ≡ false)
        (λ why. (nat_lt max_tuple_size (length tuple.now) ≡ true) × (why ≡ TupleTooLong (length tuple.now))) }
{
    if tuple.len() > MAX_TUPLE_SIZE {
        let bytes = tuple.len() as u64;
        return Err(Refusal::TupleTooLong { bytes });
    }
    Ok(())
}

/// The comparable bytes of a tuple's primary key, where its fields meet the format and all keys.
fn check_fields(
    alloc: Global,
    schema: &Schema,
    primary: &IndexDef,
    tuple: &[u8],
) -> Result<Bytes, Refusal>
    requires array { IsArray tuple.now }
    ensures { ChecksKey result
        (spec.format_fault (checked schema.now.def.format (tuple_of tuple.now).fields) (spec.keys_fault (all_indexes primary.now schema.now) tuple.now))
        primary.now tuple.now }
{
    check_format(alloc, &schema.def.format, tuple)?;
    let key = check_key(alloc, primary, tuple)?;
    check_other_keys(alloc, &schema.indexes, tuple)?;
    Ok(key)
}

fn check_format(alloc: Global, format: &Format, tuple: &[u8]) -> Result<(), Refusal>
    requires array { IsArray tuple.now }
    ensures { Checks result (spec.format_fault (checked format.now (tuple_of tuple.now).fields) None) }
{
    if format.count == 0 && format.entries.as_slice().is_empty() {
        return Ok(());
    }
    let tuple = match from_bytes(alloc, tuple) {
        Ok(tuple) => tuple,
        Err(TupleBad::Bad) => return Err(Refusal::OutOfMemory),
        Err(TupleBad::NoMemory) => return Err(Refusal::OutOfMemory),
    };
    match check(format, &tuple) {
        Ok(()) => Ok(()),
        Err(fault) => Err(format_refusal(fault)),
    }
}

fn format_refusal(fault: FieldFault) -> Refusal
    ensures { result ≡ spec.format_refusal fault }
{
    match fault {
        FieldFault::Missing { field } => Refusal::FieldMissing { field },
        FieldFault::Wrong { field, expected } => Refusal::FieldType {
            field,
            expected: field_type_of(expected),
        },
        FieldFault::Count { has, expected } => Refusal::FieldCount {
            fields: has,
            expected,
        },
    }
}

/// A field of any type is never refused for its type.
fn field_type_of(kind: FieldKind) -> TypeName
    ensures { result ≡ spec.field_type_of kind }
{
    match kind {
        FieldKind::Any => TypeName::Scalar,
        FieldKind::Unsigned => TypeName::Unsigned,
        FieldKind::Integer => TypeName::Integer,
        FieldKind::String => TypeName::String,
        FieldKind::Boolean => TypeName::Boolean,
        FieldKind::Varbinary => TypeName::Varbinary,
        FieldKind::Scalar => TypeName::Scalar,
        FieldKind::Array => TypeName::Array,
        FieldKind::Map => TypeName::Map,
    }
}

/// The comparable bytes of a tuple's key in an index.
fn check_key(alloc: Global, def: &IndexDef, tuple: &[u8]) -> Result<Bytes, Refusal>
    requires array { IsArray tuple.now }
    ensures { ChecksKey result (spec.key_fault (key_in def.now.key tuple.now) None) def.now tuple.now }
{
    match key_of_tuple(alloc, &def.key, tuple) {
        Ok(key) => Ok(key),
        Err(fault) => Err(refusal_of(fault)),
    }
}

/// Whether a tuple has a key in each index but the primary one.
fn check_other_keys(alloc: Global, indexes: &IndexDefs, tuple: &[u8]) -> Result<(), Refusal>
    requires array { IsArray tuple.now }
    ensures { Checks result (spec.keys_fault (other_indexes indexes.now) tuple.now) }
{
    for def in indexes.as_slice() {
        if def.id.0 != 0 {
            check_key(alloc, def, tuple)?;
        }
    }
    Ok(())
}

fn refusal_of(fault: KeyFault) -> Refusal
    ensures refused { (why : NoKey) → fault ≡ key_fault_of why → result ≡ spec.fault_refusal why }
    ensures memory { fault ≡ NoMemory → result ≡ OutOfMemory }
{
    match fault {
        KeyFault::Missing { field } => fault_refusal(NoKey::Missing { field }),
        KeyFault::Wrong { field, expected } => fault_refusal(NoKey::Wrong { field, expected }),
        KeyFault::NoMemory => Refusal::OutOfMemory,
    }
}

/// The refusal of a tuple that has no key in an index.
pub fn fault_refusal(why: NoKey) -> Refusal
    ensures { result ≡ spec.fault_refusal why }
{
    match why {
        NoKey::Missing { field } => Refusal::FieldMissing { field },
        NoKey::Wrong { field, expected } => Refusal::FieldType {
            field,
            expected: type_of(expected),
        },
    }
}
