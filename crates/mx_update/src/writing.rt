//! Writing fields as a tuple.

ghost use Rattle.std.specs.Prelude.{◌≡◌, ◌++◌, ◌≤◌, length, map, Ok, MatchResult, OnOk};
ghost use Rattle.std.specs.List.{concat};
ghost use Rattle.mx_msgpack.specs.Grammar.{max_length};
ghost use Rattle.mx_update.specs.Faults.{IsLengthFault};
ghost use Rattle.mx_update.specs.Updates.{field_spelling, tuple_of_fields, within_size};
ghost use Rattle.mx_update.specs.Views.{field_view};

use crate::fault::OpFault;
use crate::field::Field;
use crate::fields::Fields;
use crate::size::tuple_size;
use mx_msgpack::{Bytes, write_array_head, write_int, write_str_head};
use mx_tuple::MAX_TUPLE_SIZE;
use std::alloc::{AllocError, Global};

/// The tuple of the fields: an array with the shortest head.
pub(crate) fn tuple_of(alloc: Global, fields: &Fields<'_>) -> Result<Bytes, OpFault>
    requires few { length fields.now ≤ max_length }
    ensures { MatchResult result
        (λ tuple. within_size (tuple_of_fields fields.now) ≡ Ok tuple)
        (λ fault. IsLengthFault fault (within_size (tuple_of_fields fields.now))) }
{
    let Some(size) = tuple_size(fields) else {
        return Err(OpFault::NoMemory);
    };
    if size > MAX_TUPLE_SIZE {
        return Err(OpFault::TooLong { bytes: size as u64 });
    }
    let mut tuple = Bytes::from_vec(Vec::with_capacity(alloc, size)?);
    write_array_head(fields.len(), &mut tuple)?;
    write_fields(fields.as_slice(), &mut tuple)?;
    Ok(tuple)
}

fn write_fields(fields: &[Field<'_>], out: &mut Bytes) -> Result<(), AllocError>
    requires { length (concat (map field_spelling (map field_view fields.now))) ≤ max_length }
    ensures { OnOk result (out.new ≡ out.old ++ concat (map field_spelling (map field_view fields.now))) }
{
    for field in fields {
        write_field(field, out)?;
    }
    Ok(())
}

fn write_field(field: &Field<'_>, out: &mut Bytes) -> Result<(), AllocError>
    requires { length (field_spelling (field_view field.now)) ≤ max_length }
    ensures { OnOk result (out.new ≡ out.old ++ field_spelling (field_view field.now)) }
{
    match field {
        Field::Sent(spelling) => out.extend_from_slice(spelling)?,
        Field::Number(number) => write_int(number.value(), out)?,
        Field::Text(text) => {
            write_str_head(text.len(), out)?;
            out.extend_from_slice(text.as_slice())?;
        }
    }
    Ok(())
}
