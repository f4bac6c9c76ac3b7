//! Keys as bytes that are ordered as the keys are: for each part a byte for its kind, then a number in
//! 9 bytes, or bytes that end in two bytes 0, each byte 0 among them followed by a byte 255.

ghost use Rattle.std.specs.Prelude.{◌≡◌, ◌++◌, Some, IfOk, OnOk};
ghost use Rattle.mx_msgpack.specs.Owned.{value_list};
ghost use Rattle.mx_key.specs.Keys.{Key, KeyPart, AreFit, IsFit};
ghost use Rattle.mx_key.specs.Comparable.{comparable_of, part_bytes, part_of_value, AreParts};

use crate::part_ref::PartRef;
use crate::writing::write_part;
use mx_msgpack::{Bytes, Value, Values};
use std::alloc::{AllocError, Global};

/// The comparable bytes of a key, whose parts are Booleans, numbers, texts and bytes.
pub fn comparable(alloc: Global, values: &Values) -> Result<Bytes, AllocError>
    ensures { (key : Key) → AreParts (value_list values.now) key → AreFit key → IfOk result (λ bytes. bytes ≡ comparable_of key) }
{
    let mut key = Bytes::new(alloc);
    for value in values.as_slice() {
        write_value(value, &mut key)?;
    }
    Ok(key)
}

/// Adds nothing where the value is no part. At an error a prefix may have been added.
fn write_value(value: &Value, out: &mut Bytes) -> Result<(), AllocError>
    ensures { OnOk result ((part : KeyPart) → part_of_value value.now ≡ Some part → IsFit part → out.new ≡ out.old ++ part_bytes part) }
{
    match value {
        Value::Bool(truth) => write_part(PartRef::Boolean(*truth), out),
        Value::Int(number) => write_part(PartRef::Integer(*number), out),
        Value::Str(text) => write_part(PartRef::Text(text.as_slice()), out),
        Value::Bin(content) => write_part(PartRef::Binary(content.as_slice()), out),
        Value::Nil => Ok(()),
        Value::Array(_) => Ok(()),
        Value::Map(_) => Ok(()),
        Value::Opaque(_) => Ok(()),
    }
}
