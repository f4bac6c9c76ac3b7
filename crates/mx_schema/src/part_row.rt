//! The parts of an index, as rows of the space of indexes describe them.

ghost use Rattle.std.specs.Prelude.{◌≡◌, IfOk};
ghost use Rattle.std.specs.Option.{option_copied, option_map};
ghost use Rattle.mx_msgpack.specs.Items.{values_from};
ghost use Rattle.mx_msgpack.specs.Projections.{first_as};
ghost use Rattle.mx_schema.specs.IndexRows.{part_in_array, part_in_map, part_kind_of, part_of_values, index_part_shown, parts_among, parts_in};
ghost use Rattle.mx_schema.specs.SpaceRows.{is_set};
ghost use Rattle.mx_schema.specs.TextMaps.{text_pairs_from};

use crate::names::{is_text, number_up_to};
use crate::text_map::values_of;
use mx_key::{KeyDef, Part, PartKind};
use mx_msgpack::{Items, PairsRef, ValueRef, array_in, bool_in, parted, read_ref, text_in};
use std::alloc::{AllocError, Global};

/// The most parts that an index may have.
const MAX_PARTS: u32 = 16;

/// The greatest number of a part's field.
const MAX_PART_FIELD: u32 = 65535;

/// The parts of an index; `None` where these bytes are none.
pub(crate) fn parts_in(alloc: Global, spelling: &[u8]) -> Result<Option<KeyDef>, AllocError>
    ensures { IfOk result (λ parts. parts ≡ parts_in spelling.now) }
{
    let Some(array) = array_in(spelling) else {
        return Ok(None);
    };
    if array.count == 0 || array.count > MAX_PARTS {
        return Ok(None);
    }
    parts_among(alloc, array)
}

fn parts_among(alloc: Global, array: Items<'_>) -> Result<Option<KeyDef>, AllocError>
    ensures { IfOk result (λ parts. parts ≡ parts_among (values_from array.entry.count array.entry.bytes.now)) }
{
    let mut parts = KeyDef::new(alloc);
    let mut left = array.count;
    let mut rest = array.bytes;
    while left > 0 {
        let (spelling, others) = parted(rest);
        let Some(part) = part_in(spelling) else {
            return Ok(None);
        };
        parts.push(part)?;
        rest = others;
        left -= 1;
    }
    Ok(Some(parts))
}

fn part_in(spelling: &[u8]) -> Option<Part>
    ensures { result ≡ first_as index_part_shown spelling.now }
{
    match read_ref(spelling) {
        Ok((ValueRef::Array { count, items }, _)) => part_in_array(Items {
            count,
            bytes: items,
        }),
        Ok((ValueRef::Map { count, items }, _)) => part_in_map(PairsRef {
            count,
            bytes: items,
        }),
        _ => None,
    }
}

/// A part as an array that begins with its field and its type.
fn part_in_array(array: Items<'_>) -> Option<Part>
    ensures { result ≡ part_in_array (values_from array.entry.count array.entry.bytes.now) }
{
    if array.count < 2 {
        return None;
    }
    let (field, behind) = parted(array.bytes);
    let (kind, _) = parted(behind);
    part_of_values(field, kind)
}

/// A part as a map that has them.
fn part_in_map(pairs: PairsRef<'_>) -> Option<Part>
    ensures { result ≡ part_in_map (text_pairs_from pairs.entry.count pairs.entry.bytes.now) }
{
    let mut values = [None; 5];
    values_of(
        &[b"collation", b"path", b"is_nullable", b"field", b"type"],
        pairs,
        &mut values,
    );
    let [collation, path, nullable, field, kind] = values;
    if collation.is_some() || path.is_some() || is_set(nullable) {
        return None;
    }
    part_of_values(field?, kind?)
}

fn part_of_values(field: &[u8], kind: &[u8]) -> Option<Part>
    ensures { result ≡ part_of_values field.now kind.now }
{
    Some(Part {
        field: number_up_to(MAX_PART_FIELD, field)?,
        kind: part_kind_of(text_in(kind)?)?,
    })
}

fn part_kind_of(name: &[u8]) -> Option<PartKind>
    ensures { result ≡ part_kind_of name.now }
{
    if is_text(name, b"unsigned") {
        Some(PartKind::Unsigned)
    } else if is_text(name, b"integer") {
        Some(PartKind::Integer)
    } else if is_text(name, b"string") {
        Some(PartKind::String)
    } else if is_text(name, b"boolean") {
        Some(PartKind::Boolean)
    } else if is_text(name, b"varbinary") {
        Some(PartKind::Varbinary)
    } else if is_text(name, b"scalar") {
        Some(PartKind::Scalar)
    } else {
        None
    }
}

/// Whether a flag is there and true.
pub(crate) fn is_set(value: Option<&[u8]>) -> bool
    ensures { result ≡ is_set (option_copied value.entry) }
{
    match value {
        None => false,
        Some(value) => bool_in(value) == Some(true),
    }
}
