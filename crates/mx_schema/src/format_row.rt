//! Formats, as rows of the space of spaces describe them.

ghost use Rattle.std.specs.Prelude.{◌≡◌, IfOk};
ghost use Rattle.std.specs.Option.{option_copied, option_map};
ghost use Rattle.mx_msgpack.specs.Items.{values_from};
ghost use Rattle.mx_schema.specs.SpaceRows.{entries_among, entry_in, field_kind_in, field_kind_of, format_in, nullable_in};

use crate::names::is_text;
use crate::text_map::values_of;
use mx_msgpack::{Bytes, Items, array_in, bool_in, map_in, parted, text_in};
use mx_tuple::{FieldKind, FormatEntries, FormatEntry};
use std::alloc::{AllocError, Global};

/// An entry of a format in place.
#[derive(Clone, Copy)]
struct EntryRef<'a> {
    name: &'a [u8],
    kind: FieldKind,
    nullable: bool,
}

/// The entries of a format; `None` where these bytes are none.
pub(crate) fn format_in(alloc: Global, spelling: &[u8]) -> Result<Option<FormatEntries>, AllocError>
    ensures { IfOk result (λ entries. entries ≡ format_in spelling.now) }
{
    match array_in(spelling) {
        Some(array) => entries_among(alloc, array),
        None => Ok(None),
    }
}

fn entries_among(alloc: Global, array: Items<'_>) -> Result<Option<FormatEntries>, AllocError>
    ensures { IfOk result (λ entries. entries ≡ entries_among (values_from array.entry.count array.entry.bytes.now)) }
{
    let mut entries = Vec::new(alloc);
    let mut left = array.count;
    let mut rest = array.bytes;
    while left > 0 {
        let (spelling, others) = parted(rest);
        let Some(entry) = entry_in(spelling) else {
            return Ok(None);
        };
        entries.push(owned(alloc, entry)?)?;
        rest = others;
        left -= 1;
    }
    Ok(FormatEntries::from_vec(entries))
}

fn owned(alloc: Global, entry: EntryRef<'_>) -> Result<FormatEntry, AllocError>
    ensures { IfOk result (λ made. made ≡ record { name = entry.entry.name.now; kind = entry.entry.kind; nullable = entry.entry.nullable }) }
{
    Ok(FormatEntry {
        name: Bytes::from_slice(alloc, entry.name)?,
        kind: entry.kind,
        nullable: entry.nullable,
    })
}

fn entry_in(spelling: &[u8]) -> Option<EntryRef<'_>>
    ensures { option_map (λ e. record { name = e.name.now; kind = e.kind; nullable = e.nullable }) result ≡ entry_in spelling.now }
{
    let mut values = [None; 3];
    values_of(
        &[b"name", b"type", b"is_nullable"],
        map_in(spelling)?,
        &mut values,
    );
    let [name, kind, nullable] = values;
    Some(EntryRef {
        name: text_in(name?)?,
        kind: field_kind_in(kind)?,
        nullable: nullable_in(nullable)?,
    })
}

fn field_kind_in(value: Option<&[u8]>) -> Option<FieldKind>
    ensures { result ≡ field_kind_in (option_copied value.entry) }
{
    match value {
        None => Some(FieldKind::Any),
        Some(value) => field_kind_of(text_in(value)?),
    }
}

fn nullable_in(value: Option<&[u8]>) -> Option<bool>
    ensures { result ≡ nullable_in (option_copied value.entry) }
{
    match value {
        None => Some(false),
        Some(value) => bool_in(value),
    }
}

fn field_kind_of(name: &[u8]) -> Option<FieldKind>
    ensures { result ≡ field_kind_of name.now }
{
    if is_text(name, b"any") {
        Some(FieldKind::Any)
    } else if is_text(name, b"unsigned") {
        Some(FieldKind::Unsigned)
    } else if is_text(name, b"integer") {
        Some(FieldKind::Integer)
    } else if is_text(name, b"string") {
        Some(FieldKind::String)
    } else if is_text(name, b"boolean") {
        Some(FieldKind::Boolean)
    } else if is_text(name, b"varbinary") {
        Some(FieldKind::Varbinary)
    } else if is_text(name, b"scalar") {
        Some(FieldKind::Scalar)
    } else if is_text(name, b"array") {
        Some(FieldKind::Array)
    } else if is_text(name, b"map") {
        Some(FieldKind::Map)
    } else {
        None
    }
}
