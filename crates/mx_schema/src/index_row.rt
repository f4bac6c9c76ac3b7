//! Rows of the space of indexes.

ghost use Rattle.std.specs.Prelude.{◌≡◌, [], ◌∷◌, IfOk, MatchOption};
ghost use Rattle.std.specs.Option.{option_copied};
ghost use Rattle.mx_schema.specs.IndexRows.{index_kind_of, index_of_fields, is_always_unique, space_number};
ghost use Rattle.mx_schema.specs.RowParts.{kind_in, options_in};

use crate::index_def::{IndexDef, IndexKind, IndexRow};
use crate::names::{name_in, number_up_to};
use crate::part_row::parts_in;
use crate::text_map::values_of;
use mx_base::{IndexId, Name, SpaceId};
use mx_msgpack::{bool_in, map_in, text_in};
use mx_tuple::Tuple;
use std::alloc::{AllocError, Global};

/// The greatest number of an index.
const MAX_INDEX_ID: u32 = 127;

/// The fields of a row.
#[derive(Clone, Copy)]
struct IndexFields<'a> {
    space: &'a [u8],
    id: &'a [u8],
    name: &'a [u8],
    kind: &'a [u8],
    options: &'a [u8],
    parts: &'a [u8],
}

/// The index that a row describes, and its space; `None` where it describes none.
pub fn index_of_row(alloc: Global, row: &Tuple) -> Result<Option<IndexRow>, AllocError>
    ensures { IfOk result (λ index. index ≡ index_of_fields row.now.fields) }
{
    match fields_of(row) {
        Some(fields) => index_of_fields(alloc, fields),
        None => Ok(None),
    }
}

fn fields_of(row: &Tuple) -> Option<IndexFields<'_>>
    ensures { MatchOption result
        (index_of_fields row.now.fields ≡ None)
        (λ f. row.now.fields ≡ f.space.now ∷ f.id.now ∷ f.name.now ∷ f.kind.now ∷ f.options.now ∷ f.parts.now ∷ []) }
{
    if row.count() != 6 {
        return None;
    }
    Some(IndexFields {
        space: row.field(0)?,
        id: row.field(1)?,
        name: row.field(2)?,
        kind: row.field(3)?,
        options: row.field(4)?,
        parts: row.field(5)?,
    })
}

fn index_of_fields(alloc: Global, fields: IndexFields<'_>) -> Result<Option<IndexRow>, AllocError>
    ensures { let f = fields.entry in IfOk result (λ index. index ≡ index_of_fields
        (f.space.now ∷ f.id.now ∷ f.name.now ∷ f.kind.now ∷ f.options.now ∷ f.parts.now ∷ [])) }
{
    let Some(space) = space_number(fields.space) else {
        return Ok(None);
    };
    let Some(id) = number_up_to(MAX_INDEX_ID, fields.id) else {
        return Ok(None);
    };
    let Some(name) = name_in(fields.name) else {
        return Ok(None);
    };
    let Some(kind) = kind_in(fields.kind) else {
        return Ok(None);
    };
    let Some(unique) = unique_in(fields.options) else {
        return Ok(None);
    };
    let Some(key) = parts_in(alloc, fields.parts)? else {
        return Ok(None);
    };
    if !unique && is_always_unique(id, kind) {
        return Ok(None);
    }
    Ok(Some(IndexRow {
        space: SpaceId(space),
        def: IndexDef {
            id: IndexId(id),
            name: Name::from_slice(alloc, name)?,
            kind,
            unique,
            key,
        },
    }))
}

/// The number of a space.
pub(crate) fn space_number(spelling: &[u8]) -> Option<u32>
    ensures { result ≡ space_number spelling.now }
{
    number_up_to(u32::MAX, spelling)
}

fn kind_in(spelling: &[u8]) -> Option<IndexKind>
    ensures { result ≡ kind_in spelling.now }
{
    index_kind_of(text_in(spelling)?)
}

fn index_kind_of(name: &[u8]) -> Option<IndexKind>
    ensures { result ≡ index_kind_of name.now }
{
    if name.eq_ignore_ascii_case(b"tree") {
        Some(IndexKind::Tree)
    } else if name.eq_ignore_ascii_case(b"hash") {
        Some(IndexKind::Hash)
    } else {
        None
    }
}

/// Whether no two tuples have one key, by the options of an index.
fn unique_in(options: &[u8]) -> Option<bool>
    ensures { result ≡ options_in options.now }
{
    let mut values = [None; 1];
    values_of(&[b"unique"], map_in(options)?, &mut values);
    let [unique] = values;
    match unique {
        None => Some(true),
        Some(value) => bool_in(value),
    }
}

fn is_always_unique(id: u32, kind: IndexKind) -> bool
    ensures { result ≡ is_always_unique id kind }
{
    match kind {
        IndexKind::Hash => true,
        IndexKind::Tree => id == 0,
    }
}
