//! Rows of the space of spaces.

ghost use Rattle.std.specs.Prelude.{◌≡◌, [], ◌∷◌, IfOk, MatchOption, codes};
ghost use Rattle.std.specs.Option.{option_copied};
ghost use Rattle.mx_msgpack.specs.Projections.{as_text, first_as};
ghost use Rattle.mx_schema.specs.SpaceRows.{are_flags, is_absent_or_zero, is_text, space_of_fields};
ghost use Rattle.mx_schema.specs.TextMaps.{text_pairs_in};

use crate::format_row::format_in;
use crate::names::{is_text, name_in, number_up_to};
use crate::part_row::is_set;
use crate::space_def::SpaceDef;
use crate::text_map::values_of;
use mx_base::{Name, SpaceId};
use mx_msgpack::{map_in, text_in, unsigned_in};
use mx_tuple::{Format, Tuple};
use std::alloc::{AllocError, Global};

/// The greatest number of a space.
const MAX_SPACE_ID: u32 = 65535;

/// The most fields that a space may ask for.
const MAX_FIELD_COUNT: u32 = 65535;

/// The fields of a row.
#[derive(Clone, Copy)]
struct SpaceFields<'a> {
    id: &'a [u8],
    owner: &'a [u8],
    name: &'a [u8],
    engine: &'a [u8],
    field_count: &'a [u8],
    flags: &'a [u8],
    format: &'a [u8],
}

/// The space that a row describes; `None` where it describes none.
pub fn space_of_row(alloc: Global, row: &Tuple) -> Result<Option<SpaceDef>, AllocError>
    ensures { IfOk result (λ def. def ≡ space_of_fields row.now.fields) }
{
    match fields_of(row) {
        Some(fields) => space_of_fields(alloc, fields),
        None => Ok(None),
    }
}

fn fields_of(row: &Tuple) -> Option<SpaceFields<'_>>
    ensures { MatchOption result
        (space_of_fields row.now.fields ≡ None)
        (λ f. row.now.fields ≡ f.id.now ∷ f.owner.now ∷ f.name.now ∷ f.engine.now ∷ f.field_count.now ∷ f.flags.now ∷ f.format.now ∷ []) }
{
    if row.count() != 7 {
        return None;
    }
    Some(SpaceFields {
        id: row.field(0)?,
        owner: row.field(1)?,
        name: row.field(2)?,
        engine: row.field(3)?,
        field_count: row.field(4)?,
        flags: row.field(5)?,
        format: row.field(6)?,
    })
}

fn space_of_fields(alloc: Global, fields: SpaceFields<'_>) -> Result<Option<SpaceDef>, AllocError>
    ensures { let f = fields.entry in IfOk result (λ def. def ≡ space_of_fields
        (f.id.now ∷ f.owner.now ∷ f.name.now ∷ f.engine.now ∷ f.field_count.now ∷ f.flags.now ∷ f.format.now ∷ [])) }
{
    let Some(id) = number_up_to(MAX_SPACE_ID, fields.id) else {
        return Ok(None);
    };
    let Some(_) = unsigned_in(fields.owner) else {
        return Ok(None);
    };
    let Some(name) = name_in(fields.name) else {
        return Ok(None);
    };
    if !is_engine(fields.engine) {
        return Ok(None);
    }
    let Some(count) = number_up_to(MAX_FIELD_COUNT, fields.field_count) else {
        return Ok(None);
    };
    if !are_flags(fields.flags) {
        return Ok(None);
    }
    let Some(entries) = format_in(alloc, fields.format)? else {
        return Ok(None);
    };
    Ok(Some(SpaceDef {
        id: SpaceId(id),
        name: Name::from_slice(alloc, name)?,
        format: Format { count, entries },
    }))
}

fn is_engine(spelling: &[u8]) -> bool
    ensures { result ≡ is_text (codes "memtx") (first_as as_text spelling.now) }
{
    match text_in(spelling) {
        Some(text) => is_text(text, b"memtx"),
        None => false,
    }
}

fn are_flags(spelling: &[u8]) -> bool
    ensures { result ≡ are_flags (text_pairs_in spelling.now) }
{
    let Some(pairs) = map_in(spelling) else {
        return false;
    };
    let mut values = [None; 2];
    values_of(&[b"temporary", b"group_id"], pairs, &mut values);
    let [temporary, group] = values;
    !is_set(temporary) && is_absent_or_zero(group)
}

fn is_absent_or_zero(value: Option<&[u8]>) -> bool
    ensures { result ≡ is_absent_or_zero (option_copied value.entry) }
{
    match value {
        None => true,
        Some(value) => unsigned_in(value) == Some(0),
    }
}
