//! Which rows describe a new space or a new index, and why others are refused.

ghost use Rattle.std.specs.Prelude.{◌≡◌, Some, IfOk};
ghost use Rattle.std.specs.FinMap.{values};
ghost use Rattle.std.specs.Option.{option_copied, option_or};
ghost use Rattle.mx_schema.specs.Catalogues.{space_among};
ghost use Rattle.mx_schema.specs.SchemaChecks.{first_number, index_exists, index_on_schema, judged_index, judged_space, new_index, new_space, space_named, user_index};

use crate::catalogue::Catalogue;
use crate::index_def::{IndexDefs, IndexRow};
use crate::index_row::{index_of_row, space_number};
use crate::schema::Schema;
use crate::space_def::SpaceDef;
use crate::space_row::space_of_row;
use mx_base::{IndexId, Name, Refusal, SpaceId, Unsupported};
use mx_tuple::Tuple;
use std::alloc::{AllocError, Global};

/// The number of the first space that users may make.
const FIRST_USER_SPACE: u32 = 512;

/// The space that a row describes, which isn't there yet, or why it is refused.
pub(crate) fn new_space(
    catalogue: &Catalogue,
    alloc: Global,
    row: &Tuple,
) -> Result<Result<SpaceDef, Refusal>, AllocError>
    ensures { IfOk result (λ judged. judged ≡ new_space catalogue.now row.now.fields) }
{
    match space_of_row(alloc, row)? {
        Some(def) => judged_space(catalogue, alloc, def),
        None => Ok(Err(Refusal::BadSpaceRow)),
    }
}

fn judged_space(
    catalogue: &Catalogue,
    alloc: Global,
    def: SpaceDef,
) -> Result<Result<SpaceDef, Refusal>, AllocError>
    ensures { IfOk result (λ judged. judged ≡ judged_space catalogue.now (Some def)) }
{
    if def.id.0 < FIRST_USER_SPACE {
        return Ok(Err(Refusal::BadSpaceRow));
    }
    match space_like(catalogue, &def) {
        Some(other) => Ok(Err(Refusal::SpaceExists {
            space: Name::from_slice(alloc, other.name.as_slice())?,
        })),
        None => Ok(Ok(def)),
    }
}

/// The space of the same number, or else of the same name.
fn space_like<'a>(catalogue: &'a Catalogue, def: &SpaceDef) -> Option<&'a SpaceDef>
    ensures { option_copied result ≡ option_or (space_among catalogue.now def.now.id.0) (space_named def.now.name (values catalogue.now)) }
{
    match catalogue.space(def.id) {
        Some(other) => Some(other),
        None => catalogue.space_named(&def.name),
    }
}

/// The index that a row describes, which isn't there yet, or why it is refused.
pub(crate) fn new_index(
    catalogue: &Catalogue,
    alloc: Global,
    row: &Tuple,
) -> Result<Result<IndexRow, Refusal>, AllocError>
    ensures { IfOk result (λ judged. judged ≡ new_index catalogue.now row.now.fields) }
{
    match first_number(row) {
        Some(space) => index_on_schema(alloc, space, row, catalogue.schema(SpaceId(space))),
        None => Ok(Err(Refusal::BadIndexRow)),
    }
}

/// As `new_index`, of a space that users made.
pub(crate) fn user_index(
    catalogue: &Catalogue,
    alloc: Global,
    row: &Tuple,
) -> Result<Result<IndexRow, Refusal>, AllocError>
    ensures { IfOk result (λ judged. judged ≡ user_index catalogue.now row.now.fields (first_number row.now.fields)) }
{
    let Some(space) = first_number(row) else {
        return Ok(Err(Refusal::BadIndexRow));
    };
    if space < FIRST_USER_SPACE {
        return Ok(Err(Refusal::Unsupported {
            what: Unsupported::SystemSpaceWrite,
        }));
    }
    index_on_schema(alloc, space, row, catalogue.schema(SpaceId(space)))
}

/// The number of a space that stands first in a row.
pub fn first_number(row: &Tuple) -> Option<u32>
    ensures { result ≡ first_number row.now.fields }
{
    space_number(row.field(0)?)
}

fn index_on_schema(
    alloc: Global,
    space: u32,
    row: &Tuple,
    schema: Option<&Schema>,
) -> Result<Result<IndexRow, Refusal>, AllocError>
    ensures { IfOk result (λ judged. judged ≡ index_on_schema space row.now.fields (option_copied schema.entry)) }
{
    let Some(schema) = schema else {
        return Ok(Err(Refusal::SpaceMissing {
            space: SpaceId(space),
        }));
    };
    match index_of_row(alloc, row)? {
        Some(index) => judged_index(alloc, &schema.indexes, index),
        None => Ok(Err(Refusal::BadIndexRow)),
    }
}

fn judged_index(
    alloc: Global,
    indexes: &IndexDefs,
    row: IndexRow,
) -> Result<Result<IndexRow, Refusal>, AllocError>
    ensures { IfOk result (λ judged. judged ≡ judged_index indexes.now (Some row)) }
{
    if row.def.id.0 != 0 && indexes.with_id(IndexId(0)).is_none() {
        return Ok(Err(Refusal::BadIndexRow));
    }
    if indexes.with_id(row.def.id).is_some() {
        return Ok(Err(index_exists(alloc, b"primary")?));
    }
    if indexes.has_name(&row.def.name) {
        return Ok(Err(index_exists(alloc, b"name")?));
    }
    Ok(Ok(row))
}

/// The refusal of an index that is there already, by the index of the space of indexes that tells it.
fn index_exists(alloc: Global, by: &[u8]) -> Result<Refusal, AllocError>
    ensures { IfOk result (λ refusal. refusal ≡ index_exists by.now) }
{
    Ok(Refusal::DuplicateKey {
        index: Name::from_slice(alloc, by)?,
        space: Name::from_slice(alloc, b"_index")?,
    })
}
