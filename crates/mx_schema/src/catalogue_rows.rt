//! The catalogue of the rows that describe spaces and indexes.

ghost use Rattle.std.specs.Prelude.{◌≡◌, ◌⊎◌, ◌+◌, ◌<◌, ◌^◌, ◌↔◌, Ok, Err, Some, IfOk, IsTrue, MatchResult, length, map};
ghost use Rattle.std.specs.Option.{option_map};
ghost use Rattle.mx_base.specs.declared.refusal.Refusal.{Refusal};
ghost use Rattle.mx_msgpack.specs.Items.{items_of};
ghost use Rattle.mx_schema.specs.declared.fault.SchemaFault.TheVariants as fault;
ghost use Rattle.mx_schema.specs.declared.index_def.IndexRow.{IndexRow};
ghost use Rattle.mx_schema.specs.declared.space_def.SpaceDef.{SpaceDef};
ghost use Rattle.mx_schema.specs.SchemaChecks.{IsMade, IsOneOf, JudgesIndex, JudgesSpace, RowFault, RowsMake, with_index_row, with_space};
ghost use Rattle.mx_schema.specs.RowSteps.{EndsAt, names_first_space};
ghost use Rattle.mx_schema.specs.Bootstrap.{first_indexes, first_spaces};

use crate::bootstrap::{is_first_index, is_first_space};
use crate::catalogue::Catalogue;
use crate::checks::{first_number, new_space, user_index};
use crate::fault::SchemaFault;
use crate::index_def::IndexRow;
use crate::index_row::index_of_row;
use crate::space_def::SpaceDef;
use crate::space_row::space_of_row;
use mx_base::Refusal;
use mx_msgpack::Tuples;
use mx_tuple::{Tuple, TupleBad, from_bytes};
use std::alloc::{AllocError, Global};

/// The greatest number of a space in a new database.
const MAX_FIRST_SPACE: u32 = 512;

/// The catalogue of these rows of the space of spaces, and these of the space of indexes.
///
/// # Errors
/// The first row that isn't one of a new database's own and that describes nothing, or what is there
/// already. The rows of spaces are counted from 0, and those of indexes after them.
pub fn from_row_slices(
    alloc: Global,
    spaces: &[&[u8]],
    indexes: &[&[u8]],
) -> Result<Catalogue, SchemaFault>
    ensures { MatchResult result
        (λ catalogue. IsMade (map (λ row. row.now) spaces.now) (map (λ row. row.now) indexes.now) (Ok catalogue))
        (λ why. ((found : RowFault) × (why ≡ fault.Row found.place found.refusal)
        × IsMade (map (λ row. row.now) spaces.now) (map (λ row. row.now) indexes.now) (Err found)) ⊎ (why ≡ fault.NoMemory)) }
{
    let mut catalogue = Catalogue::new(alloc);
    add_spaces(alloc, spaces, &mut catalogue)?;
    add_indexes(alloc, spaces.len(), indexes, &mut catalogue)?;
    Ok(catalogue)
}

/// As `from_row_slices`, of rows that stand together.
///
/// # Errors
/// As of `from_row_slices`.
pub fn from_rows(alloc: Global, spaces: &Tuples, indexes: &Tuples) -> Result<Catalogue, SchemaFault>
    ensures { MatchResult result
        (λ catalogue. IsMade spaces.now indexes.now (Ok catalogue))
        (λ why. ((found : RowFault) × (why ≡ fault.Row found.place found.refusal) × IsMade spaces.now indexes.now (Err found)) ⊎ (why ≡ fault.NoMemory)) }
{
    let spaces = spaces.slices(alloc)?;
    let indexes = indexes.slices(alloc)?;
    from_row_slices(alloc, &spaces, &indexes)
}

fn add_spaces(alloc: Global, rows: &[&[u8]], catalogue: &mut Catalogue) -> Result<(), SchemaFault>
    ensures { EndsAt result (λ made. RowsMake JudgesSpace with_space 0 (map (λ row. row.now) rows.now) catalogue.old made) catalogue.new }
{
    for (place, row) in rows.iter().enumerate() {
        add_space(alloc, place, row, catalogue)?;
    }
    Ok(())
}

fn add_space(
    alloc: Global,
    place: usize,
    row: &[u8],
    catalogue: &mut Catalogue,
) -> Result<(), SchemaFault>
    ensures { MatchResult result
        (λ _. (def : SpaceDef) × JudgesSpace catalogue.old row.now (Ok def) × (catalogue.new ≡ with_space catalogue.old def))
        (λ why. ((refusal : Refusal) × JudgesSpace catalogue.old row.now (Err refusal) × (why ≡ fault.Row place refusal)) ⊎ (why ≡ fault.NoMemory)) }
{
    match judged_space(alloc, row, catalogue)? {
        Ok(def) => {
            catalogue.insert_space(alloc, def)?;
            Ok(())
        }
        Err(refusal) => Err(refused(place, refusal)),
    }
}

fn judged_space(
    alloc: Global,
    row: &[u8],
    catalogue: &Catalogue,
) -> Result<Result<SpaceDef, Refusal>, AllocError>
    ensures { IfOk result (λ judged. JudgesSpace catalogue.now row.now judged) }
{
    let Some(tuple) = tuple_of(alloc, row)? else {
        return Ok(Err(Refusal::BadSpaceRow));
    };
    if !is_own_space(alloc, row, &tuple)? {
        return new_space(catalogue, alloc, &tuple);
    }
    match space_of_row(alloc, &tuple)? {
        Some(def) => Ok(Ok(def)),
        None => Ok(Err(Refusal::BadSpaceRow)),
    }
}

fn add_indexes(
    alloc: Global,
    start: usize,
    rows: &[&[u8]],
    catalogue: &mut Catalogue,
) -> Result<(), SchemaFault>
    requires { start + length rows.now < 2 ^ 64 }
    ensures { EndsAt result (λ made. RowsMake JudgesIndex with_index_row start (map (λ row. row.now) rows.now) catalogue.old made) catalogue.new }
{
    for (place, row) in rows.iter().enumerate() {
        add_index(alloc, start + place, row, catalogue)?;
    }
    Ok(())
}

fn add_index(
    alloc: Global,
    place: usize,
    row: &[u8],
    catalogue: &mut Catalogue,
) -> Result<(), SchemaFault>
    ensures { MatchResult result
        (λ _. (index : IndexRow) × JudgesIndex catalogue.old row.now (Ok index) × (catalogue.new ≡ with_index_row catalogue.old index))
        (λ why. ((refusal : Refusal) × JudgesIndex catalogue.old row.now (Err refusal) × (why ≡ fault.Row place refusal)) ⊎ (why ≡ fault.NoMemory)) }
{
    match judged_index(alloc, row, catalogue)? {
        Ok(index) => {
            catalogue.insert_index(index)?;
            Ok(())
        }
        Err(refusal) => Err(refused(place, refusal)),
    }
}

fn judged_index(
    alloc: Global,
    row: &[u8],
    catalogue: &Catalogue,
) -> Result<Result<IndexRow, Refusal>, AllocError>
    ensures { IfOk result (λ judged. JudgesIndex catalogue.now row.now judged) }
{
    let Some(tuple) = tuple_of(alloc, row)? else {
        return Ok(Err(Refusal::BadIndexRow));
    };
    if !is_own_index(alloc, row, &tuple)? {
        return user_index(catalogue, alloc, &tuple);
    }
    match index_of_row(alloc, &tuple)? {
        Some(index) => Ok(Ok(index)),
        None => Ok(Err(Refusal::BadIndexRow)),
    }
}

/// Whether a row spells the same value as one of a new database's rows of spaces. Few rows have to be
/// read for it as a value.
fn is_own_space(alloc: Global, row: &[u8], tuple: &Tuple) -> Result<bool, AllocError>
    requires { items_of row.now ≡ Some tuple.now.fields }
    ensures { IfOk result (λ is. IsTrue is ↔ IsOneOf first_spaces row.now) }
{
    if !names_first_space(tuple) {
        return Ok(false);
    }
    is_first_space(alloc, row)
}

/// As `is_own_space`, of rows of indexes.
fn is_own_index(alloc: Global, row: &[u8], tuple: &Tuple) -> Result<bool, AllocError>
    requires { items_of row.now ≡ Some tuple.now.fields }
    ensures { IfOk result (λ is. IsTrue is ↔ IsOneOf first_indexes row.now) }
{
    if !names_first_space(tuple) {
        return Ok(false);
    }
    is_first_index(alloc, row)
}

/// Whether a row begins with the number of a space that a new database may have.
fn names_first_space(row: &Tuple) -> bool
    ensures { result ≡ names_first_space row.now.fields }
{
    match first_number(row) {
        Some(space) => space <= MAX_FIRST_SPACE,
        None => false,
    }
}

/// The tuple of these bytes; `None` where they aren't one array.
fn tuple_of(alloc: Global, row: &[u8]) -> Result<Option<Tuple>, AllocError>
    ensures { IfOk result (λ found. option_map (λ tuple. tuple.fields) found ≡ items_of row.now) }
{
    match from_bytes(alloc, row) {
        Ok(tuple) => Ok(Some(tuple)),
        Err(TupleBad::Bad) => Ok(None),
        Err(TupleBad::NoMemory) => Err(AllocError),
    }
}

fn refused(place: usize, refusal: Refusal) -> SchemaFault
    ensures { (result ≡ fault.Row place refusal) ⊎ (result ≡ fault.NoMemory) }
{
    match u32::try_from(place) {
        Ok(place) => SchemaFault::Row { place, refusal },
        Err(_) => SchemaFault::NoMemory,
    }
}
