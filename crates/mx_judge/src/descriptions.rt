//! What rows of spaces and indexes have to describe, and when they may go.

ghost use Rattle.std.specs.Prelude.{◌≡◌, IfOk, None, Some};
ghost use Rattle.std.specs.Option.{option_map};
ghost use Rattle.mx_schema.specs.IndexRows.{index_in};
ghost use Rattle.mx_schema.specs.SchemaChecks.{fields_in, first_number};
ghost use Rattle.mx_schema.specs.SpaceRows.{space_in};
ghost use Rattle.mx_schema.specs.State as plain;
ghost use Rattle.mx_space.specs.OwnChanges.{HoldsView};
ghost use Rattle.mx_write.specs.Descriptions as spec;
ghost use Rattle.mx_write.specs.Lookup.{other_indexes};
ghost use Rattle.mx_write.specs.Stages.{CanBeMade, CanBuild, Checks, has_one};
ghost use Rattle.mx_judge.specs.Scopes.{IsTarget};

use crate::lookup::find_space;
use crate::scope::{Scope, Target};
use mx_base::{IndexId, Name, Refusal, SpaceId};
use mx_schema::{
    INDEX_ROWS, IndexDef, IndexDefs, IndexRow, SPACE_ROWS, Schema, SpaceDef, first_number,
    index_of_row, space_of_row,
};
use mx_space::BuildFault;
use mx_tuple::{TupleBad, from_bytes};
use mx_write::fault_refusal;
use std::alloc::{AllocError, Global};

/// The space that a row describes; `None` where it describes none.
///
/// # Errors
/// Out of memory.
#[tactic(auto, unfolding(mx_schema::specs::SpaceRows::space_in))]
pub fn described_space(alloc: Global, row: &[u8]) -> Result<Option<SpaceDef>, AllocError>
    ensures { IfOk result (λ def. def ≡ space_in row.now) }
{
    match from_bytes(alloc, row) {
        Ok(row) => space_of_row(alloc, &row),
        Err(TupleBad::Bad) => Ok(None),
        Err(TupleBad::NoMemory) => Err(AllocError),
    }
}

/// The index that a row describes, and its space; `None` where it describes none.
///
/// # Errors
/// Out of memory.
#[tactic(auto, unfolding(mx_schema::specs::IndexRows::index_in))]
pub fn described_index(alloc: Global, row: &[u8]) -> Result<Option<IndexRow>, AllocError>
    ensures { IfOk result (λ index. index ≡ index_in row.now) }
{
    match from_bytes(alloc, row) {
        Ok(row) => index_of_row(alloc, &row),
        Err(TupleBad::Bad) => Ok(None),
        Err(TupleBad::NoMemory) => Err(AllocError),
    }
}

/// Whether a tuple that is added to a space describes what its tuples have to describe.
///
/// # Errors
/// It describes no space or no index, or an index that can't be added.
pub(crate) fn check_description(target: &Target<'_>, tuple: &[u8]) -> Result<(), Refusal>
    ensures { (before : plain.State) → IsTarget before target.now → Checks result (spec.description_fault before target.now.scope.space.0 tuple.now) }
{
    match target.scope.space.0 {
        SPACE_ROWS => check_space_row(target.scope.alloc, tuple),
        INDEX_ROWS => check_index_row(&target.scope, tuple),
        _ => Ok(()),
    }
}

fn check_space_row(alloc: Global, row: &[u8]) -> Result<(), Refusal>
    ensures { Checks result (spec.space_row_fault row.now) }
{
    match described_space(alloc, row)? {
        Some(_) => Ok(()),
        None => Err(Refusal::BadSpaceRow),
    }
}

fn check_index_row(scope: &Scope<'_>, row: &[u8]) -> Result<(), Refusal>
    ensures { (before : plain.State) → HoldsView scope.now.view before → Checks result (spec.index_row_fault before row.now) }
{
    let Some(space) = first_space(scope.alloc, row)? else {
        return Err(Refusal::BadIndexRow);
    };
    let indexed = find_space(scope.view, space)?;
    let index = described_index(scope.alloc, row)?;
    check_beside(&indexed.schema().indexes, index)
}

/// The number of the space that stands first in the row of an index.
fn first_space(alloc: Global, row: &[u8]) -> Result<Option<SpaceId>, AllocError>
    ensures { IfOk result (λ space. option_map (λ id. id.0) space ≡ first_number (fields_in row.now)) }
{
    let row = match from_bytes(alloc, row) {
        Ok(row) => row,
        Err(TupleBad::Bad) => return Ok(None),
        Err(TupleBad::NoMemory) => return Err(AllocError),
    };
    match first_number(&row) {
        Some(space) => Ok(Some(SpaceId(space))),
        None => Ok(None),
    }
}

fn check_beside(indexes: &IndexDefs, index: Option<IndexRow>) -> Result<(), Refusal>
    ensures { Checks result (spec.index_fault_beside indexes.now index) }
{
    match index {
        Some(row) if !lacks_primary(indexes, &row.def) => Ok(()),
        _ => Err(Refusal::BadIndexRow),
    }
}

fn lacks_primary(indexes: &IndexDefs, def: &IndexDef) -> bool
    ensures { result ≡ spec.lacks_primary indexes.now def.now }
{
    def.id.0 != 0 && indexes.with_id(IndexId(0)).is_none()
}

/// Whether the index that a new row describes can be made of its space's tuples.
///
/// # Errors
/// The fault of the first tuple that has one.
pub(crate) fn check_new_index(target: &Target<'_>, tuple: &[u8]) -> Result<(), Refusal>
    ensures { (before : plain.State) → IsTarget before target.now → CanBuild before target.now.scope.space.0 tuple.now
        → Checks result (spec.new_index_fault before target.now.scope.space.0 tuple.now) }
{
    if target.scope.space.0 != INDEX_ROWS {
        return Ok(());
    }
    match described_index(target.scope.alloc, tuple)? {
        Some(row) => check_build(&target.scope, &row),
        None => Ok(()),
    }
}

fn check_build(scope: &Scope<'_>, row: &IndexRow) -> Result<(), Refusal>
    ensures { (before : plain.State) → HoldsView scope.now.view before → scope.now.view.over ≡ None → CanBeMade before row.now → Checks result (spec.build_fault_by before (Some row.now)) }
{
    let Some(space) = scope.view.space(row.space) else {
        return Ok(());
    };
    match space.check_index(scope.alloc, &row.def) {
        Ok(()) => Ok(()),
        Err(fault) => Err(build_refusal(scope.alloc, space.schema(), &row.def, fault)?),
    }
}

fn build_refusal(
    alloc: Global,
    schema: &Schema,
    def: &IndexDef,
    fault: BuildFault,
) -> Result<Refusal, AllocError>
    ensures { IfOk result (λ refusal. refusal ≡ spec.build_refusal schema.now def.now fault) }
{
    match fault {
        BuildFault::LacksKey(why) => Ok(fault_refusal(why)),
        BuildFault::Duplicate => Ok(Refusal::DuplicateKey {
            index: Name::from_slice(alloc, def.name.as_slice())?,
            space: Name::from_slice(alloc, schema.def.name.as_slice())?,
        }),
        BuildFault::NoMemory => Ok(Refusal::OutOfMemory),
    }
}

/// Whether a tuple can be taken out of a space.
///
/// # Errors
/// It describes a space that has indexes, or a primary index that isn't the last one of its space.
pub(crate) fn check_drop(scope: &Scope<'_>, tuple: &[u8]) -> Result<(), Refusal>
    ensures { (before : plain.State) → HoldsView scope.now.view before → Checks result (spec.drop_fault before scope.now.space.0 tuple.now) }
{
    match scope.space.0 {
        SPACE_ROWS => check_space_drop(scope, tuple),
        INDEX_ROWS => check_index_drop(scope, tuple),
        _ => Ok(()),
    }
}

fn check_space_drop(scope: &Scope<'_>, row: &[u8]) -> Result<(), Refusal>
    ensures { (before : plain.State) → HoldsView scope.now.view before → Checks result (spec.space_drop_fault before (space_in row.now)) }
{
    let Some(def) = described_space(scope.alloc, row)? else {
        return Ok(());
    };
    match scope.view.space(def.id) {
        Some(space) => check_without_indexes(scope.alloc, space.schema()),
        None => Ok(()),
    }
}

fn check_without_indexes(alloc: Global, schema: &Schema) -> Result<(), Refusal>
    ensures { Checks result (spec.space_drop_on (Some schema.now)) }
{
    if schema.indexes.as_slice().is_empty() {
        return Ok(());
    }
    let space = Name::from_slice(alloc, schema.def.name.as_slice())?;
    Err(Refusal::SpaceHasIndexes { space })
}

fn check_index_drop(scope: &Scope<'_>, row: &[u8]) -> Result<(), Refusal>
    ensures { (before : plain.State) → HoldsView scope.now.view before → Checks result (spec.index_drop_fault before (index_in row.now)) }
{
    let Some(row) = described_index(scope.alloc, row)? else {
        return Ok(());
    };
    match scope.view.space(row.space) {
        Some(space) => check_dropped_last(scope.alloc, row.def.id, space.schema()),
        None => Ok(()),
    }
}

fn check_dropped_last(alloc: Global, index: IndexId, schema: &Schema) -> Result<(), Refusal>
    ensures { Checks result (spec.index_drop_on index.0 (Some schema.now)) }
{
    if index.0 != 0 || !has_others(&schema.indexes) {
        return Ok(());
    }
    let space = Name::from_slice(alloc, schema.def.name.as_slice())?;
    Err(Refusal::PrimaryIndexLast { space })
}

/// Whether there is another index than the primary one.
fn has_others(indexes: &IndexDefs) -> bool
    ensures { result ≡ has_one (other_indexes indexes.now) }
{
    for def in indexes.as_slice() {
        if def.id.0 != 0 {
            return true;
        }
    }
    false
}
