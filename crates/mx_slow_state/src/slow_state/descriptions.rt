//! What the plain slow program asks of rows of spaces and indexes that come and go.

ghost use Rattle.std.specs.Prelude.{◌≡◌, Err, IfOk, MatchResult, not};
ghost use Rattle.std.specs.FinMap.{empty};
ghost use Rattle.std.specs.Option.{option_copied, option_map};
ghost use Rattle.mx_schema.specs.Catalogues.{schema_of};
ghost use Rattle.mx_schema.specs.IndexRows.{index_in};
ghost use Rattle.mx_schema.specs.SchemaChecks.{fields_in, first_number};
ghost use Rattle.mx_schema.specs.SpaceRows.{space_in};
ghost use Rattle.mx_schema.specs.State as plain;
ghost use Rattle.mx_schema.specs.State.{key_in, tuples_in};
ghost use Rattle.mx_schema.specs.Stored.{StoresTuples, stored_list};
ghost use Rattle.mx_entries.specs.Builds.{build_fault};
ghost use Rattle.mx_write.specs.Descriptions as spec;
ghost use Rattle.mx_write.specs.Lookup.{other_indexes};
ghost use Rattle.mx_write.specs.Stages.{CanBuild, Checks, HasOwnKey, has_one};
ghost use Rattle.mx_slow_state.specs.SlowState.{KeepsSpace, KeepsTuples};

use crate::slow_state::{SlowSpace, SlowState};
use mx_base::{IndexId, Name, Refusal, SpaceId};
use mx_judge::{described_index, described_space};
use mx_key::{KeyFault, NoKey, key_of_tuple};
use mx_msgpack::Bytes;
use mx_schema::{
    INDEX_ROWS, IndexDef, IndexDefs, Keyed, SPACE_ROWS, Schema, array_or_empty, first_number,
};
use mx_space::BuildFault;
use mx_tuple::{TupleBad, from_bytes};
use mx_write::fault_refusal;
use std::alloc::{AllocError, Global};

impl SlowState {
    /// Whether a tuple that is added to a space describes what its tuples have to describe.
    ///
    /// # Errors
    /// It describes no space or no index, or an index that can't be added.
    pub fn check_description(&self, space: SpaceId, tuple: &[u8]) -> Result<(), Refusal>
        ensures { (before : plain.State) → KeepsTuples self.now before → Checks result (spec.description_fault before space.0 tuple.now) }
    {
        match space.0 {
            SPACE_ROWS => check_space_row(self.alloc, tuple),
            INDEX_ROWS => self.check_index_row(tuple),
            _ => Ok(()),
        }
    }

    fn check_index_row(&self, row: &[u8]) -> Result<(), Refusal>
        ensures { (before : plain.State) → KeepsTuples self.now before → Checks result (spec.index_row_fault before row.now) }
    {
        let Some(space) = first_space(self.alloc, row)? else {
            return Err(Refusal::BadIndexRow);
        };
        let Some(schema) = self.schema(space) else {
            return Err(Refusal::SpaceMissing { space });
        };
        match described_index(self.alloc, row)? {
            Some(row) if has_primary(schema, &row.def) => Ok(()),
            _ => Err(Refusal::BadIndexRow),
        }
    }

    /// Whether the index that a new row describes can be made of its space's tuples.
    ///
    /// # Errors
    /// The fault of the first tuple that has one.
    pub(crate) fn check_new_index(&self, space: SpaceId, tuple: &[u8]) -> Result<(), Refusal>
        ensures { (before : plain.State) → KeepsTuples self.now before → CanBuild before space.0 tuple.now → Checks result (spec.new_index_fault before space.0 tuple.now) }
    {
        if space.0 != INDEX_ROWS {
            return Ok(());
        }
        let Some(row) = described_index(self.alloc, tuple)? else {
            return Ok(());
        };
        match self.space(row.space) {
            Some(found) => check_tuples(self.alloc, found, &row.def),
            None => Ok(()),
        }
    }

    /// Whether a tuple can be taken out of a space.
    ///
    /// # Errors
    /// It describes a space that has indexes, or a primary index that isn't the last one of its space.
    pub(crate) fn check_drop(&self, space: SpaceId, tuple: &[u8]) -> Result<(), Refusal>
        ensures { (before : plain.State) → KeepsTuples self.now before → Checks result (spec.drop_fault before space.0 tuple.now) }
    {
        match space.0 {
            SPACE_ROWS => self.check_space_drop(tuple),
            INDEX_ROWS => self.check_index_drop(tuple),
            _ => Ok(()),
        }
    }

    fn check_space_drop(&self, row: &[u8]) -> Result<(), Refusal>
        ensures { (before : plain.State) → KeepsTuples self.now before → Checks result (spec.space_drop_fault before (space_in row.now)) }
    {
        let Some(def) = described_space(self.alloc, row)? else {
            return Ok(());
        };
        match self.schema(def.id) {
            Some(schema) if !schema.indexes.as_slice().is_empty() => {
                let space = Name::from_slice(self.alloc, schema.def.name.as_slice())?;
                Err(Refusal::SpaceHasIndexes { space })
            }
            _ => Ok(()),
        }
    }

    fn check_index_drop(&self, row: &[u8]) -> Result<(), Refusal>
        ensures { (before : plain.State) → KeepsTuples self.now before → Checks result (spec.index_drop_fault before (index_in row.now)) }
    {
        let Some(row) = described_index(self.alloc, row)? else {
            return Ok(());
        };
        match self.schema(row.space) {
            Some(schema) if row.def.id.0 == 0 && has_others(&schema.indexes) => {
                let space = Name::from_slice(self.alloc, schema.def.name.as_slice())?;
                Err(Refusal::PrimaryIndexLast { space })
            }
            _ => Ok(()),
        }
    }

    /// What describes a space.
    fn schema(&self, space: SpaceId) -> Option<&Schema>
        ensures { (before : plain.State) → KeepsTuples self.now before → option_copied result ≡ schema_of before space.0 }
    {
        let found = self.space(space)?;
        Some(&found.schema)
    }

    fn space(&self, space: SpaceId) -> Option<&SlowSpace>
        ensures { (before : plain.State) → KeepsTuples self.now before → KeepsSpace (schema_of before space.0) (option_copied result) (tuples_in before space.0) }
    {
        self.spaces.get(&space.0)
    }
}

fn check_space_row(alloc: Global, row: &[u8]) -> Result<(), Refusal>
    ensures { Checks result (spec.space_row_fault row.now) }
{
    match described_space(alloc, row)? {
        Some(_) => Ok(()),
        None => Err(Refusal::BadSpaceRow),
    }
}

/// The number of the space that stands first in the row of an index.
fn first_space(alloc: Global, row: &[u8]) -> Result<Option<SpaceId>, AllocError>
    ensures { IfOk result (λ space. option_map (λ id. id.0) space ≡ first_number (fields_in row.now)) }
{
    let row = match from_bytes(alloc, row) {
        Ok(row) => row,
        Err(TupleBad::Bad) => return Ok(None),
        Err(TupleBad::NoMemory) => return Err(AllocError),
    };
    match first_number(&row) {
        Some(space) => Ok(Some(SpaceId(space))),
        None => Ok(None),
    }
}

/// Whether an index is the primary one of its space, or stands beside it.
fn has_primary(schema: &Schema, def: &IndexDef) -> bool
    ensures { spec.lacks_primary schema.now.indexes def.now ≡ not result }
{
    def.id.0 == 0 || schema.index(IndexId(0)).is_some()
}

/// Whether there is another index than the primary one.
fn has_others(indexes: &IndexDefs) -> bool
    ensures { result ≡ has_one (other_indexes indexes.now) }
{
    for def in indexes.as_slice() {
        if def.id.0 != 0 {
            return true;
        }
    }
    false
}

/// Whether a new index can be made of a space's tuples.
fn check_tuples(alloc: Global, space: &SlowSpace, def: &IndexDef) -> Result<(), Refusal>
    ensures { (all : plain.Tuples) → StoresTuples (stored_list space.now.tuples.items) all → (def.now.id.0 ≡ 0 → all ≡ empty)
        → Checks result (option_map (spec.build_refusal space.now.schema def.now) (build_fault def.now all)) }
{
    match find_fault(alloc, def, space.tuples.as_slice())? {
        Some(fault) => Err(build_refusal(alloc, &space.schema, def, fault)?),
        None => Ok(()),
    }
}

/// The fault of the first of these tuples, which are in the order of their primary keys, that has one in a
/// new index.
fn find_fault(
    alloc: Global,
    def: &IndexDef,
    kept: &[Keyed],
) -> Result<Option<BuildFault>, AllocError>
    ensures { (all : plain.Tuples) → StoresTuples (stored_list kept.now) all → (def.now.id.0 ≡ 0 → all ≡ empty) → IfOk result (λ fault. fault ≡ build_fault def.now all) }
{
    let mut seen = Vec::new(alloc);
    for one in kept {
        let key = match new_key(alloc, def, one.tuple.as_slice())? {
            Ok(key) => key,
            Err(why) => return Ok(Some(BuildFault::LacksKey(why))),
        };
        if def.unique && seen.as_slice().contains(&key) {
            return Ok(Some(BuildFault::Duplicate));
        }
        seen.push(key)?;
    }
    Ok(None)
}

/// The comparable bytes of a tuple's key in a new index, or why it has none.
fn new_key(alloc: Global, def: &IndexDef, tuple: &[u8]) -> Result<Result<Bytes, NoKey>, AllocError>
    ensures { IfOk result (λ key. MatchResult key (λ bytes. HasOwnKey def.now tuple.now bytes) (λ why. key_in def.now.key tuple.now ≡ Err why)) }
{
    match key_of_tuple(alloc, &def.key, array_or_empty(tuple)) {
        Ok(key) => Ok(Ok(key)),
        Err(KeyFault::Missing { field }) => Ok(Err(NoKey::Missing { field })),
        Err(KeyFault::Wrong { field, expected }) => Ok(Err(NoKey::Wrong { field, expected })),
        Err(KeyFault::NoMemory) => Err(AllocError),
    }
}

fn build_refusal(
    alloc: Global,
    schema: &Schema,
    def: &IndexDef,
    fault: BuildFault,
) -> Result<Refusal, AllocError>
    ensures { IfOk result (λ refusal. refusal ≡ spec.build_refusal schema.now def.now fault) }
{
    match fault {
        BuildFault::LacksKey(why) => Ok(fault_refusal(why)),
        BuildFault::Duplicate => Ok(Refusal::DuplicateKey {
            index: Name::from_slice(alloc, def.name.as_slice())?,
            space: Name::from_slice(alloc, schema.def.name.as_slice())?,
        }),
        BuildFault::NoMemory => Ok(Refusal::OutOfMemory),
    }
}
