//! How statements look up a space and an index of it.

ghost use Rattle.std.specs.Prelude.{◌≡◌, ◌⊎◌, ℕ, true, None, Ok, Some, IfOk, MatchResult, length};
ghost use Rattle.mx_base.specs.declared.refusal.Refusal.TheVariants.{IndexMissing, KeyPartCount, OutOfMemory, SpaceMissing, UnknownRequestType};
ghost use Rattle.mx_key.specs.Comparable.{comparable_of};
ghost use Rattle.mx_key.specs.Keys.{Key, AreFit};
ghost use Rattle.mx_key.specs.Parts.{whole_key};
ghost use Rattle.mx_msgpack.specs.Items.{IsArray};
ghost use Rattle.mx_schema.specs.Catalogues.{index_with, schema_of};
ghost use Rattle.mx_schema.specs.State as plain;
ghost use Rattle.mx_schema.specs.State.{tuples_in};
ghost use Rattle.mx_space.specs.OwnChanges.{HoldsView, ShowsTuples};
ghost use Rattle.mx_write.specs.Lookup as lookup;
ghost use Rattle.mx_write.specs.Lookup.{is_unique, the_key, the_unique_index};
ghost use Rattle.mx_write.specs.Stages.{IsRefusedBy};

use mx_base::{IndexId, Name, Refusal, SpaceId};
use mx_key::{Misfit, RangeFault, whole_key};
use mx_msgpack::Bytes;
use mx_schema::{IndexDef, Schema};
use mx_space::{SpaceView, StateView};
use mx_write::type_of;
use std::alloc::{AllocError, Global};

/// The refusal of a request of this type, which isn't built yet: as if the type were unknown.
pub fn not_built(kind: u8) -> Refusal
    ensures { result ≡ UnknownRequestType kind }
{
    Refusal::UnknownRequestType {
        kind: u64::from(kind),
    }
}

/// The space of this number.
///
/// # Errors
/// The refusal of a statement on it, where there is none.
pub fn find_space(view: StateView<'_>, id: SpaceId) -> Result<SpaceView<'_>, Refusal>
    ensures { (before : plain.State) → HoldsView view.entry before → MatchResult result
        (λ space. ShowsTuples (schema_of before id.0) space (tuples_in before id.0))
        (λ refusal. (schema_of before id.0 ≡ None) × (refusal ≡ SpaceMissing id)) }
{
    match view.space(id) {
        Some(space) => Ok(space),
        None => Err(Refusal::SpaceMissing { space: id }),
    }
}

/// The index of this number of a space.
///
/// # Errors
/// The refusal of a statement on it, where there is none; or out of memory.
pub fn find_index(alloc: Global, schema: &Schema, index: IndexId) -> Result<&IndexDef, Refusal>
    ensures { MatchResult result
        (λ def. index_with index.0 schema.now.indexes ≡ Some def.now)
        (λ refusal. ((index_with index.0 schema.now.indexes ≡ None) × (refusal ≡ IndexMissing index schema.now.def.name)) ⊎ (refusal ≡ OutOfMemory)) }
{
    match schema.index(index) {
        Some(def) => Ok(def),
        None => Err(index_missing(alloc, index, &schema.def.name)?),
    }
}

/// The refusal of a request that names an index which the space of this name hasn't got.
pub fn index_missing(alloc: Global, index: IndexId, space: &Name) -> Result<Refusal, AllocError>
    ensures { IfOk result (λ refusal. refusal ≡ IndexMissing index space.now) }
{
    let space = Name::from_slice(alloc, space.as_slice())?;
    Ok(Refusal::IndexMissing { index, space })
}

/// The index of this number of a space, where no two tuples have one key in it.
///
/// # Errors
/// The refusal of a write by it, where there is none or it isn't unique; or out of memory.
pub fn find_unique_index(
    alloc: Global,
    schema: &Schema,
    index: IndexId,
) -> Result<&IndexDef, Refusal>
    ensures outcome { (space : ℕ) → MatchResult result
        (λ def. (the_unique_index space schema.now index.0).outcome ≡ Ok def.now)
        (λ refusal. IsRefusedBy refusal (the_unique_index space schema.now index.0)) }
    ensures found { IfOk result (λ def. (index_with def.now.id.0 schema.now.indexes ≡ Some def.now) × (is_unique def.now ≡ true)) }
{
    let def = find_index(alloc, schema, index)?;
    if def.id.0 == 0 || def.unique {
        return Ok(def);
    }
    Err(Refusal::IndexNotUnique {
        index: Name::from_slice(alloc, def.name.as_slice())?,
        space: Name::from_slice(alloc, schema.def.name.as_slice())?,
    })
}

/// The comparable bytes of a whole key of an index, which is an array.
///
/// # Errors
/// The refusal of a write by it, where it has other parts than the index; or out of memory.
pub fn find_key(alloc: Global, def: &IndexDef, key: &[u8]) -> Result<Bytes, Refusal>
    requires array { IsArray key.now }
    ensures { MatchResult result
        (λ bytes. (whole : Key) × (whole_key def.now.key key.now ≡ Ok whole) × AreFit whole × (bytes ≡ comparable_of whole))
        (λ refusal. IsRefusedBy refusal (the_key def.now key.now)) }
{
    match whole_key(alloc, &def.key, key) {
        Ok(bytes) => Ok(bytes),
        Err(RangeFault::Misfit(misfit)) => Err(misfit_refusal(def, misfit)),
        Err(RangeFault::NoMemory) => Err(Refusal::OutOfMemory),
    }
}

fn misfit_refusal(def: &IndexDef, misfit: Misfit) -> Refusal
    ensures { (result ≡ lookup.misfit_refusal (length def.now.key) misfit) ⊎ (result ≡ OutOfMemory) }
{
    match misfit {
        Misfit::TooLong { parts } => part_count_refusal(def, parts),
        Misfit::WrongPart { part, expected } => Refusal::KeyPartType {
            part,
            expected: type_of(expected),
        },
    }
}

/// An index of more parts than a refusal can tell is taken as one for which there is no memory.
fn part_count_refusal(def: &IndexDef, parts: u32) -> Refusal
    ensures { (result ≡ KeyPartCount parts (length def.now.key)) ⊎ (result ≡ OutOfMemory) }
{
    match u32::try_from(def.key.len()) {
        Ok(index) => Refusal::KeyPartCount { parts, index },
        Err(_) => Refusal::OutOfMemory,
    }
}
