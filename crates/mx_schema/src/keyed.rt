//! Tuples and their keys.

ghost use Rattle.std.specs.Prelude.{◌≡◌, ◌⊎◌, List, [], Ok, Err, IfOk, MatchResult};
ghost use Rattle.std.specs.Option.{unwrap_or};
ghost use Rattle.mx_key.specs.declared.fault.KeyFault.TheVariants.{NoMemory};
ghost use Rattle.mx_key.specs.declared.fault.NoKey.{NoKey};
ghost use Rattle.mx_key.specs.Comparable.{comparable_of};
ghost use Rattle.mx_key.specs.Faults.{key_fault_of};
ghost use Rattle.mx_key.specs.Keys.{Key, AreFit};
ghost use Rattle.mx_key.specs.Parts.{key_of_array};
ghost use Rattle.mx_key.specs.declared.part.Part.{Part};
ghost use Rattle.mx_msgpack.specs.Items.{IsArray, items_of};
ghost use Rattle.mx_schema.specs.Picks.{entry_key};
ghost use Rattle.mx_schema.specs.State.{key_in, key_or_none};

use crate::index_def::IndexDef;
use mx_key::{KeyDef, KeyFault, key_of_tuple};
use mx_msgpack::{Bytes, array_of};
use std::alloc::{AllocError, Global};

/// A tuple, and the comparable bytes of its key.
#[derive(Drop)]
pub struct Keyed {
    pub key: Bytes,
    pub tuple: Bytes,
}

/// A copy of an array with its key in an index of these parts.
///
/// # Errors
/// The first part whose field is missing or of another type.
pub fn key_array(alloc: Global, parts: &KeyDef, tuple: &[u8]) -> Result<Keyed, KeyFault>
    requires array { IsArray tuple.now }
    ensures { MatchResult result
        (λ keyed. (key : Key) × (key_in parts.now tuple.now ≡ Ok key) × AreFit key × (keyed.key ≡ comparable_of key) × (keyed.tuple ≡ tuple.now))
        (λ fault. ((why : NoKey) × (fault ≡ key_fault_of why) × (key_in parts.now tuple.now ≡ Err why)) ⊎ (fault ≡ NoMemory)) }
{
    let key = key_of_tuple(alloc, parts, tuple)?;
    let tuple = Bytes::from_slice(alloc, tuple)?;
    Ok(Keyed { key, tuple })
}

/// As `key_array`, of any bytes; those that are no array have no fields.
///
/// # Errors
/// The first part whose field is missing or of another type.
pub fn key_tuple(alloc: Global, parts: &KeyDef, tuple: &[u8]) -> Result<Keyed, KeyFault>
    ensures { MatchResult result
        (λ keyed. (key : Key) × (key_in parts.now tuple.now ≡ Ok key) × AreFit key × (keyed.key ≡ comparable_of key) × (keyed.tuple ≡ tuple.now))
        (λ fault. ((why : NoKey) × (fault ≡ key_fault_of why) × (key_in parts.now tuple.now ≡ Err why)) ⊎ (fault ≡ NoMemory)) }
{
    let key = key_of_tuple(alloc, parts, array_or_empty(tuple))?;
    let tuple = Bytes::from_slice(alloc, tuple)?;
    Ok(Keyed { key, tuple })
}

/// A copy of a tuple with its key in an index, of which these are the comparable bytes of its primary
/// key. The key has no parts where the tuple has none of the index.
pub fn index_tuple(
    alloc: Global,
    def: &IndexDef,
    primary: &[u8],
    tuple: &[u8],
) -> Result<Keyed, AllocError>
    ensures { (first : Key) → AreFit first → primary.now ≡ comparable_of first → IfOk result (λ keyed.
        (keyed.key ≡ comparable_of (entry_key def.now first tuple.now)) × AreFit (entry_key def.now first tuple.now) × (keyed.tuple ≡ tuple.now)) }
{
    let mut key = parts_or_none(alloc, &def.key, tuple)?;
    if !def.unique {
        key.extend_from_slice(primary)?;
    }
    let tuple = Bytes::from_slice(alloc, tuple)?;
    Ok(Keyed { key, tuple })
}

/// The comparable bytes of a tuple's key; none where it has no key.
pub fn parts_or_none(alloc: Global, parts: &KeyDef, tuple: &[u8]) -> Result<Bytes, AllocError>
    ensures { IfOk result (λ bytes. (bytes ≡ comparable_of (key_or_none (key_in parts.now tuple.now))) × AreFit (key_or_none (key_in parts.now tuple.now))) }
{
    match key_of_tuple(alloc, parts, array_or_empty(tuple)) {
        Ok(key) => Ok(key),
        Err(KeyFault::Missing { .. }) => Ok(Bytes::new(alloc)),
        Err(KeyFault::Wrong { .. }) => Ok(Bytes::new(alloc)),
        Err(KeyFault::NoMemory) => Err(AllocError),
    }
}

/// The bytes where they are one array, and else an array without items.
pub fn array_or_empty(bytes: &[u8]) -> &[u8]
    ensures array { IsArray result.now }
    ensures same { IsArray bytes.now → result.now ≡ bytes.now }
    ensures key { (parts : List Part) → key_of_array parts result.now ≡ key_of_array parts bytes.now }
    ensures items { unwrap_or (items_of result.now) [] ≡ unwrap_or (items_of bytes.now) [] }
{
    match array_of(bytes) {
        Some(_) => bytes,
        None => &[0x90],
    }
}
