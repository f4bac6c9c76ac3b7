//! The entries of an index that is made of tuples which are there.

ghost use Rattle.std.specs.Prelude.{◌≡◌, ◌≢◌, ◌⊎◌, ◌==◌, ℕ, Some, None, Ok, Err, true, false, length, is_some, MatchResult};
ghost use Rattle.std.specs.FinMap as finite;
ghost use Rattle.mx_key.specs.declared.fault.NoKey.{NoKey};
ghost use Rattle.mx_key.specs.Comparable.{comparable_of};
ghost use Rattle.mx_key.specs.Keys.{Key, AreFit};
ghost use Rattle.mx_schema.specs.declared.index_def.IndexDef as indexed;
ghost use Rattle.mx_schema.specs.Picks.{tuples_by_index};
ghost use Rattle.mx_schema.specs.State as plain;
ghost use Rattle.mx_schema.specs.State.{key_in};
ghost use Rattle.mx_schema.specs.Stored.{StoresTuples};
ghost use Rattle.mx_entries.specs.declared.build_fault.BuildFault.TheVariants as fault;
ghost use Rattle.mx_entries.specs.Builds.{build_fault, build_fault_of, row_fault};
ghost use Rattle.mx_entries.specs.Built.{AreLong, IsBuilt};
ghost use Rattle.mx_entries.specs.KeptEntries.{StoresEntries, StoresIndex, kept_entries};

use crate::index::Index;
use crate::space_index::SpaceIndex;
use crate::tuple_map::TupleMap;
use mx_entries::BuildFault;
use mx_key::{KeyFault, NoKey, key_of_tuple};
use mx_msgpack::Bytes;
use mx_schema::{IndexDef, array_or_empty};
use std::alloc::{AllocError, Global};
use std::collections::BTreeMap;

/// The entries of an index, where that of the number 0 has none and there are no tuples.
///
/// # Errors
/// The fault of the first tuple that has one.
pub(crate) fn new_entries(
    alloc: Global,
    def: &IndexDef,
    tuples: &TupleMap,
) -> Result<SpaceIndex, BuildFault>
    ensures { (all : plain.Tuples) (long : ℕ) → StoresTuples tuples.now.entries all → (def.now.id.0 ≡ 0 → all ≡ finite.empty) → (def.now.id.0 ≢ 0 → AreLong long all) → MatchResult result
        (λ index. (build_fault def.now all ≡ None) × StoresIndex all def.now index)
        (λ why. (build_fault def.now all ≡ Some why) ⊎ (why ≡ fault.NoMemory)) }
{
    if def.id.0 == 0 {
        return Ok(SpaceIndex::new(alloc, def.kind, def.key.len()));
    }
    let ordered = tuples.in_order(alloc)?;
    build(alloc, def, ordered.as_map())
}

/// The entries of an index of another number than 0.
///
/// # Errors
/// The fault of the first tuple that has one.
fn build(
    alloc: Global,
    def: &IndexDef,
    tuples: &BTreeMap<Bytes, Bytes>,
) -> Result<SpaceIndex, BuildFault>
    ensures { (all : plain.Tuples) (long : ℕ) → StoresTuples tuples.now.entries all → AreLong long all → (def.now.id.0 == 0) ≡ false → MatchResult result
        (λ index. (build_fault def.now all ≡ None) × StoresEntries index (kept_entries def.now all))
        (λ why. (build_fault def.now all ≡ Some why) ⊎ (why ≡ fault.NoMemory)) }
{
    let mut index = SpaceIndex::new(alloc, def.kind, def.key.len());
    for (primary, tuple) in tuples {
        add_row(alloc, def, &mut index, primary, tuple)?;
    }
    Ok(index)
}

/// Adds the entry of a tuple, whose primary key has these comparable bytes.
fn add_row(
    alloc: Global,
    def: &IndexDef,
    index: &mut SpaceIndex,
    primary: &Bytes,
    tuple: &Bytes,
) -> Result<(), BuildFault>
    ensures { (before : plain.Tuples) (long : ℕ) (own : Key) → IsBuilt def.now long before index.old → (def.now.id.0 == 0) ≡ false
        → finite.get before own ≡ None → length own ≡ long → AreFit own → primary.now ≡ comparable_of own → MatchResult result
        (λ _. (row_fault def.now before (key_in def.now.key tuple.now) ≡ None) × IsBuilt def.now long (finite.insert before own tuple.now) index.new)
        (λ why. (row_fault def.now before (key_in def.now.key tuple.now) ≡ Some why) ⊎ (why ≡ fault.NoMemory)) }
{
    let mut key = index_key(alloc, def, tuple.as_slice())?;
    if def.unique && has_key(index, &key) {
        return Err(BuildFault::Duplicate);
    }
    key.extend_from_slice(primary.as_slice())?;
    index.insert(key, primary.as_slice())?;
    Ok(())
}

/// Whether an entry has this key and behind it only a primary key.
fn has_key(index: &SpaceIndex, key: &Bytes) -> bool
    ensures { (def : indexed.IndexDef) (before : plain.Tuples) (long : ℕ) (wanted : Key) → IsBuilt def long before index.now → (def.id.0 == 0) ≡ false → def.unique ≡ true
        → AreFit wanted → key.now ≡ comparable_of wanted → result ≡ is_some (finite.get (tuples_by_index def before) wanted) }
{
    index.find(key).is_some()
}

fn index_key(alloc: Global, def: &IndexDef, tuple: &[u8]) -> Result<Bytes, BuildFault>
    ensures { MatchResult result
        (λ bytes. (key : Key) × (key_in def.now.key tuple.now ≡ Ok key) × AreFit key × (bytes ≡ comparable_of key))
        (λ why. ((reason : NoKey) × (why ≡ fault.LacksKey reason) × (key_in def.now.key tuple.now ≡ Err reason)) ⊎ (why ≡ fault.NoMemory)) }
{
    match key_of_tuple(alloc, &def.key, array_or_empty(tuple)) {
        Ok(key) => Ok(key),
        Err(fault) => Err(build_fault_of(fault)),
    }
}

fn build_fault_of(fault: KeyFault) -> BuildFault
    ensures { result ≡ build_fault_of fault }
{
    match fault {
        KeyFault::Missing { field } => BuildFault::LacksKey(NoKey::Missing { field }),
        KeyFault::Wrong { field, expected } => {
            BuildFault::LacksKey(NoKey::Wrong { field, expected })
        }
        KeyFault::NoMemory => BuildFault::NoMemory,
    }
}
