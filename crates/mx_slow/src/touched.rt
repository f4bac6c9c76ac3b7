//! The keys that a write touches.

ghost use Rattle.std.specs.Prelude.{◌≡◌, ◌||◌, ◌∷◌, ◌++◌, [], ℕ, List, Some, IfOk, OnOk};
ghost use Rattle.std.specs.List.{list_any};
ghost use Rattle.std.specs.Option.{option_copied, option_map};
ghost use Rattle.mx_key.specs.Comparable.{comparable_of};
ghost use Rattle.mx_key.specs.Keys.{Key, AreFit};
ghost use Rattle.mx_row.specs.declared.row.Row.{Row};
ghost use Rattle.mx_schema.specs.State as plain;
ghost use Rattle.mx_write.specs.Change.{Change};
ghost use Rattle.mx_judge.specs.Makes.{tuple_after};
ghost use Rattle.mx_write.specs.Reads.{Read};
ghost use Rattle.mx_write.specs.Touches.{are_met, touched_at, touched_by, touched_key};
ghost use Rattle.mx_slow.specs.SlowReads.{reads_view};
ghost use Rattle.mx_slow_state.specs.SlowState.{IsSlowMade, IsSlowState};
ghost use Rattle.mx_slow.specs.SlowTouches.{AreFitReads, AreOwn, meet, meet_in, touches};

use crate::read_ranges::ReadRange;
use mx_base::{IndexId, SpaceId};
use mx_judge::{Effect, Made};
use mx_msgpack::Bytes;
use mx_schema::{IndexDef, Keyed, Schema, index_tuple};
use mx_slow_state::{SlowState, find};
use std::alloc::{AllocError, Global};
use std::marker::Model;

/// The comparable bytes of a key of an index, whose tuple goes or comes.
#[derive(Drop)]
pub struct TouchedKey {
    pub space: SpaceId,
    pub index: IndexId,
    pub key: Bytes,
}

/// Touched keys in order.
#[derive(Drop)]
pub struct TouchedKeys {
    items: Vec<TouchedKey>,
}

impl Model for TouchedKeys {
    ghost use Rattle.std.specs.Prelude.{List};
    ghost use Rattle.mx_slow.specs.declared.touched.TouchedKey.{TouchedKey};

    ghost Value = { List TouchedKey };

    ghost view = { λ t. t.items.items };
}

impl TouchedKeys {
    /// No key.
    pub fn new(alloc: Global) -> TouchedKeys
        ensures { result ≡ [] }
    {
        TouchedKeys {
            items: Vec::new(alloc),
        }
    }

    fn push(&mut self, key: TouchedKey) -> Result<(), AllocError>
        ensures { OnOk result (self.new ≡ self.old ++ key ∷ []) }
    {
        self.items.push(key)?;
        Ok(())
    }

    /// Whether one of the keys lies in one of these ranges.
    pub fn meet(&self, reads: &[ReadRange]) -> bool
        ensures { result ≡ meet self.now reads.now }
    {
        reads.iter().any(|read| self.touch(read))
    }

    fn touch(&self, read: &ReadRange) -> bool
        ensures { result ≡ list_any (λ key. touches key read.now) self.now }
    {
        self.items.iter().any(|key| touches(key, read))
    }
}

fn touches(key: &TouchedKey, read: &ReadRange) -> bool
    ensures { result ≡ touches key.now read.now }
{
    key.space == read.space && key.index == read.index && read.range.holds(&key.key)
}

/// Adds the keys of each index under which a write's tuple goes or comes.
///
/// # Errors
/// Out of memory; some may have been added.
pub(crate) fn touch(
    state: &SlowState,
    space: SpaceId,
    made: &Made,
    out: &mut TouchedKeys,
) -> Result<(), AllocError>
    ensures { (before : plain.State) (row : Row) (change : Change) → IsSlowState state.now before → IsSlowMade before space.0 row made.now (Some change)
        → IfOk result (λ _. (reads : List Read) → AreFitReads reads
        → meet out.new (reads_view reads) ≡ (meet out.old (reads_view reads) || are_met before (touched_by before change) reads)) }
{
    let Some(found) = state.spaces.get(&space.0) else {
        return Ok(());
    };
    let old = tuple_of(find(found.tuples.as_slice(), &made.key));
    push_found(state.alloc, space, &found.schema, &made.key, old, out)?;
    let new = tuple_after(&made.effect);
    push_found(state.alloc, space, &found.schema, &made.key, new, out)
}

fn tuple_of(found: Option<&Keyed>) -> Option<&[u8]>
    ensures { option_copied result ≡ option_map (λ one. one.tuple) (option_copied found.entry) }
{
    match found {
        Some(one) => Some(one.tuple.as_slice()),
        None => None,
    }
}

/// The tuple that a write leaves, if any.
fn tuple_after(effect: &Effect) -> Option<&[u8]>
    ensures { option_copied result ≡ tuple_after effect.now }
{
    match effect {
        Effect::Put { tuple, .. } => Some(tuple.as_slice()),
        Effect::Removed { .. } => None,
    }
}

/// Adds the keys of a tuple, if there is one.
fn push_found(
    alloc: Global,
    space: SpaceId,
    schema: &Schema,
    key: &Bytes,
    tuple: Option<&[u8]>,
    out: &mut TouchedKeys,
) -> Result<(), AllocError>
    ensures { (primary : Key) → AreFit primary → key.now ≡ comparable_of primary → AreOwn schema.now.indexes
        → IfOk result (λ _. (reads : List Read) → AreFitReads reads
        → meet out.new (reads_view reads)
        ≡ (meet out.old (reads_view reads) || meet_in schema.now.indexes (touched_at space.0 primary (option_copied tuple.entry)) reads)) }
{
    match tuple {
        Some(tuple) => push_keys(alloc, space, schema, key, tuple, out),
        None => Ok(()),
    }
}

/// Adds the keys of a tuple, whose primary key this is, in each index of its space.
fn push_keys(
    alloc: Global,
    space: SpaceId,
    schema: &Schema,
    key: &Bytes,
    tuple: &[u8],
    out: &mut TouchedKeys,
) -> Result<(), AllocError>
    ensures { (primary : Key) → AreFit primary → key.now ≡ comparable_of primary → AreOwn schema.now.indexes
        → IfOk result (λ _. (reads : List Read) → AreFitReads reads
        → meet out.new (reads_view reads)
        ≡ (meet out.old (reads_view reads) || meet_in schema.now.indexes (touched_at space.0 primary (Some tuple.now)) reads)) }
{
    for def in schema.indexes.as_slice() {
        let key = key_in_index(alloc, def, key, tuple)?;
        out.push(TouchedKey {
            space,
            index: def.id,
            key,
        })?;
    }
    Ok(())
}

/// The comparable bytes of a tuple's key in an index, where this is its primary key.
fn key_in_index(
    alloc: Global,
    def: &IndexDef,
    primary: &Bytes,
    tuple: &[u8],
) -> Result<Bytes, AllocError>
    ensures { (key : Key) (space : ℕ) → AreFit key → primary.now ≡ comparable_of key → IfOk result (λ own.
        (own ≡ comparable_of (touched_key def.now (record { space = space; key = key; tuple = tuple.now })))
        × AreFit (touched_key def.now (record { space = space; key = key; tuple = tuple.now }))) }
{
    if def.id.0 == 0 {
        return Bytes::from_slice(alloc, primary.as_slice());
    }
    let keyed = index_tuple(alloc, def, primary.as_slice(), tuple)?;
    Ok(keyed.key)
}
