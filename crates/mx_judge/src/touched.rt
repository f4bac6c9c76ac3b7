//! The keys that a write touches.

ghost use Rattle.std.specs.Prelude.{◌≡◌, ℕ, Ok, Some, length, take, IfOk, MatchResult};
ghost use Rattle.std.specs.FinMap.{get};
ghost use Rattle.std.specs.Option.{option_copied};
ghost use Rattle.mx_key.specs.Comparable.{comparable_of};
ghost use Rattle.mx_key.specs.Keys.{Key, AreFit};
ghost use Rattle.mx_schema.specs.Catalogues.{schema_of};
ghost use Rattle.mx_schema.specs.Picks.{entry_key};
ghost use Rattle.mx_schema.specs.Sound.{IsSound};
ghost use Rattle.mx_schema.specs.State as plain;
ghost use Rattle.mx_schema.specs.State.{tuples_in};
ghost use Rattle.mx_space.specs.OwnChanges.{HoldsView};
ghost use Rattle.mx_space.specs.Stored.{Holds};
ghost use Rattle.mx_write.specs.Change.{Change};
ghost use Rattle.mx_write.specs.Judge.{judged_write};
ghost use Rattle.mx_write.specs.Made as spec;
ghost use Rattle.mx_judge.specs.Makes.{MakesWrite, tuple_after};
ghost use Rattle.mx_write.specs.Touches.{AddsTouched, touched_at, touched_by_change, touched_key};
ghost use Rattle.mx_write.specs.Writes as statement;

use crate::made::{Effect, Made};
use mx_base::SpaceId;
use mx_msgpack::Bytes;
use mx_schema::{IndexDef, Schema, parts_or_none};
use mx_space::{State, StateView};
use mx_tracker::{Touched, TouchedKeys};
use mx_write::Writer;
use std::alloc::{AllocError, Global};

impl Made {
    /// Adds the keys that the write touches, in each index of its space: those of the tuple that goes, and of
    /// the one that comes.
    ///
    /// # Errors
    /// Out of memory. The keys are then as they were.
    pub fn touch(
        &self,
        alloc: Global,
        view: StateView<'_>,
        space: SpaceId,
        keys: &mut TouchedKeys,
    ) -> Result<(), AllocError>
        ensures { (seen : plain.State) (writer : Writer) (write : statement.Write) (made : spec.Made) → HoldsView view.entry seen
            → (judged_write writer seen space.0 write).outcome ≡ Ok made → MakesWrite seen space.0 write self.now made → MatchResult result
            (λ _. AddsTouched seen (touched_by_change seen made.change) keys.old keys.new)
            (λ _. keys.new ≡ keys.old) }
    {
        let before = keys.len();
        match push_touched(self, alloc, view, space, keys) {
            Ok(()) => Ok(()),
            Err(fault) => {
                keys.truncate(before);
                Err(fault)
            }
        }
    }

    /// Adds the keys of the tuple that the write puts, where it puts one.
    ///
    /// # Errors
    /// Out of memory. The keys are then as they were.
    pub fn touch_put(
        &self,
        alloc: Global,
        view: StateView<'_>,
        space: SpaceId,
        keys: &mut TouchedKeys,
    ) -> Result<(), AllocError>
        ensures { (seen : plain.State) (write : statement.Write) (made : spec.Made) → HoldsView view.entry seen → MakesWrite seen space.0 write self.now made → MatchResult result
            (λ _. (change : Change) × (made.change ≡ Some change) × AddsTouched seen (touched_at change.space change.key change.tuple) keys.old keys.new)
            (λ _. keys.new ≡ keys.old) }
    {
        let Some(stored) = view.space(space) else {
            return Ok(());
        };
        let before = keys.len();
        let tuple = tuple_after(&self.effect);
        match push_tuple(alloc, space, stored.schema(), &self.key, tuple, keys) {
            Ok(()) => Ok(()),
            Err(fault) => {
                keys.truncate(before);
                Err(fault)
            }
        }
    }
}

/// Adds the keys of the tuple that a state has under a primary key, where it has one.
///
/// # Errors
/// Out of memory. Some keys may have been added behind those that were there.
pub fn touch_stood(
    alloc: Global,
    state: &State,
    space: SpaceId,
    key: &Bytes,
    keys: &mut TouchedKeys,
) -> Result<(), AllocError>
    ensures begins { take (length keys.old) keys.new ≡ keys.old }
    ensures adds { (before : plain.State) (own : Key) → Holds state.now before → AreFit own → key.now ≡ comparable_of own
        → IfOk result (λ _. AddsTouched before (touched_at space.0 own (get (tuples_in before space.0) own)) keys.old keys.new) }
{
    let Some(stored) = StateView::of(state).space(space) else {
        return Ok(());
    };
    push_tuple(alloc, space, stored.schema(), key, stored.tuple(key), keys)
}

/// As `Made::touch`, but at an error some keys may have been added.
fn push_touched(
    made: &Made,
    alloc: Global,
    view: StateView<'_>,
    space: SpaceId,
    keys: &mut TouchedKeys,
) -> Result<(), AllocError>
    ensures begins { take (length keys.old) keys.new ≡ keys.old }
    ensures adds { (seen : plain.State) (write : statement.Write) (judged : spec.Made) → HoldsView view.entry seen → MakesWrite seen space.0 write made.now judged
        → IfOk result (λ _. AddsTouched seen (touched_by_change seen judged.change) keys.old keys.new) }
{
    let Some(stored) = view.space(space) else {
        return Ok(());
    };
    let schema = stored.schema();
    let old = stored.tuple(&made.key);
    push_tuple(alloc, space, schema, &made.key, old, keys)?;
    let new = tuple_after(&made.effect);
    push_tuple(alloc, space, schema, &made.key, new, keys)
}

/// The tuple that a write leaves, if any.
fn tuple_after(effect: &Effect) -> Option<&[u8]>
    ensures { option_copied result ≡ tuple_after effect.now }
{
    match effect {
        Effect::Put { tuple, .. } => Some(tuple.as_slice()),
        Effect::Removed { .. } => None,
    }
}

/// Adds the keys of a tuple, if there is one.
fn push_tuple(
    alloc: Global,
    space: SpaceId,
    schema: &Schema,
    primary: &Bytes,
    tuple: Option<&[u8]>,
    keys: &mut TouchedKeys,
) -> Result<(), AllocError>
    ensures begins { take (length keys.old) keys.new ≡ keys.old }
    ensures adds { (seen : plain.State) (key : Key) → IsSound seen → schema_of seen space.0 ≡ Some schema.now → AreFit key → primary.now ≡ comparable_of key
        → IfOk result (λ _. AddsTouched seen (touched_at space.0 key (option_copied tuple.entry)) keys.old keys.new) }
{
    match tuple {
        Some(tuple) => push_keys(alloc, space, schema, primary, tuple, keys),
        None => Ok(()),
    }
}

/// Adds the keys of a tuple, whose primary key this is, in each index of its space.
fn push_keys(
    alloc: Global,
    space: SpaceId,
    schema: &Schema,
    primary: &Bytes,
    tuple: &[u8],
    keys: &mut TouchedKeys,
) -> Result<(), AllocError>
    ensures begins { take (length keys.old) keys.new ≡ keys.old }
    ensures adds { (seen : plain.State) (key : Key) → IsSound seen → schema_of seen space.0 ≡ Some schema.now → AreFit key → primary.now ≡ comparable_of key
        → IfOk result (λ _. AddsTouched seen (touched_at space.0 key (Some tuple.now)) keys.old keys.new) }
{
    for def in schema.indexes.as_slice() {
        let key = key_in_index(alloc, def, primary, tuple)?;
        keys.push(Touched {
            space: space.0,
            index: def.id.0,
            key,
        })?;
    }
    Ok(())
}

/// The comparable bytes of a tuple's key in an index, where this is its primary key.
fn key_in_index(
    alloc: Global,
    def: &IndexDef,
    primary: &Bytes,
    tuple: &[u8],
) -> Result<Bytes, AllocError>
    ensures { (key : Key) (space : ℕ) → AreFit key → primary.now ≡ comparable_of key → IfOk result (λ own.
        (own ≡ comparable_of (touched_key def.now (record { space = space; key = key; tuple = tuple.now })))
        × AreFit (touched_key def.now (record { space = space; key = key; tuple = tuple.now }))) }
{
    if def.id.0 == 0 {
        return Bytes::from_slice(alloc, primary.as_slice());
    }
    entry_key(alloc, def, primary.as_slice(), tuple)
}

/// The same of an index of another number than 0.
fn entry_key(
    alloc: Global,
    def: &IndexDef,
    primary: &[u8],
    tuple: &[u8],
) -> Result<Bytes, AllocError>
    ensures { (first : Key) → AreFit first → primary.now ≡ comparable_of first → IfOk result (λ own.
        (own ≡ comparable_of (entry_key def.now first tuple.now)) × AreFit (entry_key def.now first tuple.now)) }
{
    let mut key = parts_or_none(alloc, &def.key, tuple)?;
    if def.unique {
        return Ok(key);
    }
    key.extend_from_slice(primary)?;
    Ok(key)
}
