//! A change of a space in two steps: first all that takes memory, then all that doesn't.

ghost use Rattle.std.specs.Prelude.{◌≡◌, Option, None, IsOk, IfOk, OnOk, OnErr, is_some, not};
ghost use Rattle.mx_space.specs.Changes.{all_without};
ghost use Rattle.mx_entries.specs.EntryChanges.{with_added, without_key};
ghost use Rattle.mx_space.specs.Reserved.{added_keys, all_added, is_removal, removed_keys, with_put, with_removal, without_put};

use crate::change::{Change, add, take_out};
use crate::prepared::TupleStep;
use crate::space_index::SpaceIndex;
use crate::tuple_map::TupleMap;
use mx_msgpack::Bytes;
use std::alloc::{AllocError, Global};

/// Adds the new entries of a change, and puts its tuple under this key.
///
/// # Errors
/// Out of memory. Nothing changed then.
pub(crate) fn reserve_parts(
    alloc: Global,
    tuples: &mut TupleMap,
    indexes: &mut [SpaceIndex],
    edits: &[Change],
    key: &Bytes,
    tuple: Option<Bytes>,
) -> Result<TupleStep, AllocError>
    ensures indexes { OnOk result (indexes.new ≡ all_added key.now edits.now indexes.old) }
    ensures undo { OnOk result (all_without (added_keys edits.now) indexes.new ≡ indexes.old) }
    ensures tuples { OnOk result (tuples.new.entries ≡ with_put tuple key.now tuples.old.entries) }
    ensures undo_tuples { IfOk result (λ step. without_put step key.now tuples.new.entries ≡ tuples.old.entries) }
    ensures removes { IfOk result (λ step. is_removal step ≡ not (is_some tuple)) }
    ensures err { OnErr result ((indexes.new ≡ indexes.old) × (tuples.new.entries ≡ tuples.old.entries)) }
{
    add_all(alloc, indexes, edits, key.as_slice())?;
    match put_tuple(tuples, key, tuple) {
        Ok(step) => Ok(step),
        Err(AllocError) => {
            remove_added(indexes, edits);
            Err(AllocError)
        }
    }
}

/// Adds the new entry of each index.
///
/// # Errors
/// Out of memory. Nothing changed then.
fn add_all(
    alloc: Global,
    indexes: &mut [SpaceIndex],
    edits: &[Change],
    primary: &[u8],
) -> Result<(), AllocError>
    ensures ok { OnOk result (indexes.new ≡ all_added primary.now edits.now indexes.old) }
    ensures undo { OnOk result (all_without (added_keys edits.now) indexes.new ≡ indexes.old) }
    ensures err { OnErr result (indexes.new ≡ indexes.old) }
{
    let Some((edit, other_edits)) = edits.split_first() else {
        return Ok(());
    };
    let Some((index, other_indexes)) = indexes.split_first_mut() else {
        return Ok(());
    };
    add_new(alloc, index, &edit.added, primary)?;
    match add_all(alloc, other_indexes, other_edits, primary) {
        Ok(()) => Ok(()),
        Err(AllocError) => {
            take_out(index, &edit.added);
            Err(AllocError)
        }
    }
}

/// Adds an entry, where there is a key, under which none stands in a space that is whole.
///
/// # Errors
/// Out of memory, or an entry stands there. Nothing changed then.
fn add_new(
    alloc: Global,
    index: &mut SpaceIndex,
    added: &Option<Bytes>,
    primary: &[u8],
) -> Result<(), AllocError>
    ensures none { added.now ≡ None → IsOk result }
    ensures ok { OnOk result (index.new ≡ with_added added.now primary.now index.old) }
    ensures undo { OnOk result (without_key added.now index.new ≡ index.old) }
    ensures err { OnErr result (index.new ≡ index.old) }
{
    let is_new = add(alloc, index, added, primary)?;
    if !is_new && added.is_some() {
        return Err(AllocError);
    }
    Ok(())
}

/// Puts a tuple under its key. One that is to be removed stays.
///
/// # Errors
/// Out of memory. Nothing changed then.
fn put_tuple(
    tuples: &mut TupleMap,
    key: &Bytes,
    tuple: Option<Bytes>,
) -> Result<TupleStep, AllocError>
    ensures ok { OnOk result (tuples.new.entries ≡ with_put tuple key.now tuples.old.entries) }
    ensures undo { IfOk result (λ step. without_put step key.now tuples.new.entries ≡ tuples.old.entries) }
    ensures removes { IfOk result (λ step. is_removal step ≡ not (is_some tuple)) }
    ensures err { OnErr result (tuples.new.entries ≡ tuples.old.entries) }
{
    let Some(tuple) = tuple else {
        return Ok(TupleStep::Removal);
    };
    match tuples.insert(key.clone()?, tuple)? {
        Some(old) => Ok(TupleStep::Replacement(old)),
        None => Ok(TupleStep::Insertion),
    }
}

/// Takes the tuple of a removal out.
pub(crate) fn remove_tuple(tuples: &mut TupleMap, key: &Bytes, step: &TupleStep)
    ensures { tuples.new.entries ≡ with_removal step.now key.now tuples.old.entries }
{
    match step {
        TupleStep::Removal => tuples.remove(key),
        TupleStep::Insertion | TupleStep::Replacement(_) => {}
    }
}

/// Undoes what was done to the tuple under a key when a step was made ready.
pub(crate) fn put_back(tuples: &mut TupleMap, key: &Bytes, step: TupleStep)
    ensures { tuples.new.entries ≡ without_put step key.now tuples.old.entries }
{
    match step {
        TupleStep::Removal => {}
        TupleStep::Insertion => tuples.remove(key),
        TupleStep::Replacement(old) => tuples.set(key, old),
    }
}

/// Takes out the entries that were added.
pub(crate) fn remove_added(indexes: &mut [SpaceIndex], edits: &[Change])
    ensures { indexes.new ≡ all_without (added_keys edits.now) indexes.old }
{
    let Some((edit, other_edits)) = edits.split_first() else {
        return;
    };
    let Some((index, other_indexes)) = indexes.split_first_mut() else {
        return;
    };
    take_out(index, &edit.added);
    remove_added(other_indexes, other_edits);
}

/// Takes out the entries that tuples had.
pub(crate) fn remove_replaced(indexes: &mut [SpaceIndex], edits: &[Change])
    ensures { indexes.new ≡ all_without (removed_keys edits.now) indexes.old }
{
    let Some((edit, other_edits)) = edits.split_first() else {
        return;
    };
    let Some((index, other_indexes)) = indexes.split_first_mut() else {
        return;
    };
    take_out(index, &edit.removed);
    remove_replaced(other_indexes, other_edits);
}
