//! What a write changes in the entries of each index.

ghost use Rattle.std.specs.Prelude.{◌≡◌, None, Ok, false, IfOk, OnOk, OnErr, if◌then◌else◌};
ghost use Rattle.std.specs.BTreeMap.{insert_entry};
ghost use Rattle.std.specs.Cmp.Lexicographic.{slice_cmp};
ghost use Rattle.std.specs.Ordering.{nat_cmp};
ghost use Rattle.mx_space.specs.Changes.{all_changed, all_without};
ghost use Rattle.mx_entries.specs.EntryChanges.{with_added, without_key};

use crate::index::Index;
use crate::space_index::SpaceIndex;
use crate::tuple_map::TupleMap;
use mx_msgpack::Bytes;
use mx_schema::Keyed;
use std::alloc::{AllocError, Global};

/// What a write changes in an index: the key of the entry that it adds, and that of the one that it removes.
#[derive(Drop)]
pub(crate) struct Change {
    pub(crate) added: Option<Bytes>,
    pub(crate) removed: Option<Bytes>,
}

/// Puts a tuple, with the changes of each index.
///
/// # Errors
/// Out of memory. Nothing changed then.
pub(crate) fn put_all(
    alloc: Global,
    tuples: &mut TupleMap,
    indexes: &mut [SpaceIndex],
    changes: &[Change],
    keyed: Keyed,
) -> Result<(), AllocError>
    ensures indexes { OnOk result (indexes.new ≡ all_changed keyed.key changes.now indexes.old) }
    ensures tuples { OnOk result (tuples.new.entries ≡ insert_entry (slice_cmp nat_cmp) tuples.old.entries keyed.key keyed.tuple) }
    ensures err { OnErr result ((indexes.new ≡ indexes.old) × (tuples.new.entries ≡ tuples.old.entries)) }
{
    let Some((change, other_changes)) = changes.split_first() else {
        tuples.insert(keyed.key, keyed.tuple)?;
        return Ok(());
    };
    let Some((index, other_indexes)) = indexes.split_first_mut() else {
        tuples.insert(keyed.key, keyed.tuple)?;
        return Ok(());
    };
    let is_new = add(alloc, index, &change.added, keyed.key.as_slice())?;
    match put_all(alloc, tuples, other_indexes, other_changes, keyed) {
        Ok(()) => {
            take_out(index, &change.removed);
            Ok(())
        }
        Err(AllocError) => {
            if is_new {
                take_out(index, &change.added);
            }
            Err(AllocError)
        }
    }
}

/// Takes an entry out of each index, where a key says which.
pub(crate) fn remove_all(indexes: &mut [SpaceIndex], keys: &[Option<Bytes>])
    ensures { indexes.new ≡ all_without keys.now indexes.old }
{
    let Some((key, other_keys)) = keys.split_first() else {
        return;
    };
    let Some((index, other_indexes)) = indexes.split_first_mut() else {
        return;
    };
    take_out(index, key);
    remove_all(other_indexes, other_keys);
}

/// Adds an entry, where there is a key, unless one stands under it. Returns whether it did.
///
/// # Errors
/// Out of memory, or the key doesn't end with the primary key. Nothing changed then.
pub(crate) fn add(
    alloc: Global,
    index: &mut SpaceIndex,
    added: &Option<Bytes>,
    primary: &[u8],
) -> Result<bool, AllocError>
    ensures none { added.now ≡ None → result ≡ Ok false }
    ensures ok { OnOk result (index.new ≡ with_added added.now primary.now index.old) }
    ensures undo { IfOk result (λ is_new. (if is_new then without_key added.now index.new else index.new) ≡ index.old) }
    ensures err { OnErr result (index.new ≡ index.old) }
{
    let Some(key) = added else {
        return Ok(false);
    };
    let key = Bytes::from_slice(alloc, key.as_slice())?;
    index.insert(key, primary)
}

/// Takes the entry under a key out, where there is a key.
pub(crate) fn take_out(index: &mut SpaceIndex, key: &Option<Bytes>)
    ensures { index.new ≡ without_key key.now index.old }
{
    if let Some(key) = key {
        index.remove(key);
    }
}
