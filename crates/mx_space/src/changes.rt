//! The keys that a write needs in each index, which are made before anything is changed.

ghost use Rattle.std.specs.Prelude.{◌≡◌, Option, Some, None, ◌==◌, IfOk};
ghost use Rattle.std.specs.List.{AllZip};
ghost use Rattle.std.specs.Option.{option_copied};
ghost use Rattle.mx_key.specs.Comparable.{comparable_of};
ghost use Rattle.mx_key.specs.Keys.{Key, AreFit};
ghost use Rattle.mx_space.specs.Changes.{IsNoChange, Puts, Removes};
ghost use Rattle.mx_entries.specs.KeptKeys.{kept_key};
ghost use Rattle.mx_space.specs.Reserved.{Edits};

use crate::change::Change;
use mx_msgpack::Bytes;
use mx_schema::{IndexDef, parts_or_none};
use std::alloc::{AllocError, Global};

/// What a tuple changes in each index that takes the place of another one with its primary key, where there
/// is one.
pub(crate) fn changes_of(
    alloc: Global,
    defs: &[IndexDef],
    primary: &[u8],
    tuple: &[u8],
    old: Option<&[u8]>,
) -> Result<Vec<Change>, AllocError>
    ensures { (key : Key) → AreFit key → primary.now ≡ comparable_of key
        → IfOk result (λ changes. AllZip (Puts key tuple.now (option_copied old.entry)) defs.now changes.items) }
{
    let mut changes = Vec::new(alloc);
    let mut left = defs;
    while let Some((def, others)) = left.split_first() {
        changes.push(change_of(alloc, def, primary, tuple, old)?)?;
        left = others;
    }
    Ok(changes)
}

/// The key of a tuple's entry in each index; `None` in that of the number 0.
pub(crate) fn removals_of(
    alloc: Global,
    defs: &[IndexDef],
    primary: &[u8],
    tuple: &[u8],
) -> Result<Vec<Option<Bytes>>, AllocError>
    ensures { (key : Key) → AreFit key → primary.now ≡ comparable_of key
        → IfOk result (λ keys. AllZip (Removes key tuple.now) defs.now keys.items) }
{
    let mut keys = Vec::new(alloc);
    let mut left = defs;
    while let Some((def, others)) = left.split_first() {
        keys.push(removal_of(alloc, def, primary, tuple)?)?;
        left = others;
    }
    Ok(keys)
}

/// What a change of a tuple does to each index, where a tuple with its primary key may stand already.
pub(crate) fn edits_of(
    alloc: Global,
    defs: &[IndexDef],
    primary: &[u8],
    tuple: Option<&[u8]>,
    old: Option<&[u8]>,
) -> Result<Vec<Change>, AllocError>
    ensures { (key : Key) → AreFit key → primary.now ≡ comparable_of key
        → IfOk result (λ edits. AllZip (Edits key (option_copied tuple.entry) (option_copied old.entry)) defs.now edits.items) }
{
    let mut edits = Vec::new(alloc);
    let mut left = defs;
    while let Some((def, others)) = left.split_first() {
        edits.push(edit_of(alloc, def, primary, tuple, old)?)?;
        left = others;
    }
    Ok(edits)
}

fn edit_of(
    alloc: Global,
    def: &IndexDef,
    primary: &[u8],
    tuple: Option<&[u8]>,
    old: Option<&[u8]>,
) -> Result<Change, AllocError>
    ensures { (key : Key) → AreFit key → primary.now ≡ comparable_of key
        → IfOk result (λ edit. Edits key (option_copied tuple.entry) (option_copied old.entry) def.now edit) }
{
    if let Some(tuple) = tuple {
        return change_of(alloc, def, primary, tuple, old);
    }
    let Some(old) = old else {
        return Ok(no_change());
    };
    let removed = removal_of(alloc, def, primary, old)?;
    Ok(Change {
        added: None,
        removed,
    })
}

fn removal_of(
    alloc: Global,
    def: &IndexDef,
    primary: &[u8],
    tuple: &[u8],
) -> Result<Option<Bytes>, AllocError>
    ensures { (key : Key) → AreFit key → primary.now ≡ comparable_of key → IfOk result (λ removed. Removes key tuple.now def.now removed) }
{
    if def.id.0 == 0 {
        return Ok(None);
    }
    Ok(Some(entry_key(alloc, def, primary, tuple)?))
}

fn change_of(
    alloc: Global,
    def: &IndexDef,
    primary: &[u8],
    tuple: &[u8],
    old: Option<&[u8]>,
) -> Result<Change, AllocError>
    ensures { (key : Key) → AreFit key → primary.now ≡ comparable_of key
        → IfOk result (λ change. Puts key tuple.now (option_copied old.entry) def.now change) }
{
    if def.id.0 == 0 {
        return Ok(no_change());
    }
    let key = entry_key(alloc, def, primary, tuple)?;
    let Some(old) = old else {
        return Ok(addition(key, None));
    };
    let removed = entry_key(alloc, def, primary, old)?;
    if removed == key {
        return Ok(no_change());
    }
    Ok(addition(key, Some(removed)))
}

fn no_change() -> Change
    ensures { IsNoChange result }
{
    Change {
        added: None,
        removed: None,
    }
}

fn addition(key: Bytes, removed: Option<Bytes>) -> Change
    ensures { (result.added ≡ Some key) × (result.removed ≡ removed) }
{
    Change {
        added: Some(key),
        removed,
    }
}

/// The comparable bytes of the key of a tuple's entry, of which these are those of its primary key.
pub(crate) fn entry_key(
    alloc: Global,
    def: &IndexDef,
    primary: &[u8],
    tuple: &[u8],
) -> Result<Bytes, AllocError>
    ensures { (key : Key) → AreFit key → primary.now ≡ comparable_of key
        → IfOk result (λ bytes. (bytes ≡ comparable_of (kept_key def.now key tuple.now)) × AreFit (kept_key def.now key tuple.now)) }
{
    let mut key = parts_or_none(alloc, &def.key, tuple)?;
    key.extend_from_slice(primary)?;
    Ok(key)
}
