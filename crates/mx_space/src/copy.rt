//! Copies of what a space keeps.

ghost use Rattle.std.specs.Prelude.{◌≡◌, IfOk, OnOk};
ghost use Rattle.std.specs.BTreeMap.{insert_entry};
ghost use Rattle.std.specs.Cmp.Lexicographic.{slice_cmp};
ghost use Rattle.std.specs.Ordering.{nat_cmp};

use crate::space_index::SpaceIndex;
use mx_msgpack::Bytes;
use std::alloc::{AllocError, Global};
use std::collections::BTreeMap;

/// A copy of tuples, node by node.
pub(crate) fn copy_of_entries(
    entries: &BTreeMap<Bytes, Bytes>,
) -> Result<BTreeMap<Bytes, Bytes>, AllocError>
    ensures { IfOk result (λ copy. copy.entries ≡ entries.now.entries) }
{
    entries.clone()
}

/// A copy of an index's entries, node by node.
pub(crate) fn copy_of_begins(
    begins: &BTreeMap<Bytes, u32>,
) -> Result<BTreeMap<Bytes, u32>, AllocError>
    ensures { IfOk result (λ copy. copy.entries ≡ begins.now.entries) }
{
    begins.clone()
}

/// Puts a value under its key, in place of one that is there.
pub(crate) fn set_entry(
    entries: &mut BTreeMap<Bytes, Bytes>,
    key: Bytes,
    value: Bytes,
) -> Result<(), AllocError>
    ensures { OnOk result (entries.new.entries ≡ insert_entry (slice_cmp nat_cmp) entries.old.entries key value) }
{
    entries.insert(key, value)?;
    Ok(())
}

pub(crate) fn copy_of_indexes(
    alloc: Global,
    indexes: &[SpaceIndex],
) -> Result<Vec<SpaceIndex>, AllocError>
    ensures { IfOk result (λ copies. copies.items ≡ indexes.now) }
{
    let mut copies = Vec::with_capacity(alloc, indexes.len())?;
    for index in indexes {
        copies.push_reserved(index.copy()?);
    }
    Ok(copies)
}
