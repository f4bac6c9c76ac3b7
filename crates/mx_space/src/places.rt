//! Where the entries of an index stand among those of the others.

ghost use Rattle.std.specs.Prelude.{◌≡◌, ◌≤◌, ◌++◌, [], drop, length, map, take, OnOk, OnErr};
ghost use Rattle.std.specs.List.{insert, remove};
ghost use Rattle.std.specs.Option.{option_copied};
ghost use Rattle.mx_schema.specs.RowParts.{index_place};
ghost use Rattle.mx_entries.specs.EntryChanges.{index_kept, kept_without};

use crate::index::Index;
use crate::space_index::SpaceIndex;
use mx_base::IndexId;
use mx_schema::IndexDef;
use std::alloc::AllocError;

/// The entries of the index of this number.
pub(crate) fn find_index<'a>(
    defs: &[IndexDef],
    indexes: &'a [SpaceIndex],
    id: IndexId,
) -> Option<&'a SpaceIndex>
    ensures { option_copied result ≡ index_kept id.0 defs.now indexes.now }
{
    let (def, other_defs) = defs.split_first()?;
    let (index, other_indexes) = indexes.split_first()?;
    if def.id.0 == id.0 {
        return Some(index);
    }
    find_index(other_defs, other_indexes, id)
}

/// The place behind the indexes whose numbers aren't greater.
pub(crate) fn place_behind(defs: &[IndexDef], id: IndexId) -> usize
    ensures place { result ≡ index_place id.0 defs.now }
    ensures bound { result ≤ length defs.now }
{
    let Some((def, others)) = defs.split_first() else {
        return 0;
    };
    if id.0 < def.id.0 {
        return 0;
    }
    place_behind(others, id) + 1
}

/// Puts the entries of an index at a place, or behind all others where there are fewer before it.
///
/// # Errors
/// Out of memory. Nothing changed then.
pub(crate) fn insert_index(
    indexes: &mut Vec<SpaceIndex>,
    place: usize,
    index: SpaceIndex,
) -> Result<(), AllocError>
    ensures ok { place ≤ length indexes.old.items → OnOk result (indexes.new.items ≡ insert indexes.old.items place index) }
    ensures err { OnErr result (indexes.new.items ≡ indexes.old.items) }
{
    let place = place.min(indexes.len());
    indexes.insert(place, index)?;
    Ok(())
}

/// Takes the entries at a place out, where there are any.
pub(crate) fn remove_index(indexes: &mut Vec<SpaceIndex>, place: usize)
    ensures { indexes.new.items ≡ remove indexes.old.items place }
{
    if place < indexes.len() {
        indexes.remove(place);
    }
}

/// Takes the entries of the indexes of this number out, where those of the first of these indexes stand at
/// this place.
pub(crate) fn remove_indexes(
    defs: &[IndexDef],
    indexes: &mut Vec<SpaceIndex>,
    place: usize,
    id: IndexId,
)
    ensures { indexes.new.items ≡ take place indexes.old.items ++ kept_without id.0 defs.now (drop place indexes.old.items) }
{
    let Some((def, others)) = defs.split_first() else {
        return;
    };
    if place >= indexes.len() {
        return;
    }
    if def.id.0 == id.0 {
        indexes.remove(place);
        remove_indexes(others, indexes, place, id);
    } else {
        remove_indexes(others, indexes, place + 1, id);
    }
}

/// Takes all entries of each index out.
pub(crate) fn clear_all(indexes: &mut [SpaceIndex])
    ensures { indexes.new ≡ map (λ _. []) indexes.old }
{
    let Some((index, others)) = indexes.split_first_mut() else {
        return;
    };
    index.clear();
    clear_all(others);
}
