//! The tuple that has a whole key in a unique index, or in that of the number 0.

ghost use Rattle.std.specs.Prelude.{◌≡◌, ◌⊎◌, ◌<◌, ℕ, List, length, map, Some, None, Ok, true, IfOk, IfSome, MatchOption};
ghost use Rattle.std.specs.BTreeMap.{is_at};
ghost use Rattle.std.specs.Cmp.Lexicographic.{slice_cmp};
ghost use Rattle.std.specs.Map.{lookup_entry};
ghost use Rattle.std.specs.Option.{option_map};
ghost use Rattle.std.specs.Ordering.{nat_cmp};
ghost use Rattle.mx_msgpack.specs.Items.{IsArray};
ghost use Rattle.mx_key.specs.declared.edge.Edge.TheVariants as edges;
ghost use Rattle.mx_key.specs.declared.iterator.IterKind.TheVariants as iterators;
ghost use Rattle.mx_key.specs.Comparable.{edges_of};
ghost use Rattle.mx_key.specs.Keys.{Key, AreFit};
ghost use Rattle.mx_key.specs.Parts.{key_of_array};
ghost use Rattle.mx_key.specs.Ranges.{range_of};
ghost use Rattle.mx_schema.specs.Picks.{Indexed};
ghost use Rattle.mx_schema.specs.Stored.{stored_tuple};
ghost use Rattle.mx_entries.specs.Entries.{LeadsOnce, LeadsTo};
ghost use Rattle.mx_entries.specs.Scans.{Selects};
ghost use Rattle.mx_entries.specs.Windows.{AreFitEntries, found_in, one_found, keys_read, tuple_stored};

use crate::index::Index;
use crate::pick::{collect_one, tuple_stored};
use crate::selection::{exact_key, has_all_parts, read_to};
use crate::space_index::SpaceIndex;
use crate::tuple_map::TupleMap;
use mx_entries::{Pick, SelectStop};
use mx_key::KeyRange;
use mx_msgpack::{Bytes, Tuples};
use mx_schema::IndexDef;
use std::alloc::{AllocError, Global};

/// The key with which a range of EQ or REQ begins, where it is a whole key of a unique index.
pub(crate) fn whole_key<'a>(
    def: &IndexDef,
    range: &'a KeyRange,
    wanted: &Pick<'_>,
) -> Option<&'a Bytes>
    requires array { IsArray wanted.now.key.now }
    ensures { IfSome result (λ key. (def.now.unique ≡ true) × (range.now.low ≡ edges.Inclusive key.now) × ((wanted.now.iterator ≡ iterators.Eq) ⊎ (wanted.now.iterator ≡ iterators.Req))
        × ((fitting : Key) → key_of_array def.now.key wanted.now.key.now ≡ Ok fitting → length fitting ≡ length def.now.key)) }
{
    if !def.unique || !has_all_parts(def, wanted.key) {
        return None;
    }
    exact_key(range, wanted.iterator)
}

/// The key with which a range of EQ or REQ begins, where it has all parts of a primary key.
pub(crate) fn primary_key<'a>(
    def: &IndexDef,
    range: &'a KeyRange,
    wanted: &Pick<'_>,
) -> Option<&'a Bytes>
    requires array { IsArray wanted.now.key.now }
    ensures { IfSome result (λ key. (def.now.id.0 ≡ 0) × (range.now.low ≡ edges.Inclusive key.now) × ((wanted.now.iterator ≡ iterators.Eq) ⊎ (wanted.now.iterator ≡ iterators.Req))
        × ((fitting : Key) → key_of_array def.now.key wanted.now.key.now ≡ Ok fitting → length fitting ≡ length def.now.key)) }
{
    if def.id.0 != 0 || !has_all_parts(def, wanted.key) {
        return None;
    }
    exact_key(range, wanted.iterator)
}

/// The entry of a whole key in a unique index: that key and the tuple that it leads to.
pub(crate) fn find_row<'a>(
    alloc: Global,
    index: &'a SpaceIndex,
    tuples: &'a TupleMap,
    key: &Bytes,
) -> Result<Option<(&'a [u8], &'a [u8])>, AllocError>
    ensures { LeadsOnce key.now index.now → IfOk result (λ found. MatchOption found
        (LeadsTo key.now index.now None)
        (λ row. (own : List ℕ) × LeadsTo key.now index.now (Some own) × (row.0.now ≡ key.now) × (row.1.now ≡ tuple_stored tuples.now.entries own))) }
{
    let Some((own, primary)) = index.find(key) else {
        return Ok(None);
    };
    Ok(Some((own, tuple_stored(alloc, tuples, primary)?)))
}

/// The tuple under a primary key, with the key.
pub(crate) fn stored_row<'a>(kept: &'a TupleMap, key: &Bytes) -> Option<(&'a [u8], &'a [u8])>
    ensures { option_map (λ row. (row.0.now, row.1.now)) result ≡ lookup_entry (is_at (slice_cmp nat_cmp key.now)) kept.now.entries }
{
    let (key, tuple) = kept.get_key_value(key)?;
    Some((key.as_slice(), tuple.as_slice()))
}

/// As `select_entries`, of a row that is the only one in the range, if there is one.
#[inline]
pub(crate) fn select_row(
    alloc: Global,
    row: Option<(&[u8], &[u8])>,
    range: &mut KeyRange,
    wanted: &Pick<'_>,
    found: &mut Tuples,
) -> Result<bool, SelectStop>
    ensures { (all : List Indexed) (key : Key) → AreFitEntries all → AreFit key → range.old ≡ edges_of (range_of wanted.now.iterator key)
        → (0 < wanted.now.limit → one_found wanted.now.offset (option_map (λ row. (row.0.now, row.1.now)) row.entry)
        ≡ found_in (map stored_tuple all) range.old wanted.now.iterator wanted.now.offset wanted.now.limit)
        → Selects all wanted.now key found.new (keys_read result range.new) }
{
    found.clear();
    if wanted.limit == 0 {
        return Ok(false);
    }
    let last = collect_one(row, wanted.offset, found)?;
    read_to(alloc, range, wanted, found, last)?;
    Ok(true)
}
