//! What a SELECT picks of an index.

ghost use Rattle.std.specs.Prelude.{◌≡◌, ◌≢◌, ◌⊎◌, ◌<◌, List, [], length, map, Some, Ok, IfOk, IfSome, IsTrue, MatchOption, MatchResult, OnOk, false};
ghost use Rattle.std.specs.BTreeMap.Range.{IsLeBy, IsLtBy};
ghost use Rattle.std.specs.Cmp.Lexicographic.{slice_cmp};
ghost use Rattle.std.specs.FinMap as finite;
ghost use Rattle.std.specs.List.{AllByRecursion};
ghost use Rattle.std.specs.Option.{option_map};
ghost use Rattle.std.specs.Ordering.{nat_cmp};
ghost use Rattle.std.specs.Range.Bound.{IsForward};
ghost use Rattle.mx_msgpack.specs.Items.{IsArray};
ghost use Rattle.mx_key.specs.declared.edge.Edge.TheVariants as edges;
ghost use Rattle.mx_key.specs.declared.iterator.IterKind.TheVariants as iterators;
ghost use Rattle.mx_key.specs.Comparable.{bound_of, edges_of};
ghost use Rattle.mx_key.specs.Keys.{Key, AreFit};
ghost use Rattle.mx_key.specs.Parts.{key_of_array};
ghost use Rattle.mx_key.specs.Ranges.{descends, range_of};
ghost use Rattle.mx_schema.specs.Picks.{Indexed, tuples_by_index, indexed_with};
ghost use Rattle.mx_schema.specs.State as plain;
ghost use Rattle.mx_schema.specs.Stored.{StoresTuples, stored_tuple};
ghost use Rattle.mx_entries.specs.Scans.{Selects, SelectsByKey};
ghost use Rattle.mx_entries.specs.Windows.{AreFitEntries, IsCollected, IsStopped, as_fault, found_in, keys_read, rows_found};
ghost use Rattle.mx_space.specs.Selecting.{row_of};

use crate::copy::set_entry;
use crate::index::Index;
use crate::pick::{Source, collect};
use crate::scan::Scan;
use crate::tree_index::TreeIndex;
use crate::tuple_map::TupleMap;
use crate::whole_row::{primary_key, select_row, stored_row};
use mx_entries::{Pick, SelectFault, SelectStop};
use mx_key::{Edge, IterKind, KeyRange, range_of_key};
use mx_msgpack::{Bytes, Tuples, known_array};
use mx_schema::{IndexDef, Keyed, index_tuple};
use std::alloc::{AllocError, Global};
use std::collections::BTreeMap;

/// As `State::select`, of these tuples by their primary keys, which are those of the index of the number 0
/// where `is_own`.
#[inline(always)]
pub(crate) fn select_from(
    alloc: Global,
    tuples: &TupleMap,
    is_own: bool,
    def: &IndexDef,
    wanted: &Pick<'_>,
    found: &mut Tuples,
) -> Result<Option<KeyRange>, SelectFault>
    requires array { IsArray wanted.now.key.now }
    ensures { (all : plain.Tuples) → StoresTuples tuples.now.entries all
        → (IsTrue is_own → def.now.id.0 ≡ 0 → AllByRecursion (λ (entry : Indexed). length entry.0 ≡ length def.now.key) (finite.entries all))
        → SelectsByKey (finite.entries (tuples_by_index def.now all)) def.now wanted.now found.new result }
{
    let mut range = range_of_key(alloc, &def.key, wanted.iterator, wanted.key)?;
    let is_read = select_from_range(alloc, tuples, is_own, def, &mut range, wanted, found);
    keys_read(is_read, range)
}

/// As `select_from`, of the range of a key, which becomes the range that was read. Tells whether any was.
fn select_from_range(
    alloc: Global,
    tuples: &TupleMap,
    is_own: bool,
    def: &IndexDef,
    range: &mut KeyRange,
    wanted: &Pick<'_>,
    found: &mut Tuples,
) -> Result<bool, SelectStop>
    requires array { IsArray wanted.now.key.now }
    requires forward { IsForward (IsLeBy (slice_cmp nat_cmp)) (IsLtBy (slice_cmp nat_cmp)) (bound_of range.old.low) (bound_of range.old.high) }
    ensures { (all : plain.Tuples) (key : Key) → StoresTuples tuples.now.entries all
        → (IsTrue is_own → def.now.id.0 ≡ 0 → AllByRecursion (λ (entry : Indexed). length entry.0 ≡ length def.now.key) (finite.entries all))
        → key_of_array def.now.key wanted.now.key.now ≡ Ok key → AreFit key → range.old ≡ edges_of (range_of wanted.now.iterator key)
        → Selects (finite.entries (tuples_by_index def.now all)) wanted.now key found.new (keys_read result range.new) }
{
    if is_own {
        if let Some(key) = primary_key(def, range, wanted) {
            let row = stored_row(tuples, key);
            return select_row(alloc, row, range, wanted, found);
        }
    }
    select_in_order(alloc, tuples, def, range, wanted, found)
}

/// As `select_from_range`, by a scan.
// A call of its own, since a function clears the room of its variables where it begins.
#[inline(never)]
fn select_in_order(
    alloc: Global,
    tuples: &TupleMap,
    def: &IndexDef,
    range: &mut KeyRange,
    wanted: &Pick<'_>,
    found: &mut Tuples,
) -> Result<bool, SelectStop>
    requires { IsForward (IsLeBy (slice_cmp nat_cmp)) (IsLtBy (slice_cmp nat_cmp)) (bound_of range.old.low) (bound_of range.old.high) }
    ensures { (all : plain.Tuples) (key : Key) → StoresTuples tuples.now.entries all → AreFit key → range.old ≡ edges_of (range_of wanted.now.iterator key)
        → Selects (finite.entries (tuples_by_index def.now all)) wanted.now key found.new (keys_read result range.new) }
{
    if def.id.0 == 0 && is_all(range, wanted.iterator) {
        let first = tuples.first(alloc, wanted.offset as usize + wanted.limit as usize)?;
        return select_range(alloc, first.as_map(), range, wanted, found);
    }
    let ordered = tuples.in_order(alloc)?;
    let indexed = other_index(alloc, def, ordered.as_map())?;
    let kept = first_map(&indexed, ordered.as_map());
    select_range(alloc, kept, range, wanted, found)
}

/// The tuples under their keys in an index of another number than 0.
fn other_index(
    alloc: Global,
    def: &IndexDef,
    tuples: &BTreeMap<Bytes, Bytes>,
) -> Result<Option<BTreeMap<Bytes, Bytes>>, AllocError>
    ensures { (all : plain.Tuples) → StoresTuples tuples.now.entries all → IfOk result (λ found. MatchOption found
        (def.now.id.0 ≡ 0)
        (λ indexed. (def.now.id.0 ≢ 0) × StoresTuples indexed.entries (tuples_by_index def.now all))) }
{
    if def.id.0 == 0 {
        return Ok(None);
    }
    Ok(Some(index_tuples(alloc, def, tuples)?))
}

/// The range of keys that was read, where one was.
#[inline(always)]
pub(crate) fn keys_read(
    is_read: Result<bool, SelectStop>,
    range: KeyRange,
) -> Result<Option<KeyRange>, SelectFault>
    ensures { result ≡ as_fault (keys_read is_read range) }
{
    match is_read {
        Ok(true) => Ok(Some(range)),
        Ok(false) => Ok(None),
        Err(stop) => Err(SelectFault::from(stop)),
    }
}

fn first_map<'a>(
    first: &'a Option<BTreeMap<Bytes, Bytes>>,
    second: &'a BTreeMap<Bytes, Bytes>,
) -> &'a BTreeMap<Bytes, Bytes>
    ensures { MatchOption first.now (result.now ≡ second.now) (λ map. result.now ≡ map) }
{
    match first {
        Some(map) => map,
        None => second,
    }
}

/// Whether a key, which is an array, has as many parts as the index.
pub(crate) fn has_all_parts(def: &IndexDef, key: &[u8]) -> bool
    requires array { IsArray key.now }
    ensures { IsTrue result → (fitting : Key) → key_of_array def.now.key key.now ≡ Ok fitting → length fitting ≡ length def.now.key }
{
    known_array(key).count as usize == def.key.len()
}

/// Copies of tuples under their keys in an index.
fn index_tuples(
    alloc: Global,
    def: &IndexDef,
    tuples: &BTreeMap<Bytes, Bytes>,
) -> Result<BTreeMap<Bytes, Bytes>, AllocError>
    ensures { (all : plain.Tuples) → StoresTuples tuples.now.entries all
        → IfOk result (λ indexed. StoresTuples indexed.entries (indexed_with def.now finite.empty (finite.entries all))) }
{
    let mut indexed = BTreeMap::new(alloc);
    for (key, tuple) in tuples {
        let Keyed { key, tuple } = index_tuple(alloc, def, key.as_slice(), tuple.as_slice())?;
        set_entry(&mut indexed, key, tuple)?;
    }
    Ok(indexed)
}

/// Whether an iterator goes through all keys, from the first one on.
fn is_all(range: &KeyRange, iterator: IterKind) -> bool
    ensures { IsTrue result → (range.now.low ≡ edges.Open) × (range.now.high ≡ edges.Open) × (descends iterator ≡ false) }
{
    matches!(range.low, Edge::Open) && matches!(range.high, Edge::Open) && !iterator.descends()
}

/// As `select_from`, of the tuples in the range of a key, which becomes the range that was read. Tells whether
/// any was.
fn select_range(
    alloc: Global,
    kept: &BTreeMap<Bytes, Bytes>,
    range: &mut KeyRange,
    wanted: &Pick<'_>,
    found: &mut Tuples,
) -> Result<bool, SelectStop>
    requires { IsForward (IsLeBy (slice_cmp nat_cmp)) (IsLtBy (slice_cmp nat_cmp)) (bound_of range.old.low) (bound_of range.old.high) }
    ensures { (all : List Indexed) (key : Key) → AreFitEntries all → AreFit key → range.old ≡ edges_of (range_of wanted.now.iterator key)
        → found_in kept.now.entries range.old wanted.now.iterator wanted.now.offset wanted.now.limit ≡ found_in (map stored_tuple all) range.old wanted.now.iterator wanted.now.offset wanted.now.limit
        → Selects all wanted.now key found.new (keys_read result range.new) }
{
    found.clear();
    if wanted.limit == 0 {
        return Ok(false);
    }
    let last = collect_found(kept, range, wanted, found)?;
    read_to(alloc, range, wanted, found, last)?;
    Ok(true)
}

/// As `Space::select`, of the range of a key, which becomes the range that was read. Tells whether any was.
pub(crate) fn select_entries(
    alloc: Global,
    index: &TreeIndex,
    source: Source<'_>,
    range: &mut KeyRange,
    wanted: &Pick<'_>,
    found: &mut Tuples,
) -> Result<bool, SelectStop>
    requires { IsForward (IsLeBy (slice_cmp nat_cmp)) (IsLtBy (slice_cmp nat_cmp)) (bound_of range.old.low) (bound_of range.old.high) }
    ensures { (all : List Indexed) (key : Key) → AreFitEntries all → AreFit key → range.old ≡ edges_of (range_of wanted.now.iterator key)
        → rows_found (row_of source.entry) index.now range.old wanted.now.iterator wanted.now.offset wanted.now.limit ≡ found_in (map stored_tuple all) range.old wanted.now.iterator wanted.now.offset wanted.now.limit
        → Selects all wanted.now key found.new (keys_read result range.new) }
{
    found.clear();
    if wanted.limit == 0 {
        return Ok(false);
    }
    let last = collect_rows(index, source, range, wanted, found)?;
    read_to(alloc, range, wanted, found, last)?;
    Ok(true)
}

/// Makes a range the one that was read: up to the key of the last tuple where the limit was reached.
#[inline]
pub(crate) fn read_to(
    alloc: Global,
    range: &mut KeyRange,
    wanted: &Pick<'_>,
    found: &Tuples,
    last: Option<&[u8]>,
) -> Result<(), AllocError>
    requires { 0 < wanted.now.limit }
    ensures { (all : List Indexed) (key : Key) → AreFitEntries all → AreFit key → range.old ≡ edges_of (range_of wanted.now.iterator key)
        → IsCollected found.now (found_in (map stored_tuple all) range.old wanted.now.iterator wanted.now.offset wanted.now.limit) (option_map (λ key. key.now) last.entry)
        → OnOk result (Selects all wanted.now key found.now (Ok (Some range.new))) }
{
    if found.len() == wanted.limit as usize {
        if let Some(last) = last {
            range.end_with(alloc, wanted.iterator.descends(), last)?;
        }
    }
    Ok(())
}

/// Copies the tuples that the entries in the range lead to, and gives the key of the last one.
fn collect_rows<'a>(
    index: &'a TreeIndex,
    source: Source<'a>,
    range: &KeyRange,
    wanted: &Pick<'_>,
    found: &mut Tuples,
) -> Result<Option<&'a [u8]>, SelectStop>
    requires none { found.old ≡ [] }
    requires forward { IsForward (IsLeBy (slice_cmp nat_cmp)) (IsLtBy (slice_cmp nat_cmp)) (bound_of range.now.low) (bound_of range.now.high) }
    ensures { MatchResult result
        (λ last. IsCollected found.new (rows_found (row_of source.entry) index.now range.now wanted.now.iterator wanted.now.offset wanted.now.limit) (option_map (λ key. key.now) last))
        (λ stop. IsStopped stop (rows_found (row_of source.entry) index.now range.now wanted.now.iterator wanted.now.offset wanted.now.limit)) }
{
    let down = wanted.iterator.descends();
    let mut entries = index.scan(range);
    entries.pass_over(down, wanted.offset);
    collect(&mut entries, down, source, wanted.limit, found)
}

/// Copies the tuples that are found in the range, and gives the key of the last one.
fn collect_found<'a>(
    kept: &'a BTreeMap<Bytes, Bytes>,
    range: &KeyRange,
    wanted: &Pick<'_>,
    found: &mut Tuples,
) -> Result<Option<&'a [u8]>, SelectStop>
    requires none { found.old ≡ [] }
    requires forward { IsForward (IsLeBy (slice_cmp nat_cmp)) (IsLtBy (slice_cmp nat_cmp)) (bound_of range.now.low) (bound_of range.now.high) }
    ensures { MatchResult result
        (λ last. IsCollected found.new (found_in kept.now.entries range.now wanted.now.iterator wanted.now.offset wanted.now.limit) (option_map (λ key. key.now) last))
        (λ stop. IsStopped stop (found_in kept.now.entries range.now wanted.now.iterator wanted.now.offset wanted.now.limit)) }
{
    let down = wanted.iterator.descends();
    let mut entries = Scan::of_tuples(kept, range);
    entries.pass_over(down, wanted.offset);
    collect(&mut entries, down, Source::Entries, wanted.limit, found)
}

/// The key with which a range of EQ or REQ begins.
pub(crate) fn exact_key(range: &KeyRange, iterator: IterKind) -> Option<&Bytes>
    ensures { IfSome result (λ key. (range.now.low ≡ edges.Inclusive key.now) × ((iterator ≡ iterators.Eq) ⊎ (iterator ≡ iterators.Req))) }
{
    match iterator {
        IterKind::Eq | IterKind::Req => inclusive(&range.low),
        IterKind::All | IterKind::Lt | IterKind::Le | IterKind::Ge | IterKind::Gt => None,
    }
}

fn inclusive(edge: &Edge) -> Option<&Bytes>
    ensures { IfSome result (λ key. edge.now ≡ edges.Inclusive key.now) }
{
    match edge {
        Edge::Inclusive(key) => Some(key),
        Edge::Exclusive(_) => None,
        Edge::Open => None,
    }
}
