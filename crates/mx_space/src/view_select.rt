//! What a SELECT picks of a space under a transaction's own writes.

ghost use Rattle.std.specs.Prelude.{◌≡◌, ◌≢◌, ◌≤◌, ℕ, Ok, Option, Some, IfSome, length, map, true, false};
ghost use Rattle.std.specs.BTreeMap.Range.{IsLeBy, IsLtBy};
ghost use Rattle.std.specs.Cmp.Lexicographic.{slice_cmp};
ghost use Rattle.std.specs.FinMap as finite;
ghost use Rattle.std.specs.List.{filter};
ghost use Rattle.std.specs.Option.{option_copied, option_map};
ghost use Rattle.std.specs.Ordering.{nat_cmp};
ghost use Rattle.std.specs.Range.Bound.{IsForward};
ghost use Rattle.mx_key.specs.declared.iterator.IterKind as kind;
ghost use Rattle.mx_key.specs.Comparable.{bound_of, comparable_of, edges_of, holds};
ghost use Rattle.mx_key.specs.Keys.{Key, AreFit};
ghost use Rattle.mx_key.specs.Parts.{key_of_array};
ghost use Rattle.mx_key.specs.Ranges.{range_of};
ghost use Rattle.mx_msgpack.specs.Items.{IsArray};
ghost use Rattle.mx_schema.specs.declared.schema.Schema as described;
ghost use Rattle.mx_schema.specs.Catalogues.{index_with};
ghost use Rattle.mx_schema.specs.Picks.{directed, tuples_by_index};
ghost use Rattle.mx_schema.specs.Sound.{AreUnique, HaveKeys};
ghost use Rattle.mx_schema.specs.State as plain;
ghost use Rattle.mx_schema.specs.Stored.{stored_tuple};
ghost use Rattle.mx_space.specs.declared.pick.Source.TheVariants as source;
ghost use Rattle.mx_entries.specs.Built.{AreLong};
ghost use Rattle.mx_entries.specs.KeptEntries.{HoldsOneEach};
ghost use Rattle.mx_space.specs.Kept.{StoresIndexed};
ghost use Rattle.mx_entries.specs.OwnWrites.{OwnWrites, under};
ghost use Rattle.mx_space.specs.Overlays.{StoresWritten};
ghost use Rattle.mx_entries.specs.Scans.{Selects, SelectsByKey};
ghost use Rattle.mx_entries.specs.Windows.{AreFitEntries, indexed_row, keys_read};
ghost use Rattle.mx_space.specs.Selecting.{row_of};
ghost use Rattle.mx_space.specs.ShownRows.{is_shown, rows_left};
ghost use Rattle.mx_entries.specs.MergedRows.{merged};
ghost use Rattle.mx_entries.specs.TupleMaps.{under_key};

use crate::overlay::OverlaidSpace;
use crate::pick::Source;
use crate::scan::Scan;
use crate::selection::{keys_read, select_from};
use crate::shown_rows::ShownRows;
use crate::shown_select::select_rows;
use crate::space::Space;
use crate::tree_index::TreeIndex;
use crate::view::holder_under;
use crate::whole_row::{primary_key, select_row, stored_row, whole_key};
use mx_entries::{Pick, SelectFault, SelectStop};
use mx_key::{KeyRange, range_of_key};
use mx_msgpack::{Bytes, Tuples};
use mx_schema::IndexDef;
use std::alloc::Global;
use std::collections::BTreeMap;

/// As `SpaceView::select`, without writes.
pub(crate) fn select_stored(
    alloc: Global,
    space: &Space,
    def: &IndexDef,
    wanted: &Pick<'_>,
    found: &mut Tuples,
) -> Result<Option<KeyRange>, SelectFault>
    requires array { IsArray wanted.now.key.now }
    ensures { (schema : Option described.Schema) (all : plain.Tuples) (long : ℕ) → StoresIndexed schema space.now all → AreLong long all
        → index_with def.now.id.0 space.now.schema.indexes ≡ Some def.now → HaveKeys def.now all → (def.now.unique ≡ true → AreUnique def.now all)
        → SelectsByKey (finite.entries (tuples_by_index def.now all)) def.now wanted.now found.new result }
{
    if def.id.0 == 0 {
        return select_from(alloc, space.tuples(), true, def, wanted, found);
    }
    space.select(alloc, def, wanted, found)
}

/// As `SpaceView::select`, under writes.
pub(crate) fn select_shown(
    alloc: Global,
    space: &Space,
    over: &OverlaidSpace,
    def: &IndexDef,
    wanted: &Pick<'_>,
    found: &mut Tuples,
) -> Result<Option<KeyRange>, SelectFault>
    requires array { IsArray wanted.now.key.now }
    ensures { (schema : Option described.Schema) (all : plain.Tuples) (written : OwnWrites) (long : ℕ) → StoresIndexed schema space.now all → StoresWritten schema over.now written
        → AreLong long all → AreLong long (under written all) → index_with def.now.id.0 space.now.schema.indexes ≡ Some def.now
        → HaveKeys def.now (under written all) → (def.now.unique ≡ true → AreUnique def.now (under written all)) → (def.now.unique ≡ true → HoldsOneEach def.now all)
        → SelectsByKey (finite.entries (tuples_by_index def.now (under written all))) def.now wanted.now found.new result }
{
    let mut range = range_of_key(alloc, &def.key, wanted.iterator, wanted.key)?;
    let is_read = select_seen(alloc, space, over, def, &mut range, wanted, found);
    keys_read(is_read, range)
}

/// As `select_shown`, of the range of a key, which becomes the range that was read. Tells whether any was.
fn select_seen(
    alloc: Global,
    space: &Space,
    over: &OverlaidSpace,
    def: &IndexDef,
    range: &mut KeyRange,
    wanted: &Pick<'_>,
    found: &mut Tuples,
) -> Result<bool, SelectStop>
    requires array { IsArray wanted.now.key.now }
    requires forward { IsForward (IsLeBy (slice_cmp nat_cmp)) (IsLtBy (slice_cmp nat_cmp)) (bound_of range.old.low) (bound_of range.old.high) }
    ensures { (schema : Option described.Schema) (all : plain.Tuples) (written : OwnWrites) (long : ℕ) (key : Key) → StoresIndexed schema space.now all → StoresWritten schema over.now written
        → AreLong long all → AreLong long (under written all) → index_with def.now.id.0 space.now.schema.indexes ≡ Some def.now
        → HaveKeys def.now (under written all) → (def.now.unique ≡ true → AreUnique def.now (under written all)) → (def.now.unique ≡ true → HoldsOneEach def.now all)
        → key_of_array def.now.key wanted.now.key.now ≡ Ok key → AreFit key → range.old ≡ edges_of (range_of wanted.now.iterator key)
        → Selects (finite.entries (tuples_by_index def.now (under written all))) wanted.now key found.new (keys_read result range.new) }
{
    if let Some(key) = primary_key(def, range, wanted) {
        let row = shown_row(space, over, key);
        return select_row(alloc, row, range, wanted, found);
    }
    if def.id.0 == 0 {
        return select_first(alloc, space, over, range, wanted, found);
    }
    if let Some(key) = whole_key(def, range, wanted) {
        let key = key.clone()?;
        let tuple = holder_under(alloc, space, over, def, &key)?;
        return select_row(alloc, keyed_row(&key, tuple), range, wanted, found);
    }
    select_other(alloc, space, over, def, range, wanted, found)
}

/// A tuple with its key.
fn keyed_row<'a>(key: &'a Bytes, tuple: Option<&'a [u8]>) -> Option<(&'a [u8], &'a [u8])>
    ensures { option_map (λ row. (row.0.now, row.1.now)) result ≡ option_map (under_key key.now) (option_copied tuple.entry) }
{
    let tuple = tuple?;
    Some((key.as_slice(), tuple))
}

/// The tuple under a primary key that is seen under writes, with the key.
fn shown_row<'a>(
    space: &'a Space,
    over: &'a OverlaidSpace,
    key: &Bytes,
) -> Option<(&'a [u8], &'a [u8])>
    ensures { (schema : Option described.Schema) (all : plain.Tuples) (written : OwnWrites) (wanted : Key) → StoresIndexed schema space.now all
        → StoresWritten schema over.now written → AreFit wanted → key.now ≡ comparable_of wanted
        → option_map (λ row. (row.0.now, row.1.now)) result ≡ option_map (under_key key.now) (finite.get (under written all) wanted) }
{
    if over.hides(key) {
        return stored_row(over.own().tuples(), key);
    }
    stored_row(space.tuples(), key)
}

/// As `select_shown`, by the index of the number 0, of the range of a key.
fn select_first(
    alloc: Global,
    space: &Space,
    over: &OverlaidSpace,
    range: &mut KeyRange,
    wanted: &Pick<'_>,
    found: &mut Tuples,
) -> Result<bool, SelectStop>
    requires forward { IsForward (IsLeBy (slice_cmp nat_cmp)) (IsLtBy (slice_cmp nat_cmp)) (bound_of range.old.low) (bound_of range.old.high) }
    ensures { (schema : Option described.Schema) (all : plain.Tuples) (written : OwnWrites) (key : Key) → StoresIndexed schema space.now all → StoresWritten schema over.now written
        → AreFit key → range.old ≡ edges_of (range_of wanted.now.iterator key) → AreFitEntries (finite.entries (under written all))
        → Selects (finite.entries (under written all)) wanted.now key found.new (keys_read result range.new) }
{
    let stored = space.tuples().in_order(alloc)?;
    let own = over.own().tuples().in_order(alloc)?;
    let down = wanted.iterator.descends();
    let rows = first_rows(alloc, over, stored.as_map(), own.as_map(), range, down);
    select_rows(alloc, rows, range, wanted, found)
}

/// As `select_shown`, by an index of another number than 0, of the range of a key. The space has the index.
fn select_other(
    alloc: Global,
    space: &Space,
    over: &OverlaidSpace,
    def: &IndexDef,
    range: &mut KeyRange,
    wanted: &Pick<'_>,
    found: &mut Tuples,
) -> Result<bool, SelectStop>
    requires forward { IsForward (IsLeBy (slice_cmp nat_cmp)) (IsLtBy (slice_cmp nat_cmp)) (bound_of range.old.low) (bound_of range.old.high) }
    ensures { (schema : Option described.Schema) (all : plain.Tuples) (written : OwnWrites) (long : ℕ) (key : Key) → StoresIndexed schema space.now all
        → StoresWritten schema over.now written → AreLong long all → AreLong long (under written all) → index_with def.now.id.0 space.now.schema.indexes ≡ Some def.now
        → HaveKeys def.now (under written all) → (def.now.unique ≡ true → AreUnique def.now (under written all))
        → AreFit key → length key ≤ length def.now.key → range.old ≡ edges_of (range_of wanted.now.iterator key) → def.now.id.0 ≢ 0
        → AreFitEntries (finite.entries (tuples_by_index def.now (under written all)))
        → Selects (finite.entries (tuples_by_index def.now (under written all))) wanted.now key found.new (keys_read result range.new) }
{
    let Some(stored) = space.index(def.id) else {
        return Err(SelectStop::NoMemory);
    };
    let Some(own) = over.own().index(def.id) else {
        return Err(SelectStop::NoMemory);
    };
    let stored = stored.in_order(alloc)?;
    let own = own.in_order(alloc)?;
    let down = wanted.iterator.descends();
    let rows = index_rows(
        alloc,
        space,
        over,
        def.unique,
        stored.as_tree(),
        own.as_tree(),
        range,
        down,
    );
    select_rows(alloc, rows, range, wanted, found)
}

/// Those of the index of the number 0.
fn first_rows<'a>(
    alloc: Global,
    over: &'a OverlaidSpace,
    stored: &'a BTreeMap<Bytes, Bytes>,
    own: &'a BTreeMap<Bytes, Bytes>,
    range: &KeyRange,
    down: bool,
) -> ShownRows<'a>
    requires forward { IsForward (IsLeBy (slice_cmp nat_cmp)) (IsLtBy (slice_cmp nat_cmp)) (bound_of range.now.low) (bound_of range.now.high) }
    ensures { rows_left result ≡ merged down (row_of source.Entries) (row_of source.Entries)
        (filter (is_shown over.now true) (directed down (filter (λ entry. holds range.now entry.0) stored.now.entries)))
        (directed down (filter (λ entry. holds range.now entry.0) own.now.entries)) }
{
    ShownRows {
        alloc,
        over,
        is_first: true,
        down,
        stored: Scan::of_tuples(stored, range),
        own: Scan::of_tuples(own, range),
        held_stored: None,
        held_own: None,
        stored_source: Source::Entries,
        own_source: Source::Entries,
    }
}

/// Those of another index, of which these are the stored entries and the own ones.
fn index_rows<'a>(
    alloc: Global,
    space: &'a Space,
    over: &'a OverlaidSpace,
    unique: bool,
    stored: &'a TreeIndex,
    own: &'a TreeIndex,
    range: &KeyRange,
    down: bool,
) -> ShownRows<'a>
    requires forward { IsForward (IsLeBy (slice_cmp nat_cmp)) (IsLtBy (slice_cmp nat_cmp)) (bound_of range.now.low) (bound_of range.now.high) }
    ensures { rows_left result ≡ merged down (indexed_row unique space.now.tuples.entries) (indexed_row unique over.now.own.tuples.entries)
        (filter (is_shown over.now false) (directed down (filter (λ entry. holds range.now entry.0) stored.now)))
        (directed down (filter (λ entry. holds range.now entry.0) own.now)) }
{
    ShownRows {
        alloc,
        over,
        is_first: false,
        down,
        stored: stored.scan(range),
        own: own.scan(range),
        held_stored: None,
        held_own: None,
        stored_source: Source::Tuples {
            alloc,
            tuples: space.tuples(),
            unique,
        },
        own_source: Source::Tuples {
            alloc,
            tuples: over.own().tuples(),
            unique,
        },
    }
}
