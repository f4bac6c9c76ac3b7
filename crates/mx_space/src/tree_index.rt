//! An index in the order of its keys.

ghost use Rattle.std.specs.Prelude.{◌≡◌, ◌≤◌, ◌<◌, ◌^◌, ◌++◌, ℕ, List, [], drop, length, not, Some, IfOk, IfSome, OnOk, OnErr};
ghost use Rattle.std.specs.BTreeMap.Range.{IsLeBy, IsLtBy};
ghost use Rattle.std.specs.Cmp.Lexicographic.{slice_cmp};
ghost use Rattle.std.specs.List.{filter};
ghost use Rattle.std.specs.List.Sorted.{IsStrictlySortedBy};
ghost use Rattle.std.specs.Map.{keys_of};
ghost use Rattle.std.specs.Option.{option_map};
ghost use Rattle.std.specs.Ordering.{nat_cmp};
ghost use Rattle.std.specs.Range.Bound.{IsForward};
ghost use Rattle.mx_key.specs.Comparable.{bound_of, holds};
ghost use Rattle.mx_entries.specs.Entries.{first_from, has_entry, with_entry};

use crate::copy::copy_of_begins;
use crate::entries::whole_entry;
use crate::index::Index;
use crate::scan::{Scan, behind};
use mx_key::KeyRange;
use mx_msgpack::Bytes;
use std::alloc::{AllocError, Global};
use std::collections::BTreeMap;
use std::collections::btree_map::Entry;
use std::marker::Model;
use std::ops::Bound;

/// The entries of an index in the order of their keys.
#[derive(Drop)]
pub struct TreeIndex {
    // A primary key is the end of its entry's key, so only the place where it begins is kept with it.
    begins: BTreeMap<Bytes, u32>,
}

impl Model for TreeIndex {
    ghost use Rattle.std.specs.Prelude.{List};
    ghost use Rattle.std.specs.Range.Bound.{IsForward};
    ghost use Rattle.mx_key.specs.Comparable.{bound_of, holds};
    ghost use Rattle.mx_entries.specs.Entries.{IndexEntry, entries_split};

    ghost Value = { List IndexEntry };

    ghost view = { λ t. entries_split t.begins.entries };
}

impl TreeIndex {
    /// No entries.
    pub fn new(alloc: Global) -> TreeIndex
        ensures { result ≡ [] }
    {
        TreeIndex {
            begins: BTreeMap::new(alloc),
        }
    }

    /// How many entries there are.
    pub(crate) fn len(&self) -> usize
        ensures len { result ≡ length self.now }
        ensures ordered { IsStrictlySortedBy (slice_cmp nat_cmp) (keys_of self.now) }
    {
        self.begins.len()
    }

    /// Whether an entry stands under a key.
    pub(crate) fn contains_key(&self, key: &Bytes) -> bool
        ensures { result ≡ has_entry key.now self.now }
    {
        self.begins.contains_key(key)
    }

    pub(crate) fn copy(&self) -> Result<TreeIndex, AllocError>
        ensures { IfOk result (λ copy. copy ≡ self.now) }
    {
        Ok(TreeIndex {
            begins: copy_of_begins(&self.begins)?,
        })
    }

    /// The first entry whose key isn't below these bytes.
    pub(crate) fn first_from(&self, key: &Bytes) -> Option<(&[u8], &[u8])>
        ensures { option_map (λ entry. (entry.0.now, entry.1.now)) result ≡ first_from key.now self.now }
    {
        let (entry, begin) = first_begin(&self.begins, key)?;
        Some((entry.as_slice(), behind(entry, *begin)))
    }

    /// The entries whose keys lie in a range.
    pub(crate) fn scan<'a>(&'a self, range: &KeyRange) -> Scan<'a>
        requires { IsForward (IsLeBy (slice_cmp nat_cmp)) (IsLtBy (slice_cmp nat_cmp)) (bound_of range.now.low) (bound_of range.now.high) }
        ensures { result ≡ filter (λ entry. holds range.now entry.0) self.now }
    {
        Scan::of_index(&self.begins, range)
    }
}

impl Index for TreeIndex {
    ghost entries = { λ t. t };

    fn insert(&mut self, key: Bytes, primary: &[u8]) -> Result<bool, AllocError> {
        let Some(begin) = begin_of(key.as_slice(), primary) else {
            return Err(AllocError);
        };
        insert_begin(&mut self.begins, key, begin)
    }

    fn remove(&mut self, key: &Bytes) {
        self.begins.remove(key);
    }

    fn clear(&mut self) {
        self.begins.clear();
    }

    fn find<'a>(&'a self, key: &Bytes) -> Option<(&'a [u8], &'a [u8])> {
        whole_entry(self, key)
    }
}

/// The place where a primary key begins in a key that ends with it.
fn begin_of(key: &[u8], primary: &[u8]) -> Option<u32>
    ensures found { IfSome result (λ begin. drop begin key.now ≡ primary.now) }
    ensures whole { (own : List ℕ) → key.now ≡ own ++ primary.now → length own < 2 ^ 32 → result ≡ Some (length own) }
{
    let begin = key.len().checked_sub(primary.len())?;
    begin_at(key, begin, primary)
}

/// A place in a key, where the primary key begins there and the place fits 32 bits.
pub(crate) fn begin_at(key: &[u8], begin: usize, primary: &[u8]) -> Option<u32>
    requires within { begin ≤ length key.now }
    ensures found { IfSome result (λ kept. (kept ≡ begin) × (drop begin key.now ≡ primary.now)) }
    ensures whole { begin < 2 ^ 32 → drop begin key.now ≡ primary.now → result ≡ Some begin }
{
    let (_, rest) = key.split_at(begin);
    if rest != primary {
        return None;
    }
    u32::try_from(begin).ok()
}

fn insert_begin(
    begins: &mut BTreeMap<Bytes, u32>,
    key: Bytes,
    begin: u32,
) -> Result<bool, AllocError>
    ensures is_new { IfOk result (λ is_new. is_new ≡ not (has_entry key begins.old.entries)) }
    ensures ok { OnOk result (begins.new.entries ≡ with_entry key begin begins.old.entries) }
    ensures err { OnErr result (begins.new.entries ≡ begins.old.entries) }
{
    match begins.entry(key)? {
        Entry::Vacant(place) => {
            place.insert(begin);
            Ok(true)
        }
        Entry::Occupied(_) => Ok(false),
    }
}

fn first_begin<'a>(begins: &'a BTreeMap<Bytes, u32>, key: &Bytes) -> Option<(&'a Bytes, &'a u32)>
    ensures { option_map (λ entry. (entry.0.now, entry.1.now)) result ≡ first_from key.now begins.now.entries }
{
    begins
        .range((Bound::Included(key), Bound::Unbounded))
        .next()
}
