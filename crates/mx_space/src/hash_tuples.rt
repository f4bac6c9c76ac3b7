//! Tuples that are found by the hash of their primary keys.

ghost use Rattle.std.specs.Prelude.{◌≡◌, ◌↔◌, ◌≤◌, List, [], length, take, true, IfOk, IsSome, IsTrue, OnOk, OnErr};
ghost use Rattle.std.specs.BTreeMap.{insert_entry, is_at};
ghost use Rattle.std.specs.Cmp.Lexicographic.{slice_cmp};
ghost use Rattle.std.specs.declared.cmp.Ordering.TheVariants.{Greater};
ghost use Rattle.std.specs.List.{AllByRecursion};
ghost use Rattle.std.specs.Map.{keys_of, lookup, lookup_entry, remove_entry, set_value};
ghost use Rattle.std.specs.Option.{option_copied, option_map};
ghost use Rattle.std.specs.Ordering.{nat_cmp};
ghost use Rattle.std.specs.Result.{is_ok};
ghost use Rattle.mx_schema.specs.Stored.{StoredTuple};
ghost use Rattle.mx_space.specs.HashViews.{hash_entries};

use crate::copy::set_entry;
use mx_msgpack::Bytes;
use std::alloc::{AllocError, Global};
use std::cmp::Ord;
use std::collections::{BTreeMap, HashMap};
use std::marker::Model;

/// Tuples by the comparable bytes of their primary keys, in no order.
#[derive(Drop)]
pub(crate) struct HashTuples {
    tuples: HashMap<Bytes, Bytes>,
}

impl Model for HashTuples {
    ghost use Rattle.mx_entries.specs.TupleMaps.{TupleEntries};
    ghost use Rattle.mx_space.specs.HashViews.{hash_entries, tuple_entries, tuple_entries_code};

    ghost Value = { TupleEntries };

    ghost coded = { tuple_entries_code };

    ghost view = { λ h. tuple_entries (hash_entries h.tuples.entries) };
}

impl HashTuples {
    /// No tuples.
    pub(crate) fn new(alloc: Global) -> HashTuples
        ensures { result.entries ≡ [] }
    {
        HashTuples {
            tuples: HashMap::new(alloc),
        }
    }

    /// A copy of the tuples.
    pub(crate) fn copy(&self) -> Result<HashTuples, AllocError>
        ensures { IfOk result (λ copy. copy.entries ≡ self.now.entries) }
    {
        Ok(HashTuples {
            tuples: self.tuples.clone()?,
        })
    }

    /// The tuple under a key.
    // A call of its own, so that those that look in a tree stay small.
    #[inline(never)]
    pub(crate) fn get(&self, key: &Bytes) -> Option<&Bytes>
        ensures { option_copied result ≡ lookup (is_at (slice_cmp nat_cmp key.now)) self.now.entries }
    {
        self.tuples.get(key)
    }

    /// The tuple under a key, with the key that is kept.
    pub(crate) fn get_key_value(&self, key: &Bytes) -> Option<(&Bytes, &Bytes)>
        ensures { option_map (λ entry. (entry.0.now, entry.1.now)) result ≡ lookup_entry (is_at (slice_cmp nat_cmp key.now)) self.now.entries }
    {
        self.tuples.get_key_value(key)
    }

    /// Puts a tuple under a key, and returns the one that was there.
    ///
    /// # Errors
    /// Out of memory. Nothing changed then.
    pub(crate) fn insert(&mut self, key: Bytes, tuple: Bytes) -> Result<Option<Bytes>, AllocError>
        ensures old { IfOk result (λ old. old ≡ lookup (is_at (slice_cmp nat_cmp key)) self.old.entries) }
        ensures ok { OnOk result (self.new.entries ≡ insert_entry (slice_cmp nat_cmp) self.old.entries key tuple) }
        ensures keys_stay { IfOk result (λ old. IsSome old → keys_of self.new.entries ≡ keys_of self.old.entries) }
        ensures err { OnErr result (self.new.entries ≡ self.old.entries) }
    {
        let old = self.tuples.insert(key, tuple)?;
        Ok(old)
    }

    /// Puts a tuple in the place of the one under a key, where there is one.
    pub(crate) fn set(&mut self, key: &Bytes, tuple: Bytes)
        ensures { self.new.entries ≡ set_value (is_at (slice_cmp nat_cmp key.now)) self.old.entries tuple }
    {
        set_in(&mut self.tuples, key, tuple);
    }

    /// Takes the tuple under a key out, where there is one.
    pub(crate) fn remove(&mut self, key: &Bytes)
        ensures { self.new.entries ≡ remove_entry (is_at (slice_cmp nat_cmp key.now)) self.old.entries }
    {
        self.tuples.remove(key);
    }

    /// Takes all tuples out.
    pub(crate) fn clear(&mut self)
        ensures { self.new.entries ≡ [] }
    {
        self.tuples.clear();
    }

    /// Copies of the tuples, in the order of their keys.
    pub(crate) fn in_order(&self, alloc: Global) -> Result<BTreeMap<Bytes, Bytes>, AllocError>
        ensures { IfOk result (λ ordered. ordered.entries ≡ self.now.entries) }
    {
        copies_of(alloc, &self.tuples)
    }

    /// Copies of the first so many tuples in the order of their keys.
    pub(crate) fn first(
        &self,
        alloc: Global,
        count: usize,
    ) -> Result<BTreeMap<Bytes, Bytes>, AllocError>
        ensures { IfOk result (λ first. first.entries ≡ take count self.now.entries) }
    {
        first_of(alloc, &self.tuples, count)
    }
}

fn set_in(tuples: &mut HashMap<Bytes, Bytes>, key: &Bytes, tuple: Bytes)
    ensures { hash_entries tuples.new.entries ≡ set_value (is_at (slice_cmp nat_cmp key.now)) (hash_entries tuples.old.entries) tuple }
{
    if let Some(place) = tuples.get_mut(key) {
        *place = tuple;
    }
}

fn copies_of(
    alloc: Global,
    tuples: &HashMap<Bytes, Bytes>,
) -> Result<BTreeMap<Bytes, Bytes>, AllocError>
    ensures { IfOk result (λ ordered. ordered.entries ≡ hash_entries tuples.now.entries) }
{
    let mut ordered = BTreeMap::new(alloc);
    for (key, tuple) in tuples {
        set_entry(&mut ordered, key.clone()?, tuple.clone()?)?;
    }
    Ok(ordered)
}

fn first_of(
    alloc: Global,
    tuples: &HashMap<Bytes, Bytes>,
    count: usize,
) -> Result<BTreeMap<Bytes, Bytes>, AllocError>
    ensures { IfOk result (λ first. first.entries ≡ take count (hash_entries tuples.now.entries)) }
{
    let mut first = BTreeMap::new(alloc);
    for (key, tuple) in tuples {
        add_first(&mut first, count, key, tuple)?;
    }
    Ok(first)
}

/// Adds a copy of a tuple to the first so many of others, where it is one of the first then.
fn add_first(
    first: &mut BTreeMap<Bytes, Bytes>,
    count: usize,
    key: &Bytes,
    tuple: &Bytes,
) -> Result<(), AllocError>
    ensures first { (all : List StoredTuple) → first.old.entries ≡ take count all → OnOk result (first.new.entries ≡ take count (insert_entry (slice_cmp nat_cmp) all key.now tuple.now)) }
    ensures no_copy { count ≤ length first.old.entries → AllByRecursion (λ (entry : StoredTuple). slice_cmp nat_cmp key.now entry.0 ≡ Greater) first.old.entries → is_ok result ≡ true }
{
    if first.len() >= count && is_above(first, key) {
        return Ok(());
    }
    set_entry(first, key.clone()?, tuple.clone()?)?;
    if first.len() > count {
        first.pop_last();
    }
    Ok(())
}

/// Whether a key is greater than all those of tuples.
fn is_above(tuples: &BTreeMap<Bytes, Bytes>, key: &Bytes) -> bool
    ensures { IsTrue result ↔ AllByRecursion (λ (entry : StoredTuple). slice_cmp nat_cmp key.now entry.0 ≡ Greater) tuples.now.entries }
{
    match tuples.last_key_value() {
        Some((last, _)) => last.cmp(key).is_lt(),
        None => true,
    }
}
