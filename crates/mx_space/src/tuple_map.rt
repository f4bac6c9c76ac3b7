//! The tuples of a space.

ghost use Rattle.std.specs.Prelude.{◌≡◌, [], is_some, take, IfOk, IsSome, OnOk, OnErr};
ghost use Rattle.std.specs.BTreeMap.{insert_entry, is_at};
ghost use Rattle.std.specs.Cmp.Lexicographic.{slice_cmp};
ghost use Rattle.std.specs.Map.{keys_of, lookup, lookup_entry, remove_entry, set_value};
ghost use Rattle.std.specs.Option.{option_copied, option_map};
ghost use Rattle.std.specs.Ordering.{nat_cmp};
ghost use Rattle.mx_space.specs.TupleViews.{ordered_entries};

use crate::copy::copy_of_entries;
use crate::hash_tuples::HashTuples;
use crate::kept_tuples::KeptTuples;
use crate::ordered_tuples::OrderedTuples;
use mx_msgpack::Bytes;
use mx_schema::IndexKind;
use std::alloc::{AllocError, Global};
use std::collections::BTreeMap;
use std::marker::Model;

/// The tuples of a space by the comparable bytes of their primary keys. A contract sees them in the order
/// of these.
#[derive(Drop)]
pub(crate) struct TupleMap {
    kept: KeptTuples,
}

impl Model for TupleMap {
    ghost use Rattle.mx_entries.specs.TupleMaps.{TupleEntries};
    ghost use Rattle.mx_space.specs.HashViews.{tuple_entries, tuple_entries_code};
    ghost use Rattle.mx_space.specs.TupleViews.{tuples_kept};

    ghost Value = { TupleEntries };

    ghost coded = { tuple_entries_code };

    ghost view = { λ t. tuple_entries (tuples_kept t.kept) };
}

impl TupleMap {
    /// No tuples, for a primary index of this type.
    pub(crate) fn new(alloc: Global, kind: IndexKind) -> TupleMap
        ensures empty { result.entries ≡ [] }
    {
        let kept = match kind {
            IndexKind::Tree => KeptTuples::Tree(BTreeMap::new(alloc)),
            IndexKind::Hash => KeptTuples::Hash(HashTuples::new(alloc)),
        };
        TupleMap { kept }
    }

    /// A copy of the tuples: of a tree node by node.
    pub(crate) fn copy(&self) -> Result<TupleMap, AllocError>
        ensures { IfOk result (λ copy. copy.entries ≡ self.now.entries) }
    {
        let kept = match &self.kept {
            KeptTuples::Tree(tuples) => KeptTuples::Tree(copy_of_entries(tuples)?),
            KeptTuples::Hash(tuples) => KeptTuples::Hash(tuples.copy()?),
        };
        Ok(TupleMap { kept })
    }

    /// The tuple under a key.
    #[inline]
    pub(crate) fn get(&self, key: &Bytes) -> Option<&Bytes>
        ensures value { option_copied result ≡ lookup (is_at (slice_cmp nat_cmp key.now)) self.now.entries }
    {
        match &self.kept {
            KeptTuples::Tree(tuples) => tuples.get(key),
            KeptTuples::Hash(tuples) => tuples.get(key),
        }
    }

    /// The tuple under a key, with the key that is kept.
    pub(crate) fn get_key_value(&self, key: &Bytes) -> Option<(&Bytes, &Bytes)>
        ensures { option_map (λ entry. (entry.0.now, entry.1.now)) result ≡ lookup_entry (is_at (slice_cmp nat_cmp key.now)) self.now.entries }
    {
        match &self.kept {
            KeptTuples::Tree(tuples) => entry_in_tree(tuples, key),
            KeptTuples::Hash(tuples) => tuples.get_key_value(key),
        }
    }

    /// Whether there is a tuple under a key.
    pub(crate) fn contains_key(&self, key: &Bytes) -> bool
        ensures { result ≡ is_some (lookup (is_at (slice_cmp nat_cmp key.now)) self.now.entries) }
    {
        self.get(key).is_some()
    }

    /// Puts a tuple under a key, and returns the one that was there.
    ///
    /// # Errors
    /// Out of memory. Nothing changed then.
    pub(crate) fn insert(&mut self, key: Bytes, tuple: Bytes) -> Result<Option<Bytes>, AllocError>
        ensures old { IfOk result (λ old. old ≡ lookup (is_at (slice_cmp nat_cmp key)) self.old.entries) }
        ensures entries { OnOk result (self.new.entries ≡ insert_entry (slice_cmp nat_cmp) self.old.entries key tuple) }
        ensures keys_stay { IfOk result (λ old. IsSome old → keys_of self.new.entries ≡ keys_of self.old.entries) }
        ensures err { OnErr result (self.new.entries ≡ self.old.entries) }
    {
        match &mut self.kept {
            KeptTuples::Tree(tuples) => {
                let old = tuples.insert(key, tuple)?;
                Ok(old)
            }
            KeptTuples::Hash(tuples) => tuples.insert(key, tuple),
        }
    }

    /// Puts a tuple in the place of the one under a key, where there is one.
    pub(crate) fn set(&mut self, key: &Bytes, tuple: Bytes)
        ensures { self.new.entries ≡ set_value (is_at (slice_cmp nat_cmp key.now)) self.old.entries tuple }
    {
        match &mut self.kept {
            KeptTuples::Tree(tuples) => set_in_tree(tuples, key, tuple),
            KeptTuples::Hash(tuples) => tuples.set(key, tuple),
        }
    }

    /// Takes the tuple under a key out, where there is one.
    pub(crate) fn remove(&mut self, key: &Bytes)
        ensures entries { self.new.entries ≡ remove_entry (is_at (slice_cmp nat_cmp key.now)) self.old.entries }
    {
        match &mut self.kept {
            KeptTuples::Tree(tuples) => {
                tuples.remove(key);
            }
            KeptTuples::Hash(tuples) => tuples.remove(key),
        }
    }

    /// Takes all tuples out.
    pub(crate) fn clear(&mut self)
        ensures empty { self.new.entries ≡ [] }
    {
        match &mut self.kept {
            KeptTuples::Tree(tuples) => tuples.clear(),
            KeptTuples::Hash(tuples) => tuples.clear(),
        }
    }

    /// The tuples in the order of their keys: copies of them, where they are kept in no order.
    pub(crate) fn in_order(&self, alloc: Global) -> Result<OrderedTuples<'_>, AllocError>
        ensures { IfOk result (λ ordered. ordered_entries ordered ≡ self.now.entries) }
    {
        match &self.kept {
            KeptTuples::Tree(tuples) => Ok(OrderedTuples::Kept(tuples)),
            KeptTuples::Hash(tuples) => Ok(OrderedTuples::Made(tuples.in_order(alloc)?)),
        }
    }

    /// As `in_order`, of which only the first so many tuples are asked for.
    pub(crate) fn first(&self, alloc: Global, count: usize) -> Result<OrderedTuples<'_>, AllocError>
        ensures { IfOk result (λ ordered. take count (ordered_entries ordered) ≡ take count self.now.entries) }
    {
        match &self.kept {
            KeptTuples::Tree(tuples) => Ok(OrderedTuples::Kept(tuples)),
            KeptTuples::Hash(tuples) => Ok(OrderedTuples::Made(tuples.first(alloc, count)?)),
        }
    }

    /// The tuples in the order of their keys.
    pub(crate) fn into_ordered(self, alloc: Global) -> Result<BTreeMap<Bytes, Bytes>, AllocError>
        ensures { IfOk result (λ ordered. ordered.entries ≡ self.entries) }
    {
        match self.kept {
            KeptTuples::Tree(tuples) => Ok(tuples),
            KeptTuples::Hash(tuples) => tuples.in_order(alloc),
        }
    }
}

fn entry_in_tree<'a>(
    tuples: &'a BTreeMap<Bytes, Bytes>,
    key: &Bytes,
) -> Option<(&'a Bytes, &'a Bytes)>
    ensures { option_map (λ entry. (entry.0.now, entry.1.now)) result ≡ lookup_entry (is_at (slice_cmp nat_cmp key.now)) tuples.now.entries }
{
    tuples.get_key_value(key)
}

fn set_in_tree(tuples: &mut BTreeMap<Bytes, Bytes>, key: &Bytes, tuple: Bytes)
    ensures { tuples.new.entries ≡ set_value (is_at (slice_cmp nat_cmp key.now)) tuples.old.entries tuple }
{
    if let Some(place) = tuples.get_mut(key) {
        *place = tuple;
    }
}
