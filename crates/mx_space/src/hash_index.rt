//! An index that finds its entries by the hash of their index keys.

ghost use Rattle.std.specs.Prelude.{◌≡◌, ◌≢◌, ◌++◌, ◌≤◌, ℕ, List, [], drop, length, not, take, nat_eq, if◌then◌else◌, Some, None, IfOk, IfSome, MatchOption, OnOk, OnErr};
ghost use Rattle.std.specs.BTreeMap.{is_at};
ghost use Rattle.std.specs.Cmp.Lexicographic.{slice_cmp};
ghost use Rattle.std.specs.FinMap.{entries};
ghost use Rattle.std.specs.HashMap.{IsUnique};
ghost use Rattle.std.specs.List.Sorted.{IsStrictlySortedBy};
ghost use Rattle.std.specs.Map.{keys_of, lookup, remove_entry};
ghost use Rattle.std.specs.Option.{option_map};
ghost use Rattle.std.specs.Ordering.{nat_cmp};
ghost use Rattle.std.specs.Str.{bytes_eq};
ghost use Rattle.mx_hash.specs.Views.{map_of};
ghost use Rattle.mx_key.specs.Prefixes.{prefix_size};
ghost use Rattle.mx_space.specs.declared.held_entry.HeldEntry.{HeldEntry};
ghost use Rattle.mx_entries.specs.Entries.{IndexEntry, LeadsOnce, LeadsTo, has_entry, with_entry};
ghost use Rattle.mx_space.specs.HashIndexes.{AreFronted, ArePlaced, hash_index_entries, hash_number, held_entries, key_hash};

use crate::entries::whole_entry;
use crate::held_entry::HeldEntry;
use crate::index::Index;
use crate::scan::behind;
use crate::tree_index::{TreeIndex, begin_at};
use mx_key::prefix_size;
use mx_msgpack::Bytes;
use std::alloc::{AllocError, Global};
use std::collections::HashMap;
use std::hash::{FoldHasher, Hasher};
use std::marker::Model;

/// The entries of an index in no order.
#[derive(Drop)]
pub struct HashIndex {
    // How many parts an index key has.
    parts: usize,
    // An entry by the hash of its index key.
    held: HashMap<u64, HeldEntry>,
    // Entries whose hash is that of one that is held: while a commit is ready, two may have one index key.
    others: TreeIndex,
}

impl Model for HashIndex {
    ghost use Rattle.std.specs.Prelude.{List, nat_eq};
    ghost use Rattle.std.specs.HashMap.{IsUnique};
    ghost use Rattle.mx_entries.specs.Entries.{IndexEntry};
    ghost use Rattle.mx_space.specs.HashIndexes.{AreFronted, ArePlaced, hash_index_entries};

    ghost Value = { List IndexEntry };

    ghost view = { λ h. hash_index_entries h.held.entries h.others };

    ghost invariant = { λ h. IsUnique nat_eq h.held × ArePlaced h.parts h.held.entries × AreFronted h.parts h.others };
}

impl HashIndex {
    /// No entries, of index keys with so many parts.
    pub fn new(alloc: Global, parts: usize) -> HashIndex
        ensures { result ≡ [] }
    {
        HashIndex {
            parts,
            held: HashMap::new(alloc),
            others: TreeIndex::new(alloc),
        }
    }

    /// A copy of the entries.
    pub(crate) fn copy(&self) -> Result<HashIndex, AllocError>
        ensures { IfOk result (λ copy. copy ≡ self.now) }
    {
        Ok(HashIndex {
            parts: self.parts,
            held: copy_of_held(&self.held)?,
            others: self.others.copy()?,
        })
    }

    /// Copies of the entries, in the order of their keys.
    pub(crate) fn in_order(&self, alloc: Global) -> Result<TreeIndex, AllocError>
        ensures { IfOk result (λ ordered. ordered ≡ self.now) }
    {
        ordered_of(alloc, &self.held, &self.others)
    }
}

impl Index for HashIndex {
    ghost entries = { λ h. h };

    fn insert(&mut self, key: Bytes, primary: &[u8]) -> Result<bool, AllocError> {
        insert_in(self.parts, &mut self.held, &mut self.others, key, primary)
    }

    fn remove(&mut self, key: &Bytes) {
        remove_in(self.parts, &mut self.held, &mut self.others, key);
    }

    fn clear(&mut self) {
        self.held.clear();
        self.others.clear();
    }

    fn find<'a>(&'a self, key: &Bytes) -> Option<(&'a [u8], &'a [u8])> {
        if let Some(found) = find_held(&self.held, hash_number(key.as_slice()), key) {
            return Some(found);
        }
        if self.others.len() == 0 {
            return None;
        }
        whole_entry(&self.others, key)
    }
}

fn copy_of_held(held: &HashMap<u64, HeldEntry>) -> Result<HashMap<u64, HeldEntry>, AllocError>
    ensures { IfOk result (λ copy. copy.entries ≡ held.now.entries) }
{
    held.clone()
}

fn ordered_of(
    alloc: Global,
    held: &HashMap<u64, HeldEntry>,
    others: &TreeIndex,
) -> Result<TreeIndex, AllocError>
    ensures { IfOk result (λ ordered. ordered ≡ hash_index_entries held.now.entries others.now) }
{
    let mut ordered = copy_of_others(alloc, others)?;
    add_held(&mut ordered, held)?;
    Ok(ordered)
}

/// Mostly there are none.
fn copy_of_others(alloc: Global, others: &TreeIndex) -> Result<TreeIndex, AllocError>
    ensures copy { IfOk result (λ copy. copy ≡ others.now) }
    ensures ordered { IfOk result (λ copy. IsStrictlySortedBy (slice_cmp nat_cmp) (keys_of copy)) }
{
    if others.len() == 0 {
        return Ok(TreeIndex::new(alloc));
    }
    others.copy()
}

/// Adds copies of the entries that are held, where none stands under their keys.
fn add_held(ordered: &mut TreeIndex, held: &HashMap<u64, HeldEntry>) -> Result<(), AllocError>
    ensures { (before : List IndexEntry) → ordered.old ≡ entries (map_of before) → OnOk result (ordered.new ≡ entries (map_of (before ++ held_entries held.now.entries))) }
{
    for (_, entry) in held {
        ordered.insert(entry.key.clone()?, behind(&entry.key, entry.begin))?;
    }
    Ok(())
}

fn remove_in(parts: usize, held: &mut HashMap<u64, HeldEntry>, others: &mut TreeIndex, key: &Bytes)
    requires unique { IsUnique nat_eq held.old }
    requires placed { ArePlaced parts held.old.entries }
    requires fronted { AreFronted parts others.old }
    ensures unique { IsUnique nat_eq held.new }
    ensures placed { ArePlaced parts held.new.entries }
    ensures fronted { AreFronted parts others.new }
    ensures entries { hash_index_entries held.new.entries others.new ≡ remove_entry (is_at (slice_cmp nat_cmp key.now)) (hash_index_entries held.old.entries others.old) }
{
    let (begin, place) = key_place(key, parts);
    remove_other(others, key);
    match is_held(held, place, key) {
        Some(true) => match waiting(others, key, begin) {
            Some(entry) => {
                others.remove(&entry.key);
                hold(held, place, entry);
            }
            None => {
                held.remove(&place);
            }
        },
        Some(false) => {}
        None => {}
    }
}

/// Mostly there are none.
fn remove_other(others: &mut TreeIndex, key: &Bytes)
    ensures without { others.new ≡ remove_entry (is_at (slice_cmp nat_cmp key.now)) others.old }
    ensures ordered { IsStrictlySortedBy (slice_cmp nat_cmp) (keys_of others.old) }
{
    if others.len() > 0 {
        others.remove(key);
    }
}

/// An entry with the index key that begins this key and ends there.
fn waiting(others: &TreeIndex, key: &Bytes, begin: usize) -> Option<HeldEntry>
    ensures waits { IfSome result (λ entry. (entry.begin ≡ length (take begin key.now)) × (take entry.begin entry.key ≡ take begin key.now)
        × (lookup (is_at (slice_cmp nat_cmp entry.key)) others.now ≡ Some (drop entry.begin entry.key))) }
    ensures ordered { IsStrictlySortedBy (slice_cmp nat_cmp) (keys_of others.now) }
{
    if others.len() == 0 {
        return None;
    }
    let mut own = key.clone().ok()?;
    own.truncate(begin);
    let (_, primary) = whole_entry(others, &own)?;
    let begin = u32::try_from(own.len()).ok()?;
    own.extend_from_slice(primary).ok()?;
    Some(HeldEntry { key: own, begin })
}

/// Puts an entry in the place of the one that is held by a hash.
fn hold(held: &mut HashMap<u64, HeldEntry>, place: u64, entry: HeldEntry)
    requires there { lookup (nat_eq place) held.old.entries ≢ None }
    requires unique { IsUnique nat_eq held.old }
    ensures unique { IsUnique nat_eq held.new }
    ensures holds { (n : ℕ) → lookup (nat_eq n) held.new.entries ≡ (if nat_eq place n then Some entry else lookup (nat_eq n) held.old.entries) }
{
    let before: Result<_, _> = held.insert(place, entry);
    before.unwrap();
}

fn insert_in(
    parts: usize,
    held: &mut HashMap<u64, HeldEntry>,
    others: &mut TreeIndex,
    key: Bytes,
    primary: &[u8],
) -> Result<bool, AllocError>
    requires unique { IsUnique nat_eq held.old }
    requires placed { ArePlaced parts held.old.entries }
    requires fronted { AreFronted parts others.old }
    ensures unique { IsUnique nat_eq held.new }
    ensures placed { ArePlaced parts held.new.entries }
    ensures fronted { AreFronted parts others.new }
    ensures is_new { IfOk result (λ is_new. is_new ≡ not (has_entry key (hash_index_entries held.old.entries others.old))) }
    ensures ok { OnOk result (hash_index_entries held.new.entries others.new ≡ with_entry key primary.now (hash_index_entries held.old.entries others.old)) }
    ensures err { OnErr result (hash_index_entries held.new.entries others.new ≡ hash_index_entries held.old.entries others.old) }
{
    let (begin, place) = key_place(&key, parts);
    let Some(begin) = begin_at(key.as_slice(), begin, primary) else {
        return Err(AllocError);
    };
    match is_held(held, place, &key) {
        Some(true) => Ok(false),
        Some(false) => others.insert(key, primary),
        None => {
            if others.contains_key(&key) {
                return Ok(false);
            }
            held.insert(place, HeldEntry { key, begin })?;
            Ok(true)
        }
    }
}

/// Where the index key ends that begins an entry's key, and the hash of it.
fn key_place(key: &Bytes, parts: usize) -> (usize, u64)
    ensures begin { result.0 ≡ prefix_size parts key.now }
    ensures within { result.0 ≤ length key.now }
    ensures place { result.1 ≡ key_hash parts key.now }
{
    let begin = prefix_size(key.as_slice(), parts);
    let (own, _) = key.as_slice().split_at(begin);
    (begin, hash_number(own))
}

/// Whether the entry that is held by a hash has this key; `None` where none is.
fn is_held(held: &HashMap<u64, HeldEntry>, place: u64, key: &Bytes) -> Option<bool>
    ensures { MatchOption result
        (lookup (nat_eq place) held.now.entries ≡ None)
        (λ is. (entry : HeldEntry) × (lookup (nat_eq place) held.now.entries ≡ Some entry) × (bytes_eq key.now entry.key ≡ is)) }
{
    let entry = held.get(&place)?;
    Some(entry.key == *key)
}

/// The entry that is held by a hash, where its index key is this one.
fn find_held<'a>(
    held: &'a HashMap<u64, HeldEntry>,
    place: u64,
    key: &Bytes,
) -> Option<(&'a [u8], &'a [u8])>
    ensures { MatchOption result
        ((entry : HeldEntry) → lookup (nat_eq place) held.now.entries ≡ Some entry → take entry.begin entry.key ≢ key.now)
        (λ found. (entry : HeldEntry) × (lookup (nat_eq place) held.now.entries ≡ Some entry) × (take entry.begin entry.key ≡ key.now)
        × (found.0.now ≡ key.now) × (found.1.now ≡ drop entry.begin entry.key)) }
{
    let entry = held.get(&place)?;
    let whole = entry.key.as_slice();
    let (own, primary) = whole.split_at((entry.begin as usize).min(whole.len()));
    if own != key.as_slice() {
        return None;
    }
    Some((own, primary))
}

/// The hash of some bytes.
fn hash_number(bytes: &[u8]) -> u64
    ensures { result ≡ hash_number bytes.now }
{
    let mut hasher = FoldHasher::default();
    hasher.write(bytes);
    hasher.finish()
}
