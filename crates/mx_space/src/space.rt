//! A space with its indexes.

ghost use Rattle.std.specs.Prelude.{◌≡◌, ◌≢◌, ◌⊎◌, ◌↔◌, ◌<◌, ℕ, List, length, Option, Some, None, Ok, true, IsTrue, IfOk, OnOk, OnErr, MatchOption, MatchResult, ◌==◌, if◌then◌else◌};
ghost use Rattle.std.specs.BTreeMap.Range.{IsLeBy, IsLtBy};
ghost use Rattle.std.specs.Cmp.Lexicographic.{slice_cmp};
ghost use Rattle.std.specs.FinMap as finite;
ghost use Rattle.std.specs.List.{AllZip};
ghost use Rattle.std.specs.Option.{option_copied};
ghost use Rattle.std.specs.Ordering.{nat_cmp};
ghost use Rattle.std.specs.Range.Bound.{IsForward};
ghost use Rattle.mx_msgpack.specs.Items.{IsArray};
ghost use Rattle.mx_key.specs.Comparable.{bound_of, comparable_of, edges_of};
ghost use Rattle.mx_key.specs.Keys.{Key, AreFit};
ghost use Rattle.mx_key.specs.Parts.{key_of_array};
ghost use Rattle.mx_key.specs.Ranges.{range_of};
ghost use Rattle.mx_schema.specs.declared.index_def.IndexDef as indexed;
ghost use Rattle.mx_schema.specs.declared.schema.Schema as described;
ghost use Rattle.mx_schema.specs.Catalogues.{index_with};
ghost use Rattle.mx_schema.specs.Picks.{tuples_by_index};
ghost use Rattle.mx_schema.specs.SchemaChanges.{schema_with_index, schema_without_index};
ghost use Rattle.mx_schema.specs.Sound.{AreUnique, HaveKeys};
ghost use Rattle.mx_schema.specs.State as plain;
ghost use Rattle.mx_schema.specs.State.{key_in};
ghost use Rattle.mx_schema.specs.Stored.{StoresTuples};
ghost use Rattle.mx_entries.specs.declared.build_fault.BuildFault.TheVariants.{NoMemory};
ghost use Rattle.mx_entries.specs.Builds.{build_fault};
ghost use Rattle.mx_entries.specs.Built.{AreLong};
ghost use Rattle.mx_space.specs.Changes.{Puts, Removes};
ghost use Rattle.mx_entries.specs.EntryChanges.{index_kept};
ghost use Rattle.mx_entries.specs.KeptEntries.{StoresEntries, kept_entries};
ghost use Rattle.mx_space.specs.Kept.{StoresIndexed};
ghost use Rattle.mx_space.specs.Reserved.{EditsAll, IsStepOf, content_of, content_installed, content_readied, content_released};
ghost use Rattle.mx_entries.specs.Scans.{Selects, SelectsByKey};
ghost use Rattle.mx_entries.specs.Windows.{keys_read};

use crate::build::new_entries;
use crate::change::{Change, put_all, remove_all};
use crate::changes::{changes_of, edits_of, removals_of};
use crate::copy::copy_of_indexes;
use crate::pick::Source;
use crate::places::{
    clear_all, find_index, insert_index, place_behind, remove_index, remove_indexes,
};
use crate::prepared::Step;
use crate::reserve::{put_back, remove_added, remove_replaced, remove_tuple, reserve_parts};
use crate::selection::{keys_read, select_entries};
use crate::space_index::SpaceIndex;
use crate::tuple_changes::TupleChange;
use crate::tuple_map::TupleMap;
use crate::whole_row::{find_row, select_row, whole_key};
use mx_base::IndexId;
use mx_entries::{BuildFault, Pick, SelectFault, SelectStop};
use mx_key::{KeyRange, range_of_key};
use mx_msgpack::{Bytes, Tuples};
use mx_schema::{IndexDef, IndexKind, Keyed, Schema};
use std::alloc::{AllocError, Global};
use std::collections::BTreeMap;

/// A space: what describes it, its tuples by the comparable bytes of their primary keys, and the entries of
/// each index, where that of the number 0 has none.
#[derive(Drop)]
pub struct Space {
    schema: Schema,
    tuples: TupleMap,
    indexes: Vec<SpaceIndex>,
}

impl Space {
    /// A space that is described so, without tuples.
    pub fn new(alloc: Global, schema: Schema) -> Result<Space, AllocError>
        ensures { IfOk result (λ space. StoresIndexed (Some schema) space finite.empty) }
    {
        Space::of(alloc, schema, false)
    }

    /// The same, where tuples and entries are kept in order whatever the types of the indexes.
    pub(crate) fn of_trees(alloc: Global, schema: Schema) -> Result<Space, AllocError>
        ensures { IfOk result (λ space. StoresIndexed (Some schema) space finite.empty) }
    {
        Space::of(alloc, schema, true)
    }

    fn of(alloc: Global, schema: Schema, is_ordered: bool) -> Result<Space, AllocError>
        ensures { IfOk result (λ space. StoresIndexed (Some schema) space finite.empty) }
    {
        let mut indexes = Vec::new(alloc);
        let mut left = schema.indexes.as_slice();
        while let Some((def, others)) = left.split_first() {
            let kind = kept_kind(def.kind, is_ordered);
            indexes.push(SpaceIndex::new(alloc, kind, def.key.len()))?;
            left = others;
        }
        let kind = kept_kind(primary_kind(&schema), is_ordered);
        Ok(Space {
            schema,
            tuples: TupleMap::new(alloc, kind),
            indexes,
        })
    }

    /// A copy of the space, with its tuples and the entries of each index.
    pub fn copy(&self, alloc: Global) -> Result<Space, AllocError>
        ensures { IfOk result (λ copy. content_of copy ≡ content_of self.now) }
    {
        Ok(Space {
            schema: self.schema.copy(alloc)?,
            tuples: self.tuples.copy()?,
            indexes: copy_of_indexes(alloc, self.indexes.as_slice())?,
        })
    }

    /// What describes the space.
    pub fn schema(&self) -> &Schema
        ensures { result.now ≡ self.now.schema }
    {
        &self.schema
    }

    /// The tuples by the comparable bytes of their primary keys.
    pub(crate) fn tuples(&self) -> &TupleMap
        ensures { result.now ≡ self.now.tuples }
    {
        &self.tuples
    }

    /// What describes the space, and its tuples by the comparable bytes of their primary keys.
    ///
    /// # Errors
    /// Out of memory.
    pub fn into_parts(self, alloc: Global) -> Result<(Schema, BTreeMap<Bytes, Bytes>), AllocError>
        ensures { IfOk result (λ parts. (parts.0 ≡ self.schema) × (parts.1.entries ≡ self.tuples.entries)) }
    {
        Ok((self.schema, self.tuples.into_ordered(alloc)?))
    }

    /// The tuple whose primary key has these comparable bytes.
    pub fn tuple(&self, key: &Bytes) -> Option<&[u8]>
        ensures { (all : plain.Tuples) (wanted : Key) → StoresTuples self.now.tuples.entries all → AreFit wanted → key.now ≡ comparable_of wanted
            → option_copied result ≡ finite.get all wanted }
    {
        let tuple = self.tuples.get(key)?;
        Some(tuple.as_slice())
    }

    /// As `State::select`, by the entries that are kept of an index of another number than 0.
    pub(crate) fn select(
        &self,
        alloc: Global,
        def: &IndexDef,
        wanted: &Pick<'_>,
        found: &mut Tuples,
    ) -> Result<Option<KeyRange>, SelectFault>
        requires array { IsArray wanted.now.key.now }
        ensures { (schema : Option described.Schema) (all : plain.Tuples) (long : ℕ) → StoresIndexed schema self.now all → AreLong long all
            → index_with def.now.id.0 self.now.schema.indexes ≡ Some def.now → def.now.id.0 ≢ 0
            → HaveKeys def.now all → (def.now.unique ≡ true → AreUnique def.now all)
            → SelectsByKey (finite.entries (tuples_by_index def.now all)) def.now wanted.now found.new result }
    {
        let mut range = range_of_key(alloc, &def.key, wanted.iterator, wanted.key)?;
        let Some(index) = self.index(def.id) else {
            return Err(SelectFault::NoMemory);
        };
        let is_read = self.select_by(alloc, index, def, &mut range, wanted, found);
        keys_read(is_read, range)
    }

    /// As `select`, of the range of a key, which becomes the range that was read. Tells whether any was.
    fn select_by(
        &self,
        alloc: Global,
        index: &SpaceIndex,
        def: &IndexDef,
        range: &mut KeyRange,
        wanted: &Pick<'_>,
        found: &mut Tuples,
    ) -> Result<bool, SelectStop>
        requires array { IsArray wanted.now.key.now }
        requires forward { IsForward (IsLeBy (slice_cmp nat_cmp)) (IsLtBy (slice_cmp nat_cmp)) (bound_of range.old.low) (bound_of range.old.high) }
        ensures { (schema : Option described.Schema) (all : plain.Tuples) (long : ℕ) (key : Key) → StoresIndexed schema self.now all → AreLong long all
            → index_with def.now.id.0 self.now.schema.indexes ≡ Some def.now → def.now.id.0 ≢ 0
            → HaveKeys def.now all → (def.now.unique ≡ true → AreUnique def.now all) → StoresEntries index.now (kept_entries def.now all)
            → key_of_array def.now.key wanted.now.key.now ≡ Ok key → AreFit key → range.old ≡ edges_of (range_of wanted.now.iterator key)
            → Selects (finite.entries (tuples_by_index def.now all)) wanted.now key found.new (keys_read result range.new) }
    {
        if let Some(key) = whole_key(def, range, wanted) {
            let row = find_row(alloc, index, &self.tuples, key)?;
            return select_row(alloc, row, range, wanted, found);
        }
        let source = Source::Tuples {
            alloc,
            tuples: &self.tuples,
            unique: def.unique,
        };
        let ordered = index.in_order(alloc)?;
        select_entries(alloc, ordered.as_tree(), source, range, wanted, found)
    }

    /// Puts a tuple in the place of the one that has its primary key, in every index. The space has an index
    /// of the number 0, and the key is the tuple's in it.
    ///
    /// # Errors
    /// Out of memory. Nothing changed then.
    pub fn put(&mut self, alloc: Global, keyed: Keyed) -> Result<(), AllocError>
        ensures schema { self.new.schema ≡ self.old.schema }
        ensures ok { (schema : Option described.Schema) (all : plain.Tuples) (primary : indexed.IndexDef) (key : Key) → StoresIndexed schema self.old all
            → index_with 0 self.old.schema.indexes ≡ Some primary → key_in primary.key keyed.tuple ≡ Ok key → AreFit key → keyed.key ≡ comparable_of key
            → OnOk result (StoresIndexed schema self.new (finite.insert all key keyed.tuple)) }
        ensures err { (schema : Option described.Schema) (all : plain.Tuples) → StoresIndexed schema self.old all → OnErr result (StoresIndexed schema self.new all) }
    {
        if self.has_one_index() {
            self.tuples.insert(keyed.key, keyed.tuple)?;
            return Ok(());
        }
        let changes = self.changes(alloc, &keyed)?;
        put_all(
            alloc,
            &mut self.tuples,
            self.indexes.as_mut_slice(),
            changes.as_slice(),
            keyed,
        )
    }

    /// Takes the tuple whose primary key has these comparable bytes out of every index, where there is one.
    ///
    /// # Errors
    /// Out of memory. Nothing changed then.
    pub fn remove(&mut self, alloc: Global, key: &Bytes) -> Result<(), AllocError>
        ensures schema { self.new.schema ≡ self.old.schema }
        ensures ok { (schema : Option described.Schema) (all : plain.Tuples) (primary : indexed.IndexDef) (wanted : Key) → StoresIndexed schema self.old all
            → index_with 0 self.old.schema.indexes ≡ Some primary → AreFit wanted → key.now ≡ comparable_of wanted
            → OnOk result (StoresIndexed schema self.new (finite.remove all wanted)) }
        ensures err { (schema : Option described.Schema) (all : plain.Tuples) → StoresIndexed schema self.old all → OnErr result (StoresIndexed schema self.new all) }
    {
        if self.has_one_index() {
            self.tuples.remove(key);
            return Ok(());
        }
        let Some(keys) = self.removals(alloc, key)? else {
            return Ok(());
        };
        remove_all(self.indexes.as_mut_slice(), keys.as_slice());
        self.tuples.remove(key);
        Ok(())
    }

    /// Adds an index and makes its entries. A space that gets a primary index has no tuples, and one that
    /// gets another index has a primary one.
    ///
    /// # Errors
    /// The fault of the first tuple, in the order of primary keys, that has no key in the index or, in a
    /// unique one, the key of a tuple before it; or out of memory. Nothing changed then.
    pub fn add_index(&mut self, alloc: Global, def: IndexDef) -> Result<(), BuildFault>
        ensures builds { (was : Option described.Schema) (all : plain.Tuples) → StoresIndexed was self.old all
            → (def.id.0 ≡ 0 → all ≡ finite.empty) → (def.id.0 ≢ 0 → index_with 0 self.old.schema.indexes ≢ None)
            → MatchResult result
            (λ _. (build_fault def all ≡ None) × StoresIndexed (Some (schema_with_index def self.old.schema)) self.new all)
            (λ why. (build_fault def all ≡ Some why) ⊎ (why ≡ NoMemory)) }
        ensures err { (was : Option described.Schema) (all : plain.Tuples) → StoresIndexed was self.old all → OnErr result (StoresIndexed was self.new all) }
    {
        let index = new_entries(alloc, &def, &self.tuples)?;
        let place = place_behind(self.schema.indexes.as_slice(), def.id);
        let is_primary = def.id.0 == 0;
        let kind = def.kind;
        insert_index(&mut self.indexes, place, index)?;
        if let Err(fault) = self.schema.indexes.insert(def) {
            remove_index(&mut self.indexes, place);
            return Err(BuildFault::from(fault));
        }
        if is_primary {
            self.tuples = TupleMap::new(alloc, kind);
        }
        Ok(())
    }

    /// Whether an index can be made of the tuples, as `add_index` makes it.
    ///
    /// # Errors
    /// As of `add_index`.
    pub fn check_index(&self, alloc: Global, def: &IndexDef) -> Result<(), BuildFault>
        ensures { (was : Option described.Schema) (all : plain.Tuples) → StoresIndexed was self.now all
            → (def.now.id.0 ≡ 0 → all ≡ finite.empty) → (def.now.id.0 ≢ 0 → index_with 0 self.now.schema.indexes ≢ None)
            → MatchResult result
            (λ _. build_fault def.now all ≡ None)
            (λ why. (build_fault def.now all ≡ Some why) ⊎ (why ≡ NoMemory)) }
    {
        new_entries(alloc, def, &self.tuples)?;
        Ok(())
    }

    /// Drops an index with its entries, and with the primary one all tuples.
    pub fn drop_index(&mut self, id: IndexId)
        ensures { (was : Option described.Schema) (all : plain.Tuples) → StoresIndexed was self.old all
            → StoresIndexed (Some (schema_without_index id.0 self.old.schema)) self.new (if id.0 == 0 then finite.empty else all) }
    {
        remove_indexes(self.schema.indexes.as_slice(), &mut self.indexes, 0, id);
        self.schema.indexes.remove(id);
        if id.0 == 0 {
            self.tuples.clear();
            clear_all(self.indexes.as_mut_slice());
        }
    }

    /// Makes a change ready: puts its tuple, and adds the new entries. What it takes out stays.
    ///
    /// # Errors
    /// Out of memory. Nothing changed then.
    pub(crate) fn reserve(&mut self, alloc: Global, change: TupleChange) -> Result<Step, AllocError>
        ensures change { IfOk result (IsStepOf change) }
        ensures edits { (all : plain.Tuples) (key : Key) → StoresTuples self.old.tuples.entries all → AreFit key → change.key ≡ comparable_of key
            → IfOk result (λ step. EditsAll key change.tuple (finite.get all key) self.old.schema.indexes step.edits.items) }
        ensures ok { IfOk result (λ step. content_of self.new ≡ content_readied change.tuple step (content_of self.old)) }
        ensures undo { IfOk result (λ step. content_released step (content_of self.new) ≡ content_of self.old) }
        ensures err { OnErr result (content_of self.new ≡ content_of self.old) }
    {
        let edits = self.edits(alloc, &change)?;
        let TupleChange { space, key, tuple } = change;
        let tuple = reserve_parts(
            alloc,
            &mut self.tuples,
            self.indexes.as_mut_slice(),
            edits.as_slice(),
            &key,
            tuple,
        )?;
        Ok(Step {
            space,
            key,
            tuple,
            edits,
        })
    }

    /// Makes a change that is ready.
    pub(crate) fn install(&mut self, step: Step)
        ensures { content_of self.new ≡ content_installed step (content_of self.old) }
    {
        remove_replaced(self.indexes.as_mut_slice(), step.edits.as_slice());
        remove_tuple(&mut self.tuples, &step.key, &step.tuple);
    }

    /// Takes back what was made ready of a change.
    pub(crate) fn release(&mut self, step: Step)
        ensures { content_of self.new ≡ content_released step (content_of self.old) }
    {
        let Step {
            key,
            tuple,
            edits,
            ..
        } = step;
        remove_added(self.indexes.as_mut_slice(), edits.as_slice());
        put_back(&mut self.tuples, &key, tuple);
    }

    /// What a change does to each index; nothing is made where there is none beside the primary one.
    fn edits(&self, alloc: Global, change: &TupleChange) -> Result<Vec<Change>, AllocError>
        ensures { (all : plain.Tuples) (key : Key) → StoresTuples self.now.tuples.entries all → AreFit key → change.now.key ≡ comparable_of key
            → IfOk result (λ edits. EditsAll key change.now.tuple (finite.get all key) self.now.schema.indexes edits.items) }
    {
        let defs = self.schema.indexes.as_slice();
        if defs.len() < 2 {
            return Ok(Vec::new(alloc));
        }
        let old = self.tuple(&change.key);
        let tuple = match &change.tuple {
            Some(tuple) => Some(tuple.as_slice()),
            None => None,
        };
        edits_of(alloc, defs, change.key.as_slice(), tuple, old)
    }

    /// Whether there is no index beside the primary one.
    fn has_one_index(&self) -> bool
        ensures { IsTrue result ↔ (length self.now.indexes.items < 2) }
    {
        self.indexes.len() < 2
    }

    /// What a tuple changes in each index.
    fn changes(&self, alloc: Global, keyed: &Keyed) -> Result<Vec<Change>, AllocError>
        ensures { (all : plain.Tuples) (key : Key) → StoresTuples self.now.tuples.entries all → AreFit key → keyed.now.key ≡ comparable_of key
            → IfOk result (λ changes. AllZip (Puts key keyed.now.tuple (finite.get all key)) self.now.schema.indexes changes.items) }
    {
        let old = self.tuple(&keyed.key);
        let defs = self.schema.indexes.as_slice();
        changes_of(
            alloc,
            defs,
            keyed.key.as_slice(),
            keyed.tuple.as_slice(),
            old,
        )
    }

    /// The key that a tuple has in each index.
    fn removals(&self, alloc: Global, key: &Bytes) -> Result<Option<Vec<Option<Bytes>>>, AllocError>
        ensures { (all : plain.Tuples) (wanted : Key) → StoresTuples self.now.tuples.entries all → AreFit wanted → key.now ≡ comparable_of wanted
            → IfOk result (λ found. MatchOption found
            (finite.get all wanted ≡ None)
            (λ keys. (tuple : List ℕ) × (finite.get all wanted ≡ Some tuple) × AllZip (Removes wanted tuple) self.now.schema.indexes keys.items)) }
    {
        let Some(tuple) = self.tuple(key) else {
            return Ok(None);
        };
        let defs = self.schema.indexes.as_slice();
        Ok(Some(removals_of(alloc, defs, key.as_slice(), tuple)?))
    }

    /// The entries of the index of this number.
    pub(crate) fn index(&self, id: IndexId) -> Option<&SpaceIndex>
        ensures { option_copied result ≡ index_kept id.0 self.now.schema.indexes self.now.indexes.items }
    {
        find_index(self.schema.indexes.as_slice(), self.indexes.as_slice(), id)
    }
}

/// The type of the primary index; a tree where there is none.
fn primary_kind(schema: &Schema) -> IndexKind {
    match schema.index(IndexId(0)) {
        Some(primary) => primary.kind,
        None => IndexKind::Tree,
    }
}

/// How an index of this type is kept.
fn kept_kind(kind: IndexKind, is_ordered: bool) -> IndexKind {
    if is_ordered { IndexKind::Tree } else { kind }
}
