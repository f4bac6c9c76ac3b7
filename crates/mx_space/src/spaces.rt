//! The spaces of a database in the order of their numbers.

ghost use Rattle.std.specs.Prelude.{◌≡◌, ◌≢◌, ◌⊎◌, ℕ, [], map, Option, Some, None, Ok, IfOk, MatchResult, OnOk, OnErr};
ghost use Rattle.std.specs.FinMap as finite;
ghost use Rattle.std.specs.Option.{option_copied};
ghost use Rattle.mx_key.specs.Comparable.{comparable_of};
ghost use Rattle.mx_key.specs.Keys.{Key, AreFit};
ghost use Rattle.mx_schema.specs.declared.index_def.IndexDef as indexed;
ghost use Rattle.mx_schema.specs.declared.schema.Schema as described;
ghost use Rattle.mx_schema.specs.Catalogues.{index_with};
ghost use Rattle.mx_schema.specs.SchemaChanges.{schema_with_index, schema_without_index, with_schema, without_index};
ghost use Rattle.mx_schema.specs.State as plain;
ghost use Rattle.mx_schema.specs.Stored.{StoresTuples};
ghost use Rattle.mx_schema.specs.State.{key_in, tuples_in, with_tuple, without_tuple};
ghost use Rattle.mx_entries.specs.declared.build_fault.BuildFault.TheVariants.{NoMemory};
ghost use Rattle.mx_entries.specs.Builds.{build_fault};
ghost use Rattle.mx_space.specs.Reserved.{Content, EditsAll, IsStepOf, changed_at, content_under, entry_content, content_installed, content_readied, content_released};
ghost use Rattle.mx_space.specs.Spaces.{IsAscending, IsAscending-prop, IsGapOf, IsPlaceOf, RemovesSpace, SetsSpace, space_under};

use crate::prepared::Step;
use crate::space::Space;
use crate::tuple_changes::TupleChange;
use mx_base::{IndexId, SpaceId};
use mx_entries::BuildFault;
use mx_msgpack::Bytes;
use mx_schema::{IndexDef, Keyed};
use std::alloc::{AllocError, Global};

/// A space and its number.
#[derive(Drop)]
pub struct SpaceEntry {
    pub id: SpaceId,
    pub space: Space,
}

impl SpaceEntry {
    fn copy(&self, alloc: Global) -> Result<SpaceEntry, AllocError>
        ensures { IfOk result (λ copy. entry_content copy ≡ entry_content self.now) }
    {
        Ok(SpaceEntry {
            id: self.id,
            space: self.space.copy(alloc)?,
        })
    }
}

/// Spaces by ascending numbers.
#[derive(Drop)]
pub(crate) struct Spaces {
    entries: Vec<SpaceEntry>,
    ghost ascending: { IsAscending entries.items } by { IsAscending-prop entries.items },
}

impl Spaces {
    ghost use Rattle.mx_space.specs.Stored.{SpacesHold};

    /// No space.
    pub(crate) fn new(alloc: Global) -> Spaces
        ensures { result.entries.items ≡ [] }
    {
        Spaces {
            entries: Vec::new(alloc),
        }
    }

    /// As `State::copy`.
    pub(crate) fn copy(&self, alloc: Global) -> Result<Spaces, AllocError>
        ensures { IfOk result (λ copy. (q : ℕ) → content_under q copy.entries.items ≡ content_under q self.now.entries.items) }
    {
        Ok(Spaces {
            entries: copies_of(alloc, self.entries.as_slice())?,
        })
    }

    /// The space of a number; `None` where there is none.
    pub(crate) fn get(&self, id: SpaceId) -> Option<&Space>
        ensures { option_copied result ≡ space_under id.0 self.now.entries.items }
    {
        match place_of(self.entries.as_slice(), id) {
            Ok(place) => Some(&self.entries[place].space),
            Err(_) => None,
        }
    }

    /// Puts a space under a number, in the place of the one that is there.
    ///
    /// # Errors
    /// Out of memory. Nothing changed then.
    pub(crate) fn insert(&mut self, id: SpaceId, space: Space) -> Result<(), AllocError>
        ensures ok { OnOk result (SetsSpace self.old.entries.items self.new.entries.items id.0 space) }
        ensures err { OnErr result (self.new.entries.items ≡ self.old.entries.items) }
    {
        match place_of(self.entries.as_slice(), id) {
            Ok(place) => {
                self.entries[place].space = space;
                Ok(())
            }
            Err(place) => Ok(self.entries.insert(place, SpaceEntry { id, space })?),
        }
    }

    /// As `State::put`.
    pub(crate) fn put(&mut self, alloc: Global, id: SpaceId, keyed: Keyed) -> Result<(), AllocError>
        ensures ok { (schemas : ℕ → Option described.Schema) (state : plain.State) (schema : described.Schema) (primary : indexed.IndexDef) (key : Key) → SpacesHold schemas self.old.entries.items state
            → schemas id.0 ≡ Some schema → index_with 0 schema.indexes ≡ Some primary → key_in primary.key keyed.tuple ≡ Ok key → AreFit key → keyed.key ≡ comparable_of key
            → OnOk result (SpacesHold schemas self.new.entries.items (with_tuple state id.0 key keyed.tuple)) }
        ensures absent { (schemas : ℕ → Option described.Schema) (state : plain.State) → SpacesHold schemas self.old.entries.items state → schemas id.0 ≡ None → SpacesHold schemas self.new.entries.items state }
        ensures err { (schemas : ℕ → Option described.Schema) (state : plain.State) → SpacesHold schemas self.old.entries.items state → OnErr result (SpacesHold schemas self.new.entries.items state) }
    {
        match place_of(self.entries.as_slice(), id) {
            Ok(place) => self.entries[place].space.put(alloc, keyed),
            Err(_) => Ok(()),
        }
    }

    /// As `State::remove`.
    pub(crate) fn remove(
        &mut self,
        alloc: Global,
        id: SpaceId,
        key: &Bytes,
    ) -> Result<(), AllocError>
        ensures ok { (schemas : ℕ → Option described.Schema) (state : plain.State) (schema : described.Schema) (primary : indexed.IndexDef) (wanted : Key) → SpacesHold schemas self.old.entries.items state
            → schemas id.0 ≡ Some schema → index_with 0 schema.indexes ≡ Some primary → AreFit wanted → key.now ≡ comparable_of wanted
            → OnOk result (SpacesHold schemas self.new.entries.items (without_tuple state id.0 wanted)) }
        ensures absent { (schemas : ℕ → Option described.Schema) (state : plain.State) → SpacesHold schemas self.old.entries.items state → schemas id.0 ≡ None → SpacesHold schemas self.new.entries.items state }
        ensures err { (schemas : ℕ → Option described.Schema) (state : plain.State) → SpacesHold schemas self.old.entries.items state → OnErr result (SpacesHold schemas self.new.entries.items state) }
    {
        match place_of(self.entries.as_slice(), id) {
            Ok(place) => self.entries[place].space.remove(alloc, key),
            Err(_) => Ok(()),
        }
    }

    /// Makes a change ready, as `Space::reserve`; nothing changes where its space isn't there.
    ///
    /// # Errors
    /// Out of memory. Nothing changed then.
    pub(crate) fn reserve(&mut self, alloc: Global, change: TupleChange) -> Result<Step, AllocError>
        ensures change { IfOk result (IsStepOf change) }
        ensures edits { (space : Content) (all : plain.Tuples) (key : Key) → content_under change.space.0 self.old.entries.items ≡ Some space → StoresTuples space.1 all → AreFit key → change.key ≡ comparable_of key
            → IfOk result (λ step. EditsAll key change.tuple (finite.get all key) space.0.indexes step.edits.items) }
        ensures ok { IfOk result (λ step. (q : ℕ) → content_under q self.new.entries.items ≡ changed_at change.space.0 (content_readied change.tuple step) q (content_under q self.old.entries.items)) }
        ensures undo { IfOk result (λ step. (q : ℕ) → changed_at change.space.0 (content_released step) q (content_under q self.new.entries.items) ≡ content_under q self.old.entries.items) }
        ensures err { OnErr result ((q : ℕ) → content_under q self.new.entries.items ≡ content_under q self.old.entries.items) }
    {
        match place_of(self.entries.as_slice(), change.space) {
            Ok(place) => self.entries[place].space.reserve(alloc, change),
            Err(_) => Ok(Step::without_space(alloc, change)),
        }
    }

    /// Makes a change that is ready.
    pub(crate) fn install(&mut self, step: Step)
        ensures { (q : ℕ) → content_under q self.new.entries.items ≡ changed_at step.space.0 (content_installed step) q (content_under q self.old.entries.items) }
    {
        if let Ok(place) = place_of(self.entries.as_slice(), step.space) {
            self.entries[place].space.install(step);
        }
    }

    /// Takes back what was made ready of a change.
    pub(crate) fn release(&mut self, step: Step)
        ensures { (q : ℕ) → content_under q self.new.entries.items ≡ changed_at step.space.0 (content_released step) q (content_under q self.old.entries.items) }
    {
        if let Ok(place) = place_of(self.entries.as_slice(), step.space) {
            self.entries[place].space.release(step);
        }
    }

    /// Drops the space of a number, where it is there.
    pub(crate) fn drop_space(&mut self, id: SpaceId)
        ensures { RemovesSpace self.old.entries.items self.new.entries.items id.0 }
    {
        if let Ok(place) = place_of(self.entries.as_slice(), id) {
            self.entries.remove(place);
        }
    }

    /// As `State::add_index`.
    pub(crate) fn add_index(
        &mut self,
        alloc: Global,
        id: SpaceId,
        def: IndexDef,
    ) -> Result<(), BuildFault>
        ensures builds { (schemas : ℕ → Option described.Schema) (state : plain.State) (schema : described.Schema) → SpacesHold schemas self.old.entries.items state → schemas id.0 ≡ Some schema
            → (def.id.0 ≡ 0 → tuples_in state id.0 ≡ finite.empty) → (def.id.0 ≢ 0 → index_with 0 schema.indexes ≢ None)
            → MatchResult result
            (λ _. (build_fault def (tuples_in state id.0) ≡ None) × SpacesHold (with_schema schemas id.0 (Some (schema_with_index def schema))) self.new.entries.items state)
            (λ why. (build_fault def (tuples_in state id.0) ≡ Some why) ⊎ (why ≡ NoMemory)) }
        ensures absent { (schemas : ℕ → Option described.Schema) (state : plain.State) → SpacesHold schemas self.old.entries.items state → schemas id.0 ≡ None → SpacesHold schemas self.new.entries.items state }
        ensures err { (schemas : ℕ → Option described.Schema) (state : plain.State) → SpacesHold schemas self.old.entries.items state → OnErr result (SpacesHold schemas self.new.entries.items state) }
    {
        match place_of(self.entries.as_slice(), id) {
            Ok(place) => self.entries[place].space.add_index(alloc, def),
            Err(_) => Ok(()),
        }
    }

    /// As `State::drop_index`.
    pub(crate) fn drop_index(&mut self, id: SpaceId, index: IndexId)
        ensures drops { (schemas : ℕ → Option described.Schema) (state : plain.State) (schema : described.Schema) → SpacesHold schemas self.old.entries.items state → schemas id.0 ≡ Some schema
            → SpacesHold (with_schema schemas id.0 (Some (schema_without_index index.0 schema))) self.new.entries.items (without_index state id.0 index.0) }
        ensures absent { (schemas : ℕ → Option described.Schema) (state : plain.State) → SpacesHold schemas self.old.entries.items state → schemas id.0 ≡ None → SpacesHold schemas self.new.entries.items state }
    {
        if let Ok(place) = place_of(self.entries.as_slice(), id) {
            self.entries[place].space.drop_index(index);
        }
    }

    /// The spaces in order.
    pub(crate) fn into_entries(self) -> Vec<SpaceEntry>
        ensures { result ≡ self.entries }
    {
        self.entries
    }
}

fn copies_of(alloc: Global, entries: &[SpaceEntry]) -> Result<Vec<SpaceEntry>, AllocError>
    ensures { IfOk result (λ copies. map entry_content copies.items ≡ map entry_content entries.now) }
{
    let mut copies = Vec::with_capacity(alloc, entries.len())?;
    for entry in entries {
        copies.push_reserved(entry.copy(alloc)?);
    }
    Ok(copies)
}

/// The place of the space of a number, or where it would stand. The search ends where it meets the number,
/// which std's doesn't.
fn place_of(entries: &[SpaceEntry], id: SpaceId) -> Result<usize, usize>
    requires { IsAscending entries.now }
    ensures { MatchResult result (IsPlaceOf id.0 entries.now) (IsGapOf id.0 entries.now) }
{
    let mut low = 0;
    let mut high = entries.len();
    while low < high {
        let middle = low + (high - low) / 2;
        let number = entries[middle].id.0;
        if number == id.0 {
            return Ok(middle);
        }
        if number < id.0 {
            low = middle + 1;
        } else {
            high = middle;
        }
    }
    Err(low)
}
