//! The state of a database: its spaces by number.

ghost use Rattle.std.specs.Prelude.{◌≡◌, ◌≢◌, ◌⊎◌, ℕ, List, [], Option, Some, None, Ok, IfOk, MatchOption, MatchResult, OnOk, OnErr};
ghost use Rattle.std.specs.FinMap as finite;
ghost use Rattle.std.specs.List.{AllByRecursion, AllZip};
ghost use Rattle.std.specs.Option.{option_copied};
ghost use Rattle.mx_msgpack.specs.Items.{IsArray};
ghost use Rattle.mx_key.specs.Comparable.{comparable_of};
ghost use Rattle.mx_key.specs.Keys.{Key, AreFit};
ghost use Rattle.mx_schema.specs.declared.index_def.IndexDef as indexed;
ghost use Rattle.mx_schema.specs.declared.schema.Schema as described;
ghost use Rattle.mx_schema.specs.Catalogues.{index_with, schema_of};
ghost use Rattle.mx_schema.specs.Picks.{entries_of, tuples_by_index};
ghost use Rattle.mx_schema.specs.SchemaChanges.{schema_with_index, schema_without_index, with_schema, without_index};
ghost use Rattle.mx_schema.specs.State as plain;
ghost use Rattle.mx_schema.specs.State.{key_in, source_of, tuples_in, with_tuple, without_tuple};
ghost use Rattle.mx_schema.specs.Stored.{StoresTuples};
ghost use Rattle.mx_entries.specs.declared.build_fault.BuildFault.TheVariants.{NoMemory};
ghost use Rattle.mx_entries.specs.Builds.{build_fault};
ghost use Rattle.mx_entries.specs.PlainChanges.{AreApart, PlainChange, MayStand, state_with_all};
ghost use Rattle.mx_space.specs.Reserves.{IsReserved, SpellsChange};
ghost use Rattle.mx_entries.specs.Scans.{SelectsByKey};
ghost use Rattle.mx_space.specs.Spaces.{space_under};
ghost use Rattle.mx_space.specs.Stored.{Holds, HoldsBy, HoldsSpace};

use crate::prepared::Prepared;
use crate::reserve_all::{install_all, release_all, reserve_all};
use crate::selection::select_from;
use crate::space::Space;
use crate::spaces::{SpaceEntry, Spaces};
use crate::tuple_changes::TupleChanges;
use crate::tuple_map::TupleMap;
use crate::view_select::select_stored;
use mx_base::{IndexId, SpaceId};
use mx_entries::{BuildFault, Pick, SelectFault};
use mx_key::KeyRange;
use mx_msgpack::{Bytes, Tuples};
use mx_schema::{Catalogue, IndexDef, IndexDefs, IndexKind, Keyed, Schema, SpaceDef, source_of};
use std::alloc::{AllocError, Global};

/// The spaces of a database by their numbers.
#[derive(Drop)]
pub struct State {
    spaces: Spaces,
}

impl State {
    /// The spaces of a catalogue, without tuples.
    pub fn new(alloc: Global, catalogue: Catalogue) -> Result<State, AllocError>
        ensures { IfOk result (λ state. HoldsBy (λ id. finite.get catalogue id) state finite.empty) }
    {
        let mut left = catalogue.into_schemas();
        let mut spaces = Spaces::new(alloc);
        while let Some((id, schema)) = left.pop_first() {
            spaces.insert(SpaceId(id), Space::new(alloc, schema)?)?;
        }
        Ok(State { spaces })
    }

    /// A copy of the state, with the entries of each index.
    ///
    /// # Errors
    /// Out of memory.
    pub fn copy(&self, alloc: Global) -> Result<State, AllocError>
        ensures { (schemas : ℕ → Option described.Schema) (state : plain.State) → HoldsBy schemas self.now state → IfOk result (λ copy. HoldsBy schemas copy state) }
    {
        Ok(State {
            spaces: self.spaces.copy(alloc)?,
        })
    }

    /// The space of this number; `None` where there is none.
    pub fn space(&self, id: SpaceId) -> Option<&Space>
        ensures { option_copied result ≡ space_under id.0 self.now.spaces.entries.items }
    {
        self.spaces.get(id)
    }

    /// The spaces, by ascending numbers.
    pub fn into_spaces(self) -> Vec<SpaceEntry>
        ensures { result ≡ self.spaces.entries }
    {
        self.spaces.into_entries()
    }

    /// Puts a tuple into a space, in the place of the one that has its primary key, in every index. Nothing
    /// where there is no such space.
    ///
    /// # Errors
    /// Out of memory. Nothing changed then.
    pub fn put(&mut self, alloc: Global, id: SpaceId, keyed: Keyed) -> Result<(), AllocError>
        ensures ok { (schemas : ℕ → Option described.Schema) (state : plain.State) (schema : described.Schema) (primary : indexed.IndexDef) (key : Key) → HoldsBy schemas self.old state
            → schemas id.0 ≡ Some schema → index_with 0 schema.indexes ≡ Some primary → key_in primary.key keyed.tuple ≡ Ok key → AreFit key → keyed.key ≡ comparable_of key
            → OnOk result (HoldsBy schemas self.new (with_tuple state id.0 key keyed.tuple)) }
        ensures absent { (schemas : ℕ → Option described.Schema) (state : plain.State) → HoldsBy schemas self.old state → schemas id.0 ≡ None → HoldsBy schemas self.new state }
        ensures err { (schemas : ℕ → Option described.Schema) (state : plain.State) → HoldsBy schemas self.old state → OnErr result (HoldsBy schemas self.new state) }
    {
        self.spaces.put(alloc, id, keyed)
    }

    /// Takes the tuple whose primary key has these comparable bytes out of a space, in every index; nothing
    /// where there is no such space or tuple.
    ///
    /// # Errors
    /// Out of memory. Nothing changed then.
    pub fn remove(&mut self, alloc: Global, id: SpaceId, key: &Bytes) -> Result<(), AllocError>
        ensures ok { (schemas : ℕ → Option described.Schema) (state : plain.State) (schema : described.Schema) (primary : indexed.IndexDef) (wanted : Key) → HoldsBy schemas self.old state
            → schemas id.0 ≡ Some schema → index_with 0 schema.indexes ≡ Some primary → AreFit wanted → key.now ≡ comparable_of wanted
            → OnOk result (HoldsBy schemas self.new (without_tuple state id.0 wanted)) }
        ensures absent { (schemas : ℕ → Option described.Schema) (state : plain.State) → HoldsBy schemas self.old state → schemas id.0 ≡ None → HoldsBy schemas self.new state }
        ensures err { (schemas : ℕ → Option described.Schema) (state : plain.State) → HoldsBy schemas self.old state → OnErr result (HoldsBy schemas self.new state) }
    {
        self.spaces.remove(alloc, id, key)
    }

    /// Takes all memory that changes need. The state is then read no more before `install` or `release`.
    ///
    /// # Errors
    /// Out of memory. Nothing changed then.
    pub fn reserve(&mut self, alloc: Global, changes: TupleChanges) -> Result<Prepared, AllocError>
        ensures ok { (schemas : ℕ → Option described.Schema) (state : plain.State) (all : List PlainChange) → HoldsBy schemas self.old state
            → AllZip SpellsChange changes all → AllByRecursion (MayStand schemas) all → AreApart all → IfOk result (λ prepared. IsReserved schemas self.new state prepared all) }
        ensures err { (schemas : ℕ → Option described.Schema) (state : plain.State) → HoldsBy schemas self.old state → OnErr result (HoldsBy schemas self.new state) }
    {
        reserve_all(alloc, &mut self.spaces, changes)
    }

    /// Makes the changes that were made ready, all of them.
    pub fn install(&mut self, prepared: Prepared)
        ensures { (schemas : ℕ → Option described.Schema) (state : plain.State) (all : List PlainChange) → IsReserved schemas self.old state prepared all
            → HoldsBy schemas self.new (state_with_all state all) }
    {
        install_all(&mut self.spaces, prepared);
    }

    /// Gives the memory back that was taken for changes, which aren't made.
    pub fn release(&mut self, prepared: Prepared)
        ensures { (schemas : ℕ → Option described.Schema) (state : plain.State) (all : List PlainChange) → IsReserved schemas self.old state prepared all → HoldsBy schemas self.new state }
    {
        release_all(&mut self.spaces, prepared);
    }

    /// Adds a space without indexes, where there is none of its number.
    ///
    /// # Errors
    /// Out of memory. Nothing changed then.
    pub fn add_space(&mut self, alloc: Global, def: SpaceDef) -> Result<(), AllocError>
        ensures ok { (schemas : ℕ → Option described.Schema) (state : plain.State) → HoldsBy schemas self.old state → schemas def.id.0 ≡ None
            → OnOk result (HoldsBy (with_schema schemas def.id.0 (Some (record { def = def; indexes = [] }))) self.new state) }
        ensures err { (schemas : ℕ → Option described.Schema) (state : plain.State) → HoldsBy schemas self.old state → OnErr result (HoldsBy schemas self.new state) }
    {
        let id = def.id;
        let indexes = IndexDefs::new(alloc);
        let space = Space::new(alloc, Schema { def, indexes })?;
        self.spaces.insert(id, space)
    }

    /// Drops a space that has no tuples, with its indexes; nothing where there is no such space.
    pub fn drop_space(&mut self, id: SpaceId)
        ensures drops { (schemas : ℕ → Option described.Schema) (state : plain.State) → HoldsBy schemas self.old state → tuples_in state id.0 ≡ finite.empty
            → HoldsBy (with_schema schemas id.0 None) self.new state }
        ensures absent { (schemas : ℕ → Option described.Schema) (state : plain.State) → HoldsBy schemas self.old state → schemas id.0 ≡ None → HoldsBy schemas self.new state }
    {
        self.spaces.drop_space(id);
    }

    /// Adds an index to a space and makes its entries; nothing where there is no such space. A space that
    /// gets a primary index has no tuples.
    ///
    /// # Errors
    /// The fault of the first tuple, in the order of primary keys, that has no key in the index or, in a
    /// unique one, the key of a tuple before it; or out of memory. Nothing changed then.
    pub fn add_index(&mut self, alloc: Global, id: SpaceId, def: IndexDef) -> Result<(), BuildFault>
        ensures builds { (schemas : ℕ → Option described.Schema) (state : plain.State) (schema : described.Schema) → HoldsBy schemas self.old state → schemas id.0 ≡ Some schema
            → (def.id.0 ≡ 0 → tuples_in state id.0 ≡ finite.empty) → (def.id.0 ≢ 0 → index_with 0 schema.indexes ≢ None)
            → MatchResult result
            (λ _. (build_fault def (tuples_in state id.0) ≡ None) × HoldsBy (with_schema schemas id.0 (Some (schema_with_index def schema))) self.new state)
            (λ why. (build_fault def (tuples_in state id.0) ≡ Some why) ⊎ (why ≡ NoMemory)) }
        ensures absent { (schemas : ℕ → Option described.Schema) (state : plain.State) → HoldsBy schemas self.old state → schemas id.0 ≡ None → HoldsBy schemas self.new state }
        ensures err { (schemas : ℕ → Option described.Schema) (state : plain.State) → HoldsBy schemas self.old state → OnErr result (HoldsBy schemas self.new state) }
    {
        self.spaces.add_index(alloc, id, def)
    }

    /// Drops an index of a space, and with the primary one all tuples of the space; nothing where there is
    /// no such space or index.
    pub fn drop_index(&mut self, id: SpaceId, index: IndexId)
        ensures drops { (schemas : ℕ → Option described.Schema) (state : plain.State) (schema : described.Schema) → HoldsBy schemas self.old state → schemas id.0 ≡ Some schema
            → HoldsBy (with_schema schemas id.0 (Some (schema_without_index index.0 schema))) self.new (without_index state id.0 index.0) }
        ensures absent { (schemas : ℕ → Option described.Schema) (state : plain.State) → HoldsBy schemas self.old state → schemas id.0 ≡ None → HoldsBy schemas self.new state }
    {
        self.spaces.drop_index(id, index);
    }

    /// Puts into `found`, in place of what it had, the tuples that an iterator picks of an index of a space
    /// that is there. Gives the keys that were read: up to the last tuple's where the limit was reached,
    /// else to the iterator's end. None are read by the limit 0.
    ///
    /// # Errors
    /// The key doesn't fit the index; the tuples have more than 16,777,216 bytes together; or out of memory.
    /// What `found` has is of no use then.
    pub fn select(
        &self,
        alloc: Global,
        id: SpaceId,
        space: &Space,
        def: &IndexDef,
        wanted: &Pick<'_>,
        found: &mut Tuples,
    ) -> Result<Option<KeyRange>, SelectFault>
        requires array { IsArray wanted.now.key.now }
        ensures { (state : plain.State) → Holds self.now state → HoldsSpace (schema_of state id.0) (Some space.now) (tuples_in state id.0)
            → index_with def.now.id.0 space.now.schema.indexes ≡ Some def.now
            → SelectsByKey (entries_of state id.0 def.now) def.now wanted.now found.new result }
    {
        let source = source_of(id);
        if source == id {
            return select_stored(alloc, space, def, wanted, found);
        }
        select_rows_of(alloc, self, source, def, wanted, found)
    }
}

/// What an iterator picks of the rows of another space; of none where that isn't there.
// A call of its own, since a function clears the room of its variables where it begins.
#[inline(never)]
pub(crate) fn select_rows_of(
    alloc: Global,
    state: &State,
    source: SpaceId,
    def: &IndexDef,
    wanted: &Pick<'_>,
    found: &mut Tuples,
) -> Result<Option<KeyRange>, SelectFault>
    requires array { IsArray wanted.now.key.now }
    ensures { (base : plain.State) → Holds state.now base → SelectsByKey (finite.entries (tuples_by_index def.now (tuples_in base source.0))) def.now wanted.now found.new result }
{
    let none = TupleMap::new(alloc, IndexKind::Tree);
    let tuples = match state.space(source) {
        Some(space) => space.tuples(),
        None => &none,
    };
    select_from(alloc, tuples, false, def, wanted, found)
}
