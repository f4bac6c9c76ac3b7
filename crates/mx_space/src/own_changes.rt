//! A transaction's own writes in all spaces.

ghost use Rattle.std.specs.Prelude.{◌≡◌, ℕ, List, [], ◌∷◌, ◌++◌, map, Option, Some, None, Ok, IfOk, OnOk, OnErr};
ghost use Rattle.std.specs.Cmp.Lexicographic.{slice_cmp};
ghost use Rattle.std.specs.FinMap as finite;
ghost use Rattle.std.specs.List.{AllByRecursion, AllZip};
ghost use Rattle.std.specs.List.Sorted.{IsStrictlySortedBy};
ghost use Rattle.std.specs.Map.{keys_of};
ghost use Rattle.std.specs.Option.{option_copied};
ghost use Rattle.std.specs.Ordering.{nat_cmp};
ghost use Rattle.mx_key.specs.Comparable.{comparable_of};
ghost use Rattle.mx_key.specs.Keys.{Key, AreFit};
ghost use Rattle.mx_schema.specs.declared.index_def.IndexDef as indexed;
ghost use Rattle.mx_schema.specs.declared.schema.Schema as described;
ghost use Rattle.mx_schema.specs.Catalogues.{index_with};
ghost use Rattle.mx_schema.specs.State as plain;
ghost use Rattle.mx_schema.specs.State.{key_in};
ghost use Rattle.mx_space.specs.Overlays.{StoresWritten};
ghost use Rattle.mx_space.specs.OwnChanges.{HoldsOwn, overlaid};
ghost use Rattle.mx_entries.specs.OwnStates.{state_with_own};
ghost use Rattle.mx_space.specs.OwnCommit.{AreOrdered, changes_in, put_change, removals_in};
ghost use Rattle.mx_entries.specs.PlainChanges.{AreApart, MayStand, PlainChange, state_with_all};
ghost use Rattle.mx_space.specs.Reserves.{SpellsChange};
ghost use Rattle.mx_space.specs.Stored.{HoldsBy};

use crate::overlay::OverlaidSpace;
use crate::space::Space;
use crate::state::State;
use crate::tuple_changes::{TupleChange, TupleChanges};
use mx_base::SpaceId;
use mx_msgpack::Bytes;
use mx_schema::Keyed;
use std::alloc::{AllocError, Global};
use std::collections::BTreeMap;

/// A transaction's own writes, by the numbers of the spaces in which it made any.
#[derive(Drop)]
pub struct Overlay {
    spaces: BTreeMap<u32, OverlaidSpace>,
}

impl Overlay {
    /// No writes; takes no memory.
    pub fn new(alloc: Global) -> Overlay
        ensures { (schemas : ℕ → Option described.Schema) → HoldsOwn schemas result [] }
    {
        Overlay {
            spaces: BTreeMap::new(alloc),
        }
    }

    /// The writes in a space; `None` where there are none.
    pub fn space(&self, id: SpaceId) -> Option<&OverlaidSpace>
        ensures { option_copied result ≡ overlaid id.0 self.now }
    {
        self.spaces.get(&id.0)
    }

    /// Puts a tuple into a space of a state, in the place of the one that is seen under its primary key.
    /// Nothing where there is no such space. The space has an index of the number 0, and the key is the
    /// tuple's in it.
    ///
    /// # Errors
    /// Out of memory. Nothing changed then.
    pub fn put(
        &mut self,
        alloc: Global,
        state: &State,
        space: SpaceId,
        keyed: Keyed,
    ) -> Result<(), AllocError>
        ensures ok { (schemas : ℕ → Option described.Schema) (base : plain.State) (own : List PlainChange) (schema : described.Schema) (primary : indexed.IndexDef) (key : Key) → HoldsBy schemas state.now base
            → HoldsOwn schemas self.old own → schemas space.0 ≡ Some schema → index_with 0 schema.indexes ≡ Some primary → key_in primary.key keyed.tuple ≡ Ok key
            → AreFit key → keyed.key ≡ comparable_of key → OnOk result (HoldsOwn schemas self.new (record { space = space.0; key = key; tuple = Some keyed.tuple } ∷ own)) }
        ensures err { (schemas : ℕ → Option described.Schema) (own : List PlainChange) → HoldsOwn schemas self.old own → OnErr result (HoldsOwn schemas self.new own) }
    {
        if let Some(over) = self.spaces.get_mut(&space.0) {
            return over.put(alloc, keyed);
        }
        let Some(stored) = state.space(space) else {
            return Ok(());
        };
        let mut over = first_writes(alloc, stored)?;
        over.put(alloc, keyed)?;
        self.spaces.insert(space.0, over)?;
        Ok(())
    }

    /// Takes the tuple of a primary key out of a space of a state, whether the transaction put it or the
    /// state has it. Nothing where there is no such space.
    ///
    /// # Errors
    /// Out of memory. Nothing changed then.
    pub fn remove(
        &mut self,
        alloc: Global,
        state: &State,
        space: SpaceId,
        key: &Bytes,
    ) -> Result<(), AllocError>
        ensures ok { (schemas : ℕ → Option described.Schema) (base : plain.State) (own : List PlainChange) (schema : described.Schema) (primary : indexed.IndexDef) (wanted : Key) → HoldsBy schemas state.now base
            → HoldsOwn schemas self.old own → schemas space.0 ≡ Some schema → index_with 0 schema.indexes ≡ Some primary → AreFit wanted → key.now ≡ comparable_of wanted
            → OnOk result (HoldsOwn schemas self.new (record { space = space.0; key = wanted; tuple = None } ∷ own)) }
        ensures err { (schemas : ℕ → Option described.Schema) (own : List PlainChange) → HoldsOwn schemas self.old own → OnErr result (HoldsOwn schemas self.new own) }
    {
        if let Some(over) = self.spaces.get_mut(&space.0) {
            return over.remove(alloc, key);
        }
        let Some(stored) = state.space(space) else {
            return Ok(());
        };
        let mut over = first_writes(alloc, stored)?;
        over.remove(alloc, key)?;
        self.spaces.insert(space.0, over)?;
        Ok(())
    }

    /// The changes that a commit of the writes makes, with copies of the tuples: what `State::reserve` takes.
    pub fn changes(&self, alloc: Global) -> Result<TupleChanges, AllocError>
        ensures { (schemas : ℕ → Option described.Schema) (own : List PlainChange) → HoldsOwn schemas self.now own → IfOk result (λ changes. (all : List PlainChange)
            × AllZip SpellsChange changes all × AllByRecursion (MayStand schemas) all × AreApart all × ((state : plain.State) → state_with_all state all ≡ state_with_own state own)) }
    {
        let mut changes = TupleChanges::new(alloc);
        for (space, over) in &self.spaces {
            add_changes(alloc, SpaceId(*space), over, &mut changes)?;
        }
        Ok(changes)
    }
}

/// No writes in a space that is described as this one.
fn first_writes(alloc: Global, stored: &Space) -> Result<OverlaidSpace, AllocError>
    ensures { IfOk result (λ over. StoresWritten (Some stored.now.schema) over finite.empty) }
{
    OverlaidSpace::new(alloc, stored.schema().copy(alloc)?)
}

/// Adds the changes of one space.
fn add_changes(
    alloc: Global,
    space: SpaceId,
    over: &OverlaidSpace,
    changes: &mut TupleChanges,
) -> Result<(), AllocError>
    ensures adds { OnOk result (changes.new ≡ changes.old ++ changes_in (space.0, over.now)) }
    ensures ordered { OnOk result (AreOrdered over.now) }
{
    let puts = over.own().tuples().in_order(alloc)?;
    let count = puts.as_map().len().saturating_add(over.removed().len());
    changes.reserve(count)?;
    add_puts(space, puts.as_map(), changes)?;
    add_removals(space, over, changes)?;
    Ok(())
}

fn add_puts(
    space: SpaceId,
    puts: &BTreeMap<Bytes, Bytes>,
    changes: &mut TupleChanges,
) -> Result<(), AllocError>
    ensures adds { OnOk result (changes.new ≡ changes.old ++ map (put_change space.0) puts.now.entries) }
    ensures ordered { OnOk result (IsStrictlySortedBy (slice_cmp nat_cmp) (keys_of puts.now.entries)) }
{
    for (key, tuple) in puts {
        changes.push(TupleChange {
            space,
            key: key.clone()?,
            tuple: Some(tuple.clone()?),
        })?;
    }
    Ok(())
}

fn add_removals(
    space: SpaceId,
    over: &OverlaidSpace,
    changes: &mut TupleChanges,
) -> Result<(), AllocError>
    ensures adds { OnOk result (changes.new ≡ changes.old ++ removals_in space.0 over.now) }
    ensures ordered { OnOk result (IsStrictlySortedBy (slice_cmp nat_cmp) over.now.removed.keys) }
{
    for key in over.removed() {
        if over.own().tuples().contains_key(key) {
            continue;
        }
        changes.push(TupleChange {
            space,
            key: key.clone()?,
            tuple: None,
        })?;
    }
    Ok(())
}
