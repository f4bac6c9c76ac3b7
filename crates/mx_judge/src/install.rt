//! Making the change that a write came to.

ghost use Rattle.std.specs.Prelude.{◌≡◌, Ok, None, Some, MatchResult};
ghost use Rattle.mx_key.specs.Comparable.{comparable_of};
ghost use Rattle.mx_key.specs.Keys.{Key, AreFit};
ghost use Rattle.mx_schema.specs.State as plain;
ghost use Rattle.mx_space.specs.Stored.{Holds};
ghost use Rattle.mx_write.specs.Change.{state_after_changed, state_after_change};
ghost use Rattle.mx_write.specs.Installs.{MayChange, Stands};
ghost use Rattle.mx_write.specs.Judge.{judged_write};
ghost use Rattle.mx_write.specs.Made as spec;
ghost use Rattle.mx_judge.specs.Makes.{MakesWrite};
ghost use Rattle.mx_write.specs.Writes as statement;

use crate::descriptions::{described_index, described_space};
use crate::made::{Effect, Made};
use mx_base::SpaceId;
use mx_msgpack::Bytes;
use mx_schema::{INDEX_ROWS, Keyed, SPACE_ROWS};
use mx_space::State;
use mx_write::Writer;
use std::alloc::{AllocError, Global};

impl Made {
    /// Changes the state as a write in this space does, which was judged to make this of it. With the row
    /// of a space or an index that space or index comes or goes.
    ///
    /// # Errors
    /// Out of memory. The state is then as it was.
    pub fn install(self, alloc: Global, state: &mut State, space: SpaceId) -> Result<(), AllocError>
        ensures { (before : plain.State) (writer : Writer) (write : statement.Write) (made : spec.Made) → Holds state.old before
            → (judged_write writer before space.0 write).outcome ≡ Ok made → MakesWrite before space.0 write self made → MatchResult result
            (λ _. Holds state.new (state_after_changed before made.change))
            (λ _. Holds state.new before) }
    {
        let Made { key, effect, .. } = self;
        match effect {
            Effect::Put { tuple, .. } => put(alloc, state, space, Keyed { key, tuple }),
            Effect::Removed { tuple } => remove(alloc, state, space, Keyed { key, tuple }),
        }
    }
}

fn put(alloc: Global, state: &mut State, space: SpaceId, keyed: Keyed) -> Result<(), AllocError>
    ensures { (before : plain.State) (key : Key) → Holds state.old before → AreFit key → keyed.key ≡ comparable_of key → MayChange before space.0 key (Some keyed.tuple)
        → MatchResult result
        (λ _. Holds state.new (state_after_change before (record { space = space.0; key = key; tuple = Some keyed.tuple })))
        (λ _. Holds state.new before) }
{
    match space.0 {
        SPACE_ROWS => put_space(alloc, state, keyed),
        INDEX_ROWS => put_index(alloc, state, keyed),
        _ => state.put(alloc, space, keyed),
    }
}

/// The row of a space comes with the space.
fn put_space(alloc: Global, state: &mut State, row: Keyed) -> Result<(), AllocError>
    ensures { (before : plain.State) (key : Key) → Holds state.old before → AreFit key → row.key ≡ comparable_of key → MayChange before plain.space_rows key (Some row.tuple)
        → MatchResult result
        (λ _. Holds state.new (state_after_change before (record { space = plain.space_rows; key = key; tuple = Some row.tuple })))
        (λ _. Holds state.new before) }
{
    let Some(def) = described_space(alloc, row.tuple.as_slice())? else {
        return Err(AllocError);
    };
    let id = def.id;
    state.add_space(alloc, def)?;
    match state.put(alloc, SpaceId(SPACE_ROWS), row) {
        Ok(()) => Ok(()),
        Err(fault) => {
            state.drop_space(id);
            Err(fault)
        }
    }
}

/// The row of an index comes with the index.
fn put_index(alloc: Global, state: &mut State, row: Keyed) -> Result<(), AllocError>
    ensures { (before : plain.State) (key : Key) → Holds state.old before → AreFit key → row.key ≡ comparable_of key → MayChange before plain.index_rows key (Some row.tuple)
        → MatchResult result
        (λ _. Holds state.new (state_after_change before (record { space = plain.index_rows; key = key; tuple = Some row.tuple })))
        (λ _. Holds state.new before) }
{
    let Some(index) = described_index(alloc, row.tuple.as_slice())? else {
        return Err(AllocError);
    };
    let (space, id) = (index.space, index.def.id);
    match state.add_index(alloc, space, index.def) {
        Ok(()) => {}
        Err(_) => return Err(AllocError),
    }
    match state.put(alloc, SpaceId(INDEX_ROWS), row) {
        Ok(()) => Ok(()),
        Err(fault) => {
            state.drop_index(space, id);
            Err(fault)
        }
    }
}

fn remove(alloc: Global, state: &mut State, space: SpaceId, keyed: Keyed) -> Result<(), AllocError>
    ensures { (before : plain.State) (key : Key) → Holds state.old before → AreFit key → keyed.key ≡ comparable_of key → MayChange before space.0 key None
        → Stands before space.0 key keyed.tuple → MatchResult result
        (λ _. Holds state.new (state_after_change before (record { space = space.0; key = key; tuple = None })))
        (λ _. Holds state.new before) }
{
    match space.0 {
        SPACE_ROWS => remove_space(alloc, state, &keyed),
        INDEX_ROWS => remove_index(alloc, state, &keyed),
        _ => state.remove(alloc, space, &keyed.key),
    }
}

/// The space goes with its row.
fn remove_space(alloc: Global, state: &mut State, row: &Keyed) -> Result<(), AllocError>
    ensures { (before : plain.State) (key : Key) → Holds state.old before → AreFit key → row.now.key ≡ comparable_of key → MayChange before plain.space_rows key None
        → Stands before plain.space_rows key row.now.tuple → MatchResult result
        (λ _. Holds state.new (state_after_change before (record { space = plain.space_rows; key = key; tuple = None })))
        (λ _. Holds state.new before) }
{
    let Some(def) = described_space(alloc, row.tuple.as_slice())? else {
        return Err(AllocError);
    };
    state.remove(alloc, SpaceId(SPACE_ROWS), &row.key)?;
    state.drop_space(def.id);
    Ok(())
}

/// The index goes with its row.
fn remove_index(alloc: Global, state: &mut State, row: &Keyed) -> Result<(), AllocError>
    ensures { (before : plain.State) (key : Key) → Holds state.old before → AreFit key → row.now.key ≡ comparable_of key → MayChange before plain.index_rows key None
        → Stands before plain.index_rows key row.now.tuple → MatchResult result
        (λ _. Holds state.new (state_after_change before (record { space = plain.index_rows; key = key; tuple = None })))
        (λ _. Holds state.new before) }
{
    let Some(index) = described_index(alloc, row.tuple.as_slice())? else {
        return Err(AllocError);
    };
    state.remove(alloc, SpaceId(INDEX_ROWS), &row.key)?;
    state.drop_index(index.space, index.def.id);
    Ok(())
}
