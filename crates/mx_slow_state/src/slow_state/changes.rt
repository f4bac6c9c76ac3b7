//! What the plain slow program changes by a write that it doesn't refuse.

ghost use Rattle.std.specs.Prelude.{◌≡◌, ◌≢◌, ⊤, ℕ, Option, Some, None, Ok, IfOk, MatchResult};
ghost use Rattle.std.specs.BTreeMap.{get_by};
ghost use Rattle.std.specs.Ordering.{nat_cmp};
ghost use Rattle.mx_base.specs.declared.refusal.Refusal.TheVariants as refused;
ghost use Rattle.mx_key.specs.Comparable.{comparable_of};
ghost use Rattle.mx_key.specs.Keys.{Key, AreFit};
ghost use Rattle.mx_model.specs.declared.reply.Reply.TheVariants as replies;
ghost use Rattle.mx_schema.specs.declared.schema.Schema.{Schema};
ghost use Rattle.mx_schema.specs.Sound.{IsSound};
ghost use Rattle.mx_schema.specs.State as plain;
ghost use Rattle.mx_schema.specs.State.{without_tuple};
ghost use Rattle.mx_write.specs.declared.writable.Writer.TheVariants.{Client};
ghost use Rattle.mx_write.specs.Change.{state_after_change, state_after_changed};
ghost use Rattle.mx_write.specs.Installs.{MayChange, Stands};
ghost use Rattle.mx_write.specs.Judge.{judged_write};
ghost use Rattle.mx_write.specs.Made as spec;
ghost use Rattle.mx_judge.specs.Makes.{MakesWrite, tuples_shown};
ghost use Rattle.mx_write.specs.Writes as statement;
ghost use Rattle.mx_slow_state.specs.SlowSteps.{KeepsBy, KeepsState};

use crate::slow_state::list::take_out;
use crate::slow_state::schemas::{add_index, add_space, drop_index, drop_space};
use crate::slow_state::{SlowSpace, put_into};
use mx_base::{Refusal, SpaceId, code_of};
use mx_judge::{Effect, Made, described_index, described_space};
use mx_model::Reply;
use mx_msgpack::{Bytes, Tuples};
use mx_schema::{INDEX_ROWS, Keyed, SPACE_ROWS};
use std::alloc::{AllocError, Global};
use std::collections::BTreeMap;

/// A refusal as a reply.
///
/// # Errors
/// It says that memory ran out.
pub fn refused(refusal: Refusal) -> Result<Reply, AllocError>
    ensures { MatchResult result (λ reply. (reply ≡ replies.Refused refusal) × (refusal ≢ refused.OutOfMemory)) (λ _. ⊤) }
{
    if code_of(&refusal) == code_of(&Refusal::OutOfMemory) {
        return Err(AllocError);
    }
    Ok(Reply::Refused(refusal))
}

/// The tuples that a reply shows.
pub(crate) fn show(alloc: Global, effect: &Effect) -> Result<Tuples, AllocError>
    ensures { IfOk result (λ tuples. tuples ≡ tuples_shown effect.now) }
{
    let mut tuples = Tuples::new(alloc);
    match effect {
        Effect::Put { tuple, is_shown } => {
            if *is_shown {
                tuples.push(tuple.as_slice())?;
            }
        }
        Effect::Removed { tuple } => tuples.push(tuple.as_slice())?,
    }
    Ok(tuples)
}

/// Changes the spaces as a write in this space does, which was judged to make this of them. With the row of
/// a space or an index that space or index comes or goes.
///
/// # Errors
/// Out of memory. The spaces are then as they were.
pub(crate) fn change(
    alloc: Global,
    spaces: &mut BTreeMap<u32, SlowSpace>,
    space: SpaceId,
    made: Made,
) -> Result<(), AllocError>
    ensures { (before : plain.State) (write : statement.Write) (is : spec.Made) → KeepsState (λ q. get_by (nat_cmp q) spaces.old) before → IsSound before
        → (judged_write Client before space.0 write).outcome ≡ Ok is → MakesWrite before space.0 write made is → MatchResult result
        (λ _. KeepsState (λ q. get_by (nat_cmp q) spaces.new) (state_after_changed before is.change))
        (λ _. KeepsState (λ q. get_by (nat_cmp q) spaces.new) before) }
{
    let Made { key, effect, .. } = made;
    match effect {
        Effect::Put { tuple, .. } => put(alloc, spaces, space, Keyed { key, tuple }),
        Effect::Removed { tuple } => remove(alloc, spaces, space, &Keyed { key, tuple }),
    }
}

fn put(
    alloc: Global,
    spaces: &mut BTreeMap<u32, SlowSpace>,
    space: SpaceId,
    keyed: Keyed,
) -> Result<(), AllocError>
    ensures { (before : plain.State) (key : Key) → KeepsState (λ q. get_by (nat_cmp q) spaces.old) before → IsSound before → AreFit key → keyed.key ≡ comparable_of key
        → MayChange before space.0 key (Some keyed.tuple) → MatchResult result
        (λ _. KeepsState (λ q. get_by (nat_cmp q) spaces.new) (state_after_change before (record { space = space.0; key = key; tuple = Some keyed.tuple })))
        (λ _. KeepsState (λ q. get_by (nat_cmp q) spaces.new) before) }
{
    match space.0 {
        SPACE_ROWS => put_space(alloc, spaces, keyed),
        INDEX_ROWS => put_index(alloc, spaces, keyed),
        _ => put_into(spaces, space, keyed),
    }
}

/// The row of a space comes with the space.
fn put_space(
    alloc: Global,
    spaces: &mut BTreeMap<u32, SlowSpace>,
    row: Keyed,
) -> Result<(), AllocError>
    ensures { (before : plain.State) (key : Key) → KeepsState (λ q. get_by (nat_cmp q) spaces.old) before → IsSound before → AreFit key → row.key ≡ comparable_of key
        → MayChange before plain.space_rows key (Some row.tuple) → MatchResult result
        (λ _. KeepsState (λ q. get_by (nat_cmp q) spaces.new) (state_after_change before (record { space = plain.space_rows; key = key; tuple = Some row.tuple })))
        (λ _. KeepsState (λ q. get_by (nat_cmp q) spaces.new) before) }
{
    let Some(def) = described_space(alloc, row.tuple.as_slice())? else {
        return Err(AllocError);
    };
    let id = def.id;
    add_space(alloc, spaces, def)?;
    match put_into(spaces, SpaceId(SPACE_ROWS), row) {
        Ok(()) => Ok(()),
        Err(fault) => {
            drop_space(spaces, id);
            Err(fault)
        }
    }
}

/// The row of an index comes with the index.
fn put_index(
    alloc: Global,
    spaces: &mut BTreeMap<u32, SlowSpace>,
    row: Keyed,
) -> Result<(), AllocError>
    ensures { (before : plain.State) (key : Key) → KeepsState (λ q. get_by (nat_cmp q) spaces.old) before → IsSound before → AreFit key → row.key ≡ comparable_of key
        → MayChange before plain.index_rows key (Some row.tuple) → MatchResult result
        (λ _. KeepsState (λ q. get_by (nat_cmp q) spaces.new) (state_after_change before (record { space = plain.index_rows; key = key; tuple = Some row.tuple })))
        (λ _. KeepsState (λ q. get_by (nat_cmp q) spaces.new) before) }
{
    let Some(index) = described_index(alloc, row.tuple.as_slice())? else {
        return Err(AllocError);
    };
    let (space, id) = (index.space, index.def.id);
    add_index(spaces, space, index.def)?;
    match put_into(spaces, SpaceId(INDEX_ROWS), row) {
        Ok(()) => Ok(()),
        Err(fault) => {
            drop_index(spaces, space, id);
            Err(fault)
        }
    }
}

fn remove(
    alloc: Global,
    spaces: &mut BTreeMap<u32, SlowSpace>,
    space: SpaceId,
    keyed: &Keyed,
) -> Result<(), AllocError>
    ensures { (before : plain.State) (key : Key) → KeepsState (λ q. get_by (nat_cmp q) spaces.old) before → IsSound before → AreFit key → keyed.now.key ≡ comparable_of key
        → MayChange before space.0 key None → Stands before space.0 key keyed.now.tuple → MatchResult result
        (λ _. KeepsState (λ q. get_by (nat_cmp q) spaces.new) (state_after_change before (record { space = space.0; key = key; tuple = None })))
        (λ _. KeepsState (λ q. get_by (nat_cmp q) spaces.new) before) }
{
    match space.0 {
        SPACE_ROWS => remove_space(alloc, spaces, keyed),
        INDEX_ROWS => remove_index(alloc, spaces, keyed),
        _ => {
            take_from(spaces, space, &keyed.key);
            Ok(())
        }
    }
}

/// The space goes with its row.
fn remove_space(
    alloc: Global,
    spaces: &mut BTreeMap<u32, SlowSpace>,
    row: &Keyed,
) -> Result<(), AllocError>
    ensures { (before : plain.State) (key : Key) → KeepsState (λ q. get_by (nat_cmp q) spaces.old) before → IsSound before → AreFit key → row.now.key ≡ comparable_of key
        → MayChange before plain.space_rows key None → Stands before plain.space_rows key row.now.tuple → MatchResult result
        (λ _. KeepsState (λ q. get_by (nat_cmp q) spaces.new) (state_after_change before (record { space = plain.space_rows; key = key; tuple = None })))
        (λ _. KeepsState (λ q. get_by (nat_cmp q) spaces.new) before) }
{
    let Some(def) = described_space(alloc, row.tuple.as_slice())? else {
        return Err(AllocError);
    };
    take_from(spaces, SpaceId(SPACE_ROWS), &row.key);
    drop_space(spaces, def.id);
    Ok(())
}

/// The index goes with its row.
fn remove_index(
    alloc: Global,
    spaces: &mut BTreeMap<u32, SlowSpace>,
    row: &Keyed,
) -> Result<(), AllocError>
    ensures { (before : plain.State) (key : Key) → KeepsState (λ q. get_by (nat_cmp q) spaces.old) before → IsSound before → AreFit key → row.now.key ≡ comparable_of key
        → MayChange before plain.index_rows key None → Stands before plain.index_rows key row.now.tuple → MatchResult result
        (λ _. KeepsState (λ q. get_by (nat_cmp q) spaces.new) (state_after_change before (record { space = plain.index_rows; key = key; tuple = None })))
        (λ _. KeepsState (λ q. get_by (nat_cmp q) spaces.new) before) }
{
    let Some(index) = described_index(alloc, row.tuple.as_slice())? else {
        return Err(AllocError);
    };
    take_from(spaces, SpaceId(INDEX_ROWS), &row.key);
    drop_index(spaces, index.space, index.def.id);
    Ok(())
}

/// Takes a tuple out of a space, where that is there.
fn take_from(spaces: &mut BTreeMap<u32, SlowSpace>, space: SpaceId, key: &Bytes)
    ensures { (schemas : ℕ → Option Schema) (state : plain.State) (schema : Schema) (wanted : Key) → KeepsBy schemas (λ q. get_by (nat_cmp q) spaces.old) state
        → schemas space.0 ≡ Some schema → AreFit wanted → key.now ≡ comparable_of wanted
        → KeepsBy schemas (λ q. get_by (nat_cmp q) spaces.new) (without_tuple state space.0 wanted) }
{
    let Some(found) = spaces.get_mut(&space.0) else {
        return;
    };
    take_out(&mut found.tuples, key);
}
