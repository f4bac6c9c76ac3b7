//! The state of the plain slow program: it keeps the tuples of a space in one list, and scans all of it.

ghost use Rattle.std.specs.Prelude.{◌≡◌, ◌<◌, ◌≤◌, ◌∷◌, ℕ, [], Ok, Err, Option, Some, true, false, take, length, IfOk, IfSome, OnOk, OnErr, MatchOption, MatchResult};
ghost use Rattle.std.specs.List.{All, slice_get};
ghost use Rattle.std.specs.BTreeMap.{get_by, insert_entry};
ghost use Rattle.std.specs.FinMap.{empty, entries};
ghost use Rattle.std.specs.Ordering.{nat_cmp, is_lt};
ghost use Rattle.std.specs.Cmp.Lexicographic.{slice_cmp};
ghost use Rattle.mx_key.specs.Comparable.{comparable_of, edges_of};
ghost use Rattle.mx_key.specs.Keys.{Key, AreFit};
ghost use Rattle.mx_key.specs.Ranges.{range_of};
ghost use Rattle.mx_schema.specs.declared.schema.Schema.{Schema};
ghost use Rattle.mx_schema.specs.Catalogues.{index_with};
ghost use Rattle.mx_schema.specs.Picks.{directed, indexed_with, tuples_by_index};
ghost use Rattle.mx_schema.specs.State as plain;
ghost use Rattle.mx_schema.specs.State.{key_in, source_of, tuples_in, with_tuple};
ghost use Rattle.mx_schema.specs.Stored.{StoresTuples, stored_list};
ghost use Rattle.mx_entries.specs.Windows.{found_in};
ghost use Rattle.mx_space.specs.Spaces.{space_under};
ghost use Rattle.mx_space.specs.Stored.{Holds};
ghost use Rattle.mx_model.specs.statements.Select.{select_answer_in};
ghost use Rattle.mx_slow_state.specs.SlowState.{IsSlowState, KeepsTuples};
ghost use Rattle.mx_slow_state.specs.SlowSteps.{Finds, Gathers, IsMoved, KeepsBy, MovesSpace};

mod answers;
mod asked_key;
mod changes;
mod copies;
mod descriptions;
mod duplicates;
mod list;
mod schemas;
mod site;
mod updates;
mod writes;

use crate::slow_state::copies::copy_spaces;
pub use answers::{SlowAnswer, SlowWrite};
pub use asked_key::key_refusal;
pub use changes::refused;
pub use duplicates::is_another;
pub use list::find;
use mx_base::{IndexId, Refusal, SpaceId};
use mx_judge::index_missing;
use mx_key::{KeyRange, range};
use mx_model::Reply;
use mx_msgpack::{Bytes, Tuples};
use mx_schema::{IndexDef, Keyed, Schema, index_tuple, source_of};
use mx_space::{MAX_RESULT_SIZE, Pick, SelectStop, Space, SpaceEntry, State};
pub use site::{Site, find_entry, holder};
use std::alloc::{AllocError, Global};
use std::collections::BTreeMap;

/// A state that keeps the tuples of each space in one list, by their primary keys.
#[derive(Drop)]
pub struct SlowState {
    pub alloc: Global,
    pub spaces: BTreeMap<u32, SlowSpace>,
}

/// A space: what describes it, and its tuples in the order of their primary keys' bytes.
#[derive(Drop)]
pub struct SlowSpace {
    pub schema: Schema,
    pub tuples: Vec<Keyed>,
}

impl SlowState {
    /// The same state, with the tuples of each space in a list.
    pub fn new(alloc: Global, state: State) -> Result<SlowState, AllocError>
        ensures { (before : plain.State) → Holds state before → IfOk result (λ slow. IsSlowState slow before) }
    {
        let spaces = move_spaces(alloc, state.into_spaces())?;
        Ok(SlowState { alloc, spaces })
    }

    /// A copy of the state.
    ///
    /// # Errors
    /// Out of memory.
    pub fn copy(&self) -> Result<SlowState, AllocError>
        ensures { (before : plain.State) → IsSlowState self.now before → IfOk result (λ copy. IsSlowState copy before) }
    {
        Ok(SlowState {
            alloc: self.alloc,
            spaces: copy_spaces(self.alloc, &self.spaces)?,
        })
    }

    fn select(&self, space: SpaceId, index: IndexId, pick: &Pick<'_>) -> Result<Reply, AllocError>
        ensures { (state : plain.State) → KeepsTuples self.now state → IfOk result (λ reply. reply
            ≡ (select_answer_in state space.0 index.0 pick.now.limit pick.now.offset pick.now.iterator pick.now.key.now).reply) }
    {
        let Some(found) = self.spaces.get(&space.0) else {
            return Ok(Reply::Refused(Refusal::SpaceMissing { space }));
        };
        let Some(def) = found.schema.index(index) else {
            let refusal = index_missing(self.alloc, index, &found.schema.def.name)?;
            return Ok(Reply::Refused(refusal));
        };
        if let Some(refusal) = key_refusal(def, pick)? {
            return Ok(Reply::Refused(refusal));
        }
        let range = range(self.alloc, &def.key, pick.iterator, pick.key)?;
        match gather_by_index(self.alloc, def, self.tuples_of(space), &range, pick) {
            Ok(tuples) => Ok(Reply::Tuples(tuples)),
            Err(SelectStop::TooLong) => Ok(Reply::Refused(Refusal::ResultTooLong)),
            Err(SelectStop::NoMemory) => Err(AllocError),
        }
    }

    /// The tuples that a space shows: its own, or the rows of another one.
    pub fn tuples_of(&self, space: SpaceId) -> &[Keyed]
        ensures { (state : plain.State) → KeepsTuples self.now state → StoresTuples (stored_list result.now) (tuples_in state (source_of space.0)) }
    {
        match self.spaces.get(&source_of(space).0) {
            Some(found) => found.tuples.as_slice(),
            None => &[],
        }
    }
}

fn move_spaces(
    alloc: Global,
    mut left: Vec<SpaceEntry>,
) -> Result<BTreeMap<u32, SlowSpace>, AllocError>
    ensures { IfOk result (λ spaces. (space : ℕ) → IsMoved (space_under space left.items) (get_by (nat_cmp space) spaces)) }
{
    let mut spaces = BTreeMap::new(alloc);
    while let Some(SpaceEntry { id, space }) = left.pop() {
        spaces.insert(id.0, move_space(alloc, space)?)?;
    }
    Ok(spaces)
}

fn move_space(alloc: Global, space: Space) -> Result<SlowSpace, AllocError>
    ensures { IfOk result (λ moved. MovesSpace space moved) }
{
    let (schema, mut left) = space.into_parts(alloc)?;
    let mut tuples = Vec::new(alloc);
    while let Some((key, tuple)) = left.pop_first() {
        tuples.push(Keyed { key, tuple })?;
    }
    Ok(SlowSpace { schema, tuples })
}

/// Puts a tuple into a space, where that is there.
pub(crate) fn put_into(
    spaces: &mut BTreeMap<u32, SlowSpace>,
    space: SpaceId,
    keyed: Keyed,
) -> Result<(), AllocError>
    ensures ok { (schemas : ℕ → Option Schema) (state : plain.State) (schema : Schema) (key : Key) → KeepsBy schemas (λ q. get_by (nat_cmp q) spaces.old) state
        → schemas space.0 ≡ Some schema → IfSome (index_with 0 schema.indexes) (λ def. key_in def.key keyed.tuple ≡ Ok key) → AreFit key → keyed.key ≡ comparable_of key
        → OnOk result (KeepsBy schemas (λ q. get_by (nat_cmp q) spaces.new) (with_tuple state space.0 key keyed.tuple)) }
    ensures err { (schemas : ℕ → Option Schema) (state : plain.State) → KeepsBy schemas (λ q. get_by (nat_cmp q) spaces.old) state
        → OnErr result (KeepsBy schemas (λ q. get_by (nat_cmp q) spaces.new) state) }
{
    let Some(found) = spaces.get_mut(&space.0) else {
        return Ok(());
    };
    put(&mut found.tuples, keyed)
}

/// Puts a tuple into a list, in the place of the one that has its key.
fn put(kept: &mut Vec<Keyed>, keyed: Keyed) -> Result<(), AllocError>
    ensures { MatchResult result
        (λ _. stored_list kept.new.items ≡ insert_entry (slice_cmp nat_cmp) (stored_list kept.old.items) keyed.key keyed.tuple)
        (λ _. kept.new.items ≡ kept.old.items) }
{
    let place = place_of(kept, &keyed.key);
    match kept.get_mut(place) {
        Some(found) if found.key == keyed.key => {
            found.tuple = keyed.tuple;
            Ok(())
        }
        _ => Ok(kept.insert(place, keyed)?),
    }
}

fn place_of(kept: &[Keyed], key: &Bytes) -> usize
    ensures within { result ≤ length kept.now }
    ensures below { All (λ one. is_lt (slice_cmp nat_cmp one.key key.now) ≡ true) (take result kept.now) }
    ensures there { IfSome (slice_get kept.now result) (λ one. is_lt (slice_cmp nat_cmp one.key key.now) ≡ false) }
{
    let mut place = 0;
    for one in kept {
        if one.key >= *key {
            return place;
        }
        place += 1;
    }
    place
}

/// Copies what is picked of tuples by an index, whose range this is.
fn gather_by_index(
    alloc: Global,
    def: &IndexDef,
    kept: &[Keyed],
    range: &KeyRange,
    pick: &Pick<'_>,
) -> Result<Tuples, SelectStop>
    ensures { (all : plain.Tuples) (key : Key) → StoresTuples (stored_list kept.now) all → AreFit key → range.now ≡ edges_of (range_of pick.now.iterator key)
        → Finds (entries (tuples_by_index def.now all)) pick.now key result }
{
    if def.id.0 == 0 {
        return gather(alloc, kept, range, pick);
    }
    let indexed = index_tuples(alloc, def, kept)?;
    gather(alloc, indexed.as_slice(), range, pick)
}

/// Copies of tuples under their keys in an index.
///
/// # Errors
/// Out of memory.
pub fn index_tuples(alloc: Global, def: &IndexDef, kept: &[Keyed]) -> Result<Vec<Keyed>, AllocError>
    ensures { (all : plain.Tuples) → StoresTuples (stored_list kept.now) all
        → IfOk result (λ indexed. StoresTuples (stored_list indexed.items) (indexed_with def.now empty (entries all))) }
{
    let mut indexed = Vec::new(alloc);
    for one in kept {
        let keyed = index_tuple(alloc, def, one.key.as_slice(), one.tuple.as_slice())?;
        put(&mut indexed, keyed)?;
    }
    Ok(indexed)
}

/// Copies what is picked of tuples by a range of their keys.
///
/// # Errors
/// They have too many bytes, or out of memory.
pub fn gather(
    alloc: Global,
    kept: &[Keyed],
    range: &KeyRange,
    pick: &Pick<'_>,
) -> Result<Tuples, SelectStop>
    ensures { Gathers (found_in (stored_list kept.now) range.now pick.now.iterator pick.now.offset pick.now.limit) result }
{
    let down = pick.iterator.descends();
    let mut tuples = Tuples::new(alloc);
    let mut rest = kept;
    let mut offset = pick.offset;
    let mut left = pick.limit;
    let mut bytes = 0;
    while left > 0 {
        let Some((one, others)) = next_of(rest, down) else {
            return Ok(tuples);
        };
        rest = others;
        if !range.holds(&one.key) {
            continue;
        }
        if offset > 0 {
            offset -= 1;
            continue;
        }
        if one.tuple.len() > MAX_RESULT_SIZE - bytes {
            return Err(SelectStop::TooLong);
        }
        bytes += one.tuple.len();
        tuples.push(one.tuple.as_slice())?;
        left -= 1;
    }
    Ok(tuples)
}

/// The tuple that comes next on the way up or down, and those after it.
pub fn next_of(kept: &[Keyed], down: bool) -> Option<(&Keyed, &[Keyed])>
    ensures { MatchOption result
        (kept.now ≡ [])
        (λ next. directed down kept.now ≡ next.0.now ∷ directed down next.1.now) }
{
    if down {
        kept.split_last()
    } else {
        kept.split_first()
    }
}
