//! What a request reads of the plain slow program.

ghost use Rattle.std.specs.Prelude.{◌≡◌, IfOk};
ghost use Rattle.std.specs.FinMap.{entries};
ghost use Rattle.std.specs.Option.{option_copied, option_map};
ghost use Rattle.mx_key.specs.Comparable.{edges_of};
ghost use Rattle.mx_key.specs.Keys.{Key, AreFit};
ghost use Rattle.mx_key.specs.Ranges.{range_of};
ghost use Rattle.mx_schema.specs.Picks.{tuples_by_index};
ghost use Rattle.mx_entries.specs.Windows.{found_in, last_key_of};
ghost use Rattle.mx_schema.specs.State as plain;
ghost use Rattle.mx_schema.specs.Stored.{StoresTuples, stored_list};
ghost use Rattle.mx_model.specs.statements.Select.{select_answer_in};
ghost use Rattle.mx_model.specs.Answers.{answer_to};
ghost use Rattle.mx_slow_state.specs.SlowState.{KeepsTuples};
ghost use Rattle.mx_slow.specs.SlowReads.{HasRead};
ghost use Rattle.mx_slow.specs.SlowReadSteps.{scan_read};
ghost use Rattle.mx_slow.specs.SlowTouches.{IsFitRange};

use crate::read_ranges::{ReadRange, ReadRanges};
use crate::write_reads::write_reads;
use mx_base::{IndexId, SpaceId};
use mx_key::{KeyRange, range};
use mx_model::iterator_of;
use mx_request::Request;
use mx_schema::{INDEX_ROWS, IndexDef, Keyed, SPACE_ROWS, source_of};
use mx_slow_state::{SlowState, gather, index_tuples, key_refusal, next_of};
use mx_space::{Pick, SelectStop};
use mx_write::Write;
use std::alloc::{AllocError, Global};

/// What a statement reads, in order, a refused one's reads included; nothing where the request is none.
///
/// # Errors
/// Out of memory.
pub(crate) fn reads(state: &SlowState, request: &Request) -> Result<ReadRanges, AllocError>
    ensures { (before : plain.State) → KeepsTuples state.now before → IfOk result (λ reads. HasRead reads (answer_to before request.now).reads) }
{
    match request {
        Request::Select {
            space,
            index,
            limit,
            offset,
            iterator,
            key,
        } => {
            let pick = Pick {
                iterator: iterator_of(*iterator),
                key: key.as_slice(),
                offset: *offset,
                limit: *limit,
            };
            select_reads(state, *space, *index, &pick)
        }
        Request::Insert { space, tuple } => {
            let tuple = tuple.as_slice();
            write_reads(state, *space, &Write::Insert { tuple })
        }
        Request::Replace { space, tuple } => {
            let tuple = tuple.as_slice();
            write_reads(state, *space, &Write::Replace { tuple })
        }
        Request::Update {
            space,
            index,
            base,
            key,
            ops,
        } => {
            let write = Write::Update {
                index: *index,
                base: *base,
                key: key.as_slice(),
                operations: ops.as_slice(),
            };
            write_reads(state, *space, &write)
        }
        Request::Delete { space, index, key } => {
            let write = Write::Delete {
                index: *index,
                key: key.as_slice(),
            };
            write_reads(state, *space, &write)
        }
        Request::Upsert {
            space,
            base,
            tuple,
            ops,
        } => {
            let write = Write::Upsert {
                base: *base,
                tuple: tuple.as_slice(),
                operations: ops.as_slice(),
            };
            write_reads(state, *space, &write)
        }
        Request::Nop
        | Request::Ping
        | Request::Id
        | Request::Begin
        | Request::Commit
        | Request::Rollback
        | Request::Join { .. }
        | Request::Subscribe { .. }
        | Request::Ack { .. } => Ok(ReadRanges::new(state.alloc)),
    }
}

fn select_reads(
    state: &SlowState,
    space: SpaceId,
    index: IndexId,
    pick: &Pick<'_>,
) -> Result<ReadRanges, AllocError>
    ensures { (before : plain.State) → KeepsTuples state.now before → IfOk result (λ reads.
        HasRead reads (select_answer_in before space.0 index.0 pick.now.limit pick.now.offset pick.now.iterator pick.now.key.now).reads) }
{
    let mut reads = ReadRanges::new(state.alloc);
    reads.push_rows(state.alloc, SPACE_ROWS, space)?;
    let Some(found) = state.spaces.get(&space.0) else {
        return Ok(reads);
    };
    reads.push_rows(state.alloc, INDEX_ROWS, space)?;
    let Some(def) = found.schema.index(index) else {
        return Ok(reads);
    };
    if key_refusal(def, pick)?.is_some() {
        return Ok(reads);
    }
    let range = range(state.alloc, &def.key, pick.iterator, pick.key)?;
    let scanned = scan_by_index(state.alloc, def, state.tuples_of(space), range, pick)?;
    let Some(range) = scanned else {
        return Ok(reads);
    };
    reads.push(ReadRange {
        space: source_of(space),
        index: def.id,
        range,
    })?;
    Ok(reads)
}

/// What a scan of tuples by an index, whose range this is, reads of it.
fn scan_by_index(
    alloc: Global,
    def: &IndexDef,
    kept: &[Keyed],
    range: KeyRange,
    pick: &Pick<'_>,
) -> Result<Option<KeyRange>, AllocError>
    ensures { (all : plain.Tuples) (key : Key) → StoresTuples (stored_list kept.now) all → AreFit key → range ≡ edges_of (range_of pick.now.iterator key)
        → IfOk result (λ read. (read ≡ option_map edges_of (scan_read (entries (tuples_by_index def.now all)) pick.now key))
        × IsFitRange (scan_read (entries (tuples_by_index def.now all)) pick.now key)) }
{
    if def.id.0 == 0 {
        return scan(alloc, kept, range, pick);
    }
    let indexed = index_tuples(alloc, def, kept)?;
    scan(alloc, indexed.as_slice(), range, pick)
}

fn scan(
    alloc: Global,
    kept: &[Keyed],
    mut range: KeyRange,
    pick: &Pick<'_>,
) -> Result<Option<KeyRange>, AllocError>
    ensures { (all : plain.Tuples) (key : Key) → StoresTuples (stored_list kept.now) all → AreFit key → range ≡ edges_of (range_of pick.now.iterator key)
        → IfOk result (λ read. read ≡ option_map edges_of (scan_read (entries all) pick.now key)) }
{
    let tuples = match gather(alloc, kept, &range, pick) {
        Ok(tuples) => tuples,
        Err(SelectStop::TooLong) => return Ok(Some(range)),
        Err(SelectStop::NoMemory) => return Err(AllocError),
    };
    if pick.limit == 0 {
        return Ok(None);
    }
    if tuples.len() != pick.limit as usize {
        return Ok(Some(range));
    }
    let Some(last) = last_found(kept, &range, pick) else {
        return Ok(Some(range));
    };
    range.end_with(alloc, pick.iterator.descends(), last.key.as_slice())?;
    Ok(Some(range))
}

/// The last tuple that is picked.
fn last_found<'a>(kept: &'a [Keyed], range: &KeyRange, pick: &Pick<'_>) -> Option<&'a Keyed>
    ensures { last_key_of (found_in (stored_list kept.now) range.now pick.now.iterator pick.now.offset pick.now.limit)
        ≡ option_map (λ one. one.key) (option_copied result) }
{
    let down = pick.iterator.descends();
    let mut last = None;
    let mut rest = kept;
    let mut offset = pick.offset;
    let mut left = pick.limit;
    while left > 0 {
        let Some((one, others)) = next_of(rest, down) else {
            return last;
        };
        rest = others;
        if !range.holds(&one.key) {
            continue;
        }
        if offset > 0 {
            offset -= 1;
            continue;
        }
        last = Some(one);
        left -= 1;
    }
    last
}
