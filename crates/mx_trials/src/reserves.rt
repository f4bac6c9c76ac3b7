//! Changes of a commit in memory: reserved and installed they make what puts and removals make one by one,
//! and released they make nothing. A copy stays as it is while its original changes, and so does a kept state.

use mx_base::{IndexId, Name, SpaceId};
use mx_key::{IterKind, KeyDef, Part, PartKind};
use mx_msgpack::{Bytes, Tuples};
use mx_schema::{Catalogue, IndexDef, IndexKind, Keyed, SpaceDef, array_or_empty, key_tuple};
use mx_space::{KeptStates, Pick, State, TupleChange, TupleChanges};
use mx_tuple::{Format, FormatEntries};
use std::alloc::{AllocError, Global};
use std::test::Fail;

/// A space with one index, and one with two more: of the second field, and, of any number of tuples a key,
/// of the third.
const PLAIN: u32 = 512;

const INDEXED: u32 = 513;

const INDEXES: [(u32, u32); 4] = [(PLAIN, 0), (INDEXED, 0), (INDEXED, 1), (INDEXED, 2)];

/// A tuple of three numbers that is put, or removed by its first one.
type Change = (u32, [u8; 4], bool);

const FIRST: [Change; 5] = [
    (PLAIN, [0x93, 1, 10, 7], true),
    (PLAIN, [0x93, 2, 20, 7], true),
    (INDEXED, [0x93, 1, 10, 7], true),
    (INDEXED, [0x93, 2, 20, 7], true),
    (INDEXED, [0x93, 3, 30, 8], true),
];

/// New tuples, tuples in the place of others, one of them with the second field of one that goes, and
/// removals of what is there and of what isn't.
const CHANGES: [Change; 9] = [
    (PLAIN, [0x93, 3, 30, 9], true),
    (INDEXED, [0x93, 4, 40, 8], true),
    (INDEXED, [0x93, 2, 25, 8], true),
    (INDEXED, [0x93, 1, 0, 0], false),
    (INDEXED, [0x93, 3, 10, 8], true),
    (INDEXED, [0x93, 9, 0, 0], false),
    (PLAIN, [0x93, 1, 11, 7], true),
    (PLAIN, [0x93, 2, 0, 0], false),
    (PLAIN, [0x93, 8, 0, 0], false),
];

/// What each index has, with 193 before it.
const BEFORE: [u8; 48] = [
    0xc1, 0x93, 1, 10, 7, 0x93, 2, 20, 7, // of PLAIN
    0xc1, 0x93, 1, 10, 7, 0x93, 2, 20, 7, 0x93, 3, 30, 8, // of INDEXED, by its first field
    0xc1, 0x93, 1, 10, 7, 0x93, 2, 20, 7, 0x93, 3, 30, 8, // by its second
    0xc1, 0x93, 1, 10, 7, 0x93, 2, 20, 7, 0x93, 3, 30, 8, // and by its third
];

const AFTER: [u8; 48] = [
    0xc1, 0x93, 1, 11, 7, 0x93, 3, 30, 9, // of PLAIN
    0xc1, 0x93, 2, 25, 8, 0x93, 3, 10, 8, 0x93, 4, 40, 8, // of INDEXED, by its first field
    0xc1, 0x93, 3, 10, 8, 0x93, 2, 25, 8, 0x93, 4, 40, 8, // by its second
    0xc1, 0x93, 2, 25, 8, 0x93, 3, 10, 8, 0x93, 4, 40, 8, // and by its third
];

/// An index over the field of its own number.
fn index_of(alloc: Global, id: u32) -> Result<IndexDef, AllocError> {
    let mut key = KeyDef::new(alloc);
    let kind = PartKind::Unsigned;
    key.push(Part { field: id, kind })?;
    Ok(IndexDef {
        id: IndexId(id),
        name: Name::from_slice(alloc, b"index")?,
        kind: IndexKind::Tree,
        unique: id < 2,
        key,
    })
}

fn space_of(alloc: Global, id: u32) -> Result<SpaceDef, AllocError> {
    Ok(SpaceDef {
        id: SpaceId(id),
        name: Name::from_slice(alloc, b"space")?,
        format: Format {
            count: 0,
            entries: FormatEntries::new(alloc),
        },
    })
}

/// A state with the first tuples.
fn first_state(alloc: Global) -> Result<State, AllocError> {
    let mut state = State::new(alloc, Catalogue::new(alloc))?;
    state.add_space(alloc, space_of(alloc, PLAIN)?)?;
    state.add_space(alloc, space_of(alloc, INDEXED)?)?;
    for (space, index) in INDEXES {
        let def = index_of(alloc, index)?;
        if state.add_index(alloc, SpaceId(space), def).is_err() {
            return Err(AllocError);
        }
    }
    make_each(alloc, &mut state, &FIRST)?;
    Ok(state)
}

/// A tuple with its primary key.
fn keyed(alloc: Global, tuple: &[u8]) -> Result<Keyed, AllocError> {
    let primary = index_of(alloc, 0)?;
    match key_tuple(alloc, &primary.key, tuple) {
        Ok(keyed) => Ok(keyed),
        Err(_) => Err(AllocError),
    }
}

/// Makes the changes one by one.
fn make_each(alloc: Global, state: &mut State, changes: &[Change]) -> Result<(), AllocError> {
    for (space, tuple, is_put) in changes {
        let keyed = keyed(alloc, tuple)?;
        if *is_put {
            state.put(alloc, SpaceId(*space), keyed)?;
        } else {
            state.remove(alloc, SpaceId(*space), &keyed.key)?;
        }
    }
    Ok(())
}

/// The changes as those of one commit.
fn together(alloc: Global, changes: &[Change]) -> Result<TupleChanges, AllocError> {
    let mut all = TupleChanges::new(alloc);
    for (space, tuple, is_put) in changes {
        let Keyed { key, tuple } = keyed(alloc, tuple)?;
        let space = SpaceId(*space);
        let tuple = if *is_put { Some(tuple) } else { None };
        all.push(TupleChange { space, key, tuple })?;
    }
    Ok(all)
}

/// What each index has, in its order.
fn shown(alloc: Global, state: &State) -> Result<Bytes, AllocError> {
    let mut all = Bytes::new(alloc);
    for (space, index) in INDEXES {
        all.extend_from_slice(&[0xc1])?;
        let found = picked(alloc, state, SpaceId(space), IndexId(index))?;
        all.extend_from_slice(found.bytes())?;
    }
    Ok(all)
}

fn picked(alloc: Global, state: &State, id: SpaceId, index: IndexId) -> Result<Tuples, AllocError> {
    let mut found = Tuples::new(alloc);
    let Some(space) = state.space(id) else {
        return Ok(found);
    };
    let Some(def) = space.schema().index(index) else {
        return Ok(found);
    };
    let pick = Pick {
        iterator: IterKind::All,
        key: array_or_empty(&[]),
        offset: 0,
        limit: u32::MAX,
    };
    match state.select(alloc, id, space, def, &pick, &mut found) {
        Ok(_) => Ok(found),
        Err(_) => Err(AllocError),
    }
}

fn installs(alloc: Global) -> Result<bool, AllocError> {
    let mut state = first_state(alloc)?;
    let before = shown(alloc, &state)?;
    let prepared = state.reserve(alloc, together(alloc, &CHANGES)?)?;
    state.install(prepared);
    let mut other = first_state(alloc)?;
    make_each(alloc, &mut other, &CHANGES)?;
    let after = shown(alloc, &state)?;
    let one_by_one = shown(alloc, &other)?;
    Ok(before.as_slice() == &BEFORE[..] && after.as_slice() == &AFTER[..] && after == one_by_one)
}

/// What was released can be reserved again, and made.
fn releases(alloc: Global) -> Result<bool, AllocError> {
    let mut state = first_state(alloc)?;
    let prepared = state.reserve(alloc, together(alloc, &CHANGES)?)?;
    state.release(prepared);
    let released = shown(alloc, &state)?;
    let again = state.reserve(alloc, together(alloc, &CHANGES)?)?;
    state.install(again);
    let after = shown(alloc, &state)?;
    Ok(released.as_slice() == &BEFORE[..] && after.as_slice() == &AFTER[..])
}

/// Both a copy and its original can be changed.
fn copies(alloc: Global) -> Result<bool, AllocError> {
    let mut state = first_state(alloc)?;
    let mut copy = state.copy(alloc)?;
    make_each(alloc, &mut state, &CHANGES)?;
    let after = shown(alloc, &state)?;
    let kept = shown(alloc, &copy)?;
    let prepared = copy.reserve(alloc, together(alloc, &CHANGES)?)?;
    copy.install(prepared);
    let followed = shown(alloc, &copy)?;
    Ok(after.as_slice() == &AFTER[..] && kept.as_slice() == &BEFORE[..] && followed == after)
}

/// What each index has in the state that is kept after so many commits; nothing where none is kept.
fn kept(alloc: Global, states: &KeptStates, commits: u64) -> Result<Bytes, AllocError> {
    match states.at(commits) {
        Some(state) => shown(alloc, state),
        None => Ok(Bytes::new(alloc)),
    }
}

/// States are kept before two changes, one of them again after it. Those before the oldest one that is read
/// are dropped, and the others are as they were.
fn keeps(alloc: Global) -> Result<bool, AllocError> {
    let mut state = first_state(alloc)?;
    let mut states = KeptStates::new(alloc);
    states.keep(alloc, 3, &state)?;
    make_each(alloc, &mut state, &CHANGES)?;
    states.keep(alloc, 3, &state)?;
    states.keep(alloc, 4, &state)?;
    make_each(alloc, &mut state, &FIRST)?;
    let first = kept(alloc, &states, 3)?;
    let second = kept(alloc, &states, 4)?;
    let both = first.as_slice() == &BEFORE[..] && second.as_slice() == &AFTER[..];
    states.trim(Some(3));
    let all = states.len() == 2;
    states.trim(Some(4));
    let left = kept(alloc, &states, 4)?;
    let one = states.len() == 1 && states.at(3).is_none() && left.as_slice() == &AFTER[..];
    states.trim(None);
    Ok(both && all && one && states.is_empty())
}

#[test]
fn installed_changes_are_those_made_one_by_one(rt: HostRuntime) -> Result<(), Fail> {
    assert!(rt; installs(rt.alloc())?);
    Ok(())
}

#[test]
fn released_changes_leave_nothing(rt: HostRuntime) -> Result<(), Fail> {
    assert!(rt; releases(rt.alloc())?);
    Ok(())
}

#[test]
fn a_copy_stays_while_its_original_changes(rt: HostRuntime) -> Result<(), Fail> {
    assert!(rt; copies(rt.alloc())?);
    Ok(())
}

#[test]
fn kept_states_stay_until_no_view_reads_them(rt: HostRuntime) -> Result<(), Fail> {
    assert!(rt; keeps(rt.alloc())?);
    Ok(())
}
