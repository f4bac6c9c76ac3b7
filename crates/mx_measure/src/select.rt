//! A SELECT of one tuple by its whole primary key, in a state of the spaces that the input describes.

ghost use Rattle.mx_msgpack.specs.Items.{IsArray};

use mx_base::{IndexId, SpaceId};
use mx_key::IterKind;
use mx_msgpack::{Tuples, array_of, parted, unsigned_in};
use mx_schema::{array_or_empty, from_rows, key_tuple};
use mx_space::{Pick, State};
use std::alloc::Global;

/// How many tuples the SELECT finds when it is asked so many times. The input has a space's number, the
/// arrays of the rows that describe spaces and indexes, a tuple that is put into the space, and a key.
pub(crate) fn found_after(alloc: Global, times: u32, bytes: &[u8]) -> Option<usize> {
    let (number, rest) = parted(bytes);
    let (spaces, rest) = parted(rest);
    let (indexes, rest) = parted(rest);
    let (tuple, key) = parted(rest);
    let space = SpaceId(u32::try_from(unsigned_in(number)?).ok()?);
    let mut state = described(alloc, spaces, indexes)?;
    put(alloc, &mut state, space, tuple)?;
    let pick = Pick {
        iterator: IterKind::Eq,
        key: array_or_empty(key),
        offset: 0,
        limit: 1,
    };
    let mut found = Tuples::new(alloc);
    for _ in 0..times {
        select(alloc, &state, space, &pick, &mut found)?;
    }
    Some(found.len())
}

/// The state of the spaces that these rows describe.
fn described(alloc: Global, spaces: &[u8], indexes: &[u8]) -> Option<State> {
    let spaces = rows(alloc, spaces)?;
    let indexes = rows(alloc, indexes)?;
    let catalogue = from_rows(alloc, &spaces, &indexes).ok()?;
    State::new(alloc, catalogue).ok()
}

/// The items of an array, each with its own spelling.
fn rows(alloc: Global, array: &[u8]) -> Option<Tuples> {
    let items = array_of(array)?;
    let mut rest = items.bytes;
    let mut found = Tuples::new(alloc);
    for _ in 0..items.count {
        let (row, others) = parted(rest);
        found.push(row).ok()?;
        rest = others;
    }
    Some(found)
}

fn put(alloc: Global, state: &mut State, space: SpaceId, tuple: &[u8]) -> Option<()> {
    let def = state.space(space)?.schema().index(IndexId(0))?;
    let keyed = key_tuple(alloc, &def.key, tuple).ok()?;
    state.put(alloc, space, keyed).ok()
}

/// As the engine does for each request: it looks up the space, its index, and the tuples.
fn select(
    alloc: Global,
    state: &State,
    space: SpaceId,
    pick: &Pick<'_>,
    found: &mut Tuples,
) -> Option<()>
    requires { IsArray pick.now.key.now }
{
    let indexed = state.space(space)?;
    let def = indexed.schema().index(IndexId(0))?;
    let _read = state.select(alloc, space, indexed, def, pick, found).ok()?;
    Some(())
}
