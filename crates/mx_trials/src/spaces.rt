//! A space in memory: a lookup by its indexes after writes, and an index that is made or refused.

use mx_base::{IndexId, Name, SpaceId};
use mx_key::{KeyDef, Part, PartKind};
use mx_msgpack::Bytes;
use mx_schema::{IndexDef, IndexDefs, IndexKind, Keyed, Schema, SpaceDef, key_tuple};
use mx_space::{BuildFault, Space, SpaceView};
use mx_tuple::{Format, FormatEntries};
use std::alloc::{AllocError, Global};
use std::process::Abort;
use std::test::Fail;

/// Tuples of two numbers: [1, 20], [2, 30], [1, 40] and [3, 20].
const FIRST: [u8; 3] = [0x92, 1, 20];

const SECOND: [u8; 3] = [0x92, 2, 30];

const CHANGED: [u8; 3] = [0x92, 1, 40];

const REPEATED: [u8; 3] = [0x92, 3, 20];

/// An index over one field, which is a number.
fn index_of(alloc: Global, id: u32, field: u32) -> Result<IndexDef, AllocError> {
    let mut key = KeyDef::new(alloc);
    let kind = PartKind::Unsigned;
    key.push(Part { field, kind })?;
    Ok(IndexDef {
        id: IndexId(id),
        name: Name::from_slice(alloc, b"index")?,
        kind: IndexKind::Tree,
        unique: true,
        key,
    })
}

/// A space with an index over the first field, and with one over the second where `both`.
fn schema_of(alloc: Global, both: bool) -> Result<Schema, AllocError> {
    let mut indexes = IndexDefs::new(alloc);
    indexes.insert(index_of(alloc, 0, 0)?)?;
    if both {
        indexes.insert(index_of(alloc, 1, 1)?)?;
    }
    Ok(Schema {
        def: SpaceDef {
            id: SpaceId(512),
            name: Name::from_slice(alloc, b"space")?,
            format: Format {
                count: 0,
                entries: FormatEntries::new(alloc),
            },
        },
        indexes,
    })
}

/// A tuple with its key in an index.
fn keyed_by(alloc: Global, def: &IndexDef, tuple: &[u8]) -> Result<Keyed, AllocError> {
    match key_tuple(alloc, &def.key, tuple) {
        Ok(keyed) => Ok(keyed),
        Err(_) => Err(AllocError),
    }
}

/// The tuple with the second field of a tuple.
fn holder_of<'a>(
    alloc: Global,
    space: &'a Space,
    tuple: &[u8],
) -> Result<Option<&'a [u8]>, AllocError> {
    let def = index_of(alloc, 1, 1)?;
    let keyed = keyed_by(alloc, &def, tuple)?;
    let view = SpaceView { space, over: None };
    view.holder(alloc, &def, &keyed.key)
}

fn put(alloc: Global, space: &mut Space, tuple: &[u8]) -> Result<(), AllocError> {
    let def = index_of(alloc, 0, 0)?;
    let keyed = keyed_by(alloc, &def, tuple)?;
    space.put(alloc, keyed)
}

fn remove(alloc: Global, space: &mut Space, tuple: &[u8]) -> Result<(), AllocError> {
    let def = index_of(alloc, 0, 0)?;
    let keyed = keyed_by(alloc, &def, tuple)?;
    space.remove(alloc, &keyed.key)
}

/// A tuple is found by its second field until another one takes its place or it is removed.
fn follows_writes(alloc: Global) -> Result<bool, AllocError> {
    let mut space = Space::new(alloc, schema_of(alloc, true)?)?;
    put(alloc, &mut space, &FIRST)?;
    put(alloc, &mut space, &SECOND)?;
    let before = holder_of(alloc, &space, &FIRST)? == Some(&FIRST[..]);
    put(alloc, &mut space, &CHANGED)?;
    let gone = holder_of(alloc, &space, &FIRST)?.is_none();
    let changed = holder_of(alloc, &space, &CHANGED)? == Some(&CHANGED[..]);
    remove(alloc, &mut space, &CHANGED)?;
    let removed = holder_of(alloc, &space, &CHANGED)?.is_none();
    let other = holder_of(alloc, &space, &SECOND)? == Some(&SECOND[..]);
    Ok(before && gone && changed && removed && other)
}

/// An index is made of the tuples that are there, dropped, and refused where two have one key in it.
fn makes_an_index(alloc: Global) -> Result<bool, AllocError> {
    let mut space = Space::new(alloc, schema_of(alloc, false)?)?;
    put(alloc, &mut space, &FIRST)?;
    put(alloc, &mut space, &SECOND)?;
    let made = space.add_index(alloc, index_of(alloc, 1, 1)?).is_ok();
    let found = holder_of(alloc, &space, &SECOND)? == Some(&SECOND[..]);
    space.drop_index(IndexId(1));
    let dropped = holder_of(alloc, &space, &SECOND)?.is_none();
    put(alloc, &mut space, &REPEATED)?;
    let again = space.add_index(alloc, index_of(alloc, 1, 1)?);
    Ok(made && found && dropped && again == Err(BuildFault::Duplicate))
}

/// Without the primary index no tuple is there, and a new one begins with none.
fn drops_the_primary_index(alloc: Global) -> Result<bool, AllocError> {
    let mut space = Space::new(alloc, schema_of(alloc, true)?)?;
    put(alloc, &mut space, &FIRST)?;
    space.drop_index(IndexId(0));
    let emptied = holder_of(alloc, &space, &FIRST)?.is_none();
    let made = space.add_index(alloc, index_of(alloc, 0, 0)?).is_ok();
    put(alloc, &mut space, &REPEATED)?;
    let found = holder_of(alloc, &space, &FIRST)? == Some(&REPEATED[..]);
    Ok(emptied && made && found)
}

#[test]
fn a_tuple_is_found_until_it_is_replaced_or_removed(rt: HostRuntime) -> Result<(), Fail> {
    assert!(rt; follows_writes(rt.alloc())?);
    Ok(())
}

#[test]
fn an_index_is_made_of_the_tuples_that_are_there(rt: HostRuntime) -> Result<(), Fail> {
    assert!(rt; makes_an_index(rt.alloc())?);
    Ok(())
}

#[test]
fn tuples_go_with_the_primary_index(rt: HostRuntime) -> Result<(), Fail> {
    assert!(rt; drops_the_primary_index(rt.alloc())?);
    Ok(())
}
