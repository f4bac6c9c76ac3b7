//! Spaces and indexes that requests make and drop, in the slow program and the engine.

use mx_steps::{ALL, Asked, GT, NO_KEY, Step, Told, play_both};
use std::test::Fail;

/// The row of the space 600: [600, 1, "first", "memtx", 0, {}, []].
const SPACE: &[u8] = b"\x97\xcd\x02X\x01\xa5first\xa5memtx\0\x80\x90";

/// The row of its primary index, over a number, and those of indexes of the second field: a tree and a hash.
const PRIMARY: &[u8] = b"\x96\xcd\x02X\0\xa3key\xa4tree\x81\xa6unique\xc3\x91\x92\0\xa8unsigned";

const TEXTS: &[u8] = b"\x96\xcd\x02X\x01\xa5texts\xa4tree\x81\xa6unique\xc3\x91\x92\x01\xa6string";

const HASH: &[u8] = b"\x96\xcd\x02X\x02\xa1h\xa4hash\x80\x91\x92\x01\xa6string";

// The tuples [1, "a"], [2, "a"] and [1, "b"].
const ONE: &[u8] = b"\x92\x01\xa1a";

const TWO: &[u8] = b"\x92\x02\xa1a";

const CHANGED: &[u8] = b"\x92\x01\xa1b";

// The keys [600], [600, 0], [600, "texts"], [1], [2], ["a"] and ["b"].
const OWN: &[u8] = b"\x91\xcd\x02X";

const OF_PRIMARY: &[u8] = b"\x92\xcd\x02X\0";

const OF_TEXTS: &[u8] = b"\x92\xcd\x02X\xa5texts";

const FIRST: &[u8] = b"\x91\x01";

const SECOND: &[u8] = b"\x91\x02";

const A: &[u8] = b"\x91\xa1a";

const B: &[u8] = b"\x91\xa1b";

const NO_PRIMARY: Told<'static> = Told::Refused(35, b"No index 0 in space \"first\"");

const NO_SPACE: Told<'static> = Told::Refused(36, b"Space 600 does not exist");

const DUPLICATE: Told<'static> = Told::Refused(
    3,
    b"Duplicate key in unique index \"texts\" of space \"first\"",
);

/// A space is made, then its primary index, and both are dropped.
const SPACES: &[Step<'static>] = &[
    (Asked::Insert(600, ONE), NO_SPACE),
    (Asked::Insert(288, PRIMARY), NO_SPACE),
    (Asked::Insert(280, SPACE), Told::Tuples(SPACE)),
    (
        Asked::Insert(280, SPACE),
        Told::Refused(10, b"Space \"first\" exists"),
    ),
    (Asked::Insert(600, ONE), NO_PRIMARY),
    (Asked::Select(600, 0, NO_KEY), NO_PRIMARY),
    (
        Asked::Insert(288, TEXTS),
        Told::Refused(14, b"Bad index row"),
    ),
    (Asked::Insert(288, PRIMARY), Told::Tuples(PRIMARY)),
    (Asked::Insert(600, ONE), Told::Tuples(ONE)),
    (Asked::Select(281, 0, OWN), Told::Tuples(SPACE)),
    (
        Asked::Delete(280, 0, OWN),
        Told::Refused(11, b"Space \"first\" still has indexes"),
    ),
    // The tuples go with the primary index, and don't come back.
    (Asked::Delete(288, 0, OF_PRIMARY), Told::Tuples(PRIMARY)),
    (Asked::Delete(288, 0, OF_PRIMARY), Told::Tuples(b"")),
    (Asked::Insert(288, PRIMARY), Told::Tuples(PRIMARY)),
    (Asked::Select(600, 0, NO_KEY), Told::Tuples(b"")),
    (Asked::Delete(288, 0, OF_PRIMARY), Told::Tuples(PRIMARY)),
    (Asked::Delete(280, 0, OWN), Told::Tuples(SPACE)),
    (Asked::Delete(280, 0, OWN), Told::Tuples(b"")),
    (Asked::Select(600, 0, NO_KEY), NO_SPACE),
    (
        Asked::Insert(280, b"\x94\xcd\x02X\x01\xa1x\xa1x"),
        Told::Refused(9, b"Bad space row"),
    ),
];

/// An index is made of the tuples that are there, and kept by each write.
const INDEXES: &[Step<'static>] = &[
    (Asked::Insert(280, SPACE), Told::Tuples(SPACE)),
    (Asked::Insert(288, PRIMARY), Told::Tuples(PRIMARY)),
    (Asked::Insert(600, ONE), Told::Tuples(ONE)),
    (Asked::Insert(600, TWO), Told::Tuples(TWO)),
    (Asked::Insert(288, TEXTS), DUPLICATE),
    (
        Asked::Select(600, 1, A),
        Told::Refused(35, b"No index 1 in space \"first\""),
    ),
    (Asked::Delete(600, 0, SECOND), Told::Tuples(TWO)),
    (Asked::Insert(288, TEXTS), Told::Tuples(TEXTS)),
    (Asked::Select(600, 1, A), Told::Tuples(ONE)),
    (Asked::Insert(600, TWO), DUPLICATE),
    (Asked::Replace(600, CHANGED), Told::Tuples(CHANGED)),
    (Asked::Select(600, 1, A), Told::Tuples(b"")),
    (Asked::Insert(600, TWO), Told::Tuples(TWO)),
    (
        Asked::Scan(600, 1, ALL, NO_KEY),
        Told::Tuples(b"\x92\x02\xa1a\x92\x01\xa1b"),
    ),
    // UPDATE [1] with [["=", 1, "a"]].
    (
        Asked::Update(600, 0, FIRST, b"\x91\x93\xa1=\x01\xa1a"),
        DUPLICATE,
    ),
    (Asked::Delete(600, 1, B), Told::Tuples(CHANGED)),
    (
        Asked::Delete(288, 0, OF_PRIMARY),
        Told::Refused(
            17,
            b"Primary index of space \"first\" has to be dropped last",
        ),
    ),
    (Asked::Insert(288, HASH), Told::Tuples(HASH)),
    (Asked::Select(600, 2, A), Told::Tuples(TWO)),
    (
        Asked::Scan(600, 2, GT, A),
        Told::Refused(5, b"Unsupported: iterator of a hash index"),
    ),
    (Asked::Delete(288, 2, OF_TEXTS), Told::Tuples(TEXTS)),
    (
        Asked::Select(600, 1, A),
        Told::Refused(35, b"No index 1 in space \"first\""),
    ),
    (Asked::Select(600, 0, NO_KEY), Told::Tuples(TWO)),
];

#[test]
fn spaces_come_and_go(rt: HostRuntime) -> Result<(), Fail> {
    Ok(play_both(rt.alloc(), SPACES)?)
}

#[test]
fn indexes_come_and_go(rt: HostRuntime) -> Result<(), Fail> {
    Ok(play_both(rt.alloc(), INDEXES)?)
}
