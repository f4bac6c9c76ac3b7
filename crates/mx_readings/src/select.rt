//! What a SELECT finds: of a state, of the slow program and of the engine.

use mx_base::{IndexId, SpaceId};
use mx_key::{IterKind, KeyRange, comparable, misfit};
use mx_model::{Reply, iterator_of, misfit_refusal};
use mx_msgpack::{Bytes, Tuples, Value, Values};
use mx_schema::{IndexDef, array_or_empty};
use mx_space::{Pick, SelectFault, Space, State};
use mx_steps::{
    ALL, Asked, Database, EQ, GE, GT, LE, LT, NO_KEY, REQ, Step, StepFault, Told, bootstrap,
    bytes_of, check_refusal, expect, play_at, play_both, put, state_of, tuple_of_maximum_size,
};
use std::alloc::{AllocError, Global};
use std::process::Abort;
use std::test::Fail;

#[test]
fn iterators_have_their_numbers(rt: HostRuntime) {
    let table = [
        IterKind::Eq,
        IterKind::Req,
        IterKind::All,
        IterKind::Lt,
        IterKind::Le,
        IterKind::Ge,
        IterKind::Gt,
    ];
    for (number, iterator) in table.iter().enumerate() {
        assert_eq!(rt; iterator_of(number as u8), *iterator, "at {number}");
    }
}

/// Tuples in the order in which they are put in: a key, which may be spelled longer than it need be,
/// and the letter that names it below. The tuple with the letter `x` gives way to the one of `b`.
const TUPLES: &[&[u8]] = &[
    b"\x92\xcd\xff\xff\xa1h",
    b"\x92\x01\xa1x",
    b"\x92\xcf\x80\0\0\0\0\0\0\0\xa1k",
    b"\x92\xd1\0\x80\xa1e",
    b"\x92\xcf\0\0\0\0\0\0\0\x07\xa1c",
    b"\x92\xce\0\x01\0\0\xa1i",
    b"\x92\0\xa1a",
    b"\x92\xcf\xff\xff\xff\xff\xff\xff\xff\xff\xa1l",
    b"\x92\xcd\0\xff\xa1f",
    b"\x92\x7f\xa1d",
    b"\x92\xcf\0\0\0\x01\0\0\0\0\xa1j",
    b"\x92\xce\0\0\x01\0\xa1g",
    b"\x92\xcc\x01\xa1b",
];

/// Numbers in order with their names: letters where a tuple has the key, and digits where none has.
/// A text is above all of them; its name is `9`.
const KEYS: &[(u8, i128)] = &[
    (b'0', -1),
    (b'a', 0),
    (b'b', 1),
    (b'1', 2),
    (b'c', 7),
    (b'd', 127),
    (b'e', 128),
    (b'2', 200),
    (b'f', 255),
    (b'g', 256),
    (b'3', 1000),
    (b'h', 65_535),
    (b'i', 65_536),
    (b'j', 0x1_0000_0000),
    (b'4', 0x4000_0000_0000_0000),
    (b'k', 0x8000_0000_0000_0000),
    (b'5', 0xffff_ffff_ffff_fffe),
    (b'l', 0xffff_ffff_ffff_ffff),
];

// Keys as requests give them.
const ZERO: &[u8] = b"\x91\0";

const TWO: &[u8] = b"\x91\x02";

const SEVEN: &[u8] = b"\x91\x07";

const LONG_SEVEN: &[u8] = b"\xdc\0\x01\xcf\0\0\0\0\0\0\0\x07";

const BYTE: &[u8] = b"\x91\xcc\xff";

const TWO_BYTES: &[u8] = b"\x91\xce\0\x01\0\0";

const FOUR_BYTES: &[u8] = b"\x91\xcf\0\0\0\x01\0\0\0\0";

const HALF: &[u8] = b"\x91\xcf\x80\0\0\0\0\0\0\0";

const MAX_KEY: &[u8] = b"\x91\xcf\xff\xff\xff\xff\xff\xff\xff\xff";

// The names of all tuples, upwards and downwards, and of all keys of the tables.
const UP: &[u8] = b"abcdefghijkl";

const DOWN: &[u8] = b"lkjihgfedcba";

const EACH: &[u8] = b"0ab1cde2fg3hij4k5l9";

/// An iterator, a key, an offset and a limit; the tuples that are picked, and the keys that are read.
type Picked = (
    u8,
    &'static [u8],
    u32,
    u32,
    &'static [u8],
    Option<&'static [u8]>,
);

/// Picks without a key.
const WITHOUT_KEY: &[Picked] = &[
    (EQ, NO_KEY, 0, 99, UP, Some(EACH)),
    (REQ, NO_KEY, 0, 99, DOWN, Some(EACH)),
    (ALL, NO_KEY, 0, 99, UP, Some(EACH)),
    (LT, NO_KEY, 0, 99, DOWN, Some(EACH)),
    (LE, NO_KEY, 0, 99, DOWN, Some(EACH)),
    (GE, NO_KEY, 0, 99, UP, Some(EACH)),
    (GT, NO_KEY, 0, 99, UP, Some(EACH)),
    (EQ, b"\xdd\0\0\0\0", 0, 99, UP, Some(EACH)),
    (EQ, NO_KEY, 3, 4, b"defg", Some(b"0ab1cde2fg")),
    (GT, NO_KEY, 0, 1, b"a", Some(b"0a")),
    (LT, NO_KEY, 0, 1, b"l", Some(b"l9")),
    (LE, NO_KEY, 0, 2, b"lk", Some(b"k5l9")),
    (REQ, NO_KEY, 1, 3, b"kji", Some(b"ij4k5l9")),
    (REQ, NO_KEY, 10, 5, b"ba", Some(EACH)),
    (GE, NO_KEY, 11, 1, b"l", Some(b"0ab1cde2fg3hij4k5l")),
    (GE, NO_KEY, 12, 1, b"", Some(EACH)),
    (ALL, NO_KEY, 0, 12, UP, Some(b"0ab1cde2fg3hij4k5l")),
    (LE, NO_KEY, 0, 12, DOWN, Some(b"ab1cde2fg3hij4k5l9")),
    (EQ, NO_KEY, 0, 0, b"", None),
    (LT, NO_KEY, 5, 0, b"", None),
    (GT, NO_KEY, u32::MAX, u32::MAX, b"", Some(EACH)),
];

/// Picks by a key that a tuple has, and by one that none has.
const IN_THE_MIDDLE: &[Picked] = &[
    (EQ, SEVEN, 0, 9, b"c", Some(b"c")),
    (REQ, SEVEN, 0, 9, b"c", Some(b"c")),
    (ALL, SEVEN, 0, 99, b"cdefghijkl", Some(b"cde2fg3hij4k5l9")),
    (GE, SEVEN, 0, 99, b"cdefghijkl", Some(b"cde2fg3hij4k5l9")),
    (GT, SEVEN, 0, 99, b"defghijkl", Some(b"de2fg3hij4k5l9")),
    (LE, SEVEN, 0, 99, b"cba", Some(b"0ab1c")),
    (LT, SEVEN, 0, 99, b"ba", Some(b"0ab1")),
    (EQ, LONG_SEVEN, 0, 9, b"c", Some(b"c")),
    (GE, LONG_SEVEN, 0, 2, b"cd", Some(b"cd")),
    (LT, LONG_SEVEN, 0, 9, b"ba", Some(b"0ab1")),
    (ALL, SEVEN, 2, 2, b"ef", Some(b"cde2f")),
    (GE, SEVEN, 1, 2, b"de", Some(b"cde")),
    (GT, SEVEN, 0, 1, b"d", Some(b"d")),
    (GT, SEVEN, 8, 9, b"l", Some(b"de2fg3hij4k5l9")),
    (LE, SEVEN, 1, 1, b"b", Some(b"b1c")),
    (LT, SEVEN, 0, 1, b"b", Some(b"b1")),
    (LT, SEVEN, 2, 1, b"", Some(b"0ab1")),
    (EQ, SEVEN, 0, 1, b"c", Some(b"c")),
    (EQ, SEVEN, 1, 1, b"", Some(b"c")),
    (REQ, SEVEN, 0, 1, b"c", Some(b"c")),
    (REQ, SEVEN, 1, 9, b"", Some(b"c")),
    (EQ, SEVEN, 0, 0, b"", None),
    (EQ, TWO, 0, 9, b"", Some(b"1")),
    (REQ, TWO, 0, 9, b"", Some(b"1")),
    (ALL, TWO, 0, 3, b"cde", Some(b"1cde")),
    (GE, TWO, 0, 1, b"c", Some(b"1c")),
    (GT, TWO, 0, 1, b"c", Some(b"c")),
    (LE, TWO, 0, 1, b"b", Some(b"b1")),
    (LT, TWO, 0, 1, b"b", Some(b"b")),
];

/// Picks by the least key and the greatest, and by those where spellings grow.
const AT_ENDS: &[Picked] = &[
    (LT, ZERO, 0, 9, b"", Some(b"0")),
    (LE, ZERO, 0, 9, b"a", Some(b"0a")),
    (EQ, ZERO, 0, 9, b"a", Some(b"a")),
    (GE, ZERO, 0, 3, b"abc", Some(b"ab1c")),
    (GT, ZERO, 0, 2, b"bc", Some(b"b1c")),
    (GT, MAX_KEY, 0, 9, b"", Some(b"9")),
    (GE, MAX_KEY, 0, 9, b"l", Some(b"l9")),
    (REQ, MAX_KEY, 0, 9, b"l", Some(b"l")),
    (LE, MAX_KEY, 0, 3, b"lkj", Some(b"j4k5l")),
    (LT, MAX_KEY, 0, 1, b"k", Some(b"k5")),
    (GE, HALF, 0, 9, b"kl", Some(b"k5l9")),
    (GT, HALF, 0, 9, b"l", Some(b"5l9")),
    (LT, HALF, 0, 2, b"ji", Some(b"ij4")),
    (EQ, HALF, 0, 9, b"k", Some(b"k")),
    (EQ, FOUR_BYTES, 0, 9, b"j", Some(b"j")),
    (GT, FOUR_BYTES, 0, 9, b"kl", Some(b"4k5l9")),
    (GE, TWO_BYTES, 0, 9, b"ijkl", Some(b"ij4k5l9")),
    (LT, TWO_BYTES, 0, 1, b"h", Some(b"h")),
    (EQ, b"\x91\xcd\xff\xff", 0, 9, b"h", Some(b"h")),
    (LE, b"\x91\xcd\x01\0", 2, 3, b"edc", Some(b"cde2fg")),
    (GT, BYTE, 0, 1, b"g", Some(b"g")),
    (LE, BYTE, 0, 2, b"fe", Some(b"e2f")),
    (GE, b"\x91\xcc\xc8", 0, 2, b"fg", Some(b"2fg")),
    (REQ, b"\x91\xd1\0\x7f", 0, 9, b"d", Some(b"d")),
];

/// All picks from these tuples.
const PICKS: &[&[Picked]] = &[WITHOUT_KEY, IN_THE_MIDDLE, AT_ENDS];

/// The bytes of the tuples with these names, one after the other.
fn tuples_named(alloc: Global, names: &[u8]) -> Result<Bytes, AllocError> {
    let mut bytes = Bytes::new(alloc);
    for name in names {
        for tuple in TUPLES {
            if tuple.last() == Some(name) {
                bytes.extend_from_slice(tuple)?;
            }
        }
    }
    Ok(bytes)
}

/// The names of the keys that a range holds.
fn keys_in(alloc: Global, range: &KeyRange) -> Result<Bytes, AllocError> {
    let mut names = Bytes::new(alloc);
    for (name, number) in KEYS {
        if holds(alloc, range, Value::Int(*number))? {
            names.extend_from_slice(&[*name])?;
        }
    }
    if holds(alloc, range, Value::Str(Bytes::new(alloc)))? {
        names.extend_from_slice(b"9")?;
    }
    Ok(names)
}

/// Whether a range holds the key of this one part.
pub(crate) fn holds(alloc: Global, range: &KeyRange, part: Value) -> Result<bool, AllocError> {
    let mut key = Values::new(alloc);
    key.push(part)?;
    Ok(range.holds(&comparable(alloc, &key)?))
}

/// Compares what a state picks with what is expected.
fn check_pick(
    rt: &impl Abort,
    alloc: Global,
    state: &State,
    picked: &Picked,
) -> Result<(), AllocError> {
    let (iterator, key, offset, limit, names, read) = *picked;
    let pick = Pick {
        iterator: iterator_of(iterator),
        key: array_or_empty(key),
        offset,
        limit,
    };
    let (space, def) = test_index(rt, state);
    assert!(rt; misfit(&def.key, key).is_none(), "at {pick:?}");
    let mut tuples = Tuples::new(alloc);
    let keys = state
        .select(alloc, SpaceId(512), space, def, &pick, &mut tuples)
        .expect(rt, "no tuples");
    check_tuples(rt, alloc, &pick, &tuples, names)?;
    check_read(rt, alloc, &pick, &keys, read)
}

fn check_tuples(
    rt: &impl Abort,
    alloc: Global,
    pick: &Pick<'_>,
    tuples: &Tuples,
    names: &[u8],
) -> Result<(), AllocError> {
    let bytes = bytes_of(alloc, tuples)?;
    assert_eq!(rt; bytes, tuples_named(alloc, names)?, "at {pick:?}");
    Ok(())
}

/// Compares the keys that were read, if any were, with what is expected.
fn check_read(
    rt: &impl Abort,
    alloc: Global,
    pick: &Pick<'_>,
    range: &Option<KeyRange>,
    names: Option<&[u8]>,
) -> Result<(), AllocError> {
    let Some(range) = range else {
        assert!(rt; names.is_none(), "at {pick:?}");
        return Ok(());
    };
    let keys = keys_in(alloc, range)?;
    assert_eq!(rt; Some(keys.as_slice()), names, "at {pick:?}");
    Ok(())
}

fn check_picks(
    rt: &impl Abort,
    alloc: Global,
    state: &State,
    table: &[Picked],
) -> Result<(), AllocError> {
    for picked in table {
        check_pick(rt, alloc, state, picked)?;
    }
    Ok(())
}

#[test]
fn state_selects(rt: HostRuntime) -> Result<(), Fail> {
    let alloc = rt.alloc();
    let state = state_of(alloc, TUPLES)?;
    for table in PICKS {
        check_picks(&rt, alloc, &state, table)?;
    }
    Ok(())
}

/// Puts the tuples, and compares the replies.
fn put_all(alloc: Global, database: &mut Database) -> Result<(), StepFault> {
    for tuple in TUPLES {
        let asked = Asked::Replace(512, tuple);
        expect(alloc, database, asked, Told::Tuples(tuple))?;
    }
    Ok(())
}

/// Asks for picks, and compares the replies.
fn ask_picks(alloc: Global, database: &mut Database, table: &[Picked]) -> Result<(), StepFault> {
    for (iterator, key, offset, limit, names, _) in table {
        let tuples = tuples_named(alloc, names)?;
        let asked = Asked::Pick(*iterator, key, *offset, *limit);
        expect(alloc, database, asked, Told::Tuples(tuples.as_slice()))?;
    }
    Ok(())
}

/// Puts the tuples, asks for all picks, and compares the replies.
fn ask_all(alloc: Global, database: &mut Database) -> Result<(), StepFault> {
    put_all(alloc, database)?;
    for table in PICKS {
        ask_picks(alloc, database, table)?;
    }
    Ok(())
}

#[test]
fn slow_program_selects(rt: HostRuntime) -> Result<(), Fail> {
    let mut database = Database::slow(rt.alloc())?;
    Ok(ask_all(rt.alloc(), &mut database)?)
}

#[test]
fn engine_selects(rt: HostRuntime) -> Result<(), Fail> {
    let mut database = Database::engine(rt.alloc())?;
    Ok(ask_all(rt.alloc(), &mut database)?)
}

const ONE: &[u8] = b"\x91\x01";

const THREE: &[u8] = b"\x91\x03";

const FOUR: &[u8] = b"\x91\x04";

/// Tuples of one field: [5], [3], [300], [1] and [1] again, spelled longer; and each iterator without
/// a key, by a key that a tuple has, and by one that none has.
const FEW: &[Step<'static>] = &[
    (Asked::Replace(512, b"\x91\x05"), Told::Tuples(b"\x91\x05")),
    (Asked::Replace(512, b"\x91\x03"), Told::Tuples(b"\x91\x03")),
    (
        Asked::Replace(512, b"\x91\xcd\x01\x2c"),
        Told::Tuples(b"\x91\xcd\x01\x2c"),
    ),
    (Asked::Replace(512, b"\x91\x01"), Told::Tuples(b"\x91\x01")),
    (
        Asked::Replace(512, b"\x91\xcc\x01"),
        Told::Tuples(b"\x91\xcc\x01"),
    ),
    (
        Asked::Pick(EQ, NO_KEY, 0, 9),
        Told::Tuples(b"\x91\xcc\x01\x91\x03\x91\x05\x91\xcd\x01\x2c"),
    ),
    (
        Asked::Pick(GE, NO_KEY, 1, 2),
        Told::Tuples(b"\x91\x03\x91\x05"),
    ),
    (
        Asked::Pick(GT, NO_KEY, 3, 9),
        Told::Tuples(b"\x91\xcd\x01\x2c"),
    ),
    (Asked::Pick(ALL, NO_KEY, 4, 9), Told::Tuples(b"")),
    (
        Asked::Pick(REQ, NO_KEY, 0, 9),
        Told::Tuples(b"\x91\xcd\x01\x2c\x91\x05\x91\x03\x91\xcc\x01"),
    ),
    (
        Asked::Pick(LE, NO_KEY, 0, 1),
        Told::Tuples(b"\x91\xcd\x01\x2c"),
    ),
    (
        Asked::Pick(LT, NO_KEY, 2, 9),
        Told::Tuples(b"\x91\x03\x91\xcc\x01"),
    ),
    (Asked::Pick(EQ, THREE, 0, 9), Told::Tuples(b"\x91\x03")),
    (Asked::Pick(EQ, THREE, 1, 9), Told::Tuples(b"")),
    (Asked::Pick(REQ, THREE, 0, 9), Told::Tuples(b"\x91\x03")),
    (
        Asked::Pick(ALL, THREE, 0, 2),
        Told::Tuples(b"\x91\x03\x91\x05"),
    ),
    (
        Asked::Pick(GE, THREE, 0, 9),
        Told::Tuples(b"\x91\x03\x91\x05\x91\xcd\x01\x2c"),
    ),
    (
        Asked::Pick(GT, THREE, 0, 9),
        Told::Tuples(b"\x91\x05\x91\xcd\x01\x2c"),
    ),
    (
        Asked::Pick(GT, THREE, 1, 9),
        Told::Tuples(b"\x91\xcd\x01\x2c"),
    ),
    (
        Asked::Pick(LE, THREE, 0, 9),
        Told::Tuples(b"\x91\x03\x91\xcc\x01"),
    ),
    (Asked::Pick(LE, THREE, 1, 1), Told::Tuples(b"\x91\xcc\x01")),
    (Asked::Pick(LT, THREE, 0, 9), Told::Tuples(b"\x91\xcc\x01")),
    (Asked::Pick(LT, THREE, 1, 9), Told::Tuples(b"")),
    (Asked::Pick(EQ, FOUR, 0, 9), Told::Tuples(b"")),
    (Asked::Pick(REQ, FOUR, 0, 9), Told::Tuples(b"")),
    (Asked::Pick(GE, FOUR, 0, 1), Told::Tuples(b"\x91\x05")),
    (Asked::Pick(LE, FOUR, 0, 1), Told::Tuples(b"\x91\x03")),
    (Asked::Pick(GT, FOUR, 0, 0), Told::Tuples(b"")),
    (
        Asked::Pick(GE, b"\x91\xcd\x01\x2c", 0, 9),
        Told::Tuples(b"\x91\xcd\x01\x2c"),
    ),
];

#[test]
fn few_tuples_are_selected(rt: HostRuntime) -> Result<(), Fail> {
    Ok(play_both(rt.alloc(), FEW)?)
}

// Refusals.
const NO_SPACE: Told<'static> = Told::Refused(36, b"Space 513 does not exist");

const NO_INDEX: Told<'static> = Told::Refused(35, b"No index 1 in space \"test\"");

const TWO_PARTS: Told<'static> = Told::Refused(19, b"Key of 2 parts, index of 1");

const WRONG_PART: Told<'static> = Told::Refused(18, b"Key part 0: unsigned expected");

/// SELECTs that are refused. Those above others tell of what comes first.
const REFUSED: &[Step<'static>] = &[
    (Asked::Select(513, 1, b"\x92\xff\x01"), NO_SPACE),
    (Asked::Select(513, 0, ONE), NO_SPACE),
    (
        Asked::Select(0, 0, NO_KEY),
        Told::Refused(36, b"Space 0 does not exist"),
    ),
    (
        Asked::Select(u32::MAX, 0, SEVEN),
        Told::Refused(36, b"Space 4294967295 does not exist"),
    ),
    (Asked::Select(512, 1, b"\x92\xff\x01"), NO_INDEX),
    (
        Asked::Select(512, u32::MAX, NO_KEY),
        Told::Refused(35, b"No index 4294967295 in space \"test\""),
    ),
    (Asked::Select(512, 0, b"\x92\x01\x01"), TWO_PARTS),
    (Asked::Select(512, 0, b"\x92\xff\x01"), TWO_PARTS),
    (
        Asked::Select(512, 0, b"\xdc\0\x03\x01\x02\x03"),
        Told::Refused(19, b"Key of 3 parts, index of 1"),
    ),
    (Asked::Pick(GE, b"\x92\x01\x01", 9, 0), TWO_PARTS),
    (Asked::Select(512, 0, b"\x91\xff"), WRONG_PART),
    (
        Asked::Select(512, 0, b"\x91\xd3\x80\0\0\0\0\0\0\0"),
        WRONG_PART,
    ),
    (Asked::Select(512, 0, b"\x91\xa11"), WRONG_PART),
    (Asked::Select(512, 0, b"\x91\xc4\x01\x01"), WRONG_PART),
    (Asked::Select(512, 0, b"\x91\xc0"), WRONG_PART),
    (Asked::Select(512, 0, b"\x91\xc3"), WRONG_PART),
    (Asked::Select(512, 0, b"\x91\x91\x01"), WRONG_PART),
    (Asked::Select(512, 0, b"\x91\xca\x3f\x80\0\0"), WRONG_PART),
    // The refusal comes though nothing would be answered.
    (Asked::Pick(LT, b"\x91\xff", 0, 0), WRONG_PART),
    (Asked::Pick(LT, b"\x91\xa11", 0, 9), WRONG_PART),
];

#[test]
fn slow_program_and_engine_refuse(rt: HostRuntime) -> Result<(), Fail> {
    Ok(play_both(rt.alloc(), REFUSED)?)
}

/// What a request that writes nothing is told doesn't depend on the node.
#[test]
fn read_only_nodes_refuse_the_same(rt: HostRuntime) -> Result<(), Fail> {
    Ok(play_at(rt.alloc(), "{}", 2, REFUSED)?)
}

/// The space `test` of a state, and its index.
fn test_index<'a>(rt: &impl Abort, state: &'a State) -> (&'a Space, &'a IndexDef) {
    let space = state.space(SpaceId(512)).expect(rt, "no space");
    let def = space.schema().index(IndexId(0)).expect(rt, "no index");
    (space, def)
}

/// Compares why a key doesn't fit with what a SELECT of it is told.
fn check_misfit(
    rt: &impl Abort,
    alloc: Global,
    state: &State,
    key: &[u8],
    told: Told<'_>,
) -> Result<(), StepFault> {
    let (_, def) = test_index(rt, state);
    let misfit = misfit(&def.key, key).expect(rt, "the key fits");
    check_refusal(alloc, &misfit_refusal(def, misfit), told)
}

#[test]
fn state_tells_misfits(rt: HostRuntime) -> Result<(), Fail> {
    let alloc = rt.alloc();
    let state = state_of(alloc, &[])?;
    for (asked, told) in REFUSED {
        if let Asked::Select(512, 0, key) = *asked {
            check_misfit(&rt, alloc, &state, key, *told)?;
        }
    }
    Ok(())
}

/// An iterator, a key, an offset and a limit; and how many tuples are picked, or none where they are too
/// long together.
type LongPick = (u8, &'static [u8], u32, u32, Option<usize>);

/// What is picked of sixteen tuples of 1,048,576 bytes and one of 2 bytes after them.
const OF_LONG_TUPLES: &[LongPick] = &[
    (GE, NO_KEY, 0, 16, Some(16)),
    (GE, NO_KEY, 0, 17, None),
    (LE, b"\x91\x20", 0, 99, None),
    (LT, NO_KEY, 15, 99, Some(2)),
    (GT, b"\x91\x0f", 0, 99, Some(1)),
    (EQ, NO_KEY, 17, 99, Some(0)),
    (REQ, NO_KEY, 0, 0, Some(0)),
];

/// The tuple of 2 bytes.
const SMALL: &[u8] = b"\x91\x10";

/// How many tuples a reply has, or none where it says that they are too long together.
fn count_in(rt: &impl Abort, alloc: Global, reply: &Reply) -> Result<Option<usize>, StepFault> {
    let too_long = Told::Refused(207, b"Result is longer than 16777216 bytes");
    match reply {
        Reply::Tuples(tuples) => return Ok(Some(tuples.len())),
        Reply::Refused(refusal) => check_refusal(alloc, refusal, too_long)?,
        Reply::Empty | Reply::Id => assert!(rt; false, "a reply without tuples"),
    }
    Ok(None)
}

/// Puts the long tuples and the small one, and compares the replies.
fn put_long(alloc: Global, database: &mut Database) -> Result<(), StepFault> {
    for key in 0..16 {
        let tuple = tuple_of_maximum_size(alloc, key)?;
        let asked = Asked::Replace(512, tuple.as_slice());
        expect(alloc, database, asked, Told::Tuples(tuple.as_slice()))?;
    }
    let asked = Asked::Replace(512, SMALL);
    expect(alloc, database, asked, Told::Tuples(SMALL))
}

/// Puts these tuples, asks for all picks, and compares.
fn ask_long(rt: &impl Abort, alloc: Global, database: &mut Database) -> Result<(), StepFault> {
    put_long(alloc, database)?;
    for (iterator, key, offset, limit, count) in OF_LONG_TUPLES {
        let asked = Asked::Pick(*iterator, key, *offset, *limit);
        let reply = database.ask(alloc, asked)?;
        let counted = count_in(rt, alloc, &reply)?;
        assert_eq!(rt; counted, *count, "at {asked:?}");
    }
    let asked = Asked::Pick(GE, NO_KEY, 16, 2);
    expect(alloc, database, asked, Told::Tuples(SMALL))
}

#[test]
fn slow_program_bounds_results(rt: HostRuntime) -> Result<(), Fail> {
    let mut database = Database::slow(rt.alloc())?;
    Ok(ask_long(&rt, rt.alloc(), &mut database)?)
}

#[test]
fn engine_bounds_results(rt: HostRuntime) -> Result<(), Fail> {
    let mut database = Database::engine(rt.alloc())?;
    Ok(ask_long(&rt, rt.alloc(), &mut database)?)
}

/// How many tuples of the space `test` a state picks, or none where they are too long together.
fn count_picked(
    rt: &impl Abort,
    alloc: Global,
    state: &State,
    row: &LongPick,
) -> Result<Option<usize>, AllocError> {
    let (iterator, key, offset, limit, _) = *row;
    let pick = Pick {
        iterator: iterator_of(iterator),
        key: array_or_empty(key),
        offset,
        limit,
    };
    let (space, def) = test_index(rt, state);
    let mut tuples = Tuples::new(alloc);
    match state.select(alloc, SpaceId(512), space, def, &pick, &mut tuples) {
        Ok(_) => Ok(Some(tuples.len())),
        Err(SelectFault::TooLong) => Ok(None),
        Err(SelectFault::Misfit(_)) | Err(SelectFault::NoMemory) => Err(AllocError),
    }
}

/// A state of the long tuples and the small one.
fn long_state(alloc: Global) -> Result<State, StepFault> {
    let mut state = bootstrap(alloc)?;
    for key in 0..16 {
        let tuple = tuple_of_maximum_size(alloc, key)?;
        put(alloc, &mut state, tuple.as_slice())?;
    }
    put(alloc, &mut state, SMALL)?;
    Ok(state)
}

#[test]
fn state_bounds_results(rt: HostRuntime) -> Result<(), Fail> {
    let alloc = rt.alloc();
    let state = long_state(alloc)?;
    for row in OF_LONG_TUPLES {
        let counted = count_picked(&rt, alloc, &state, row)?;
        assert_eq!(rt; counted, row.4, "at {row:?}");
    }
    Ok(())
}
