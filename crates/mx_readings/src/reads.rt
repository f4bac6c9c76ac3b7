//! What requests read, in a new database with [1], [2] and [3] in the space 512.

use crate::select::holds;
use mx_key::KeyRange;
use mx_msgpack::Value;
use mx_steps::{
    ALL, Asked, EQ, GE, GT, LE, LT, NAME, NO_KEY, REQ, ReadRange, Slow, StepFault, request_of,
    slow_program,
};
use std::alloc::{AllocError, Global};
use std::process::Abort;
use std::test::Fail;

/// A space, an index, and the first and the last number that the keys of a range begin with.
type Range = (u32, u32, i64, u64);

type Case = (Asked<'static>, &'static [Range]);

/// Ends of a range that goes on to all keys.
const FIRST: i64 = -9_223_372_036_854_775_808;

const LAST: u64 = 18_446_744_073_709_551_615;

/// The rows of the space 512 and of its indexes.
const SPACE: Range = (280, 0, 512, 512);

const INDEXES: Range = (288, 0, 512, 512);

const TUPLES: &[&[u8]] = &[b"\x91\x01", b"\x91\x02", b"\x91\x03"];

/// [["=", 1, 5]], [["=", 0, 5]] and no operation.
const SET: &[u8] = b"\x91\x93\xa1=\x01\x05";

const NEW_KEY: &[u8] = b"\x91\x93\xa1=\0\x05";

const NO_OPERATIONS: &[u8] = b"\x90";

const SELECTS: &[Case] = &[
    // No such space, no such index, and a key that isn't of its type.
    (Asked::Select(513, 0, NO_KEY), &[(280, 0, 513, 513)]),
    (Asked::Select(512, 9, NO_KEY), &[SPACE, INDEXES]),
    (Asked::Select(512, 0, b"\x91\xa1x"), &[SPACE, INDEXES]),
    // One key, whether a tuple has it or not.
    (
        Asked::Pick(EQ, b"\x91\x02", 0, 10),
        &[SPACE, INDEXES, (512, 0, 2, 2)],
    ),
    (
        Asked::Pick(REQ, b"\x91\x09", 0, 10),
        &[SPACE, INDEXES, (512, 0, 9, 9)],
    ),
    // To the end where the limit isn't reached, and to the last tuple where it is.
    (
        Asked::Pick(GE, b"\x91\x02", 0, 10),
        &[SPACE, INDEXES, (512, 0, 2, LAST)],
    ),
    (
        Asked::Pick(GE, b"\x91\x02", 0, 1),
        &[SPACE, INDEXES, (512, 0, 2, 2)],
    ),
    (
        Asked::Pick(GT, b"\x91\x01", 0, 2),
        &[SPACE, INDEXES, (512, 0, 2, 3)],
    ),
    (
        Asked::Pick(LE, b"\x91\x03", 0, 2),
        &[SPACE, INDEXES, (512, 0, 2, 3)],
    ),
    (
        Asked::Pick(LT, b"\x91\x03", 0, 9),
        &[SPACE, INDEXES, (512, 0, FIRST, 2)],
    ),
    (
        Asked::Pick(ALL, NO_KEY, 0, 2),
        &[SPACE, INDEXES, (512, 0, FIRST, 2)],
    ),
    (
        Asked::Pick(REQ, NO_KEY, 0, 2),
        &[SPACE, INDEXES, (512, 0, 2, LAST)],
    ),
    // The tuples that are passed over lie in the range, also where none is left.
    (
        Asked::Pick(GE, b"\x91\x01", 1, 1),
        &[SPACE, INDEXES, (512, 0, 1, 2)],
    ),
    (
        Asked::Pick(GE, b"\x91\x01", 5, 1),
        &[SPACE, INDEXES, (512, 0, 1, LAST)],
    ),
    (Asked::Pick(GE, b"\x91\x01", 0, 0), &[SPACE, INDEXES]),
    // 281 shows the rows of 280.
    (
        Asked::Select(281, 0, b"\x91\xcd\x02\0"),
        &[(280, 0, 281, 281), (288, 0, 281, 281), (280, 0, 512, 512)],
    ),
];

const WRITES: &[Case] = &[
    (Asked::Insert(513, b"\x91\x02"), &[(280, 0, 513, 513)]),
    (Asked::Insert(281, b"\x91\x02"), &[(280, 0, 281, 281)]),
    (Asked::Insert(512, b"\x90"), &[SPACE, INDEXES]),
    // An INSERT reads its key, and a REPLACE doesn't.
    (
        Asked::Insert(512, b"\x91\x02"),
        &[SPACE, INDEXES, (512, 0, 2, 2)],
    ),
    (
        Asked::Insert(512, b"\x91\x09"),
        &[SPACE, INDEXES, (512, 0, 9, 9)],
    ),
    (Asked::Replace(512, b"\x91\x02"), &[SPACE, INDEXES]),
    // The key that is asked for, whether a tuple has it or not, and whatever refuses the write then.
    (
        Asked::Update(512, 0, b"\x91\x02", SET),
        &[SPACE, INDEXES, (512, 0, 2, 2)],
    ),
    (
        Asked::Update(512, 0, b"\x91\x02", NEW_KEY),
        &[SPACE, INDEXES, (512, 0, 2, 2)],
    ),
    (
        Asked::Update(512, 0, b"\x91\x09", SET),
        &[SPACE, INDEXES, (512, 0, 9, 9)],
    ),
    (Asked::Update(512, 9, b"\x91\x02", SET), &[SPACE, INDEXES]),
    (Asked::Update(512, 0, NO_KEY, SET), &[SPACE, INDEXES]),
    (
        Asked::Delete(512, 0, b"\x91\x03"),
        &[SPACE, INDEXES, (512, 0, 3, 3)],
    ),
    (Asked::Delete(512, 0, b"\x91\xa1x"), &[SPACE, INDEXES]),
    // A row that may not be deleted is known before its index is looked up.
    (
        Asked::Delete(280, 0, b"\x91\xcd\x01\x18"),
        &[(280, 0, 280, 280)],
    ),
    // Another one is found, and what it describes is read no further: this space has an index.
    (
        Asked::Delete(280, 0, b"\x91\xcd\x02\0"),
        &[(280, 0, 280, 280), (288, 0, 280, 280), (280, 0, 512, 512)],
    ),
    (
        Asked::Insert(280, b"\x91\xcd\x02\0"),
        &[(280, 0, 280, 280), (288, 0, 280, 280)],
    ),
    (
        Asked::Upsert(512, b"\x91\x02", NO_OPERATIONS),
        &[SPACE, INDEXES, (512, 0, 2, 2)],
    ),
    (
        Asked::Upsert(512, b"\x91\xa1x", NO_OPERATIONS),
        &[SPACE, INDEXES],
    ),
];

const OTHERS: &[Case] = &[(Asked::Ping, &[]), (Asked::Nop, &[]), (Asked::Id, &[])];

/// The node that takes no writes reads nothing for one.
const READ_ONLY: &[Case] = &[
    (Asked::Insert(512, b"\x91\x02"), &[]),
    (
        Asked::Pick(EQ, b"\x91\x02", 0, 10),
        &[SPACE, INDEXES, (512, 0, 2, 2)],
    ),
];

/// Whether a range begins and ends with these numbers.
fn is_from_to(alloc: Global, range: &KeyRange, first: i64, last: u64) -> Result<bool, AllocError> {
    let (low, high) = (i128::from(first), i128::from(last));
    let within = holds(alloc, range, Value::Int(low))? && holds(alloc, range, Value::Int(high))?;
    let below = first != FIRST && holds(alloc, range, Value::Int(low - 1))?;
    let above = last != LAST && holds(alloc, range, Value::Int(high + 1))?;
    Ok(within && !below && !above)
}

fn check_range(
    rt: &impl Abort,
    alloc: Global,
    asked: Asked<'_>,
    read: &ReadRange,
    expected: &Range,
) -> Result<(), AllocError> {
    let (space, index, first, last) = expected;
    assert_eq!(rt;
        (read.space.0, read.index.0),
        (*space, *index),
        "at {asked:?}"
    );
    assert!(rt;
        is_from_to(alloc, &read.range, *first, *last)?,
        "at {asked:?}, {expected:?}"
    );
    Ok(())
}

fn check_all(
    rt: &impl Abort,
    alloc: Global,
    slow: &Slow,
    cases: &[Case],
) -> Result<(), AllocError> {
    for (asked, expected) in cases {
        let reads = slow.reads(&request_of(alloc, *asked)?)?;
        assert_eq!(rt; reads.as_slice().len(), expected.len(), "at {asked:?}");
        for (read, range) in reads.as_slice().iter().zip(expected.iter()) {
            check_range(rt, alloc, *asked, read, range)?;
        }
    }
    Ok(())
}

fn with_tuples(alloc: Global) -> Result<Slow, StepFault> {
    let mut slow = slow_program(alloc, "{}", 1)?;
    for tuple in TUPLES {
        slow.ask(NAME, &request_of(alloc, Asked::Insert(512, tuple))?)?;
    }
    Ok(slow)
}

#[test]
fn a_select_reads_its_range(rt: HostRuntime) -> Result<(), Fail> {
    let alloc = rt.alloc();
    let slow = with_tuples(alloc)?;
    check_all(&rt, alloc, &slow, SELECTS)?;
    Ok(())
}

#[test]
fn a_write_reads_its_keys(rt: HostRuntime) -> Result<(), Fail> {
    let alloc = rt.alloc();
    let slow = with_tuples(alloc)?;
    check_all(&rt, alloc, &slow, WRITES)?;
    check_all(&rt, alloc, &slow, OTHERS)?;
    Ok(())
}

#[test]
fn a_read_only_node_reads_for_selects(rt: HostRuntime) -> Result<(), Fail> {
    let alloc = rt.alloc();
    let slow = slow_program(alloc, "{}", 2)?;
    check_all(&rt, alloc, &slow, READ_ONLY)?;
    Ok(())
}
