//! What a REPLACE puts over runs.

use crate::harness::{
    BLOCK, EXAMPLE_INPUT, EXAMPLE_OUTPUT, Exchange, FIRST, FOUND, NONE, ONE, PUT, TRACE,
    check_exchanges, check_refusals, directory_with, joined, new_directory, run_on,
};
use std::test::Fail;

#[test]
fn the_example_is_exact(rt: HostRuntime) -> Result<(), Fail> {
    let alloc = rt.alloc();
    let input = joined(alloc, EXAMPLE_INPUT)?;
    let ran = run_on(alloc, &TRACE, &input, NONE)?;
    assert_eq!(rt; ran.status.as_str(), "Ok");
    assert_eq!(rt; ran.output, joined(alloc, EXAMPLE_OUTPUT)?);
    Ok(())
}

/// A tuple with a value of every type: numbers, nil, a truth, bytes, texts, a float, an extension,
/// and an array and a map of wide heads.
const EVERY_TYPE: &[u8] =
    b"\x9c\x01\xc0\xc3\xff\xd0\xdf\xc4\x01\x00\xa0\xd9\x01a\xca\x3f\x80\x00\x00\
    \xd4\x07\x00\xdc\x00\x01\xc2\xde\x00\x01\x01\xc0";

/// SELECT of key [1] in space 512, with sync 2.
const SELECT_ONE: &[u8] = b"\x82\x00\x01\x01\x02\x84\x10\xcd\x02\x00\x12\x0a\x14\x00\x20\x91\x01";

/// The REPLACE of this tuple, in one run.
const PUT_EVERY_TYPE: &[Exchange] = &[Exchange {
    asked: &[PUT, EVERY_TYPE],
    sync: 1,
    kind: 0,
    told: &[FOUND, EVERY_TYPE],
}];

/// What the next run finds.
const FIND_EVERY_TYPE: &[Exchange] = &[Exchange {
    asked: &[SELECT_ONE],
    sync: 2,
    kind: 0,
    told: &[FOUND, EVERY_TYPE],
}];

#[test]
fn tuples_hold_values_of_every_type(rt: HostRuntime) -> Result<(), Fail> {
    let alloc = rt.alloc();
    let dir = check_exchanges(&rt, alloc, new_directory(alloc), PUT_EVERY_TYPE)?;
    check_exchanges(&rt, alloc, dir, FIND_EVERY_TYPE)?;
    Ok(())
}

/// REPLACEs that are refused.
const REFUSED_IN_RUNS: &[Exchange] = &[
    Exchange {
        asked: &[PUT, b"\x90"],
        sync: 1,
        kind: 0x8027,
        told: &[b"\x81\x31\xb2Field 0 is missing"],
    },
    Exchange {
        asked: &[PUT, b"\x91\xff"],
        sync: 1,
        kind: 0x8017,
        told: &[b"\x81\x31\xbaField 0: unsigned expected"],
    },
];

#[test]
fn refusals_leave_nothing(rt: HostRuntime) -> Result<(), Fail> {
    Ok(check_refusals(&rt, rt.alloc(), REFUSED_IN_RUNS)?)
}

/// The header of the first journal of a replica.
const REPLICA_HEADER: &[u8] = b"XLOG\n0.13\nInstance: 00010203-0405-4607-8809-0a0b0c0d0e0f\n\
    ReplicaSet: 10111213-1415-4617-9819-1a1b1c1d1e1f\nReplica: 2\nVClock: {}\n\n";

/// What a replica tells: a REPLACE is refused, and a SELECT finds what the journal has.
const ON_REPLICA: &[Exchange] = &[
    Exchange {
        asked: &[PUT, ONE],
        sync: 1,
        kind: 0x8007,
        told: &[b"\x81\x31\xd9\x29Node is read-only, the writable node is 1"],
    },
    Exchange {
        asked: &[SELECT_ONE],
        sync: 2,
        kind: 0,
        told: &[FOUND, ONE],
    },
];

#[test]
fn a_replica_takes_no_writes(rt: HostRuntime) -> Result<(), Fail> {
    let alloc = rt.alloc();
    let dir = directory_with(alloc, &[(FIRST, &[REPLICA_HEADER, BLOCK])])?;
    check_exchanges(&rt, alloc, dir, ON_REPLICA)?;
    Ok(())
}
