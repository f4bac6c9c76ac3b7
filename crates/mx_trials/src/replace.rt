//! What a REPLACE puts: into a state, into the slow program and the engine.

use mx_judge::Notes;
use mx_msgpack::Bytes;
use mx_schema::array_or_empty;
use mx_space::State;
use mx_steps::{
    Asked, Database, EQ, NO_KEY, Step, StepFault, Told, bootstrap, check_refusal, play, play_at,
    play_both, replace_in, tuple_of_maximum_size, tuple_with,
};
use mx_tuple::MAX_TUPLE_SIZE;
use std::alloc::{AllocError, Global};
use std::process::Abort;
use std::test::Fail;

/// The tuple [1, "a"].
const ONE: &[u8] = b"\x92\x01\xa1a";

/// The tuple [1, "b"], whose key takes two bytes.
const OTHER: &[u8] = b"\x92\xcc\x01\xa1b";

/// The tuple [1, "b"], whose key takes nine bytes.
const LONG_OTHER: &[u8] = b"\x92\xcf\0\0\0\0\0\0\0\x01\xa1b";

/// The key [1].
const KEY: &[u8] = b"\x91\x01";

/// A tuple gives way to the next one that has its key, however that is spelled.
const IN_PLACE: &[Step<'static>] = &[
    (Asked::Select(512, 0, KEY), Told::Tuples(b"")),
    (Asked::Replace(512, ONE), Told::Tuples(ONE)),
    (Asked::Select(512, 0, KEY), Told::Tuples(ONE)),
    (Asked::Replace(512, OTHER), Told::Tuples(OTHER)),
    (Asked::Pick(EQ, KEY, 0, 1), Told::Tuples(OTHER)),
    (Asked::Pick(EQ, KEY, 0, 0), Told::Tuples(b"")),
    (Asked::Replace(512, LONG_OTHER), Told::Tuples(LONG_OTHER)),
    (
        Asked::Select(512, 0, b"\x91\xcc\x01"),
        Told::Tuples(LONG_OTHER),
    ),
    (Asked::Select(512, 0, NO_KEY), Told::Tuples(LONG_OTHER)),
    (Asked::Select(512, 0, b"\x91\x02"), Told::Tuples(b"")),
];

#[test]
fn tuples_give_way(rt: HostRuntime) -> Result<(), Fail> {
    Ok(play_both(rt.alloc(), IN_PLACE)?)
}

// Refusals.
const NO_SPACE: Told<'static> = Told::Refused(36, b"Space 513 does not exist");

const TOO_LONG: Told<'static> = Told::Refused(203, b"Tuple of 1048577 bytes, 1048576 allowed");

const NO_FIELD: Told<'static> = Told::Refused(39, b"Field 0 is missing");

const WRONG_FIELD: Told<'static> = Told::Refused(23, b"Field 0: unsigned expected");

const USED_UP: Told<'static> = Told::Refused(208, b"Log sequence numbers are used up");

const READ_ONLY: Told<'static> = Told::Refused(7, b"Node is read-only, the writable node is 1");

/// REPLACEs that are refused, and leave nothing.
const REFUSED: &[Step<'static>] = &[
    (Asked::Replace(513, NO_KEY), NO_SPACE),
    (
        Asked::Replace(0, b"\x91\x07"),
        Told::Refused(36, b"Space 0 does not exist"),
    ),
    (Asked::Replace(512, NO_KEY), NO_FIELD),
    (Asked::Replace(512, b"\xdd\0\0\0\0"), NO_FIELD),
    (Asked::Replace(512, b"\x91\xff"), WRONG_FIELD),
    (Asked::Replace(512, b"\x92\xa11\x01"), WRONG_FIELD),
    (Asked::Replace(512, b"\x92\xc0\x01"), WRONG_FIELD),
    (
        Asked::Replace(512, b"\x91\xcb\x3f\xf0\0\0\0\0\0\0"),
        WRONG_FIELD,
    ),
    (Asked::Select(512, 0, NO_KEY), Told::Tuples(b"")),
];

#[test]
fn slow_program_and_engine_refuse(rt: HostRuntime) -> Result<(), Fail> {
    Ok(play_both(rt.alloc(), REFUSED)?)
}

/// What a node that may not be written tells, whatever the tuple.
const ON_READ_ONLY: &[Step<'static>] = &[
    (Asked::Replace(512, KEY), READ_ONLY),
    (Asked::Replace(512, NO_KEY), READ_ONLY),
    (Asked::Replace(512, b"\x91\xff"), READ_ONLY),
    (Asked::Pick(EQ, NO_KEY, 0, 9), Told::Tuples(b"")),
];

#[test]
fn read_only_nodes_refuse(rt: HostRuntime) -> Result<(), Fail> {
    Ok(play_at(rt.alloc(), "{}", 2, ON_READ_ONLY)?)
}

/// Compares why a state refuses a tuple.
fn check_fault(
    rt: &impl Abort,
    alloc: Global,
    state: &State,
    tuple: &[u8],
    told: Told<'_>,
) -> Result<(), StepFault> {
    let refused = replace_in(state, alloc)
        .replace(array_or_empty(tuple), &mut Notes::off())
        .err();
    let refusal = refused.expect(rt, "the tuple has a key");
    check_refusal(alloc, &refusal, told)
}

#[test]
fn state_tells_faults(rt: HostRuntime) -> Result<(), Fail> {
    let alloc = rt.alloc();
    let state = bootstrap(alloc)?;
    for (asked, told) in REFUSED {
        if let Asked::Replace(512, tuple) = *asked {
            check_fault(&rt, alloc, &state, tuple, *told)?;
        }
    }
    // What is no array has no field.
    for bytes in [b"".as_slice(), b"\x07", b"\xa11", b"\x81\x01\x02", b"\xc1"] {
        check_fault(&rt, alloc, &state, bytes, NO_FIELD)?;
    }
    Ok(())
}

/// A tuple that is too long by one byte, and has no key either.
fn too_long(alloc: Global) -> Result<Bytes, AllocError> {
    tuple_with(alloc, b"\x91\xc6\0\x0f\xff\xfb", 1_048_571)
}

/// Puts the longest tuple and longer ones, and compares.
fn put_long(alloc: Global, database: &mut Database) -> Result<(), StepFault> {
    let with_key = tuple_with(alloc, b"\x92\x01\xc6\0\x0f\xff\xfa", 1_048_570)?;
    let without_key = too_long(alloc)?;
    let longest = tuple_of_maximum_size(alloc, 1)?;
    let missing = Told::Refused(36, b"Space 511 does not exist");
    let steps = [
        (Asked::Replace(512, with_key.as_slice()), TOO_LONG),
        (Asked::Replace(512, without_key.as_slice()), TOO_LONG),
        (Asked::Replace(511, with_key.as_slice()), missing),
        (Asked::Replace(513, without_key.as_slice()), NO_SPACE),
        (Asked::Select(512, 0, NO_KEY), Told::Tuples(b"")),
        (
            Asked::Replace(512, longest.as_slice()),
            Told::Tuples(longest.as_slice()),
        ),
    ];
    play(alloc, database, &steps)
}

#[test]
fn slow_program_and_engine_bound_tuples(rt: HostRuntime) -> Result<(), Fail> {
    let alloc = rt.alloc();
    assert_eq!(rt; MAX_TUPLE_SIZE, 1_048_576);
    put_long(alloc, &mut Database::slow(alloc)?)?;
    put_long(alloc, &mut Database::engine(alloc)?)?;
    Ok(())
}

/// Asks the slow program and the engine, of a new database that has come to the vclock, to put a tuple
/// that is too long.
fn put_too_long(
    alloc: Global,
    clock: &str,
    me: u8,
    space: u32,
    told: Told<'_>,
) -> Result<(), StepFault> {
    let tuple = too_long(alloc)?;
    play_at(
        alloc,
        clock,
        me,
        &[(Asked::Replace(space, tuple.as_slice()), told)],
    )
}

#[test]
fn long_tuples_are_refused_in_order(rt: HostRuntime) -> Result<(), Fail> {
    put_too_long(rt.alloc(), "{}", 2, 513, READ_ONLY)?;
    put_too_long(rt.alloc(), "{}", 2, 512, READ_ONLY)?;
    put_too_long(rt.alloc(), "{1: 288230376151711744}", 1, 512, TOO_LONG)?;
    Ok(())
}

/// REPLACEs where the lsns are used up, and what comes before that.
const WITHOUT_LSN: &[Step<'static>] = &[
    (Asked::Replace(512, ONE), USED_UP),
    (Asked::Replace(513, ONE), NO_SPACE),
    (Asked::Replace(512, NO_KEY), NO_FIELD),
    (Asked::Replace(512, b"\x91\xff"), WRONG_FIELD),
    (Asked::Select(512, 0, KEY), Told::Tuples(b"")),
    (Asked::Replace(512, ONE), USED_UP),
];

/// REPLACEs where one lsn is left.
const WITH_LAST_LSN: &[Step<'static>] = &[
    (Asked::Replace(512, ONE), Told::Tuples(ONE)),
    (Asked::Replace(512, OTHER), USED_UP),
    (Asked::Pick(EQ, KEY, 0, 0), Told::Tuples(b"")),
    (Asked::Select(512, 0, KEY), Told::Tuples(ONE)),
];

#[test]
fn lsns_are_used_up(rt: HostRuntime) -> Result<(), Fail> {
    play_at(rt.alloc(), "{1: 288230376151711744}", 1, WITHOUT_LSN)?;
    play_at(rt.alloc(), "{1: 288230376151711743}", 1, WITH_LAST_LSN)?;
    play_at(rt.alloc(), "{1: 288230376151711744}", 2, ON_READ_ONLY)?;
    Ok(())
}
