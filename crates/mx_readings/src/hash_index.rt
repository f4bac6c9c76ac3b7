//! What a SELECT by a hash index is answered, by the slow program and by the engine.

use mx_schema::from_row_slices;
use mx_space::State;
use mx_steps::{
    ALL, Asked, Database, EQ, Engine, GE, GT, LE, LT, NO_KEY, REQ, Slow, Step, StepFault, Told,
    ids_of, play,
};
use mx_vclock::Vclock;
use std::alloc::{AllocError, Global};
use std::process::Abort;
use std::test::Fail;

/// The row of the space 513.
const SPACES: &[&[u8]] = &[b"\x97\xcd\x02\x01\x01\xa5pairs\xa5memtx\x00\x80\x90"];

/// The rows of its indexes: 0 is a hash index over a number and a text, 1 a tree index over the text.
const INDEXES: &[&[u8]] = &[
    b"\x96\xcd\x02\x01\x00\xa7primary\xa4hash\x81\xa6unique\xc3\x92\x92\x00\xa8unsigned\x92\x01\xa6string",
    b"\x96\xcd\x02\x01\x01\xa4text\xa4tree\x81\xa6unique\xc2\x91\x92\x01\xa6string",
];

// Tuples, and keys: [1, "a"], [1, "b"] and [2, "a"].
const FIRST: &[u8] = b"\x92\x01\xa1a";

const SECOND: &[u8] = b"\x92\x01\xa1b";

const THIRD: &[u8] = b"\x92\x02\xa1a";

/// All of them, in the order of their keys.
const EACH: &[u8] = b"\x92\x01\xa1a\x92\x01\xa1b\x92\x02\xa1a";

/// The keys [1] and ["a"], which have too few parts, and [1, "a", 0].
const NUMBER: &[u8] = b"\x91\x01";

const TEXT: &[u8] = b"\x91\xa1a";

const LONG: &[u8] = b"\x93\x01\xa1a\x00";

const ONE_PART: Told<'static> = Told::Refused(19, b"Key of 1 parts, index of 2");

const THREE_PARTS: Told<'static> = Told::Refused(19, b"Key of 3 parts, index of 2");

const NO_NUMBER: Told<'static> = Told::Refused(18, b"Key part 0: unsigned expected");

const NO_TEXT: Told<'static> = Told::Refused(18, b"Key part 1: string expected");

const NO_ITERATOR: Told<'static> = Told::Refused(5, b"Unsupported: iterator of a hash index");

/// An index, an iterator and a key, and what a SELECT by them is told.
type Case = (u32, u8, &'static [u8], Told<'static>);

const CASES: &[Case] = &[
    // A whole key, whether a tuple has it or not.
    (0, EQ, SECOND, Told::Tuples(SECOND)),
    (0, EQ, b"\x92\xcc\x02\xd9\x01a", Told::Tuples(THIRD)),
    (0, EQ, b"\x92\x02\xa1b", Told::Tuples(b"")),
    // No part: all.
    (0, EQ, NO_KEY, Told::Tuples(EACH)),
    (0, ALL, NO_KEY, Told::Tuples(EACH)),
    // Too few parts, also of a wrong type, and too many.
    (0, EQ, NUMBER, ONE_PART),
    (0, EQ, TEXT, ONE_PART),
    (0, EQ, LONG, THREE_PARTS),
    // A part of a wrong type.
    (0, EQ, b"\x92\xa1a\x01", NO_NUMBER),
    (0, EQ, b"\x92\x01\x01", NO_TEXT),
    // Other iterators, whatever else is wrong with the key.
    (0, ALL, FIRST, NO_ITERATOR),
    (0, ALL, NUMBER, NO_ITERATOR),
    (0, REQ, FIRST, NO_ITERATOR),
    (0, REQ, NO_KEY, NO_ITERATOR),
    (0, LT, FIRST, NO_ITERATOR),
    (0, LT, NO_KEY, NO_ITERATOR),
    (0, LE, TEXT, NO_ITERATOR),
    (0, LE, NO_KEY, NO_ITERATOR),
    (0, GE, LONG, NO_ITERATOR),
    (0, GE, NO_KEY, NO_ITERATOR),
    (0, GT, NUMBER, NO_ITERATOR),
    (0, GT, NO_KEY, NO_ITERATOR),
    // The tree index of the same space, and none.
    (1, GE, b"\x91\xa1b", Told::Tuples(SECOND)),
    (
        1,
        ALL,
        NO_KEY,
        Told::Tuples(b"\x92\x01\xa1a\x92\x02\xa1a\x92\x01\xa1b"),
    ),
    (
        2,
        GE,
        LONG,
        Told::Refused(35, b"No index 2 in space \"pairs\""),
    ),
];

/// The state of these rows, without tuples.
fn empty_state(rt: &impl Abort, alloc: Global) -> Result<State, AllocError> {
    let catalogue = from_row_slices(alloc, SPACES, INDEXES);
    State::new(alloc, catalogue.expect(rt, "no catalogue"))
}

/// Puts the tuples, asks all cases, and compares.
fn check_cases(alloc: Global, database: &mut Database) -> Result<(), StepFault> {
    for tuple in [THIRD, SECOND, FIRST] {
        let put: Step<'_> = (Asked::Insert(513, tuple), Told::Tuples(tuple));
        play(alloc, database, &[put])?;
    }
    for (index, iterator, key, told) in CASES {
        let asked = Asked::Scan(513, *index, *iterator, key);
        play(alloc, database, &[(asked, *told)])?;
    }
    Ok(())
}

#[test]
fn a_hash_index_finds_whole_keys_or_all(rt: HostRuntime) -> Result<(), Fail> {
    let alloc = rt.alloc();
    let state = empty_state(&rt, alloc)?;
    let slow = Slow::new(alloc, state, Vclock::new(), ids_of(1))?;
    check_cases(alloc, &mut Database::Slow(slow))?;
    let state = empty_state(&rt, alloc)?;
    let engine = Engine::from_state(alloc, state, Vclock::new(), ids_of(1))?;
    Ok(check_cases(alloc, &mut Database::Engine(engine))?)
}
