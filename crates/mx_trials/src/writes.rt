//! What writes make: of a state, and one after the other in the slow program and the engine.

use mx_base::{Refusal, SpaceId, code_of};
use mx_judge::{Effect, Made, Notes, Scope};
use mx_schema::array_or_empty;
use mx_space::{State, StateView};
use mx_steps::{Asked, NO_KEY, Step, StepFault, Told, play_at, play_both, state_of};
use mx_write::Writer;
use std::alloc::Global;
use std::process::Abort;
use std::test::Fail;

/// The space's number and a tuple, and what an INSERT and a REPLACE of it by a client are answered: 0
/// where they are no error, else the refusal's number.
type Case = (u32, &'static [u8], u16, u16);

/// In a new database with [1, "a"] in the space 512.
const CASES: &[Case] = &[
    // [1, "b"], the same key in another spelling, and [2].
    (512, b"\x92\x01\xa1b", 3, 0),
    (512, b"\x91\xcc\x01", 3, 0),
    (512, b"\x91\x02", 0, 0),
    // No field, a text, and a number below 0.
    (512, b"\x90", 39, 39),
    (512, b"\x91\xa1x", 23, 23),
    (512, b"\x91\xff", 23, 23),
    // No such space.
    (513, b"\x91\x01", 36, 36),
    // Spaces that nobody writes.
    (281, b"\x91\x01", 5, 5),
    (289, b"\x91\x01", 5, 5),
    (320, b"\x92\x02\xa1x", 5, 5),
    // [511], [512], [-1] and ["x"], as rows of a space.
    (280, b"\x91\xcd\x01\xff", 5, 5),
    (280, b"\x91\xcd\x02\0", 39, 5),
    (280, b"\x91\xff", 23, 5),
    (288, b"\x91\xa1x", 23, 5),
    // The setting of the leader, and another one.
    (272, b"\x92\xa6leader\x02", 5, 5),
    (272, b"\x92\xa1x\x02", 0, 0),
];

fn scope_in(state: &State, alloc: Global, writer: Writer, space: u32) -> Scope<'_> {
    Scope {
        view: StateView::of(state),
        alloc,
        writer,
        space: SpaceId(space),
    }
}

/// 0 where it is no error, else the refusal's number.
fn code_in(made: Result<Made, Refusal>) -> u16 {
    match made {
        Ok(_) => 0,
        Err(refusal) => code_of(&refusal),
    }
}

#[test]
fn writes_are_judged(rt: HostRuntime) -> Result<(), Fail> {
    let alloc = rt.alloc();
    judge_all(&rt, alloc)?;
    Ok(())
}

fn judge_all(rt: &impl Abort, alloc: Global) -> Result<(), StepFault> {
    let state = state_of(alloc, &[b"\x92\x01\xa1a"])?;
    for (space, tuple, inserted, replaced) in CASES {
        let scope = scope_in(&state, alloc, Writer::Client, *space);
        let array = array_or_empty(tuple);
        assert_eq!(rt;
            code_in(scope.insert(array, &mut Notes::off())),
            *inserted,
            "INSERT of {tuple:?} into {space}"
        );
        assert_eq!(rt;
            code_in(scope.replace(array, &mut Notes::off())),
            *replaced,
            "REPLACE of {tuple:?} in {space}"
        );
    }
    Ok(())
}

#[test]
fn a_journal_may_set_the_leader(rt: HostRuntime) -> Result<(), Fail> {
    let alloc = rt.alloc();
    let state = state_of(alloc, &[])?;
    let scope = scope_in(&state, alloc, Writer::Journal, 272);
    let leader = array_or_empty(b"\x92\xa6leader\x02");
    assert_eq!(&rt; code_in(scope.replace(leader, &mut Notes::off())), 0);
    Ok(())
}

/// A tuple in the space of the nodes of the replica set, and what an INSERT of it by a journal is answered.
const NODES: &[(&[u8], u16)] = &[
    (b"\x92\x02\xd9\x2401234567-89ab-4def-8123-456789abcdef", 0),
    (b"\x92\x1f\xd9\x2400000000-0000-0000-0000-000000000000", 0),
    // The node that may be written, an id that is too great, and a third field.
    (b"\x92\x01\xd9\x2401234567-89ab-4def-8123-456789abcdef", 5),
    (b"\x92\x20\xd9\x2401234567-89ab-4def-8123-456789abcdef", 5),
    (
        b"\x93\x02\xd9\x2401234567-89ab-4def-8123-456789abcdef\xc0",
        5,
    ),
    // Upper case, and no UUID.
    (b"\x92\x02\xd9\x2401234567-89AB-4DEF-8123-456789ABCDEF", 5),
    (b"\x92\x02\xa1x", 5),
    (b"\x91\x02", 5),
];

#[test]
fn a_journal_writes_rows_of_nodes(rt: HostRuntime) -> Result<(), Fail> {
    let alloc = rt.alloc();
    let state = state_of(alloc, &[])?;
    let scope = scope_in(&state, alloc, Writer::Journal, 320);
    for (tuple, inserted) in NODES {
        let array = array_or_empty(tuple);
        assert_eq!(&rt;
            code_in(scope.insert(array, &mut Notes::off())),
            *inserted,
            "{tuple:?}"
        );
    }
    Ok(())
}

#[test]
fn an_insert_has_its_key_and_its_tuple(rt: HostRuntime) -> Result<(), Fail> {
    let alloc = rt.alloc();
    let state = state_of(alloc, &[])?;
    let scope = scope_in(&state, alloc, Writer::Client, 512);
    let made = scope.insert(array_or_empty(b"\x91\xcc\x02"), &mut Notes::off());
    let made = made.expect(&rt, "no key");
    assert_eq!(&rt;
        made.key.as_slice(),
        b"\x03\0\x80\0\0\0\0\0\0\x02".as_slice()
    );
    match &made.effect {
        Effect::Put { tuple, is_shown } => {
            assert_eq!(&rt; tuple.as_slice(), b"\x91\xcc\x02".as_slice());
            assert_eq!(&rt; *is_shown, true);
        }
        Effect::Removed { .. } => panic!(&rt; "an INSERT removes nothing"),
    }
    Ok(())
}

/// The tuple [1, "a"] and the key [1].
const ONE: &[u8] = b"\x92\x01\xa1a";

const KEY: &[u8] = b"\x91\x01";

const DUPLICATE: Told<'static> = Told::Refused(
    3,
    b"Duplicate key in unique index \"primary\" of space \"test\"",
);

const KEY_CHANGED: Told<'static> = Told::Refused(94, b"Primary key of space \"test\" is changed");

const OVERFLOW: Told<'static> = Told::Refused(95, b"Update operation 0: integer overflow");

const SYSTEM_WRITE: Told<'static> = Told::Refused(5, b"Unsupported: write to a system space");

/// An INSERT puts a tuple where its key is free, and a DELETE takes it away.
const INSERTED: &[Step<'static>] = &[
    (Asked::Insert(512, ONE), Told::Tuples(ONE)),
    // [1, "b"], the key in a longer spelling.
    (Asked::Insert(512, b"\x92\xcc\x01\xa1b"), DUPLICATE),
    (Asked::Select(512, 0, KEY), Told::Tuples(ONE)),
    (Asked::Insert(512, b"\x91\x02"), Told::Tuples(b"\x91\x02")),
    (
        Asked::Select(512, 0, NO_KEY),
        Told::Tuples(b"\x92\x01\xa1a\x91\x02"),
    ),
    (Asked::Delete(512, 0, b"\x91\xcd\0\x01"), Told::Tuples(ONE)),
    (Asked::Delete(512, 0, KEY), Told::Tuples(b"")),
    (Asked::Select(512, 0, NO_KEY), Told::Tuples(b"\x91\x02")),
    (Asked::Insert(512, ONE), Told::Tuples(ONE)),
];

/// Updates of [1, "a"], one after the other, the operators = ! # + and :.
const UPDATED: &[Step<'static>] = &[
    // Nothing stands under the key.
    (
        Asked::Update(512, 0, KEY, b"\x91\x93\xa1=\x01\x02"),
        Told::Tuples(b""),
    ),
    (Asked::Replace(512, ONE), Told::Tuples(ONE)),
    // [["=", 1, "b"], ["!", 2, 7]].
    (
        Asked::Update(512, 0, KEY, b"\x92\x93\xa1=\x01\xa1b\x93\xa1!\x02\x07"),
        Told::Tuples(b"\x93\x01\xa1b\x07"),
    ),
    // [["+", 2, 250], [":", 1, 1, 0, "xy"]].
    (
        Asked::Update(
            512,
            0,
            KEY,
            b"\x92\x93\xa1+\x02\xcc\xfa\x95\xa1:\x01\x01\0\xa2xy",
        ),
        Told::Tuples(b"\x93\x01\xa3bxy\xcd\x01\x01"),
    ),
    // [["#", -1, 1]].
    (
        Asked::Update(512, 0, KEY, b"\x91\x93\xa1#\xff\x01"),
        Told::Tuples(b"\x92\x01\xa3bxy"),
    ),
    // [["=", 0, 3]] changes the key, and [["=", 0, 1]] leaves it.
    (
        Asked::Update(512, 0, KEY, b"\x91\x93\xa1=\0\x03"),
        KEY_CHANGED,
    ),
    (
        Asked::Update(512, 0, KEY, b"\x91\x93\xa1=\0\xcc\x01"),
        Told::Tuples(b"\x92\xcc\x01\xa3bxy"),
    ),
    // [["=", 0, "x"]], [["=", 9, 1]] and no key in the tuple that is left.
    (
        Asked::Update(512, 0, KEY, b"\x91\x93\xa1=\0\xa1x"),
        Told::Refused(23, b"Field 0: unsigned expected"),
    ),
    (
        Asked::Update(512, 0, KEY, b"\x91\x93\xa1=\x09\x01"),
        Told::Refused(29, b"Update operation 0: bad argument"),
    ),
    (
        Asked::Update(512, 0, KEY, b"\x91\x93\xa1#\0\x02"),
        Told::Refused(39, b"Field 0 is missing"),
    ),
    (
        Asked::Select(512, 0, NO_KEY),
        Told::Tuples(b"\x92\xcc\x01\xa3bxy"),
    ),
];

/// A number that can't grow: an UPDATE says so, and an UPSERT passes over the operation.
const UPSERTED: &[Step<'static>] = &[
    // [1, 2^64 - 1] is put in, whatever the operations.
    (
        Asked::Upsert(
            512,
            b"\x92\x01\xcf\xff\xff\xff\xff\xff\xff\xff\xff",
            b"\x91\x93\xa1+\x01\x01",
        ),
        Told::Tuples(b""),
    ),
    (
        Asked::Update(512, 0, KEY, b"\x91\x93\xa1+\x01\x01"),
        OVERFLOW,
    ),
    (
        Asked::Upsert(
            512,
            b"\x92\x01\0",
            b"\x92\x93\xa1+\x01\x01\x93\xa1=\x02\xa1x",
        ),
        Told::Tuples(b""),
    ),
    (
        Asked::Select(512, 0, NO_KEY),
        Told::Tuples(b"\x93\x01\xcf\xff\xff\xff\xff\xff\xff\xff\xff\xa1x"),
    ),
    // An operation that changes the key, and a tuple without one.
    (Asked::Upsert(512, ONE, b"\x91\x93\xa1=\0\x02"), KEY_CHANGED),
    (
        Asked::Upsert(512, NO_KEY, NO_KEY),
        Told::Refused(39, b"Field 0 is missing"),
    ),
];

/// What refuses a write, stage by stage: the space, what can't be written, the index, the key.
const REFUSED: &[Step<'static>] = &[
    (
        Asked::Delete(513, 9, NO_KEY),
        Told::Refused(36, b"Space 513 does not exist"),
    ),
    (Asked::Delete(281, 9, NO_KEY), SYSTEM_WRITE),
    (Asked::Update(320, 9, NO_KEY, NO_KEY), SYSTEM_WRITE),
    (
        Asked::Update(280, 9, NO_KEY, NO_KEY),
        Told::Refused(5, b"Unsupported: change of a schema row in place"),
    ),
    (Asked::Delete(280, 0, b"\x91\xcd\x01\x18"), SYSTEM_WRITE),
    (Asked::Delete(272, 0, b"\x91\xa6leader"), SYSTEM_WRITE),
    (Asked::Delete(272, 0, b"\x91\xa1x"), Told::Tuples(b"")),
    (
        Asked::Update(512, 9, b"\x92\xff\x01", NO_KEY),
        Told::Refused(35, b"No index 9 in space \"test\""),
    ),
    (
        Asked::Update(512, 0, b"\x92\xff\x01", NO_KEY),
        Told::Refused(19, b"Key of 2 parts, index of 1"),
    ),
    (
        Asked::Delete(512, 0, NO_KEY),
        Told::Refused(19, b"Key of 0 parts, index of 1"),
    ),
    (
        Asked::Delete(512, 0, b"\x91\xff"),
        Told::Refused(18, b"Key part 0: unsigned expected"),
    ),
    (Asked::Select(512, 0, NO_KEY), Told::Tuples(b"")),
];

#[test]
fn writes_are_made_in_order(rt: HostRuntime) -> Result<(), Fail> {
    let alloc = rt.alloc();
    play_both(alloc, INSERTED)?;
    play_both(alloc, UPDATED)?;
    play_both(alloc, UPSERTED)?;
    Ok(play_both(alloc, REFUSED)?)
}

const USED_UP: Told<'static> = Told::Refused(208, b"Log sequence numbers are used up");

/// Where one lsn is left: what writes nothing takes none.
const WITH_LAST_LSN: &[Step<'static>] = &[
    (Asked::Delete(512, 0, KEY), Told::Tuples(b"")),
    (Asked::Update(512, 0, KEY, NO_KEY), Told::Tuples(b"")),
    (Asked::Insert(512, ONE), Told::Tuples(ONE)),
    (Asked::Insert(512, ONE), DUPLICATE),
    (Asked::Delete(512, 0, KEY), USED_UP),
    (Asked::Update(512, 0, KEY, NO_KEY), USED_UP),
    (Asked::Upsert(512, ONE, NO_KEY), USED_UP),
    (Asked::Delete(512, 0, b"\x91\x02"), Told::Tuples(b"")),
    (Asked::Select(512, 0, NO_KEY), Told::Tuples(ONE)),
];

#[test]
fn a_write_takes_an_lsn(rt: HostRuntime) -> Result<(), Fail> {
    Ok(play_at(rt.alloc(), "{1: 288230376151711743}", 1, WITH_LAST_LSN)?)
}
