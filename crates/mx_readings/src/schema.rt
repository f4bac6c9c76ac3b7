//! What the spaces that describe spaces and indexes show.

use mx_steps::{
    ALL, Asked, EQ, FIRST_INDEXES, FIRST_SPACES, GE, LE, LT, NO_KEY, REQ, Step, StepFault, Told,
    play_both,
};
use std::alloc::Global;
use std::test::Fail;

/// The setting that names the node which may be written.
const LEADER: &[u8] = b"\x92\xa6leader\x01";

/// A space, an index, an iterator and a key; and the places of the rows that are found.
type Scan = (u32, u32, u8, &'static [u8], &'static [usize]);

/// The key ["test"].
const TEST: &[u8] = b"\x91\xa4test";

/// The key [512].
const USERS: &[u8] = b"\x91\xcd\x02\x00";

const OF_SPACES: &[Scan] = &[
    (280, 0, ALL, NO_KEY, &[0, 1, 2, 3, 4, 5, 6]),
    (281, 0, ALL, NO_KEY, &[0, 1, 2, 3, 4, 5, 6]),
    (281, 0, REQ, NO_KEY, &[6, 5, 4, 3, 2, 1, 0]),
    (280, 0, EQ, USERS, &[6]),
    (281, 0, EQ, USERS, &[6]),
    (281, 0, EQ, b"\x91\xcd\x02\x01", &[]),
    (280, 0, LT, b"\x91\xcd\x01\x19", &[1, 0]),
    // By name.
    (280, 2, EQ, TEST, &[6]),
    (281, 2, EQ, TEST, &[6]),
    (281, 2, EQ, b"\x91\xa4Test", &[]),
    (280, 2, ALL, NO_KEY, &[5, 3, 0, 1, 4, 2, 6]),
    (281, 2, GE, b"\x91\xa6_space", &[1, 4, 2, 6]),
    (281, 2, LE, b"\x91\xa6_index", &[3, 5]),
];

const OF_INDEXES: &[Scan] = &[
    (288, 0, ALL, NO_KEY, &[0, 1, 2, 3, 4, 5, 6, 7, 8, 9, 10, 11]),
    (289, 0, ALL, NO_KEY, &[0, 1, 2, 3, 4, 5, 6, 7, 8, 9, 10, 11]),
    (288, 0, GE, USERS, &[11]),
    (288, 0, LE, USERS, &[11, 10, 9, 8, 7, 6, 5, 4, 3, 2, 1, 0]),
    (289, 0, EQ, b"\x91\xcd\x01\x20", &[5, 6]),
    (289, 0, EQ, b"\x92\xcd\x01\x20\x02", &[6]),
    (289, 0, EQ, b"\x92\xcd\x01\x20\x01", &[]),
    // By space and name.
    (288, 2, EQ, b"\x91\xcd\x01\x18", &[2, 1]),
    (289, 2, EQ, b"\x92\xcd\x01\x18\xa4name", &[2]),
    (289, 2, GE, b"\x92\xcd\x01\x40\xa8primary!", &[10, 11]),
];

/// What a scan finds of these rows, of the slow program and of the engine.
fn check_scans(alloc: Global, rows: &[&[u8]], scans: &[Scan]) -> Result<(), StepFault> {
    for (space, index, iterator, key, places) in scans {
        let mut tuples = Vec::new(alloc);
        for place in places.iter() {
            tuples.extend_from_slice(rows.get(*place).unwrap_or(&NO_KEY))?;
        }
        let asked = Asked::Scan(*space, *index, *iterator, key);
        play_both(alloc, &[(asked, Told::Tuples(&tuples))])?;
    }
    Ok(())
}

#[test]
fn schema_rows_are_selected(rt: HostRuntime) -> Result<(), Fail> {
    let alloc = rt.alloc();
    check_scans(alloc, FIRST_SPACES, OF_SPACES)?;
    check_scans(alloc, FIRST_INDEXES, OF_INDEXES)?;
    check_scans(alloc, &[LEADER], &[(272, 0, EQ, b"\x91\xa6leader", &[0])])?;
    Ok(check_scans(
        alloc,
        &[],
        &[(320, 0, ALL, NO_KEY, &[]), (320, 1, GE, b"\x91\xa1a", &[])],
    )?)
}

/// SELECTs of system spaces that are refused.
const REFUSED: &[Step<'static>] = &[
    (
        Asked::Select(280, 1, NO_KEY),
        Told::Refused(35, b"No index 1 in space \"_space\""),
    ),
    (
        Asked::Select(281, 3, b"\x91\xff"),
        Told::Refused(35, b"No index 3 in space \"_vspace\""),
    ),
    (
        Asked::Select(320, 2, NO_KEY),
        Told::Refused(35, b"No index 2 in space \"_cluster\""),
    ),
    (
        Asked::Select(280, 2, b"\x91\x01"),
        Told::Refused(18, b"Key part 0: string expected"),
    ),
    (
        Asked::Select(288, 2, b"\x92\xcd\x01\x18\x00"),
        Told::Refused(18, b"Key part 1: string expected"),
    ),
    (
        Asked::Select(289, 0, b"\x93\x00\x00\x00"),
        Told::Refused(19, b"Key of 3 parts, index of 2"),
    ),
    (
        Asked::Select(273, 0, NO_KEY),
        Told::Refused(36, b"Space 273 does not exist"),
    ),
];

#[test]
fn selects_of_system_spaces_are_refused(rt: HostRuntime) -> Result<(), Fail> {
    Ok(play_both(rt.alloc(), REFUSED)?)
}
