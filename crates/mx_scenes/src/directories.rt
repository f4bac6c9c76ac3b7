//! What runs leave in a directory, and find there.

use crate::harness::{
    BLOCK, END, Exchange, FIRST, FOUND, Failing, File, HEADER, NEXT_HEADER, NONE, ON_ONE, ONE, PUT,
    REPLACE, SECOND, TRACE, check_exchanges, check_file, directory_of, directory_with,
    new_directory, run_in, run_on, unit,
};
use mx_fake::MemoryDir;
use std::alloc::{AllocError, Global};
use std::process::Abort;
use std::test::Fail;

const PUT_ONE: &[Exchange] = &[Exchange {
    asked: &[PUT, ONE],
    sync: 1,
    kind: 0,
    told: &[FOUND, ONE],
}];

const FIND_ONE: &[Exchange] = &[Exchange {
    asked: &[b"\x82\x00\x01\x01\x02\x84\x10\xcd\x02\x00\x12\x0a\x14\x00\x20\x91\x01"],
    sync: 2,
    kind: 0,
    told: &[FOUND, ONE],
}];

/// Runs one after the other over one directory: what is asked, and a file that is there then.
const RUNS: &[(&[Exchange], File<'static>)] = &[
    (&[], (FIRST, &[HEADER, END])),
    (PUT_ONE, (FIRST, &[HEADER, BLOCK, END])),
    (FIND_ONE, (SECOND, &[NEXT_HEADER, END])),
];

#[test]
fn commits_are_found_by_the_next_run(rt: HostRuntime) -> Result<(), Fail> {
    let alloc = rt.alloc();
    let mut dir = new_directory(alloc);
    for (exchanges, (name, parts)) in RUNS {
        dir = check_exchanges(&rt, alloc, dir, exchanges)?;
        check_file(&rt, alloc, &mut dir, name, parts)?;
    }
    Ok(())
}

/// Compares the status of a run with a REPLACE, of whose calls on the directory this one fails, and
/// whether it wrote anything.
fn check_failing(
    rt: &impl Abort,
    alloc: Global,
    call: u64,
    status: &str,
    is_written: bool,
) -> Result<(), AllocError> {
    let dir = MemoryDir::new(alloc, vec![in alloc; call]?);
    let ran = run_in(alloc, dir, &TRACE, &unit(alloc, ON_ONE, &[REPLACE])?, NONE)?;
    assert_eq!(rt; ran.status.as_str(), status, "call {call}");
    assert_eq!(rt; !ran.output.is_empty(), is_written, "call {call}");
    Ok(())
}

#[test]
fn each_call_on_the_directory_may_fail(rt: HostRuntime) -> Result<(), Fail> {
    // Opening makes 8 calls, the commit 2 and the end 2; the output waits for the commit's.
    for call in 1..=12 {
        check_failing(&rt, rt.alloc(), call, "DiskFault", call > 10)?;
    }
    check_failing(&rt, rt.alloc(), 13, "Ok", true)?;
    Ok(())
}

const FIRST_WRITE: Failing = Failing {
    reads: &[],
    writes: &[1],
};

#[test]
fn a_commit_is_kept_though_its_reply_is_lost(rt: HostRuntime) -> Result<(), Fail> {
    let alloc = rt.alloc();
    let input = unit(alloc, ON_ONE, &[REPLACE])?;
    let ran = run_on(alloc, &TRACE, &input, FIRST_WRITE)?;
    assert_eq!(rt; ran.status.as_str(), "WriteFault");
    let mut dir = directory_of(ran)?;
    check_file(&rt, alloc, &mut dir, FIRST, &[HEADER, BLOCK])?;
    Ok(())
}

/// Blocks as the first one of replica 1: REPLACEs of [] and of [-1], which have no primary key.
const NO_KEY_BLOCK: &[u8; 33] = b"\xd5\xba\x0b\xab\xce\0\0\0\x0e\0\xce\x65\x8c\x91\xce\xa3\0\0\0\
    \x83\x00\x03\x02\x01\x03\x01\x82\x10\xcd\x02\x00\x21\x90";

const WRONG_KEY_BLOCK: &[u8; 34] = b"\xd5\xba\x0b\xab\xce\0\0\0\x0f\0\xce\xd1\x4f\xde\x54\xa3\0\0\0\
    \x83\x00\x03\x02\x01\x03\x01\x82\x10\xcd\x02\x00\x21\x91\xff";

/// The block of the first commit with the replica id 0, whose rows are local, and an INSERT's of replica 1.
const LOCAL_BLOCK: &[u8; 36] = b"\xd5\xba\x0b\xab\xce\0\0\0\x11\0\xce\x93\x00\x40\xfd\xa3\0\0\0\
    \x83\x00\x03\x02\x00\x03\x01\x82\x10\xcd\x02\x00\x21\x92\x01\xa1\x61";

const INSERT_BLOCK: &[u8; 36] = b"\xd5\xba\x0b\xab\xce\0\0\0\x11\0\xce\xc4\x5c\x85\x99\xa3\0\0\0\
    \x83\x00\x02\x02\x01\x03\x01\x82\x10\xcd\x02\x00\x21\x92\x01\xa1\x61";

/// Blocks of the second commit: an INSERT of [1, "a"], DELETEs of [1] and of [7], and an UPDATE of [1] that sets
/// its key to 2.
const INSERT_AGAIN_BLOCK: &[u8; 36] =
    b"\xd5\xba\x0b\xab\xce\x00\x00\x00\x11\x00\xce\x78\x22\xeb\x2b\xa3\x00\x00\x00\
    \x83\x00\x02\x02\x01\x03\x02\x82\x10\xcd\x02\x00\x21\x92\x01\xa1\x61";

const DELETE_BLOCK: &[u8; 34] =
    b"\xd5\xba\x0b\xab\xce\x00\x00\x00\x0f\x00\xce\x90\x5b\x01\x0f\xa3\x00\x00\x00\
    \x83\x00\x05\x02\x01\x03\x02\x82\x10\xcd\x02\x00\x20\x91\x01";

const DELETE_NONE_BLOCK: &[u8; 34] =
    b"\xd5\xba\x0b\xab\xce\x00\x00\x00\x0f\x00\xce\xb6\xfa\xe6\xe7\xa3\x00\x00\x00\
    \x83\x00\x05\x02\x01\x03\x02\x82\x10\xcd\x02\x00\x20\x91\x07";

const CHANGE_KEY_BLOCK: &[u8; 41] =
    b"\xd5\xba\x0b\xab\xce\x00\x00\x00\x16\x00\xce\x86\xda\x2a\x5e\xa3\x00\x00\x00\
    \x83\x00\x04\x02\x01\x03\x02\x83\x10\xcd\x02\x00\x20\x91\x01\x21\x91\x93\xa1\x3d\x00\x02";

/// The block of the first commit without its last byte.
const CUT_BLOCK: &[u8; 35] = b"\xd5\xba\x0b\xab\xce\0\0\0\x11\0\xce\xa3\xd2\x78\x98\xa3\0\0\0\
    \x83\x00\x03\x02\x01\x03\x01\x82\x10\xcd\x02\x00\x21\x92\x01\xa1";

/// The header of the second journal, of another node.
const OTHER_HEADER: &[u8; 122] = b"XLOG\n0.13\nInstance: 00010203-0405-4607-8809-0a0b0c0d0e0e\n\
    ReplicaSet: 10111213-1415-4617-9819-1a1b1c1d1e1f\nVClock: {1: 1}\n\n";

const SNAPSHOT: &str = "00000000000000000000.snap";

/// Files of a directory, and the status of a run without input on it.
const OPENED: &[(&[File<'static>], &str)] = &[
    (
        &[(FIRST, &[HEADER, NO_KEY_BLOCK])],
        "Damaged 00000000000000000000.xlog 118 row",
    ),
    (
        &[(FIRST, &[HEADER, WRONG_KEY_BLOCK])],
        "Damaged 00000000000000000000.xlog 118 row",
    ),
    (
        &[(FIRST, &[HEADER, LOCAL_BLOCK])],
        "Damaged 00000000000000000000.xlog 118 row",
    ),
    (&[(FIRST, &[HEADER, INSERT_BLOCK])], "Ok"),
    (&[(FIRST, &[HEADER, INSERT_BLOCK, DELETE_BLOCK])], "Ok"),
    (&[(FIRST, &[HEADER, BLOCK, DELETE_NONE_BLOCK])], "Ok"),
    (
        &[(FIRST, &[HEADER, BLOCK, INSERT_AGAIN_BLOCK])],
        "Damaged 00000000000000000000.xlog 154 row",
    ),
    (
        &[(FIRST, &[HEADER, BLOCK, CHANGE_KEY_BLOCK])],
        "Damaged 00000000000000000000.xlog 154 row",
    ),
    (
        &[(FIRST, &[HEADER, BLOCK, BLOCK])],
        "Damaged 00000000000000000000.xlog 154 row",
    ),
    (
        &[(FIRST, &[BLOCK])],
        "Damaged 00000000000000000000.xlog 0 head",
    ),
    (
        &[(FIRST, &[HEADER, BLOCK]), (SECOND, &[OTHER_HEADER])],
        "Damaged 00000000000000000001.xlog 0 head",
    ),
    (
        &[(FIRST, &[HEADER]), (SECOND, &[NEXT_HEADER])],
        "Damaged 00000000000000000001.xlog 0 gap {} {1: 1}",
    ),
    (
        &[(FIRST, &[NEXT_HEADER])],
        "Damaged 00000000000000000000.xlog 0 head",
    ),
    (
        &[(FIRST, &[HEADER]), (SNAPSHOT, &[BLOCK])],
        "Damaged 00000000000000000000.snap 0 head",
    ),
    (
        &[
            (FIRST, &[HEADER, BLOCK, CUT_BLOCK]),
            (SECOND, &[NEXT_HEADER]),
        ],
        "Ok",
    ),
];

/// Compares the status of a run without input on a directory of these files.
fn check_opened(
    rt: &impl Abort,
    alloc: Global,
    files: &[File<'_>],
    status: &str,
) -> Result<(), Fail> {
    let dir = directory_with(alloc, files)?;
    let ran = run_in(alloc, dir, &TRACE, &[], NONE)?;
    assert_eq!(rt; ran.status.as_str(), status);
    Ok(())
}

#[test]
fn damage_is_told_with_its_place(rt: HostRuntime) -> Result<(), Fail> {
    for (files, status) in OPENED {
        check_opened(&rt, rt.alloc(), files, status)?;
    }
    Ok(())
}

/// The block of a REPLACE of [1, bytes], up to those bytes, of which there are 1,048,569. Such a tuple
/// has 7 bytes more, which is as many as a tuple may have.
const MAX_TUPLE_BLOCK: &[u8] =
    b"\xd5\xba\x0b\xab\xce\x00\x10\x00\x0d\0\xce\x95\x25\xf3\x10\xa3\0\0\0\
    \x83\x00\x03\x02\x01\x03\x01\x82\x10\xcd\x02\x00\x21\x92\x01\xc6\x00\x0f\xff\xf9";

/// The same of one byte more.
const TOO_LONG: &[u8] = b"\xd5\xba\x0b\xab\xce\x00\x10\x00\x0e\0\xce\x94\x6b\xa0\xdc\xa3\0\0\0\
    \x83\x00\x03\x02\x01\x03\x01\x82\x10\xcd\x02\x00\x21\x92\x01\xc6\x00\x0f\xff\xfa";

/// Compares the status of a run on a journal of the prefix of a block, and so many letters a after it.
fn check_long(
    rt: &impl Abort,
    alloc: Global,
    prefix: &[u8],
    count: usize,
    status: &str,
) -> Result<(), Fail> {
    let letters = Vec::from_elem(alloc, b'a', count)?;
    check_opened(rt, alloc, &[(FIRST, &[HEADER, prefix, &letters])], status)
}

#[test]
fn a_tuple_of_a_journal_may_have_a_mebibyte(rt: HostRuntime) -> Result<(), Fail> {
    let damaged = "Damaged 00000000000000000000.xlog 118 row";
    check_long(&rt, rt.alloc(), MAX_TUPLE_BLOCK, 1_048_569, "Ok")?;
    check_long(&rt, rt.alloc(), TOO_LONG, 1_048_570, damaged)
}
