//! What a SELECT finds of what this run and earlier ones put.

use crate::harness::{
    Exchange, PUT, check_refusals, found, joined, new_directory, packet, reply, talk,
};
use mx_fake::MemoryDir;
use mx_samples::{ALL, EQ, GE, GT, LE, LT, REQ};
use std::alloc::{AllocError, Global};
use std::process::Abort;
use std::test::Fail;

/// The tuples that one run puts, in order: a key, which may be spelled longer than it need be, and the
/// letter that names it below. The tuple with the letter `x` gives way to the one of `b`.
const FIRST_PUT: &[&[u8]] = &[
    b"\x92\xcd\x01\x2c\xa1d",
    b"\x92\x01\xa1x",
    b"\x92\xcf\xff\xff\xff\xff\xff\xff\xff\xff\xa1e",
    b"\x92\xd1\0\x80\xa1c",
];

/// The tuples that the next one puts.
const THEN_PUT: &[&[u8]] = &[b"\x92\xcd\0\x01\xa1b", b"\x92\0\xa1a"];

/// An iterator, a key, an offset and a limit; and the tuples that are found.
type Found = (u8, &'static [u8], u8, u8, &'static [u8]);

/// What SELECTs find of the tuples of both runs.
const OVER_RUNS: &[Found] = &[
    (EQ, b"\x90", 0, 99, b"abcde"),
    (REQ, b"\x90", 1, 2, b"dc"),
    (EQ, b"\x91\xcc\x80", 0, 9, b"c"),
    (REQ, b"\x91\x01", 0, 9, b"b"),
    (ALL, b"\x91\x02", 0, 9, b"cde"),
    (LT, b"\x91\xcc\x80", 0, 9, b"ba"),
    (LE, b"\x91\xcc\x80", 0, 2, b"cb"),
    (LE, b"\x91\xcc\x81", 2, 9, b"a"),
    (GE, b"\x91\xcd\x01\x2c", 0, 9, b"de"),
    (GT, b"\x91\xcd\x01\x2c", 0, 9, b"e"),
    (GT, b"\x91\0", 1, 1, b"c"),
    (LE, b"\x91\0", 0, 0, b""),
    (LT, b"\x91\0", 0, 9, b""),
];

/// A REPLACE of each of the tuples.
fn replaces(alloc: Global, tuples: &[&[u8]]) -> Result<Vec<u8>, AllocError> {
    let mut packets = Vec::new(alloc);
    for tuple in tuples {
        packets.extend_from_slice(&packet(alloc, &[PUT, tuple])?)?;
    }
    Ok(packets)
}

/// The replies to these.
fn replaced(alloc: Global, tuples: &[&[u8]]) -> Result<Vec<u8>, AllocError> {
    let mut replies = Vec::new(alloc);
    for tuple in tuples {
        replies.extend_from_slice(&found(alloc, 1, tuple)?)?;
    }
    Ok(replies)
}

/// A SELECT of each of the rows; its place is its sync.
fn selects(alloc: Global) -> Result<Vec<u8>, AllocError> {
    let mut packets = Vec::new(alloc);
    for (sync, row) in OVER_RUNS.iter().enumerate() {
        let request = select(alloc, sync as u8, row)?;
        packets.extend_from_slice(&packet(alloc, &[&request])?)?;
    }
    Ok(packets)
}

/// The header and the body of a SELECT.
fn select(alloc: Global, sync: u8, row: &Found) -> Result<Vec<u8>, AllocError> {
    let (iterator, key, offset, limit, _) = *row;
    let prefix = [
        0x82, 0x00, 0x01, 0x01, sync, 0x85, 0x10, 0xcd, 0x02, 0x00, 0x12, limit, 0x13, offset,
        0x14, iterator, 0x20,
    ];
    let mut request = prefix.to_vec(alloc)?;
    request.extend_from_slice(key)?;
    Ok(request)
}

/// The replies to these.
fn selected(alloc: Global) -> Result<Vec<u8>, AllocError> {
    let mut replies = Vec::new(alloc);
    for (sync, (_, _, _, _, names)) in OVER_RUNS.iter().enumerate() {
        let body = body_of(alloc, names)?;
        replies.extend_from_slice(&reply(alloc, 0, sync as u8, &body)?)?;
    }
    Ok(replies)
}

/// The body of a reply of the tuples with these names.
fn body_of(alloc: Global, names: &[u8]) -> Result<Vec<u8>, AllocError> {
    let mut body = b"\x81\x30\xdd\x00\x00\x00".to_vec(alloc)?;
    body.extend_from_slice(&[u8::try_from(names.len()).unwrap_or(0)])?;
    for name in names {
        body.extend_from_slice(put_tuple(name))?;
    }
    Ok(body)
}

/// The tuple with this name, of those that the runs put.
fn put_tuple(name: &u8) -> &'static [u8] {
    for tuples in [FIRST_PUT, THEN_PUT] {
        for tuple in tuples {
            if tuple.last() == Some(name) {
                return tuple;
            }
        }
    }
    &[]
}

/// REPLACEs of these tuples and the SELECTs after them in a run, and the replies.
fn put_and_select(
    rt: &impl Abort,
    alloc: Global,
    dir: MemoryDir,
    tuples: &[&[u8]],
) -> Result<MemoryDir, AllocError> {
    let packets = joined(alloc, &[&replaces(alloc, tuples)?, &selects(alloc)?])?;
    let replies = joined(alloc, &[&replaced(alloc, tuples)?, &selected(alloc)?])?;
    talk(rt, alloc, dir, &packets, &replies)
}

#[test]
fn iterators_find_what_earlier_runs_put(rt: HostRuntime) -> Result<(), Fail> {
    let alloc = rt.alloc();
    let (packets, replies) = (replaces(alloc, FIRST_PUT)?, replaced(alloc, FIRST_PUT)?);
    let dir = talk(&rt, alloc, new_directory(alloc), &packets, &replies)?;
    // What this run puts is found by itself, and by the next one.
    let dir = put_and_select(&rt, alloc, dir, THEN_PUT)?;
    put_and_select(&rt, alloc, dir, &[])?;
    Ok(())
}

/// SELECTs that are refused.
const REFUSED_IN_RUNS: &[Exchange] = &[
    Exchange {
        asked: &[b"\x82\x00\x01\x01\x01\x83\x10\xcd\x02\x01\x11\x01\x20\x92\xff\x01"],
        sync: 1,
        kind: 0x8024,
        told: &[b"\x81\x31\xb8Space 513 does not exist"],
    },
    Exchange {
        asked: &[b"\x82\x00\x01\x01\x01\x83\x10\xcd\x02\x00\x11\x01\x20\x92\xff\x01"],
        sync: 1,
        kind: 0x8023,
        told: &[b"\x81\x31\xbaNo index 1 in space \"test\""],
    },
    Exchange {
        asked: &[b"\x82\x00\x01\x01\x01\x82\x10\xcd\x02\x00\x20\x92\xff\x01"],
        sync: 1,
        kind: 0x8013,
        told: &[b"\x81\x31\xbaKey of 2 parts, index of 1"],
    },
    Exchange {
        asked: &[b"\x82\x00\x01\x01\x01\x82\x10\xcd\x02\x00\x20\x91\xff"],
        sync: 1,
        kind: 0x8012,
        told: &[b"\x81\x31\xbdKey part 0: unsigned expected"],
    },
];

#[test]
fn refusals_are_told_in_runs(rt: HostRuntime) -> Result<(), Fail> {
    Ok(check_refusals(&rt, rt.alloc(), REFUSED_IN_RUNS)?)
}
