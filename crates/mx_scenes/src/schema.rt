//! What the spaces that describe spaces and indexes show to connectors.

use crate::harness::{joined, new_directory, packet, reply, talk};
use mx_samples::{ALL, FIRST_INDEXES, FIRST_SPACES};
use std::alloc::{AllocError, Global};
use std::test::Fail;

/// A SELECT of all rows of a space, with this sync.
fn select_all(alloc: Global, sync: u8, space: [u8; 2]) -> Result<Vec<u8>, AllocError> {
    let [high, low] = space;
    let request = [
        0x82, 0x00, 0x01, 0x01, sync, 0x85, 0x10, 0xcd, high, low, 0x11, 0x00, 0x12, 0xce, 0xff,
        0xff, 0xff, 0xff, 0x14, ALL, 0x20, 0x90,
    ];
    packet(alloc, &[&request])
}

/// The reply with these rows.
fn rows_told(alloc: Global, sync: u8, rows: &[&[u8]]) -> Result<Vec<u8>, AllocError> {
    let count = u8::try_from(rows.len()).unwrap_or(0);
    let body = joined(
        alloc,
        &[b"\x81\x30\xdd\0\0\0", &[count], &joined(alloc, rows)?],
    )?;
    reply(alloc, 0, sync, &body)
}

/// ID with the version 4 and the features 0 to 4, and then all rows of 281 and of 289.
#[test]
fn connectors_find_the_schema(rt: HostRuntime) -> Result<(), Fail> {
    let alloc = rt.alloc();
    let id = packet(
        alloc,
        &[b"\x82\x00\x49\x01\x01\x82\x54\x04\x55\x95\x00\x01\x02\x03\x04"],
    )?;
    let spaces = select_all(alloc, 2, [0x01, 0x19])?;
    let indexes = select_all(alloc, 3, [0x01, 0x21])?;
    let packets = joined(alloc, &[&id, &spaces, &indexes])?;
    let features = reply(alloc, 0, 1, b"\x82\x54\x01\x55\x92\x00\x01")?;
    let shown = rows_told(alloc, 2, FIRST_SPACES)?;
    let described = rows_told(alloc, 3, FIRST_INDEXES)?;
    let replies = joined(alloc, &[&features, &shown, &described])?;
    let dir = talk(&rt, alloc, new_directory(alloc), &packets, &replies)?;
    // The next run shows the same.
    talk(&rt, alloc, dir, &packets, &replies)?;
    Ok(())
}
