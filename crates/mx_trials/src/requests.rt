//! Requests that are no statements, and those that aren't built yet.

use mx_steps::{Asked, NO_KEY, Step, Told, play_at, play_both};
use std::test::Fail;

/// Requests without key and tuple.
const BARE: &[Step<'static>] = &[
    (Asked::Nop, Told::Empty),
    (Asked::Ping, Told::Empty),
    (Asked::Id, Told::Id),
];

#[test]
fn bare_requests_are_answered(rt: HostRuntime) -> Result<(), Fail> {
    Ok(play_both(rt.alloc(), BARE)?)
}

const SEVEN: &[u8] = b"\x91\x07";

const NO_STREAM: Told<'static> = Told::Refused(1, b"Illegal value of key 0x0a");

/// Requests of transactions, outside of streams.
const OF_TRANSACTIONS: &[Step<'static>] = &[
    (Asked::Begin, NO_STREAM),
    (Asked::Commit, NO_STREAM),
    (Asked::Rollback, NO_STREAM),
    (Asked::Select(512, 0, NO_KEY), Told::Tuples(b"")),
];

#[test]
fn transactions_need_a_stream(rt: HostRuntime) -> Result<(), Fail> {
    Ok(play_both(rt.alloc(), OF_TRANSACTIONS)?)
}

/// Requests that aren't built yet, and that nothing was changed.
const NOT_BUILT: &[Step<'static>] = &[
    (Asked::Join, Told::Refused(48, b"Unknown request type 65")),
    (
        Asked::Subscribe,
        Told::Refused(48, b"Unknown request type 66"),
    ),
    (Asked::Ack, Told::Refused(48, b"Unknown request type 0")),
    (Asked::Select(512, 0, NO_KEY), Told::Tuples(b"")),
];

#[test]
fn requests_that_are_not_built_are_refused(rt: HostRuntime) -> Result<(), Fail> {
    Ok(play_both(rt.alloc(), NOT_BUILT)?)
}

const READ_ONLY: Told<'static> = Told::Refused(7, b"Node is read-only, the writable node is 1");

/// What a node that may not be written tells.
const ON_READ_ONLY: &[Step<'static>] = &[
    (Asked::Insert(512, SEVEN), READ_ONLY),
    (Asked::Update(512, 1, SEVEN, NO_KEY), READ_ONLY),
    (Asked::Delete(513, 0, NO_KEY), READ_ONLY),
    (Asked::Upsert(512, NO_KEY, NO_KEY), READ_ONLY),
    (Asked::Select(512, 0, NO_KEY), Told::Tuples(b"")),
    (Asked::Ping, Told::Empty),
];

#[test]
fn read_only_nodes_refuse_writes(rt: HostRuntime) -> Result<(), Fail> {
    play_at(rt.alloc(), "{}", 2, ON_READ_ONLY)?;
    Ok(play_at(rt.alloc(), "{}", 2, NOT_BUILT)?)
}
