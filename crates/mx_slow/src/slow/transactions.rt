//! The open transactions of the plain slow program.

ghost use Rattle.std.specs.Prelude.{◌≡◌, ◌<◌, ◌==◌, length, List, None, MatchOption, IfOk, IfSome};
ghost use Rattle.std.specs.List.{AllZip, filter};
ghost use Rattle.mx_model.specs.Overlaps.{Transaction};
ghost use Rattle.mx_slow.specs.Slow.{FindsNamed, KeepsTransaction};
ghost use Rattle.mx_model.specs.Streams.{is_name};
ghost use Rattle.mx_model.specs.statements.Statement.{statement_of};

use crate::read_ranges::ReadRanges;
use mx_base::{ConnId, TxnName};
use mx_msgpack::Bytes;
use mx_request::Request;
use std::alloc::{AllocError, Global};

/// An open transaction: its name, how many commits there were at its BEGIN, and its statements, the newest
/// first.
#[derive(Drop)]
pub(crate) struct SlowTransaction {
    pub name: TxnName,
    pub begun: usize,
    pub steps: Vec<SlowStep>,
}

/// A statement of a transaction: how many commits there were when it was made, and what it has read at its
/// place.
#[derive(Drop)]
pub(crate) struct SlowStep {
    pub request: Request,
    pub after: usize,
    pub reads: ReadRanges,
}

/// The place of the open transaction of this name.
pub(crate) fn place_of(all: &[SlowTransaction], name: TxnName) -> Option<usize>
    ensures within { IfSome result (λ place. place < length all.now) }
    ensures named { (plain : List Transaction) → AllZip KeepsTransaction all.now plain → FindsNamed name plain result }
{
    let mut place = 0;
    for one in all {
        if is_name(one.name, name) {
            return Some(place);
        }
        place += 1;
    }
    None
}

/// Whether two names are one.
pub(crate) fn is_name(one: TxnName, other: TxnName) -> bool
    ensures { result ≡ is_name one other }
{
    one.conn.0 == other.conn.0 && one.stream.0 == other.stream.0
}

/// How many of these are of a connection.
pub(crate) fn count_of(all: &[SlowTransaction], connection: ConnId) -> usize
    ensures { result ≡ length (filter (λ one. one.name.conn.0 == connection.0) all.now) }
{
    all.iter()
        .filter(|one| one.name.conn.0 == connection.0)
        .count()
}

/// A copy of a statement; `None` where the request is none.
pub(crate) fn copy_statement(
    alloc: Global,
    request: &Request,
) -> Result<Option<Request>, AllocError>
    ensures { IfOk result (λ found. MatchOption found (statement_of request.now ≡ None) (λ copy. copy ≡ request.now)) }
{
    Ok(match request {
        Request::Select {
            space,
            index,
            limit,
            offset,
            iterator,
            key,
        } => Some(Request::Select {
            space: *space,
            index: *index,
            limit: *limit,
            offset: *offset,
            iterator: *iterator,
            key: copy_of(alloc, key)?,
        }),
        Request::Insert { space, tuple } => Some(Request::Insert {
            space: *space,
            tuple: copy_of(alloc, tuple)?,
        }),
        Request::Replace { space, tuple } => Some(Request::Replace {
            space: *space,
            tuple: copy_of(alloc, tuple)?,
        }),
        Request::Update {
            space,
            index,
            base,
            key,
            ops,
        } => Some(Request::Update {
            space: *space,
            index: *index,
            base: *base,
            key: copy_of(alloc, key)?,
            ops: copy_of(alloc, ops)?,
        }),
        Request::Delete { space, index, key } => Some(Request::Delete {
            space: *space,
            index: *index,
            key: copy_of(alloc, key)?,
        }),
        Request::Upsert {
            space,
            base,
            tuple,
            ops,
        } => Some(Request::Upsert {
            space: *space,
            base: *base,
            tuple: copy_of(alloc, tuple)?,
            ops: copy_of(alloc, ops)?,
        }),
        Request::Nop
        | Request::Ping
        | Request::Id
        | Request::Begin
        | Request::Commit
        | Request::Rollback
        | Request::Join { .. }
        | Request::Subscribe { .. }
        | Request::Ack { .. } => None,
    })
}

fn copy_of(alloc: Global, bytes: &Bytes) -> Result<Bytes, AllocError>
    ensures { IfOk result (λ copy. copy ≡ bytes.now) }
{
    Bytes::from_slice(alloc, bytes.as_slice())
}
