//! A request in place.

ghost use Rattle.std.specs.Prelude.{◌≡◌, IfOk};
ghost use Rattle.mx_request.specs.InPlace.{request_view, vclock_or_none};

use crate::request::Request;
use crate::values::vclock_in;
use mx_base::{IndexId, SpaceId};
use mx_msgpack::Bytes;
use mx_vclock::Vclock;
use std::alloc::{AllocError, Global};
use uuid::Uuid;

/// A request whose arrays and vclocks still stand in its packet, each as the bytes of that value. Its
/// variants and fields are those of `Request`.
#[derive(Clone, Copy, Drop)]
pub enum RequestRef<'a> {
    Select {
        space: SpaceId,
        index: IndexId,
        limit: u32,
        offset: u32,
        /// From 0 to 6: EQ, REQ, ALL, LT, LE, GE and GT.
        iterator: u8,
        key: &'a [u8],
    },
    Insert {
        space: SpaceId,
        tuple: &'a [u8],
    },
    Replace {
        space: SpaceId,
        tuple: &'a [u8],
    },
    Update {
        space: SpaceId,
        index: IndexId,
        base: u32,
        key: &'a [u8],
        ops: &'a [u8],
    },
    Delete {
        space: SpaceId,
        index: IndexId,
        key: &'a [u8],
    },
    Upsert {
        space: SpaceId,
        base: u32,
        tuple: &'a [u8],
        ops: &'a [u8],
    },
    Nop,
    Ping,
    Begin,
    Commit,
    Rollback,
    Id,
    Join {
        instance: Uuid,
    },
    Subscribe {
        instance: Uuid,
        set: Uuid,
        clock: &'a [u8],
    },
    Ack {
        clock: &'a [u8],
    },
}

/// The request with arrays and vclocks of its own.
///
/// # Errors
/// Out of memory.
pub fn to_owned(alloc: Global, request: RequestRef<'_>) -> Result<Request, AllocError>
    ensures { IfOk result (λ owned. owned ≡ request_view request.entry) }
{
    Ok(match request {
        RequestRef::Select {
            space,
            index,
            limit,
            offset,
            iterator,
            key,
        } => Request::Select {
            space,
            index,
            limit,
            offset,
            iterator,
            key: Bytes::from_slice(alloc, key)?,
        },
        RequestRef::Insert { space, tuple } => Request::Insert {
            space,
            tuple: Bytes::from_slice(alloc, tuple)?,
        },
        RequestRef::Replace { space, tuple } => Request::Replace {
            space,
            tuple: Bytes::from_slice(alloc, tuple)?,
        },
        RequestRef::Update {
            space,
            index,
            base,
            key,
            ops,
        } => Request::Update {
            space,
            index,
            base,
            key: Bytes::from_slice(alloc, key)?,
            ops: Bytes::from_slice(alloc, ops)?,
        },
        RequestRef::Delete { space, index, key } => Request::Delete {
            space,
            index,
            key: Bytes::from_slice(alloc, key)?,
        },
        RequestRef::Upsert {
            space,
            base,
            tuple,
            ops,
        } => Request::Upsert {
            space,
            base,
            tuple: Bytes::from_slice(alloc, tuple)?,
            ops: Bytes::from_slice(alloc, ops)?,
        },
        RequestRef::Nop => Request::Nop,
        RequestRef::Ping => Request::Ping,
        RequestRef::Begin => Request::Begin,
        RequestRef::Commit => Request::Commit,
        RequestRef::Rollback => Request::Rollback,
        RequestRef::Id => Request::Id,
        RequestRef::Join { instance } => Request::Join { instance },
        RequestRef::Subscribe {
            instance,
            set,
            clock,
        } => Request::Subscribe {
            instance,
            set,
            clock: vclock_or_none(clock),
        },
        RequestRef::Ack { clock } => Request::Ack {
            clock: vclock_or_none(clock),
        },
    })
}

fn vclock_or_none(value: &[u8]) -> Vclock
    ensures { result ≡ vclock_or_none value.now }
{
    match vclock_in(value) {
        Some(clock) => clock,
        None => Vclock::new(),
    }
}
