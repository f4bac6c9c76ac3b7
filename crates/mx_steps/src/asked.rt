//! Requests in short.

use mx_base::{ConnId, IndexId, SpaceId, StreamId, TxnName};
use mx_msgpack::Bytes;
use mx_request::Request;
use mx_samples::EQ;
use mx_vclock::Vclock;
use std::alloc::{AllocError, Global};

/// The name of what a request belongs to: the connection 1, outside of streams.
pub const NAME: TxnName = TxnName {
    conn: ConnId(1),
    stream: StreamId(0),
};

/// The space that a new database has for its users.
const TEST_SPACE: u32 = 512;

/// The key without parts, which is also the tuple without fields.
pub const NO_KEY: &[u8] = b"\x90";

/// A request in short.
#[derive(Clone, Copy, Debug, Drop)]
pub enum Asked<'a> {
    /// An iterator, a key, an offset and a limit.
    Pick(u8, &'a [u8], u32, u32),
    /// The space, the index and the key.
    Select(u32, u32, &'a [u8]),
    /// The space, the index, the iterator and the key.
    Scan(u32, u32, u8, &'a [u8]),
    /// The space and the tuple.
    Replace(u32, &'a [u8]),
    /// The space and the tuple.
    Insert(u32, &'a [u8]),
    /// The space, the index, the key and the operations.
    Update(u32, u32, &'a [u8], &'a [u8]),
    /// The space, the index and the key.
    Delete(u32, u32, &'a [u8]),
    /// The space, the tuple and the operations.
    Upsert(u32, &'a [u8], &'a [u8]),
    // Requests without key and tuple.
    Nop,
    Ping,
    Begin,
    Commit,
    Rollback,
    Id,
    Join,
    Subscribe,
    Ack,
}

impl<'a> Asked<'a> {
    /// The key or the tuple, if there is one.
    fn content(self) -> &'a [u8] {
        match self {
            Asked::Pick(_, key, _, _) | Asked::Select(_, _, key) => key,
            Asked::Scan(_, _, _, key) => key,
            Asked::Update(_, _, key, _) | Asked::Delete(_, _, key) => key,
            Asked::Replace(_, tuple) | Asked::Insert(_, tuple) | Asked::Upsert(_, tuple, _) => {
                tuple
            }
            _ => &[],
        }
    }

    /// The operations, if there are any.
    fn operations(self) -> &'a [u8] {
        match self {
            Asked::Update(_, _, _, operations) | Asked::Upsert(_, _, operations) => operations,
            _ => &[],
        }
    }

    /// The request, for messages: a long tuple is left out.
    pub(crate) fn in_short(self) -> Asked<'a> {
        match self {
            Asked::Replace(space, tuple) if tuple.len() > 100 => Asked::Replace(space, b"long"),
            _ => self,
        }
    }
}

/// A request whose key or tuple these bytes are.
fn request_with(content: Bytes, operations: Bytes, asked: Asked<'_>) -> Request {
    match asked {
        Asked::Pick(iterator, _, offset, limit) => Request::Select {
            space: SpaceId(TEST_SPACE),
            index: IndexId(0),
            limit,
            offset,
            iterator,
            key: content,
        },
        Asked::Select(space, index, _) => Request::Select {
            space: SpaceId(space),
            index: IndexId(index),
            limit: 10,
            offset: 0,
            iterator: EQ,
            key: content,
        },
        Asked::Scan(space, index, iterator, _) => Request::Select {
            space: SpaceId(space),
            index: IndexId(index),
            limit: u32::MAX,
            offset: 0,
            iterator,
            key: content,
        },
        Asked::Replace(space, _) => Request::Replace {
            space: SpaceId(space),
            tuple: content,
        },
        Asked::Insert(space, _) => Request::Insert {
            space: SpaceId(space),
            tuple: content,
        },
        Asked::Update(space, index, _, _) => Request::Update {
            space: SpaceId(space),
            index: IndexId(index),
            base: 0,
            key: content,
            ops: operations,
        },
        Asked::Delete(space, index, _) => Request::Delete {
            space: SpaceId(space),
            index: IndexId(index),
            key: content,
        },
        Asked::Upsert(space, _, _) => Request::Upsert {
            space: SpaceId(space),
            base: 0,
            tuple: content,
            ops: operations,
        },
        _ => bare_request(asked),
    }
}

/// A request without key and tuple.
fn bare_request(asked: Asked<'_>) -> Request {
    match asked {
        Asked::Ping => Request::Ping,
        Asked::Begin => Request::Begin,
        Asked::Commit => Request::Commit,
        Asked::Rollback => Request::Rollback,
        Asked::Id => Request::Id,
        Asked::Join => Request::Join {
            instance: Default::default(),
        },
        Asked::Subscribe => Request::Subscribe {
            instance: Default::default(),
            set: Default::default(),
            clock: Vclock::new(),
        },
        Asked::Ack => Request::Ack {
            clock: Vclock::new(),
        },
        _ => Request::Nop,
    }
}

/// The request that is asked in short.
pub fn request_of(alloc: Global, asked: Asked<'_>) -> Result<Request, AllocError> {
    let content = Bytes::from_slice(alloc, asked.content())?;
    let operations = Bytes::from_slice(alloc, asked.operations())?;
    Ok(request_with(content, operations, asked))
}
