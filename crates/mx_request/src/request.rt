//! What a client asks.

use mx_base::{IndexId, Refusal, SpaceId, StreamId, SyncId};
use mx_msgpack::Bytes;
use mx_vclock::Vclock;
use uuid::Uuid;

/// What the header of a packet holds.
#[derive(Clone, Copy, Drop)]
pub struct Head3 {
    pub sync: SyncId,
    pub stream: StreamId,
    /// The request type.
    pub kind: u8,
}

/// A request. Keys, tuples and update operations are the bytes of one array each, as they were sent.
#[derive(Debug, Drop)]
pub enum Request {
    /// The tuples that an iterator picks from an index.
    Select {
        space: SpaceId,
        index: IndexId,
        limit: u32,
        offset: u32,
        /// From 0 to 6: EQ, REQ, ALL, LT, LE, GE and GT.
        iterator: u8,
        key: Bytes,
    },
    /// Puts in a tuple whose keys are free.
    Insert {
        space: SpaceId,
        tuple: Bytes,
    },
    /// Puts a tuple in the place of the one that has its primary key.
    Replace {
        space: SpaceId,
        tuple: Bytes,
    },
    /// Applies operations to the tuple of a key. `base` is the number of a tuple's first field, 0 or 1.
    Update {
        space: SpaceId,
        index: IndexId,
        base: u32,
        key: Bytes,
        ops: Bytes,
    },
    /// Takes the tuple of a key away.
    Delete {
        space: SpaceId,
        index: IndexId,
        key: Bytes,
    },
    /// Puts in a tuple, or applies operations to the one that has its primary key. `base` is the
    /// number of a tuple's first field, 0 or 1.
    Upsert {
        space: SpaceId,
        base: u32,
        tuple: Bytes,
        ops: Bytes,
    },
    /// Does nothing.
    Nop,
    /// Does nothing.
    Ping,
    /// Opens a transaction in the stream.
    Begin,
    /// Ends the stream's transaction, and keeps what it wrote.
    Commit,
    /// Ends the stream's transaction, and drops what it wrote.
    Rollback,
    /// Asks for the protocol's version and features.
    Id,
    /// Asks for the whole database, to become a replica.
    Join {
        instance: Uuid,
    },
    /// Asks for all commits after a vclock.
    Subscribe {
        instance: Uuid,
        set: Uuid,
        clock: Vclock,
    },
    /// Acknowledges all commits up to a vclock.
    Ack {
        clock: Vclock,
    },
}

/// What a packet asks, or the end of its connection.
#[derive(Drop)]
pub enum Ask {
    Request(Request),
    /// A packet that is refused before anything looks at the database.
    Refused(Refusal),
    /// The client disconnects.
    Leave,
}
