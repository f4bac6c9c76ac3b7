//! Numbers that name things.

/// The number of a space.
#[derive(Clone, Copy, Debug, Drop, PartialEq, Eq, PartialOrd, Ord)]
pub struct SpaceId(pub u32);

/// The number of an index in its space.
#[derive(Clone, Copy, Debug, Drop, PartialEq, Eq, PartialOrd, Ord)]
pub struct IndexId(pub u32);

/// The id of a node in its replica set, from 0 to 31.
#[derive(Clone, Copy, Debug, Drop, PartialEq, Eq, PartialOrd, Ord)]
pub struct ReplicaId(pub u8);

/// A log sequence number.
#[derive(Clone, Copy, Debug, Drop, PartialEq, Eq, PartialOrd, Ord)]
pub struct Lsn(pub u64);

/// The number of a connection.
#[derive(Clone, Copy, Drop, PartialEq, Eq, PartialOrd, Ord)]
pub struct ConnId(pub u32);

/// The number of a stream in its connection. Stream 0 has no transactions of several steps.
#[derive(Clone, Copy, Drop, PartialEq, Eq, PartialOrd, Ord)]
pub struct StreamId(pub u64);

/// The number by which a client knows the reply to a request.
#[derive(Clone, Copy, Drop, PartialEq, Eq, PartialOrd, Ord)]
pub struct SyncId(pub u64);

/// Whose transaction it is: a connection and a stream of it.
#[derive(Clone, Copy, Drop, PartialEq, Eq)]
pub struct TxnName {
    pub conn: ConnId,
    pub stream: StreamId,
}
