//! The keys of header and body maps (IPROTO, "Keys").

/// The type of a request, a reply or a row, in a header (`IPROTO_REQUEST_TYPE`).
pub const TYPE: u8 = 0x00;

/// The number by which the client knows the reply, in a header (`IPROTO_SYNC`).
pub const SYNC: u8 = 0x01;

/// The id of the replica that wrote a row, in a header (`IPROTO_REPLICA_ID`).
pub const REPLICA: u8 = 0x02;

/// The log sequence number of a row, in a header (`IPROTO_LSN`).
pub const LSN: u8 = 0x03;

/// The number of a row in its transaction, 0 for the first, in a header (`IPROTO_TSN`).
pub const ROW_NUMBER: u8 = 0x08;

/// 1 in the last row of a transaction, in a header (`IPROTO_FLAGS`).
pub const IS_LAST: u8 = 0x09;

/// The stream, in a header (`IPROTO_STREAM_ID`).
pub const STREAM: u8 = 0x0a;

/// The number of a space (`IPROTO_SPACE_ID`).
pub const SPACE: u8 = 0x10;

/// The number of an index (`IPROTO_INDEX_ID`).
pub const INDEX: u8 = 0x11;

/// How many tuples are wanted at most (`IPROTO_LIMIT`).
pub const LIMIT: u8 = 0x12;

/// How many tuples are skipped (`IPROTO_OFFSET`).
pub const OFFSET: u8 = 0x13;

/// The iterator of a SELECT (`IPROTO_ITERATOR`).
pub const ITERATOR: u8 = 0x14;

/// The number of a tuple's first field, 0 or 1 (`IPROTO_INDEX_BASE`).
pub const BASE: u8 = 0x15;

/// The parts of an index key (`IPROTO_KEY`).
pub const PARTS: u8 = 0x20;

/// A tuple; in an UPDATE its operations (`IPROTO_TUPLE`).
pub const TUPLE: u8 = 0x21;

/// The UUID of a replica (`IPROTO_INSTANCE_UUID`).
pub const INSTANCE: u8 = 0x24;

/// The UUID of a replica set (`IPROTO_REPLICASET_UUID`).
pub const REPLICA_SET: u8 = 0x25;

/// A vclock (`IPROTO_VCLOCK`).
pub const CLOCK: u8 = 0x26;

/// The operations of an UPSERT (`IPROTO_OPS`).
pub const OPERATIONS: u8 = 0x28;

/// The isolation level of a transaction (`IPROTO_TXN_ISOLATION`).
pub const ISOLATION: u8 = 0x59;
