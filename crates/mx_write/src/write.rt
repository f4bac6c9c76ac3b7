//! Writes: the requests that change the tuples of one space.

ghost use Rattle.std.specs.Prelude.{◌≡◌, IfSome};
ghost use Rattle.std.specs.Option.{option_map};
ghost use Rattle.mx_msgpack.specs.Spelling.{AreBytes};
ghost use Rattle.mx_request.specs.InPlace.{request_view};
ghost use Rattle.mx_row.specs.Views.{row_value};
ghost use Rattle.mx_write.specs.Made.{write_of};
ghost use Rattle.mx_request.specs.Spelling.{IsAskable};
ghost use Rattle.mx_write.specs.Views.{AreArrays, write_view};
ghost use Rattle.mx_write.specs.Writes.{TupleIsBytes, write_in};

use mx_base::{IndexId, SpaceId};
use mx_request::{Request, RequestRef};
use mx_row::RowRef;
use mx_schema::array_or_empty;

/// The numbers of the types of writes.
pub const INSERT: u8 = 2;

pub const REPLACE: u8 = 3;

pub const UPDATE: u8 = 4;

pub const DELETE: u8 = 5;

pub const UPSERT: u8 = 9;

/// What a write does in its space. Keys, tuples and operations are arrays of MessagePack, and `base` is
/// the number of a first field.
#[derive(Clone, Copy)]
pub enum Write<'a> {
    Insert {
        tuple: &'a [u8],
    },
    Replace {
        tuple: &'a [u8],
    },
    Update {
        index: IndexId,
        base: u32,
        key: &'a [u8],
        operations: &'a [u8],
    },
    Delete {
        index: IndexId,
        key: &'a [u8],
    },
    Upsert {
        base: u32,
        tuple: &'a [u8],
        operations: &'a [u8],
    },
}

/// The write that a request in place is, and its space; `None` where it is none.
pub fn write_in<'a>(request: &RequestRef<'a>) -> Option<(SpaceId, Write<'a>)>
    ensures value { option_map (λ x. (x.0.0, write_view x.1)) result ≡ write_in (request_view request.now) }
    ensures bytes { TupleIsBytes (write_in (request_view request.now)) }
{
    match *request {
        RequestRef::Insert { space, tuple } => {
            let tuple = known_bytes(tuple);
            Some((space, Write::Insert { tuple }))
        }
        RequestRef::Replace { space, tuple } => {
            let tuple = known_bytes(tuple);
            Some((space, Write::Replace { tuple }))
        }
        RequestRef::Update {
            space,
            index,
            base,
            key,
            ops,
        } => {
            let operations = ops;
            Some((
                space,
                Write::Update {
                    index,
                    base,
                    key,
                    operations,
                },
            ))
        }
        RequestRef::Delete { space, index, key } => Some((space, Write::Delete { index, key })),
        RequestRef::Upsert {
            space,
            base,
            tuple,
            ops,
        } => {
            let tuple = known_bytes(tuple);
            let operations = ops;
            Some((
                space,
                Write::Upsert {
                    base,
                    tuple,
                    operations,
                },
            ))
        }
        _ => None,
    }
}

/// The same bytes. A list of numbers, as a contract sees them, may have larger ones.
fn known_bytes(bytes: &[u8]) -> &[u8]
    ensures value { result.now ≡ bytes.now }
    ensures each { AreBytes bytes.now }
{
    bytes
}

/// The write that a row of a journal is.
pub fn write_of<'a>(row: &RowRef<'a>) -> Write<'a>
    ensures { write_view result ≡ write_of (row_value row.now) }
{
    match row.kind {
        INSERT => Write::Insert { tuple: row.tuple },
        REPLACE => Write::Replace { tuple: row.tuple },
        UPDATE => Write::Update {
            index: IndexId(0),
            base: row.index_base,
            key: row.key,
            operations: row.ops,
        },
        DELETE => Write::Delete {
            index: IndexId(0),
            key: row.key,
        },
        _ => Write::Upsert {
            base: row.index_base,
            tuple: row.tuple,
            operations: row.ops,
        },
    }
}

/// The write that a request is, and its space; `None` where it is none. A tuple or key that is no array
/// is taken as one without items.
pub fn write_of_request(request: &Request) -> Option<(SpaceId, Write<'_>)>
    ensures arrays { IfSome result (λ x. AreArrays x.1) }
    ensures bytes { TupleIsBytes (write_in request.now) }
    ensures value { IsAskable request.now → option_map (λ x. (x.0.0, write_view x.1)) result ≡ write_in request.now }
{
    match request {
        Request::Insert { space, tuple } => {
            let tuple = array_or_empty(known_bytes(tuple.as_slice()));
            Some((*space, Write::Insert { tuple }))
        }
        Request::Replace { space, tuple } => {
            let tuple = array_or_empty(known_bytes(tuple.as_slice()));
            Some((*space, Write::Replace { tuple }))
        }
        Request::Update {
            space,
            index,
            base,
            key,
            ops,
        } => {
            let write = Write::Update {
                index: *index,
                base: *base,
                key: array_or_empty(key.as_slice()),
                operations: ops.as_slice(),
            };
            Some((*space, write))
        }
        Request::Delete { space, index, key } => {
            let write = Write::Delete {
                index: *index,
                key: array_or_empty(key.as_slice()),
            };
            Some((*space, write))
        }
        Request::Upsert {
            space,
            base,
            tuple,
            ops,
        } => {
            let write = Write::Upsert {
                base: *base,
                tuple: array_or_empty(known_bytes(tuple.as_slice())),
                operations: ops.as_slice(),
            };
            Some((*space, write))
        }
        _ => None,
    }
}
