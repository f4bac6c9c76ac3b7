//! Rows of a journal.

ghost use Rattle.std.specs.Prelude.{◌≡◌, IfOk};
ghost use Rattle.mx_row.specs.Views.{row_value};

use crate::row_ref::RowRef;
use mx_base::SpaceId;
use mx_msgpack::Bytes;
use std::alloc::{AllocError, Global};

/// What a write left in the journal. Parts that its type hasn't got are empty, and an absent base is 0.
#[derive(Drop)]
pub struct Row {
    /// The type of the request, one of `row_types`.
    pub kind: u8,
    pub space: SpaceId,
    /// The number of a tuple's first field, 0 or 1.
    pub index_base: u32,
    pub tuple: Bytes,
    /// The fields of the primary key, as an array.
    pub key: Bytes,
    pub ops: Bytes,
}

impl Row {
    /// The row with parts of its own.
    pub fn from_ref(alloc: Global, row: &RowRef<'_>) -> Result<Row, AllocError>
        ensures { IfOk result (λ owned. owned ≡ row_value row.now) }
    {
        Ok(Row {
            kind: row.kind,
            space: row.space,
            index_base: row.index_base,
            tuple: Bytes::from_slice(alloc, row.tuple)?,
            key: Bytes::from_slice(alloc, row.key)?,
            ops: Bytes::from_slice(alloc, row.ops)?,
        })
    }
}
