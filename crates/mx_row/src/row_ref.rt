//! A row in place.

use mx_base::SpaceId;

/// A row whose tuple, key and operations still stand in its block. Its fields are those of `Row`.
#[derive(Clone, Copy)]
pub struct RowRef<'a> {
    pub kind: u8,
    pub space: SpaceId,
    pub index_base: u32,
    pub tuple: &'a [u8],
    pub key: &'a [u8],
    pub ops: &'a [u8],
}
