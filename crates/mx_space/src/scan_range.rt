//! Where a scan reads, as `Scan` keeps it.

use mx_msgpack::Bytes;
use std::collections::btree_map::Range;

/// Tuples under their primary keys, or the entries of an index with the places where the primary keys begin.
#[derive(Drop)]
pub(crate) enum ScanRange<'a> {
    Tuples(Range<'a, Bytes, Bytes>),
    Index(Range<'a, Bytes, u32>),
}
