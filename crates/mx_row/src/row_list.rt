//! Rows in place, as `RowRefs` keeps them.

use crate::row_ref::RowRef;

/// One row, or a vector of rows.
#[derive(Drop)]
pub(crate) enum RowList<'a> {
    One(RowRef<'a>),
    Several(Vec<RowRef<'a>>),
}
